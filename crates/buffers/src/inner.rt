// For the crates above, which have measured the room: hence each `requires`.
ghost use Rattle.std.specs.Prelude.{◌≡◌, ◌+◌, ◌-◌, ◌*◌, ◌≤◌, length, take, replicate};
ghost use Rattle.octets.specs.Parts.{part, put_at, filled};
ghost use Rattle.octets.specs.Numbers.{bytes_of, words};

// Puts the N low bytes of `value` at `at`, the most significant first.
fn put_number<const N: usize>(buffer: &mut [u8], at: usize, value: usize)
    requires { (N ≤ 8) × (at + N ≤ length buffer.old) }
    ensures { buffer.new ≡ put_at at (bytes_of N value) buffer.old }
{
    let bytes = value.to_be_bytes();
    buffer[at..at + N].copy_from_slice(&bytes[8 - N..]);
}

// Puts the two low bytes of `value` at `at`.
pub fn put16(buffer: &mut [u8], at: usize, value: usize)
    requires { at + 2 ≤ length buffer.old }
    ensures { buffer.new ≡ put_at at (bytes_of 2 value) buffer.old }
{
    put_number::<2>(buffer, at, value);
}

// Puts the four low bytes of `value` at `at`.
pub fn put32(buffer: &mut [u8], at: usize, value: usize)
    requires { at + 4 ≤ length buffer.old }
    ensures { buffer.new ≡ put_at at (bytes_of 4 value) buffer.old }
{
    put_number::<4>(buffer, at, value);
}

// Puts the eight bytes of `value` at `at`.
pub fn put64(buffer: &mut [u8], at: usize, value: usize)
    requires { at + 8 ≤ length buffer.old }
    ensures { buffer.new ≡ put_at at (bytes_of 8 value) buffer.old }
{
    put_number::<8>(buffer, at, value);
}

// Puts each of the values at `at` and after it, as two bytes.
pub fn put_words(buffer: &mut [u8], at: usize, values: &[u16])
    requires { at + 2 * length values.now ≤ length buffer.old }
    ensures { buffer.new ≡ put_at at (words values.now) buffer.old }
{
    for (j, value) in values.iter().enumerate() {
        put16(buffer, at + 2 * j, usize::from(*value));
    }
}

// Puts `value` into each place from `from` to before `to`.
pub fn fill(buffer: &mut [u8], from: usize, to: usize, value: u8)
    requires { (from ≤ to) × (to ≤ length buffer.old) }
    ensures { buffer.new ≡ put_at from (replicate (to - from) value) buffer.old }
{
    buffer[from..to].fill(value);
}

// Zeros behind the first n bytes.
pub fn clear_behind(buffer: &mut [u8], n: usize)
    requires { n ≤ length buffer.old }
    ensures { buffer.new ≡ filled (length buffer.old) (take n buffer.old) }
{
    let end = buffer.len();
    fill(buffer, n, end, 0);
}

// Copies the n bytes of `source` from `from` on to `at`.
pub fn copy(buffer: &mut [u8], at: usize, source: &[u8], from: usize, n: usize)
    requires { (at + n ≤ length buffer.old) × (from + n ≤ length source.now) }
    ensures { buffer.new ≡ put_at at (part from n source.now) buffer.old }
{
    buffer[at..at + n].copy_from_slice(&source[from..from + n]);
}

// Moves the 16,384 bytes from `from` on to `to`, however the two overlap. The compiler makes one call of memmove of the
// two copies, and no array.
fn move_block(buffer: &mut [u8], from: usize, to: usize)
    requires { (from + 16384 ≤ length buffer.old) × (to + 16384 ≤ length buffer.old) }
    ensures { buffer.new ≡ put_at to (part from 16384 buffer.old) buffer.old }
{
    let mut block = [0; 16384];
    copy(&mut block, 0, buffer, from, 16384);
    copy(buffer, to, &block, 0, 16384);
}

// Moves the n bytes from `from` on to `to`, which is no lower: the last block first, since the two may overlap. One call
// of copy_within for them all was tried: it takes twice as long on 16 KB, and up to a tenth longer on 100 MB.
pub fn move_up(buffer: &mut [u8], from: usize, to: usize, n: usize)
    requires { (from ≤ to) × (to + n ≤ length buffer.old) }
    ensures { buffer.new ≡ put_at to (part from n buffer.old) buffer.old }
{
    let whole = n / 16384 * 16384;
    buffer.copy_within(from + whole..from + n, to + whole);
    for blocks in 0..n / 16384 {
        let j = whole - (blocks + 1) * 16384;
        move_block(buffer, from + j, to + j);
    }
}

// Moves the n bytes from `from` on to `to`, which is no higher: the first block first. One call for them all is slower,
// as in `move_up`.
pub fn move_down(buffer: &mut [u8], from: usize, to: usize, n: usize)
    requires { (to ≤ from) × (from + n ≤ length buffer.old) }
    ensures { buffer.new ≡ put_at to (part from n buffer.old) buffer.old }
{
    for blocks in 0..n / 16384 {
        let j = blocks * 16384;
        move_block(buffer, from + j, to + j);
    }
    let moved = n / 16384 * 16384;
    buffer.copy_within(from + moved..from + n, to + moved);
}
