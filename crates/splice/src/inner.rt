// For the edits of a file, which have measured the room: hence each `requires`.
ghost use Rattle.std.specs.Prelude.{◌≡◌, ◌+◌, ◌-◌, ◌≤◌, [], ◌++◌, length, replicate};
ghost use Rattle.octets.specs.Parts.{part, put_at, spliced};

use buffers::inner::{copy, fill, move_down, move_up};

// Moves what stands after the n bytes at `at`, up to `end`, so that `size` bytes fit there, and zeroes what is freed.
// A tail that stays where it is is not moved at all: each of its bytes would be written onto itself.
fn resize(buffer: &mut [u8], at: usize, n: usize, end: usize, size: usize)
    requires { (at + n ≤ end) × (end ≤ length buffer.old) × (end + size ≤ length buffer.old + n) }
    ensures { buffer.new ≡ put_at (at + size) (part (at + n) (end - (at + n)) buffer.old ++ replicate (n - size) 0) buffer.old }
{
    if n == size {
        return;
    }
    let from = at + n;
    let to = at + size;
    let count = end - from;
    if n < size {
        move_up(buffer, from, to, count);
        return;
    }
    move_down(buffer, from, to, count);
    let freed = to + count;
    fill(buffer, freed, end, 0);
}

// Puts the `size` bytes of `source` from `from` on in the place of the n bytes at `at`, in a file that ends at `end`.
pub fn splice(
    buffer: &mut [u8],
    at: usize,
    n: usize,
    end: usize,
    source: &[u8],
    from: usize,
    size: usize,
)
    requires { (at + n ≤ end) × (end ≤ length buffer.old) × (end + size ≤ length buffer.old + n) × (from + size ≤ length source.now) }
    ensures { buffer.new ≡ spliced at n end (part from size source.now) buffer.old }
{
    resize(buffer, at, n, end, size);
    copy(buffer, at, source, from, size);
}

// Takes the n bytes at `at` out of a file that ends at `end`.
pub fn cut(buffer: &mut [u8], at: usize, n: usize, end: usize)
    requires { (at + n ≤ end) × (end ≤ length buffer.old) }
    ensures { buffer.new ≡ spliced at n end [] buffer.old }
{
    resize(buffer, at, n, end, 0);
}
