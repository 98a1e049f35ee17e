// No entry points: the callers have measured the room, hence each `requires`.
ghost use Rattle.std.specs.Prelude.{◌≡◌, ◌+◌, ◌*◌, ◌%◌, ◌≤◌, length};
ghost use Rattle.octets.specs.Parts.{put_at};
ghost use Rattle.filter_format.specs.Units.{units_of};
ghost use Rattle.filter_format.specs.Narrow.{extended, lacking, narrow, narrow_unit, widen};
ghost use Rattle.filter_narrow.specs.Counted.{counted, fits_one};

use filter_units::inner::Unit;

// How many units of `width` bytes data of format 70 or 71 hold; none where the last is cut short.
pub fn count_units(source: &[u8], width: usize) -> Option<usize>
    ensures { result ≡ counted width source.now }
{
    let mut rest = source;
    let mut units = 0;
    while let Some((byte, tail)) = rest.split_first() {
        rest = if *byte == 128 {
            tail.get(width..)?
        } else {
            tail
        };
        units += 1;
    }
    Some(units)
}

// The unit that one byte stands for.
fn extend<U: Unit>(byte: u8) -> U
    ensures { U.value result ≡ extended U.WIDTH byte }
{
    U::low(i32::from(byte.cast_signed()).cast_unsigned())
}

// Puts the units of the source, each whole, at the front; answers how many bytes they take.
pub fn put_widened<U: Unit>(out: &mut [u8], source: &[u8]) -> usize
    requires { (lacking U.WIDTH 0 source.now ≡ 0) × (length (widen U.WIDTH 0 source.now) ≤ length out.old) }
    ensures { (result ≡ length (widen U.WIDTH 0 source.now)) × (out.new ≡ put_at 0 (widen U.WIDTH 0 source.now) out.old) }
{
    let mut rest = source;
    let mut to = 0;
    while let Some((byte, tail)) = rest.split_first() {
        let (unit, after) = if *byte == 128 {
            (U::get(tail, 0), &tail[U::WIDTH..])
        } else {
            (extend(*byte), tail)
        };
        unit.put(out, to);
        to += U::WIDTH;
        rest = after;
    }
    to
}

// Whether a unit is one of -127 to 127; the byte 129 is -127.
fn fits_one<U: Unit>(unit: U) -> bool
    ensures { result ≡ fits_one U.WIDTH (U.value unit) }
{
    let n = unit.number();
    n <= 127 || extend::<U>(129).number() <= n
}

// How many bytes one unit takes.
fn narrow_length<U: Unit>(unit: U) -> usize
    ensures { (result ≡ length (narrow_unit U.WIDTH (U.value unit))) × (result ≤ U.WIDTH + 1) }
{
    if fits_one(unit) { 1 } else { 1 + U::WIDTH }
}

// How many bytes the units of the source take, each in one byte where it fits.
pub fn narrowed_length<U: Unit>(source: &[u8]) -> usize
    requires { (length source.now % U.WIDTH ≡ 0) × (2 ≤ U.WIDTH) }
    ensures { (result ≡ length (narrow U.WIDTH (units_of U.WIDTH source.now))) × (2 * result ≤ 3 * length source.now) }
{
    let mut size = 0;
    for unit in source.chunks_exact(U::WIDTH) {
        size += narrow_length(U::get(unit, 0));
    }
    size
}

// Puts one unit at `at`, in one byte where it fits; answers the place after it.
fn put_narrow<U: Unit>(out: &mut [u8], at: usize, unit: U) -> usize
    requires { at + length (narrow_unit U.WIDTH (U.value unit)) ≤ length out.old }
    ensures { (result ≡ at + length (narrow_unit U.WIDTH (U.value unit))) × (out.new ≡ put_at at (narrow_unit U.WIDTH (U.value unit)) out.old) }
{
    if fits_one(unit) {
        out[at] = (unit.number() % 256) as u8;
        at + 1
    } else {
        out[at] = 128;
        unit.put(out, at + 1);
        at + 1 + U::WIDTH
    }
}

// Puts the units of the source at `at`, each in one byte where it fits.
pub fn put_narrowed<U: Unit>(out: &mut [u8], at: usize, source: &[u8])
    requires { (length source.now % U.WIDTH ≡ 0) × (at + length (narrow U.WIDTH (units_of U.WIDTH source.now)) ≤ length out.old) }
    ensures { out.new ≡ put_at at (narrow U.WIDTH (units_of U.WIDTH source.now)) out.old }
{
    let mut to = at;
    for unit in source.chunks_exact(U::WIDTH) {
        to = put_narrow(out, to, U::get(unit, 0));
    }
}
