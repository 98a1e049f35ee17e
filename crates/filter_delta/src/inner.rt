// No entry points: the callers have whole units and the room from their tests, hence each `requires`.
ghost use Rattle.std.specs.Prelude.{◌≡◌, ◌+◌, ◌%◌, ◌≤◌, length};
ghost use Rattle.octets.specs.Parts.{put_at};
ghost use Rattle.filter_format.specs.Delta.{delta_bytes, undelta_bytes, OneLevelLess};

use filter_units::inner::Unit;

// Both passes go by an index: of `chunks_exact_mut` std does not say what the slice ends as, so no proof closes.

// Undoes one level: each unit becomes the sum of it and of those before.
fn undelta_pass<U: Unit>(bytes: &mut [u8])
    requires { length bytes.old % U.WIDTH ≡ 0 }
    ensures bytes_after { bytes.new ≡ undelta_bytes U.WIDTH 1 bytes.old }
    ensures one_level_less { OneLevelLess U.WIDTH bytes.old bytes.new }
{
    let mut sum = U::low(0);
    for i in 0..bytes.len() / U::WIDTH {
        let at = i * U::WIDTH;
        sum = sum.plus(U::get(bytes, at));
        sum.put(bytes, at);
    }
}

// Does one level: each unit less the one before.
fn delta_pass<U: Unit>(bytes: &mut [u8])
    requires { length bytes.old % U.WIDTH ≡ 0 }
    ensures { bytes.new ≡ delta_bytes U.WIDTH 1 bytes.old }
{
    let mut previous = U::low(0);
    for i in 0..bytes.len() / U::WIDTH {
        let at = i * U::WIDTH;
        let unit = U::get(bytes, at);
        unit.minus(previous).put(bytes, at);
        previous = unit;
    }
}

// Puts the data at `at`, with `level` levels undone. This and `put_delta` stay two: one function that takes the pass
// needs a contract for it that is longer than the two bodies.
pub fn put_undelta<U: Unit>(out: &mut [u8], at: usize, source: &[u8], level: usize)
    requires { (length source.now % U.WIDTH ≡ 0) × (at + length source.now ≤ length out.old) }
    ensures { out.new ≡ put_at at (undelta_bytes U.WIDTH level source.now) out.old }
{
    let data = &mut out[at..at + source.len()];
    data.copy_from_slice(source);
    'undo: for _ in 0..level {
        undelta_pass::<U>(data);
    }
}

// Puts the data at `at`, with `level` levels done.
pub fn put_delta<U: Unit>(out: &mut [u8], at: usize, source: &[u8], level: usize)
    requires { (length source.now % U.WIDTH ≡ 0) × (at + length source.now ≤ length out.old) }
    ensures { out.new ≡ put_at at (delta_bytes U.WIDTH level source.now) out.old }
{
    let data = &mut out[at..at + source.len()];
    data.copy_from_slice(source);
    'make: for _ in 0..level {
        delta_pass::<U>(data);
    }
}
