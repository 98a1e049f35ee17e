// No entry points: their callers have tested the block and measured the room.
ghost use Rattle.std.specs.Prelude.{◌≡◌, ◌+◌, ◌≤◌, length};
ghost use Rattle.octets.specs.Parts.{put_at};
ghost use Rattle.filter_format.specs.Follow.{followed, unfollowed};

// Puts the source undone at the front: each byte after the first is follow[the byte before it in the data] less the
// stored one.
pub fn put_unfollowed(out: &mut [u8], source: &[u8], follow: &[u8])
    requires { (length follow.now ≡ 256) × (length source.now ≤ length out.old) }
    ensures { out.new ≡ put_at 0 (unfollowed follow.now source.now) out.old }
{
    let Some((first, rest)) = source.split_first() else {
        return;
    };
    out[0] = *first;
    let mut previous = *first;
    for (j, stored) in rest.iter().enumerate() {
        let made = follow[usize::from(previous)].wrapping_sub(*stored);
        out[j + 1] = made;
        previous = made;
    }
}

// Puts the source filtered at `at`.
pub fn put_followed(out: &mut [u8], at: usize, source: &[u8], follow: &[u8])
    requires { (length follow.now ≡ 256) × (at + length source.now ≤ length out.old) }
    ensures { out.new ≡ put_at at (followed follow.now source.now) out.old }
{
    let Some((first, rest)) = source.split_first() else {
        return;
    };
    out[at] = *first;
    let mut previous = *first;
    for (j, &byte) in rest.iter().enumerate() {
        out[at + 1 + j] = follow[usize::from(previous)].wrapping_sub(byte);
        previous = byte;
    }
}
