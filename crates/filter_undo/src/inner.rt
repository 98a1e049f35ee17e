// No entry points: the blocks here stand in one of the two lent buffers. `choose` and `layer` call each other; at each
// layer the buffers change places and one filter less may be opened.
ghost use Rattle.std.specs.Prelude.{◌≡◌, ◌-◌, ◌<◌, ◌≤◌, length, take};
ghost use Rattle.octets.specs.Parts.{part};
ghost use Rattle.answers.specs.Answer.{Refused, answer_of};
ghost use Rattle.answers.specs.Causes.{number};
ghost use Rattle.filter_format.specs.Block.{filter_at, undone};
ghost use Rattle.filter_format.specs.Undo.{filtered, refusing, making, first_after, second_after, room_of, block_test, layer_test, undo_from};
ghost use Rattle.filter_format.specs.Made.{filtered_of};
ghost use Rattle.filter_block.specs.Tests.{Undoable};
ghost use Rattle.filter_undo.specs.Sides.{Undid};

use answers::{Cause, Refusal};
use buffers::inner::{clear_behind, copy, move_down};
use filter_block::inner::{contents_test, filter_at, is_filter, is_raw, undo_filter};
use filter_format::Filter;

// The tests of a block in a chain, where `left` filters may still be opened.
pub(crate) fn block_test(
    filter: Filter,
    block: &[u8],
    left: usize,
    room: usize,
) -> Result<(), Refusal>
    requires { filter ≡ filter_at block.now }
    ensures { answer_of result ≡ block_test left room block.now }
{
    if block.len() == 0 {
        return Err(Refusal(Cause::BlockCutShort, 0));
    }
    let raw = is_raw(filter);
    let filters = is_filter(filter);
    if !raw & !filters {
        return Err(Refusal(Cause::Format, 0));
    }
    if filters & (left == 0) {
        return Err(Refusal(Cause::Layers, 0));
    }
    contents_test(filter, block, room)
}

// The tests of a layer that is undone alone.
pub(crate) fn layer_test(filter: Filter, block: &[u8], room: usize) -> Result<(), Refusal>
    requires { filter ≡ filter_at block.now }
    ensures { answer_of result ≡ layer_test room block.now }
{
    if block.len() == 0 {
        return Err(Refusal(Cause::BlockCutShort, 0));
    }
    if !is_filter(filter) {
        return Err(Refusal(Cause::Format, 0));
    }
    contents_test(filter, block, room)
}

// A refusal zeroes both buffers.
pub(crate) fn refuse(
    first: &mut [u8],
    second: &mut [u8],
    refusal: Refusal,
) -> Result<usize, Refusal>
    ensures value { filtered_of result ≡ filtered (refusing (Refused (number refusal.0) refusal.1)) }
    ensures first_after { first.new ≡ second_after first.old }
    ensures second_after { second.new ≡ second_after second.old }
{
    clear_behind(first, 0);
    clear_behind(second, 0);
    Err(refusal)
}

// Moves the n bytes of data behind the format byte of `here`, which is the caller's first buffer, to its front.
fn result_here(here: &mut [u8], there: &mut [u8], n: usize) -> Result<usize, Refusal>
    requires { n < length here.old }
    ensures value { filtered_of result ≡ filtered (making (part 1 n here.old)) }
    ensures here_after { here.new ≡ first_after (making (part 1 n here.old)) here.old }
    ensures there_after { there.new ≡ second_after there.old }
{
    move_down(here, 1, 0, n);
    clear_behind(here, n);
    clear_behind(there, 0);
    Ok(n)
}

// Copies them to the front of `there`, where that is the caller's first buffer.
fn result_there(here: &mut [u8], there: &mut [u8], n: usize) -> Result<usize, Refusal>
    requires { (n < length here.old) × (n ≤ length there.old) }
    ensures value { filtered_of result ≡ filtered (making (part 1 n here.old)) }
    ensures there_after { there.new ≡ first_after (making (part 1 n here.old)) there.old }
    ensures here_after { here.new ≡ second_after here.old }
{
    copy(there, 0, here, 1, n);
    clear_behind(there, n);
    clear_behind(here, 0);
    Ok(n)
}

// Undoes the block in the first `len` bytes of `here`, by its format. `is_first` says whether `here` is the caller's
// first buffer. The two buffers stay parameters: a struct of them would be made anew at each layer, where they change
// places, which is no plainer.
#[cycle(choose_layer)]
pub(crate) fn choose(
    here: &mut [u8],
    there: &mut [u8],
    len: usize,
    left: usize,
    is_first: bool,
) -> Result<usize, Refusal>
    requires { len ≤ length here.old }
    ensures { Undid (undo_from left (room_of here.old there.old) (take len here.old))
        is_first here.old here.new there.old there.new (filtered_of result) }
{
    let room = here.len().min(there.len());
    let filter = filter_at(&here[..len]);
    if let Err(refusal) = block_test(filter, &here[..len], left, room) {
        return refuse(here, there, refusal);
    }
    if !is_raw(filter) {
        return layer(here, there, len, left, is_first, filter);
    }
    if is_first {
        result_here(here, there, len - 1)
    } else {
        result_there(here, there, len - 1)
    }
}

// Undoes the layer in the first `len` bytes of `here` into `there`, and then the block that this gives.
#[cycle(choose_layer)]
fn layer(
    here: &mut [u8],
    there: &mut [u8],
    len: usize,
    left: usize,
    is_first: bool,
    filter: Filter,
) -> Result<usize, Refusal>
    requires { (0 < left) × (len ≤ length here.old) × (Undoable filter (take len here.old) (length there.old)) }
    ensures { Undid (undo_from (left - 1) (room_of here.old there.old) (undone filter (take len here.old)))
        is_first here.old here.new there.old there.new (filtered_of result) }
{
    let made = undo_filter(there, filter, &here[..len]);
    choose(there, here, made, left - 1, !is_first)
}
