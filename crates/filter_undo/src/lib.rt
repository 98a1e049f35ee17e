// Filtered blocks undone: the whole chain of layers, or one layer alone.

#![tactic(auto)]

ghost use Rattle.std.specs.Prelude.{◌≡◌};
ghost use Rattle.filter_format.specs.Undo.{filtered, room_of, first_after, second_after, undo, undo_layer};
ghost use Rattle.filter_format.specs.Made.{filtered_of};

use crate::inner::{block_test, choose, layer_test, refuse};
use answers::Refusal;
use buffers::inner::clear_behind;
use filter_block::inner::{filter_at, is_raw, undo_filter};

pub mod inner;

// Undoes a block until format 0: the data go to the first buffer.
pub fn undo(block: &[u8], first: &mut [u8], second: &mut [u8]) -> Result<usize, Refusal>
    ensures value { filtered_of result ≡ filtered (undo (room_of first.old second.old) block.now) }
    ensures first_after { first.new ≡ first_after (undo (room_of first.old second.old) block.now) first.old }
    ensures second_after { second.new ≡ second_after second.old }
{
    let room = first.len().min(second.len());
    let filter = filter_at(block);
    if let Err(refusal) = block_test(filter, block, 8, room) {
        return refuse(first, second, refusal);
    }
    let made = undo_filter(first, filter, block);
    if is_raw(filter) {
        clear_behind(first, made);
        clear_behind(second, 0);
        return Ok(made);
    }
    choose(first, second, made, 7, true)
}

// Undoes one layer alone: what it gives goes to the first buffer.
pub fn undo_layer(block: &[u8], first: &mut [u8], second: &mut [u8]) -> Result<usize, Refusal>
    ensures value { filtered_of result ≡ filtered (undo_layer (room_of first.old second.old) block.now) }
    ensures first_after { first.new ≡ first_after (undo_layer (room_of first.old second.old) block.now) first.old }
    ensures second_after { second.new ≡ second_after second.old }
{
    let room = first.len().min(second.len());
    let filter = filter_at(block);
    if let Err(refusal) = layer_test(filter, block, room) {
        return refuse(first, second, refusal);
    }
    let made = undo_filter(first, filter, block);
    clear_behind(first, made);
    clear_behind(second, 0);
    Ok(made)
}
