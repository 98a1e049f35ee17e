// What `unfilter` prints of a block, into the two lent buffers in which the block is undone.

#![tactic(auto)]

ghost use Rattle.std.specs.Prelude.{◌≡◌, IfOk, length, replicate};
ghost use Rattle.octets.specs.Parts.{filled};
ghost use Rattle.filter_format.specs.Undo.{second_after};
ghost use Rattle.text.specs.Writing.{IsPrefixLen, fitted, written, written_of};
ghost use Rattle.unfilter_text.specs.Unfiltering.{printed_by};

use answers::Refusal;
use buffers::inner::clear_behind;
use filter_undo::undo;
use lines::inner::{RefusalLine, TooLong};
use text::inner::{Text, write_text};

// Puts a text at the front of `first`, if it fits, and zeros behind it.
fn write_cleared<T: Text>(text: &T, first: &mut [u8]) -> Result<usize, Refusal>
    ensures value { written_of result ≡ written (fitted (length first.old) (T.text text.now)) }
    ensures first_after { first.new ≡ filled (length first.old) (fitted (length first.old) (T.text text.now)).text }
    ensures prefix_len { IfOk result (λ n. IsPrefixLen n first.new) }
{
    let written = write_text(text, first);
    clear_behind(first, written.unwrap_or(0));
    written
}

// Puts what `unfilter` prints of an input at the front of `first`, and answers its length; 26 exactly if `first` is
// shorter. The rest of `first`, and `second`, are zero then.
pub fn print(input: &[u8], first: &mut [u8], second: &mut [u8]) -> Result<usize, Refusal>
    ensures value { written_of result ≡ written (printed_by first.old second.old input.now) }
    ensures first_after { first.new ≡ filled (length first.old) (printed_by first.old second.old input.now).text }
    ensures second_after { second.new ≡ second_after second.old }
    ensures prefix_len { IfOk result (λ n. IsPrefixLen n first.new) }
{
    if input.len() > 65536 {
        clear_behind(second, 0);
        return write_cleared(&TooLong, first);
    }
    match undo(input, first, second) {
        Ok(made) => Ok(made),
        Err(refusal) => write_cleared(&RefusalLine::from(refusal), first),
    }
}

// A buffer for undoing what `unfilter` reads: four times the input, the most that one layer of format 71 makes of it.
pub fn print_room() -> [u8; 262144]
    ensures value { result ≡ replicate 262144 0 }
    ensures value_2 { 262144 ≡ length result }
{
    [0; 262144]
}
