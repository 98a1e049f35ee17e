// The listing of a file, into a lent buffer.

#![tactic(auto)]

ghost use Rattle.std.specs.Prelude.{◌≡◌, ◌++◌, IfOk, not, ltb, length, replicate};
ghost use Rattle.octets.specs.Parts.{put_at};
ghost use Rattle.text.specs.Writing.{IsPrefixLen, fitted, written, written_of};
ghost use Rattle.lister_text.specs.Listing.{listing, enough, printed};

mod accepted;

use crate::accepted::FileLines;
use answers::Refusal;
use lines::inner::{RefusalLine, TooLong};
use sff_file::file_test;
use text::inner::write_text;

// Whether a buffer has room for the listing of any `size` bytes.
pub fn has_room(size: usize, room: usize) -> bool
    ensures { result ≡ not (ltb room (enough size)) }
{
    room >= 64 && size <= (room - 64) / 7
}

// Puts the listing of any bytes at the front of `out`, and answers its length; 26 exactly if `out` is shorter.
#[tactic(auto, using(crate::proofs::Whole::listings))]
pub fn list(file: &[u8], out: &mut [u8]) -> Result<usize, Refusal>
    ensures value { written_of result ≡ written (fitted (length out.old) (listing file.now)) }
    ensures out_after { out.new ≡ put_at 0 (fitted (length out.old) (listing file.now)).text out.old }
    ensures prefix_len { IfOk result (λ n. IsPrefixLen n out.new) }
{
    match file_test(file) {
        Ok(()) => write_text(&FileLines::new(file), out),
        Err(refusal) => write_text(&RefusalLine::from(refusal), out),
    }
}

// Puts what the lister prints of an input; 26 likewise.
#[tactic(auto, using(crate::proofs::Printed::printed_long, crate::proofs::Printed::printed_short))]
pub fn print(input: &[u8], out: &mut [u8]) -> Result<usize, Refusal>
    ensures value { written_of result ≡ written (fitted (length out.old) (printed input.now)) }
    ensures out_after { out.new ≡ put_at 0 (fitted (length out.old) (printed input.now)).text out.old }
    ensures prefix_len { IfOk result (λ n. IsPrefixLen n out.new) }
{
    if input.len() > 65536 {
        return write_text(&TooLong, out);
    }
    list(input, out)
}

// Room for whatever the lister prints.
pub fn print_room() -> [u8; 458816]
    ensures value { result ≡ replicate 458816 0 }
    ensures value_2 { 458816 ≡ length result }
{
    [0; 458816]
}
