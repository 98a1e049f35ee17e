// Document 01's host: "A C service calls the whole-file test and the single correction on numbers and byte slices."
// `include/sffstore.h` declares them to C. `Tested` and `Corrected` are equations: number, place, length and buffer
// are each what a definition gives.

#![tactic(auto)]

ghost use Rattle.service_calls.specs.Outs.{Tested, Corrected};

use service_calls::{correct_out, test_out};

// The number of the first rule that the bytes break, 0 if they are a file that keeps them all; `place` is where.
#[unsafe(no_mangle)]
pub extern "C" fn sffstore_test(file: &[u8], place: &mut u64) -> u64
    ensures { Tested file.now result place.new }
{
    test_out(file, place)
}

// Corrects the file that fills the first `file_length` bytes of the buffer by one record. Answers the number of the
// first reason to refuse it, which leaves the buffer as it was, or 0; `length_after` is the file's length afterwards.
#[unsafe(no_mangle)]
pub extern "C" fn sffstore_correct(
    buffer: &mut [u8],
    file_length: u64,
    record: &[u8],
    place: &mut u64,
    length_after: &mut u64,
) -> u64
    ensures { Corrected buffer.old file_length «record».now
        result place.new length_after.new buffer.new }
{
    correct_out(buffer, file_length, record, place, length_after)
}
