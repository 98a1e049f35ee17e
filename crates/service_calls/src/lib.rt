// The two calls that a C host makes, with what they answer copied out as numbers: `service` exports them, and `harness`
// does for the tests.

#![tactic(auto)]

ghost use Rattle.service_calls.specs.Outs.{Tested, Corrected};

use answers::{number_of, place_of};
use sff_corrector::correct;
use sff_file::file_test;

pub fn test_out(file: &[u8], place: &mut u64) -> u64
    ensures { Tested file.now result place.new }
{
    let tested = file_test(file);
    *place = place_of(tested);
    number_of(tested)
}

pub fn correct_out(
    buffer: &mut [u8],
    file_length: u64,
    record: &[u8],
    place: &mut u64,
    length_after: &mut u64,
) -> u64
    ensures { Corrected buffer.old file_length «record».now
        result place.new length_after.new buffer.new }
{
    let corrected = correct(buffer, file_length as usize, record);
    *length_after = corrected.unwrap_or_else(|not_done| not_done.length) as u64;
    let answer = corrected.map_err(|not_done| not_done.refusal);
    *place = place_of(answer);
    number_of(answer)
}
