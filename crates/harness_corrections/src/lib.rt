// The list's correction with what it answers copied out, as `harness` exports it.

#![tactic(auto)]

ghost use Rattle.harness_corrections.specs.Outs.{ListCorrected};

use answers::{number_of, place_of};
use sff_corrector::correct_list;

pub fn correct_list_out(
    buffer: &mut [u8],
    file_length: u64,
    list: &[u8],
    count: &mut u64,
    place: &mut u64,
    length_after: &mut u64,
) -> u64
    ensures { ListCorrected buffer.old file_length list.now
        result count.new place.new length_after.new buffer.new }
{
    let outcome = correct_list(buffer, file_length as usize, list);
    let answer = outcome.answer;
    *count = outcome.count as u64;
    *place = place_of(answer);
    *length_after = outcome.length as u64;
    number_of(answer)
}
