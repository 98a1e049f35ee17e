// Corrections of a file in place: by one record, and by a list of them. All reasons to refuse a record are judged
// before it changes a byte.

#![tactic(auto)]

ghost use Rattle.std.specs.Prelude.{◌≡◌, Some, ◌-◌, ◌*◌, ◌≤◌, ◌<◌, length};
ghost use Rattle.answers.specs.Answer.{Accepted};
ghost use Rattle.sff_format.specs.HeaderTest.{read_count};
ghost use Rattle.sff_format.specs.Writing.{outcome_of};
ghost use Rattle.sff_format.specs.FileTest.{file_test};
ghost use Rattle.sff_format.specs.Places.{read_place};
ghost use Rattle.correction_format.specs.Record.{record_test};
ghost use Rattle.correction_format.specs.Correct.{correct_outcome, correct_buffer};
ghost use Rattle.correction_format.specs.ListRun.{list_outcome_of, turns, run_list};
ghost use Rattle.sff_corrector.specs.Carried.{carried_outcome, StartIn, AcceptedFront, AcceptedAfter};

use answers::{Cause, Refusal};
use correction_format::ListOutcome;
use sff_edit::inner::apply;
use sff_file::file_test;
use sff_find::inner::{Mark, find, find_on};
use sff_format::NotDone;
use sff_reasons::inner::{position_above, reason};
use sff_record::inner::Record;
use sff_record::record_test;

// What a record that was carried out leaves: the file's length, and the place of the read that it was for.
#[derive(Clone, Copy)]
struct CarriedOut {
    length: usize,
    read: Mark,
}

// Where the read at a position of an accepted file starts, by a walk from a read whose place is known, or from the
// header's end.
fn find_from(file: &[u8], from: Option<Mark>, position: usize) -> usize
    requires file_value { file_test file.now ≡ Accepted }
    requires position_bound { position < read_count file.now }
    requires start_in { StartIn file.now from }
    ensures { result ≡ read_place file.now position }
{
    match from {
        None => find(file, position),
        Some(mark) => find_on(file, mark, position),
    }
}

// A record on an accepted file: the position (21), and the reasons after it.
fn carry_out(
    buffer: &mut [u8],
    len: usize,
    bytes: &[u8],
    from: Option<Mark>,
) -> Result<CarriedOut, Refusal>
    requires accepted_front { AcceptedFront buffer.old len from }
    requires record_value { record_test bytes.now ≡ Accepted }
    ensures result_value { carried_outcome len result ≡ correct_outcome buffer.old len bytes.now }
    ensures buffer_after { buffer.new ≡ correct_buffer buffer.old len bytes.now }
    ensures accepted_after { AcceptedAfter buffer.new result }
{
    let room = buffer.len();
    let correction = Record::new(bytes);
    if position_above(&buffer[..len], &correction) {
        return Err(Refusal(Cause::Position, 0));
    }
    let position = correction.fields.position;
    let place = find_from(&buffer[..len], from, position);
    reason(&buffer[..len], room, place, &correction)?;
    let length = apply(buffer, len, place, &correction);
    let read = Mark { position, place };
    Ok(CarriedOut { length, read })
}

// A record on a file that was not tested yet: the length (14), the record (20), the file's refusal, and the rest.
fn carry_first(buffer: &mut [u8], len: usize, record: &[u8]) -> Result<CarriedOut, Refusal>
    ensures result_value { carried_outcome len result ≡ correct_outcome buffer.old len «record».now }
    ensures buffer_after { buffer.new ≡ correct_buffer buffer.old len «record».now }
    ensures accepted_after { AcceptedAfter buffer.new result }
{
    if len > buffer.len() {
        return Err(Refusal(Cause::FileLength, 0));
    }
    record_test(record)?;
    file_test(&buffer[..len])?;
    carry_out(buffer, len, record, None)
}

// A further record of a list: the one before it has left an accepted file.
fn carry_next(
    buffer: &mut [u8],
    len: usize,
    record: &[u8],
    from: Mark,
) -> Result<CarriedOut, Refusal>
    requires { AcceptedFront buffer.old len (Some from) }
    ensures result_value { carried_outcome len result ≡ correct_outcome buffer.old len «record».now }
    ensures buffer_after { buffer.new ≡ correct_buffer buffer.old len «record».now }
    ensures accepted_after { AcceptedAfter buffer.new result }
{
    record_test(record)?;
    carry_out(buffer, len, record, Some(from))
}

// The n records of a list from the second on, where the first left `first`.
fn run(buffer: &mut [u8], list: &[u8], n: usize, first: CarriedOut) -> ListOutcome
    requires accepted_front { AcceptedFront buffer.old first.length (Some first.read) }
    requires le_n { (1 ≤ n) × (96 * n ≤ length list.now) }
    ensures value { list_outcome_of result ≡ (turns (n - 1) 1 buffer.old first.length list.now).outcome }
    ensures buffer_after { buffer.new ≡ (turns (n - 1) 1 buffer.old first.length list.now).buffer }
{
    let mut left = first;
    // Not over chunks of the list: the answer says how many were carried out.
    for count in 1..n {
        let at = 96 * count;
        let end = at + 96;
        match carry_next(buffer, left.length, &list[at..end], left.read) {
            Ok(carried) => left = carried,
            Err(refusal) => {
                return ListOutcome {
                    count,
                    answer: Err(refusal),
                    length: left.length,
                };
            }
        }
    }
    ListOutcome {
        count: n,
        answer: Ok(()),
        length: left.length,
    }
}

// Corrects the file that fills the first `file_length` bytes of the buffer by one record. Answers the file's length
// afterwards; refused, the length that was given, with the buffer as it was.
pub fn correct(buffer: &mut [u8], file_length: usize, record: &[u8]) -> Result<usize, NotDone>
    ensures value { outcome_of result ≡ correct_outcome buffer.old file_length «record».now }
    ensures buffer_after { buffer.new ≡ correct_buffer buffer.old file_length «record».now }
{
    match carry_first(buffer, file_length, record) {
        Ok(carried) => Ok(carried.length),
        Err(refusal) => Err(NotDone {
            refusal,
            length: file_length,
        }),
    }
}

// Corrects the file by the records of a list in turn, up to the first that is refused. Answers how many were carried
// out, and what the last record tried was answered.
pub fn correct_list(buffer: &mut [u8], file_length: usize, list: &[u8]) -> ListOutcome
    ensures value { list_outcome_of result ≡ (run_list buffer.old file_length list.now).outcome }
    ensures buffer_after { buffer.new ≡ (run_list buffer.old file_length list.now).buffer }
{
    if list.len() % 96 != 0 {
        return ListOutcome {
            count: 0,
            answer: Err(Refusal(Cause::Record, 0)),
            length: file_length,
        };
    }
    let n = list.len() / 96;
    if n == 0 {
        return ListOutcome {
            count: 0,
            answer: Ok(()),
            length: file_length,
        };
    }
    match carry_first(buffer, file_length, &list[..96]) {
        Ok(first) => run(buffer, list, n, first),
        Err(refusal) => ListOutcome {
            count: 0,
            answer: Err(refusal),
            length: file_length,
        },
    }
}
