// What `correct` prints of a list run, into a lent buffer, and whether it writes a new file.

#![tactic(auto)]

ghost use Rattle.std.specs.Prelude.{◌≡◌, IfOk, length, replicate};
ghost use Rattle.octets.specs.Parts.{put_at};
ghost use Rattle.correction_format.specs.ListRun.{list_outcome_of};
ghost use Rattle.text.specs.Writing.{IsPrefixLen, fitted, written, written_of};
ghost use Rattle.lines.specs.Lines.{too_long, answer_line};
ghost use Rattle.correct_text.specs.Report.{answered, reported, is_written};

use answers::{Refusal, number_of, place_of};
use correction_format::ListOutcome;
use lines::inner::{AnswerLine, RefusalLine, TooLong};
use text::inner::{Text, TextWriter, write_text};

// The line of a list run's answer.
fn answer_line(outcome: ListOutcome) -> AnswerLine
    ensures { answer_line result.count result.number result.place result.size ≡ answered (list_outcome_of outcome) }
{
    AnswerLine {
        count: outcome.count,
        number: number_of(outcome.answer) as usize,
        place: place_of(outcome.answer) as usize,
        size: outcome.length,
    }
}

// What is printed of a list run: the line of its answer, and that of its refusal.
#[derive(Clone, Copy)]
struct RunReport(ListOutcome);

impl Text for RunReport {
    ghost text = { λ report. reported (list_outcome_of report.0) };

    #[tactic(auto, using(crate::proofs::Reports::reports), unfolding(crate::specs::Report::reported, crate::specs::Report::refusal))]
    fn left_of(&self, room: usize) -> Option<usize> {
        let left = answer_line(self.0).left_of(room)?;
        match self.0.answer {
            Ok(()) => Some(left),
            Err(refusal) => RefusalLine::from(refusal).left_of(left),
        }
    }

    #[tactic(auto, using(crate::proofs::Reports::reports), unfolding(crate::specs::Report::reported, crate::specs::Report::refusal))]
    fn put(&self, writer: &mut TextWriter) {
        answer_line(self.0).put(writer);
        if let Err(refusal) = self.0.answer {
            RefusalLine::from(refusal).put(writer);
        }
    }
}

// Puts what is printed of a list run at the front of `out`, and answers its length; 26 exactly if `out` is shorter.
pub fn report(outcome: ListOutcome, out: &mut [u8]) -> Result<usize, Refusal>
    ensures value { written_of result ≡ written (fitted (length out.old) (reported (list_outcome_of outcome))) }
    ensures out_after { out.new ≡ put_at 0 (fitted (length out.old) (reported (list_outcome_of outcome))).text out.old }
    ensures prefix_len { IfOk result (λ n. IsPrefixLen n out.new) }
{
    write_text(&RunReport(outcome), out)
}

// Puts what is printed of a file or a list that is too long; 26 likewise.
pub fn too_long(out: &mut [u8]) -> Result<usize, Refusal>
    ensures value { written_of result ≡ written (fitted (length out.old) too_long) }
    ensures out_after { out.new ≡ put_at 0 (fitted (length out.old) too_long).text out.old }
    ensures prefix_len { IfOk result (λ n. IsPrefixLen n out.new) }
{
    write_text(&TooLong, out)
}

// Room for whatever is printed.
pub fn report_room() -> [u8; 256]
    ensures value { result ≡ replicate 256 0 }
    ensures value_2 { 256 ≡ length result }
{
    [0; 256]
}

// Whether a new file is written after a list run.
#[tactic(auto, unfolding(crate::specs::Report::is_written, answers::specs::Answer::accepted_or))]
pub fn is_written(outcome: ListOutcome) -> bool
    ensures { result ≡ is_written (list_outcome_of outcome) }
{
    outcome.answer.is_ok() || outcome.count > 0
}
