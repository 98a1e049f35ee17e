// "Reading on": a reader's state by value, moved by one read.

#![tactic(auto)]

ghost use Rattle.std.specs.Prelude.{◌≡◌, ◌+◌, ◌≤◌, ◌<◌, length};
ghost use Rattle.answers.specs.Answer.{Accepted, answer_of};
ghost use Rattle.sff_format.specs.HeaderTest.{header_test};
ghost use Rattle.sff_format.specs.Step.{fresh, fresh_place, step, step_test, read_or_none};
ghost use Rattle.sff_reader.specs.Forms.{state_of, boundary_of, found_of, step_of};

use answers::{Cause, Refusal};
use sff_file::inner::{end_test, index_test, next_boundary, past_index, view_at};
use sff_format::{Boundary, ReadView};
use sff_header::header_test;
use sff_header::inner::HeadedFile;
use sff_read::inner::read_test;

// A byte place, the reads passed, and whether the index is passed. A caller may put in any values.
#[derive(Clone, Copy)]
pub struct Reader {
    pub place: usize,
    pub passed_reads: usize,
    pub passed_index: bool,
}

// The read that a step found, and the reader after it.
#[derive(Clone, Copy)]
pub struct Found {
    pub view: ReadView,
    pub next: Reader,
}

// Why a step found no read, and the reader, which it did not move.
#[derive(Clone, Copy)]
pub struct Stopped {
    pub refusal: Refusal,
    pub unmoved: Reader,
}

// Past an index: the read's tests; with no read left those of the file's end (13, 12), or else 33.
fn read_or_none(file: &HeadedFile, at: Boundary, reads: usize) -> Result<(), Refusal>
    requires file_value { header_test file.now ≡ Accepted }
    requires place_in_bounds { at.place ≤ length file.now }
    ensures { answer_of result ≡ read_or_none file.now at.place reads at.passed }
{
    if reads < file.reads() {
        return read_test(file.bytes(), at.place, file.flows());
    }
    end_test(file, at)?;
    Err(Refusal(Cause::NoReadLeft, at.place))
}

fn step_test(file: &[u8], reader: Reader) -> Result<(), Refusal>
    ensures { answer_of result ≡ step_test file.now (state_of reader) }
{
    header_test(file)?;
    let at = reader.boundary();
    if file.len() < at.place {
        return Err(Refusal(Cause::CutShort, at.place));
    }
    let headed = HeadedFile::new(file);
    index_test(&headed, at)?;
    read_or_none(&headed, past_index(&headed, at), reader.passed_reads)
}

// The read that a step found, and the reader after it.
fn read_found(file: &[u8], reader: Reader) -> Found
    requires { step_test file.now (state_of reader) ≡ Accepted }
    ensures { found_of result ≡ step file.now (state_of reader) }
{
    let headed = HeadedFile::new(file);
    let start = past_index(&headed, reader.boundary());
    let after = next_boundary(&headed, start);
    let next = Reader {
        place: after.place,
        passed_reads: reader.passed_reads + 1,
        passed_index: after.passed,
    };
    Found {
        view: view_at(&headed, start.place),
        next,
    }
}

impl Reader {
    fn boundary(self) -> Boundary
        ensures { result ≡ boundary_of self }
    {
        Boundary {
            place: self.place,
            passed: self.passed_index,
        }
    }

    // Stands at the end of an accepted header, else at 0.
    pub fn fresh(file: &[u8]) -> Reader
        ensures { state_of result ≡ fresh file.now }
    {
        Reader {
            place: fresh_place(file),
            passed_reads: 0,
            passed_index: false,
        }
    }

    // For every state: the read and the next reader, or a refusal and this one.
    pub fn step(self, file: &[u8]) -> Result<Found, Stopped>
        ensures { step_of result ≡ step file.now (state_of self) }
    {
        step_test(file, self).map_err(|refusal| Stopped {
            refusal,
            unmoved: self,
        })?;
        Ok(read_found(file, self))
    }
}

fn fresh_place(file: &[u8]) -> usize
    ensures { result ≡ fresh_place (header_test file.now) file.now }
{
    let Ok(()) = header_test(file) else {
        return 0;
    };
    HeadedFile::new(file).length()
}
