// What a boundary asks, and the way from one to the next, for this crate and those above it, which know that the place
// lies in the file: hence each `requires`.
ghost use Rattle.std.specs.Prelude.{◌≡◌, ◌+◌, ◌≤◌, length};
ghost use Rattle.answers.specs.Answer.{answer_of};
ghost use Rattle.sff_format.specs.HeaderTest.{flows};
ghost use Rattle.sff_format.specs.FileTest.{index_due, index_here, pass_test, index_test, end_test};
ghost use Rattle.sff_format.specs.View.{view_at};
ghost use Rattle.sff_format.specs.Walk.{first_boundary, read_start, next_boundary, boundary_at};

use answers::{Cause, Refusal};
use sff_format::{Boundary, ReadView};
use sff_header::inner::{HeadedFile, is_declared};
use sff_read::inner::{read_end, read_view};

// Whether an index of this offset and length is declared at a boundary and not yet passed.
pub fn index_due(index_offset: usize, index_length: usize, at: Boundary) -> bool
    ensures { result ≡ index_due index_offset index_length at.place at.passed }
{
    !at.passed & (is_declared(index_offset, index_length) & (at.place == index_offset))
}

// The same of the file's index.
fn index_here(file: &HeadedFile, at: Boundary) -> bool
    ensures { result ≡ index_here file.now at.place at.passed }
{
    index_due(file.index_offset(), file.index_length(), at)
}

// An index at `place` that is cut short (1).
pub fn pass_test(file: &HeadedFile, place: usize) -> Result<(), Refusal>
    requires { place ≤ length file.now }
    ensures { answer_of result ≡ pass_test file.now place }
{
    if file.bytes().len() < place + file.index_size() {
        return Err(Refusal(Cause::CutShort, place));
    }
    Ok(())
}

// An index that is due at a boundary and cut short (1).
pub fn index_test(file: &HeadedFile, at: Boundary) -> Result<(), Refusal>
    requires { at.place ≤ length file.now }
    ensures { answer_of result ≡ index_test file.now at.place at.passed }
{
    if index_here(file, at) {
        return pass_test(file, at.place);
    }
    Ok(())
}

// The end of the file: an index whose place was never met (13), bytes left over (12).
pub fn end_test(file: &HeadedFile, at: Boundary) -> Result<(), Refusal>
    ensures { answer_of result ≡ end_test file.now at.place at.passed }
{
    if file.has_index() & !at.passed {
        return Err(Refusal(Cause::IndexNotMet, 8));
    }
    if at.place < file.bytes().len() {
        return Err(Refusal(Cause::LeftOver, at.place));
    }
    Ok(())
}

// Where a walk over the reads starts.
pub fn first_boundary(file: &HeadedFile) -> Boundary
    ensures { result ≡ first_boundary file.now }
{
    Boundary {
        place: file.length(),
        passed: false,
    }
}

// Where the read after a boundary starts: past an index that is due there.
pub fn past_index(file: &HeadedFile, at: Boundary) -> Boundary
    requires { at.place ≤ length file.now }
    ensures { result ≡ read_start file.now at }
{
    if !index_here(file, at) {
        return at;
    }
    Boundary {
        place: at.place + file.index_size(),
        passed: true,
    }
}

// The boundary after the read that starts at one.
pub fn next_boundary(file: &HeadedFile, start: Boundary) -> Boundary
    requires { start.place + 16 ≤ length file.now }
    ensures { result ≡ next_boundary file.now start }
{
    Boundary {
        place: read_end(file.bytes(), start.place, file.flows()),
        passed: start.passed,
    }
}

// What the read at a place says.
pub fn view_at(file: &HeadedFile, place: usize) -> ReadView
    requires { place + 16 ≤ length file.now }
    ensures { result ≡ view_at (flows file.now) file.now place }
{
    read_view(file.bytes(), place, file.flows())
}

// The boundary at the start of a read whose place is known.
pub fn boundary_at(file: &HeadedFile, place: usize) -> Boundary
    ensures { result ≡ boundary_at file.now place }
{
    Boundary {
        place,
        passed: file.has_index() & (file.index_offset() < place),
    }
}
