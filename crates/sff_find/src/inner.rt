// Where a read starts and what it says, for the crates above, which have tested the file: hence each `requires`.
ghost use Rattle.std.specs.Prelude.{◌≡◌, ◌+◌, ◌≤◌, ◌<◌, length};
ghost use Rattle.answers.specs.Answer.{Accepted};
ghost use Rattle.sff_format.specs.HeaderTest.{read_count, flows};
ghost use Rattle.sff_format.specs.FileTest.{file_test};
ghost use Rattle.sff_format.specs.Places.{read_place};
ghost use Rattle.sff_format.specs.View.{view_at};
ghost use Rattle.sff_format.specs.Walk.{read_start, next_boundary, Walk};
ghost use Rattle.sff_format.specs.Position.{view_of};
ghost use Rattle.sff_find.specs.Mark.{Marked};

use sff_file::inner::{boundary_at, first_boundary, next_boundary, past_index, view_at};
use sff_format::{Boundary, ReadView};
use sff_header::inner::HeadedFile;

// From a boundary with some reads behind it to the start of the read at a position.
fn seek(file: &HeadedFile, from: Boundary, behind: usize, position: usize) -> usize
    requires walk { Walk file.now behind from }
    requires behind_le_position { (behind ≤ position) × (position < read_count file.now) }
    ensures { (result ≡ read_place file.now position) × (result + 16 ≤ length file.now) }
{
    let mut at = from;
    for _passed in behind..position {
        let start = past_index(file, at);
        at = next_boundary(file, start);
    }
    past_index(file, at).place
}

// Where the read at a position of an accepted file starts.
pub fn find(file: &[u8], position: usize) -> usize
    requires file_value { file_test file.now ≡ Accepted }
    requires position_bound { position < read_count file.now }
    ensures { (result ≡ read_place file.now position) × (result + 16 ≤ length file.now) }
{
    let headed = HeadedFile::new(file);
    seek(&headed, first_boundary(&headed), 0, position)
}

// A read whose place is known: its position, and where it starts.
#[derive(Clone, Copy)]
pub struct Mark {
    pub position: usize,
    pub place: usize,
}

// Where the read at a position of an accepted file starts, found from a read whose place is known, if that is not a
// later one.
pub fn find_on(file: &[u8], from: Mark, position: usize) -> usize
    requires file_value { file_test file.now ≡ Accepted }
    requires position_bound { position < read_count file.now }
    requires marked { Marked file.now from }
    ensures { (result ≡ read_place file.now position) × (result + 16 ≤ length file.now) }
{
    let known = from.position;
    if position < known {
        return find(file, position);
    }
    let headed = HeadedFile::new(file);
    seek(&headed, boundary_at(&headed, from.place), known, position)
}

// What the read at a position of an accepted file says.
pub fn view_of(file: &[u8], position: usize) -> ReadView
    requires file_value { file_test file.now ≡ Accepted }
    requires position_bound { position < read_count file.now }
    ensures { result ≡ view_of file.now position }
{
    let place = find(file, position);
    view_at(&HeadedFile::new(file), place)
}

// A read's view, and the boundary after it.
#[derive(Clone, Copy)]
pub struct Turn {
    pub view: ReadView,
    pub after: Boundary,
}

// A turn of a loop over the reads: the read at a position, from the boundary before it.
pub fn next_read(file: &HeadedFile, position: usize, boundary: Boundary) -> Turn
    requires walk { Walk file.now position boundary }
    requires position_bound { position < read_count file.now }
    ensures view_value { result.view ≡ view_at (flows file.now) file.now (read_start file.now boundary).place }
    ensures after_value { result.after ≡ next_boundary file.now (read_start file.now boundary) }
{
    let start = past_index(file, boundary);
    Turn {
        view: view_at(file, start.place),
        after: next_boundary(file, start),
    }
}
