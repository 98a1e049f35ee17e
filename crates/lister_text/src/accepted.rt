// The lines of an accepted file, as a text that is measured and put.
ghost use Rattle.std.specs.Prelude.{ℕ, ◌≡◌, ◌<◌, ◌++◌, slice_index_or};
ghost use Rattle.answers.specs.Answer.{Accepted};
ghost use Rattle.sff_format.specs.FileTest.{file_test};
ghost use Rattle.sff_format.specs.Parse.{parse};
ghost use Rattle.lines.specs.Texts.{header_text, read_text};
ghost use Rattle.lister_text.specs.Listing.{view_line, lines_from, file_lines};

use crate::has_room;
use lines::inner::{HeaderLine, ReadLine};
use sff_clips::{first_base, last_base};
use sff_file::inner::first_boundary;
use sff_find::inner::next_read;
use sff_format::ReadView;
use sff_header::inner::HeadedFile;
use sff_view::{insert, name};
use text::inner::{Text, TextWriter};

// The lines of an accepted file.
#[derive(Drop)]
pub struct FileLines<'a> {
    file: HeadedFile<'a>,
    ghost bytes: { (i : ℕ) → slice_index_or file i 0 < 256 },
    ghost accepted: { file_test file ≡ Accepted },
}

impl<'a> FileLines<'a> {
    #[tactic(auto, using(crate::proofs::Whole::header_whole))]
    pub fn new(file: &'a [u8]) -> FileLines<'a>
        requires { file_test file.now ≡ Accepted }
        ensures { result.file ≡ file.now }
    {
        FileLines {
            file: HeadedFile::new(file),
        }
    }

    // The header's line.
    fn header_line(&self) -> HeaderLine<'a>
        ensures { file_lines (parse self.now.file) ≡ header_text result ++ lines_from 0 (parse self.now.file).reads }
    {
        HeaderLine {
            flows: self.file.flows(),
            key: self.file.key(),
            reads: self.file.reads(),
        }
    }

    // A read's line.
    #[tactic(auto, unfolding(crate::specs::Listing::view_line))]
    fn read_line(&self, position: usize, view: ReadView) -> ReadLine<'a>
        ensures { read_text result ≡ view_line self.now.file position view }
    {
        let bytes = self.file.bytes();
        ReadLine {
            position,
            name: name(view, bytes),
            bases: view.bases.size,
            first: first_base(view).0,
            last: last_base(view).0,
            insert: insert(view, bytes),
        }
    }
}

impl Text for FileLines<'_> {
    ghost text = { λ lines. file_lines (parse lines.file) };

    fn left_of(&self, room: usize) -> Option<usize> {
        let behind_header = self.header_line().left_of(room)?;
        let mut left = behind_header;
        let mut boundary = first_boundary(&self.file);
        for position in 0..self.file.reads() {
            let here = next_read(&self.file, position, boundary);
            left = self.read_line(position, here.view).left_of(left)?;
            boundary = here.after;
        }
        Some(left)
    }

    fn put(&self, writer: &mut TextWriter) {
        self.header_line().put(writer);
        let mut boundary = first_boundary(&self.file);
        for position in 0..self.file.reads() {
            let here = next_read(&self.file, position, boundary);
            self.read_line(position, here.view).put(writer);
            boundary = here.after;
        }
    }

    // The lines are measured only where the room is not enough for any file of that length.
    fn fits(&self, room: usize) -> bool {
        has_room(self.file.bytes().len(), room) || self.left_of(room).is_some()
    }
}
