// The whole-file test. It only reads the lent file.

#![tactic(auto)]

ghost use Rattle.std.specs.Prelude.{◌≡◌, false};
ghost use Rattle.answers.specs.Answer.{Accepted, answer_of};
ghost use Rattle.sff_format.specs.HeaderTest.{header_test, read_count, header_length};
ghost use Rattle.sff_format.specs.FileTest.{boundary_test, file_test};

pub mod inner;

use crate::inner::{end_test, first_boundary, index_test, next_boundary, past_index};
use answers::Refusal;
use sff_header::header_test;
use sff_header::inner::HeadedFile;
use sff_read::inner::read_test;

// What the boundaries ask from the header's end on, with as many reads as the header states.
fn sections_test(file: &HeadedFile) -> Result<(), Refusal>
    requires { header_test file.now ≡ Accepted }
    ensures { answer_of result ≡ boundary_test file.now (read_count file.now) (header_length file.now) false }
{
    let reads = file.reads();
    let mut at = first_boundary(file);
    for _passed in 0..reads {
        index_test(file, at)?;
        let start = past_index(file, at);
        read_test(file.bytes(), start.place, file.flows())?;
        at = next_boundary(file, start);
    }
    index_test(file, at)?;
    let end = past_index(file, at);
    end_test(file, end)
}

// Any bytes of any length: 0 exactly if they are a file that keeps the rules.
pub fn file_test(file: &[u8]) -> Result<(), Refusal>
    ensures { answer_of result ≡ file_test file.now }
{
    header_test(file)?;
    sections_test(&HeadedFile::new(file))
}
