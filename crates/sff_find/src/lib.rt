// A read by its position.

#![tactic(auto)]

ghost use Rattle.std.specs.Prelude.{◌≡◌};
ghost use Rattle.answers.specs.Answer.{answer_of};
ghost use Rattle.sff_format.specs.Position.{position_test};

pub mod inner;

use answers::{Cause, Refusal};
use sff_file::file_test;
use sff_header::inner::HeadedFile;

// The file's own refusal, then 21 where it has no read at the position.
pub fn position_test(file: &[u8], position: usize) -> Result<(), Refusal>
    ensures { answer_of result ≡ position_test file.now position }
{
    file_test(file)?;
    if position >= HeadedFile::new(file).reads() {
        return Err(Refusal(Cause::Position, 0));
    }
    Ok(())
}
