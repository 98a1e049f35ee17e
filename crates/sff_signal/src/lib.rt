// The signal summary of a read by its position.

#![tactic(auto)]

ghost use Rattle.std.specs.Prelude.{◌≡◌};
ghost use Rattle.answers.specs.Answer.{answer_of};
ghost use Rattle.sff_format.specs.Position.{signal_test};
ghost use Rattle.sff_signal.specs.Signal.{file_signal};

pub mod inner;

use crate::inner::values_summary;
use answers::{Cause, Refusal};
use sff_find::inner::view_of;
use sff_find::position_test;
use sff_header::inner::HeadedFile;

// The strongest and the weakest signal of a read's flows, and the mean.
#[derive(Clone, Copy)]
pub struct Summary {
    pub strongest: f64,
    pub weakest: f64,
    pub mean: f64,
}

// The file's own refusal, 21 where it has no read at the position, 32 where a read has no flows.
pub fn signal_test(file: &[u8], position: usize) -> Result<(), Refusal>
    ensures { answer_of result ≡ signal_test file.now position }
{
    position_test(file, position)?;
    if HeadedFile::new(file).flows() == 0 {
        return Err(Refusal(Cause::NoFlows, 0));
    }
    Ok(())
}

// The summary; refused, three times 0.0.
pub fn signal(file: &[u8], position: usize) -> Summary
    ensures { result ≡ file_signal file.now position }
{
    let Ok(()) = signal_test(file, position) else {
        return Summary {
            strongest: 0.0,
            weakest: 0.0,
            mean: 0.0,
        };
    };
    let values = view_of(file, position).values;
    values_summary(file, values.at, values.size / 2)
}
