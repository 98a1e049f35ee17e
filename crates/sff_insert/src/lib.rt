// The insert of a read by its position. Where a call is refused, `sff_find::position_test` on the same inputs gives the
// number.

#![tactic(auto)]

ghost use Rattle.std.specs.Prelude.{◌≡◌, IfOk};
ghost use Rattle.answers.specs.Answer.{answer_of};
ghost use Rattle.sff_format.specs.Position.{position_test, view_of, file_insert, file_first, file_last};

use answers::Refusal;
use sff_clips::{first_base, last_base};
use sff_find::inner::view_of;
use sff_find::position_test;
use sff_format::ReadView;
use sff_walk::BasePosition;

// The first and the last base of an insert, which is empty where the last comes before the first.
#[derive(Clone, Copy)]
pub struct InsertEnds {
    pub first: BasePosition,
    pub last: BasePosition,
}

// What the read at a position says, or the position's refusal.
fn tested_view(file: &[u8], position: usize) -> Result<ReadView, Refusal>
    ensures test { answer_of result ≡ position_test file.now position }
    ensures view { IfOk result (λ view. view ≡ view_of file.now position) }
{
    position_test(file, position)?;
    Ok(view_of(file, position))
}

// The insert's bases, as a part of the lent file; refused, the file's empty front.
pub fn insert(file: &[u8], position: usize) -> &[u8]
    ensures { result.now ≡ file_insert file.now position }
{
    let Ok(view) = tested_view(file, position) else {
        return &file[..0];
    };
    sff_view::insert(view, file)
}

// The insert's first and last base; refused, those of a read without bases.
pub fn insert_ends(file: &[u8], position: usize) -> InsertEnds
    ensures { (result.first.0 ≡ file_first file.now position) × (result.last.0 ≡ file_last file.now position) }
{
    let Ok(view) = tested_view(file, position) else {
        return InsertEnds {
            first: BasePosition(1),
            last: BasePosition(0),
        };
    };
    InsertEnds {
        first: first_base(view),
        last: last_base(view),
    }
}
