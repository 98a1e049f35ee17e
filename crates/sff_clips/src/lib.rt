// A read's clips: what they may hold, and the insert that they leave.

#![tactic(auto)]

ghost use Rattle.std.specs.Prelude.{◌≡◌};
ghost use Rattle.sff_format.specs.Insert.{first_base, right_end, last_base};

use octets::{greatest, least};
use sff_format::ReadView;
use sff_walk::BasePosition;

pub mod inner;

// The last base that a right clip leaves: one that is not computed leaves them all.
#[tactic(auto, unfolding(sff_format::specs::Insert::right_end))]
fn right_end(bases: usize, clip: BasePosition) -> BasePosition
    ensures { result.0 ≡ right_end bases clip.0 }
{
    if clip.0 == 0 {
        BasePosition(bases)
    } else {
        clip
    }
}

// The first base of a read's insert.
pub fn first_base(view: ReadView) -> BasePosition
    ensures { result.0 ≡ first_base view.quality_left view.adapter_left }
{
    let quality = BasePosition(view.quality_left);
    let adapter = BasePosition(view.adapter_left);
    BasePosition(greatest(1, greatest(quality.0, adapter.0)))
}

// The last base of a read's insert, which is empty where this comes before the first.
pub fn last_base(view: ReadView) -> BasePosition
    ensures { result.0 ≡ last_base view.bases.size view.quality_right view.adapter_right }
{
    let bases = view.bases.size;
    let quality = right_end(bases, BasePosition(view.quality_right));
    let adapter = right_end(bases, BasePosition(view.adapter_right));
    BasePosition(least(quality.0, adapter.0))
}
