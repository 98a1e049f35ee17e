// For the crates above. Those that test clips know that a read has fewer than 2^32 bases and that its place leaves room
// for its fields: hence each `requires`.
ghost use Rattle.std.specs.Prelude.{◌≡◌, ◌+◌, ◌<◌};
ghost use Rattle.answers.specs.Answer.{answer_of};
ghost use Rattle.sff_format.specs.Rules.{left_limit, right_limit};
ghost use Rattle.sff_format.specs.ReadTest.{clip_test};
ghost use Rattle.sff_format.specs.View.{view_span};

use crate::{first_base, last_base};
use answers::{Cause, Refusal};
use octets::greatest;
use sff_format::{ReadView, Span};
use sff_walk::BasePosition;

// What a left and a right clip of a read may hold at most: two rules, which happen to be the same.
#[tactic(auto, unfolding(sff_format::specs::Rules::left_limit))]
fn left_limit(bases: usize) -> BasePosition
    requires { bases < 4294967296 }
    ensures { result.0 ≡ left_limit bases }
{
    BasePosition(bases)
}

#[tactic(auto, unfolding(sff_format::specs::Rules::right_limit))]
fn right_limit(bases: usize) -> BasePosition
    requires { bases < 4294967296 }
    ensures { result.0 ≡ right_limit bases }
{
    BasePosition(bases)
}

// The clips of the read at `place`, in file order: one above its limit (9).
pub fn clip_test(
    place: usize,
    bases: usize,
    quality_left: BasePosition,
    quality_right: BasePosition,
    adapter_left: BasePosition,
    adapter_right: BasePosition,
) -> Result<(), Refusal>
    requires { (place + 16 < 18446744073709551616) × (bases < 4294967296) }
    ensures { answer_of result ≡ clip_test place bases quality_left.0 quality_right.0 adapter_left.0 adapter_right.0 }
{
    let left = left_limit(bases);
    let right = right_limit(bases);
    if quality_left.0 > left.0 {
        return Err(Refusal(Cause::Clip, place + 8));
    }
    if quality_right.0 > right.0 {
        return Err(Refusal(Cause::Clip, place + 10));
    }
    if adapter_left.0 > left.0 {
        return Err(Refusal(Cause::Clip, place + 12));
    }
    if adapter_right.0 > right.0 {
        return Err(Refusal(Cause::Clip, place + 14));
    }
    Ok(())
}

// Where the insert lies in whatever a read has one of for each base: its bases, its qualities.
pub fn insert_span(view: ReadView) -> Span
    ensures { result ≡ view_span view }
{
    let first = first_base(view);
    let before = first.0 - 1;
    let end = greatest(last_base(view).0, before);
    Span {
        at: before,
        size: end - before,
    }
}
