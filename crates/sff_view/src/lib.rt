// What a step says of a read, as parts of the lent file. A view that no step gave may name bytes outside of the file:
// its part is then the file's empty front, and `view_test` gives the number and the place.

#![tactic(auto)]

ghost use Rattle.std.specs.Prelude.{◌≡◌};
ghost use Rattle.answers.specs.Answer.{when, ◌then◌, answer_of};
ghost use Rattle.sff_format.specs.View.{bytes_in, insert_in, outside, insert_outside, view_test};

pub mod inner;

use crate::inner::insert_in;
use answers::{Cause, Refusal};
use octets::whole_part;
use sff_clips::{first_base, last_base};
use sff_format::{ReadView, Span};

// One part of a view. The calls that hand them out stay functions of their own: their names are public.
fn bytes_in(file: &[u8], x: Span) -> &[u8]
    ensures { result.now ≡ bytes_in file.now x }
{
    whole_part(file, x.at, x.size)
}

pub fn name(view: ReadView, file: &[u8]) -> &[u8]
    ensures { result.now ≡ bytes_in file.now view.name }
{
    bytes_in(file, view.name)
}

// The flow values, two bytes each.
pub fn values(view: ReadView, file: &[u8]) -> &[u8]
    ensures { result.now ≡ bytes_in file.now view.values }
{
    bytes_in(file, view.values)
}

pub fn increments(view: ReadView, file: &[u8]) -> &[u8]
    ensures { result.now ≡ bytes_in file.now view.increments }
{
    bytes_in(file, view.increments)
}

pub fn bases(view: ReadView, file: &[u8]) -> &[u8]
    ensures { result.now ≡ bytes_in file.now view.bases }
{
    bytes_in(file, view.bases)
}

pub fn qualities(view: ReadView, file: &[u8]) -> &[u8]
    ensures { result.now ≡ bytes_in file.now view.qualities }
{
    bytes_in(file, view.qualities)
}

// The bases of the insert, which may be none.
pub fn insert(view: ReadView, file: &[u8]) -> &[u8]
    ensures { result.now ≡ insert_in view (bytes_in file.now view.bases) }
{
    insert_in(view, bases(view, file))
}

// 1 at the start of a stretch that does not lie in the file whole. Its end is never added up: the sum could wrap.
fn part_test(file: &[u8], x: Span) -> Result<(), Refusal>
    ensures { answer_of result ≡ when (outside file.now x) 1 x.at }
{
    if x.at > file.len() || x.size > file.len() - x.at {
        return Err(Refusal(Cause::CutShort, x.at));
    }
    Ok(())
}

// 1 at the start of the bases where the insert is not empty and does not lie within them.
fn insert_test(view: ReadView) -> Result<(), Refusal>
    ensures { answer_of result ≡ when (insert_outside view) 1 view.bases.at }
{
    let first = first_base(view);
    let last = last_base(view);
    if (first.0 <= last.0) & (last.0 > view.bases.size) {
        return Err(Refusal(Cause::CutShort, view.bases.at));
    }
    Ok(())
}

// Whether all that the view names can be handed out: the companion of the calls above, and of `first_base` and
// `last_base` of sff_clips.
pub fn view_test(view: ReadView, file: &[u8]) -> Result<(), Refusal>
    ensures { answer_of result ≡ view_test file.now view }
{
    part_test(file, view.name)?;
    part_test(file, view.values)?;
    part_test(file, view.increments)?;
    part_test(file, view.bases)?;
    part_test(file, view.qualities)?;
    insert_test(view)
}
