// For the crates above.
ghost use Rattle.std.specs.Prelude.{◌≡◌};
ghost use Rattle.sff_format.specs.View.{insert_in};

use octets::whole_part;
use sff_clips::inner::insert_span;
use sff_format::ReadView;

// The insert of a list with one entry for each base: of a read's bases, or of its qualities.
pub fn insert_in(view: ReadView, list: &[u8]) -> &[u8]
    ensures { result.now ≡ insert_in view list.now }
{
    let part = insert_span(view);
    whole_part(list, part.at, part.size)
}
