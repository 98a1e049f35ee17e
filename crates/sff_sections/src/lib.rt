// The sections of a read and the header of a new file, put into a lent buffer.

#![tactic(auto)]

ghost use Rattle.std.specs.Prelude.{◌≡◌, length};
ghost use Rattle.answers.specs.Answer.{answer_of, when};
ghost use Rattle.sff_format.specs.Writing.{bad_counts};
ghost use Rattle.sff_sections.specs.Sections.{read_in};

pub mod inner;

use answers::{Cause, Refusal};
use sff_format::Clips;

// The most bases that a read can count, in four bytes.
const MOST_BASES: usize = 4294967295;

// A read that is to be written: its parts, each lent.
#[derive(Clone, Copy)]
pub struct NewRead<'a> {
    pub name: &'a [u8],
    pub clips: Clips,
    pub values: &'a [u16],
    pub increments: &'a [u8],
    pub bases: &'a [u8],
    pub qualities: &'a [u8],
}

// The flow characters and the key of a file that is to be written.
#[derive(Clone, Copy)]
pub struct NewHeader<'a> {
    pub flows: &'a [u8],
    pub key: &'a [u8],
}

impl NewRead<'_> {
    // The counts: they differ from F or from each other, or there are more bases than a read can count (30).
    pub fn counts_test(&self, flows: usize) -> Result<(), Refusal>
        ensures { let read = read_in self.now in
            answer_of result ≡ when (bad_counts flows (length read.values) (length read.increments) (length read.bases) (length read.qualities)) 30 0 }
    {
        let bases = self.bases.len();
        if ((self.values.len() != flows) | (self.increments.len() != bases))
            | ((self.qualities.len() != bases) | (bases > MOST_BASES))
        {
            return Err(Refusal(Cause::Counts, 0));
        }
        Ok(())
    }
}
