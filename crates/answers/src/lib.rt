// What every test of the library answers: nothing to refuse, or document 01's reason and its byte place.

#![tactic(auto)]

ghost use Rattle.std.specs.Prelude.{◌≡◌};
ghost use Rattle.answers.specs.Causes.{number};
ghost use Rattle.answers.specs.Answer.{number_of, place_of, answer_of};

// Document 01's reasons to refuse, with its numbers.
#[derive(Clone, Copy, Debug, PartialEq, Eq)]
pub enum Cause {
    // A section runs past the end.
    CutShort = 1,
    // The magic.
    Magic = 2,
    // The version.
    Version = 3,
    // The format code.
    FormatCode = 4,
    // A section length field is wrong.
    SectionLength = 5,
    // A flow, key or name byte.
    Character = 6,
    // Padding that is not zero.
    Padding = 7,
    // Just one index field is 0, or a length that no index may have.
    IndexFields = 8,
    // A clip field above the number of bases.
    Clip = 9,
    // The flow walk.
    FlowWalk = 10,
    // A base.
    Base = 11,
    // Bytes left over.
    LeftOver = 12,
    // The index's place is never met.
    IndexNotMet = 13,
    // The stated length of the file is above the buffer's.
    FileLength = 14,
    // The record is malformed.
    Record = 20,
    // The file has no read at the position.
    Position = 21,
    // The read has another name.
    OtherName = 22,
    // A new clip above the read's number of bases.
    NewClip = 23,
    // Another read bears the new name.
    NameTaken = 24,
    // The file has an index.
    IndexPresent = 25,
    // The result does not fit.
    NoRoom = 26,
    // The counts of what is given differ.
    Counts = 30,
    // The file has as many reads as can be counted.
    ReadCount = 31,
    // The signal summary of a read without flows.
    NoFlows = 32,
    // A step with no read left.
    NoReadLeft = 33,
    // A block that ends before its data begin.
    BlockCutShort = 40,
    // A format that is none, or stands for no filter.
    Format = 41,
    // What a filter's header says.
    BlockHeader = 42,
    // The data are not whole units.
    Units = 43,
    // More layers than may be opened.
    Layers = 44,
}

impl Cause {
    pub fn number(self) -> u64
        ensures { result ≡ number self }
    {
        self as u64
    }
}

// Why a call refuses: the reason, and the byte place, 0 where none is stated.
#[derive(Clone, Copy, Debug, PartialEq, Eq)]
pub struct Refusal(pub Cause, pub usize);

// The number of what a call answers; 0 is accepted.
pub fn number_of<T: Copy>(answer: Result<T, Refusal>) -> u64
    ensures { result ≡ number_of (answer_of answer) }
{
    match answer {
        Ok(_) => 0,
        Err(Refusal(cause, _)) => cause.number(),
    }
}

// The byte place, 0 where none is stated.
pub fn place_of<T: Copy>(answer: Result<T, Refusal>) -> u64
    ensures { result ≡ place_of (answer_of answer) }
{
    match answer {
        Ok(_) => 0,
        Err(Refusal(_, place)) => place as u64,
    }
}
