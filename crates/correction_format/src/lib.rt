// The types that the definitions and the code share. There is no function here.

#![tactic(auto)]

use answers::Refusal;

// What a list run answers: how many records were carried out, and the answer and the file's length that the last record
// tried was given.
#[derive(Clone, Copy)]
pub struct ListOutcome {
    pub count: usize,
    pub answer: Result<(), Refusal>,
    pub length: usize,
}

// What a record asks for, with its number.
#[derive(Clone, Copy, Debug, PartialEq, Eq)]
pub enum Kind {
    Clips = 1,
    Rename = 2,
    Remove = 3,
}

// A well-formed record's fields but for its names, read once.
#[derive(Clone, Copy)]
pub struct Fields {
    pub kind: Kind,
    pub position: usize,
    pub old_length: usize,
    pub new_length: usize,
    pub quality_left: usize,
    pub quality_right: usize,
    pub adapter_left: usize,
    pub adapter_right: usize,
}
