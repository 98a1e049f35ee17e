// The types that the definitions and the code share. There is no function here.

#![tactic(auto)]

use answers::Refusal;

// Bytes of a file, or entries of a list: the place of the first, and how many.
#[derive(Clone, Copy)]
pub struct Span {
    pub at: usize,
    pub size: usize,
}

// A boundary of a file: its place, and whether the index is passed there.
#[derive(Clone, Copy)]
pub struct Boundary {
    pub place: usize,
    pub passed: bool,
}

// What a step says of a read: its place, where its contents lie, and its clips.
#[derive(Clone, Copy)]
pub struct ReadView {
    pub place: usize,
    pub name: Span,
    pub values: Span,
    pub increments: Span,
    pub bases: Span,
    pub qualities: Span,
    pub quality_left: usize,
    pub quality_right: usize,
    pub adapter_left: usize,
    pub adapter_right: usize,
}

// The clips of a read that is to be written, in file order.
#[derive(Clone, Copy)]
pub struct Clips {
    pub quality_left: u16,
    pub quality_right: u16,
    pub adapter_left: u16,
    pub adapter_right: u16,
}

// Why a writer or a correction did nothing, and the file's length afterwards: the one given, or 0 of a new file.
#[derive(Clone, Copy, Debug, PartialEq, Eq)]
pub struct NotDone {
    pub refusal: Refusal,
    pub length: usize,
}
