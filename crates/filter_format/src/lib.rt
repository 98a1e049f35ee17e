// The types that the definitions of filtered blocks and their code share. There is no function here.

#![tactic(auto)]

// What the format byte of a block says of it: the data as they are, or a filter with the width of its units in bytes.
// The cases and their widths are those of the definition `filter_of`, and may not change.
#[derive(Clone, Copy)]
pub enum Filter {
    Raw,
    Delta(usize),
    Narrow(usize),
    Follow,
    Other,
}
