// Units of formats 70 and 71: counted, made whole, and narrowed to one byte where they fit it. All functions are inner:
// each says what it requires.

#![tactic(auto)]

pub mod inner;
