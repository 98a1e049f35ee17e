// Edits of a file in place.

#![tactic(auto)]

pub mod inner;
