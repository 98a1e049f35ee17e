// A stretch of a file in a buffer replaced in place.

#![tactic(auto)]

pub mod inner;
