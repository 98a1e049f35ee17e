// The reasons not to carry out a correction.

#![tactic(auto)]

pub mod inner;
