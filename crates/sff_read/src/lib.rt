// A read's tests, where it ends and what it says.

#![tactic(auto)]

pub mod inner;
