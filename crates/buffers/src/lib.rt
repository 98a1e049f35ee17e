// Numbers, fills, copies and moves put into a lent buffer.

#![tactic(auto)]

pub mod inner;
