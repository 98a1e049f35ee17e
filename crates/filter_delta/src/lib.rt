// Delta on data in units of 1, 2 or 4 bytes, in place, one pass for each level. All of it is inner: each function says
// what it requires.

#![tactic(auto)]

pub mod inner;
