// Text into a lent buffer at a running place.

#![tactic(auto)]

pub mod inner;
