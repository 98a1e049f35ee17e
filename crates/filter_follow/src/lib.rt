// Format 72 undone and done: bytes by a table of what follows each. All of it is inner: each function says what it
// requires.

#![tactic(auto)]

pub mod inner;
