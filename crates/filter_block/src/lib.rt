// A filtered block: its format, the tests of its contents, and its filter undone. All of it is inner: the entry points
// are in `filter_undo` and `filter_encode`.

#![tactic(auto)]

pub mod inner;
