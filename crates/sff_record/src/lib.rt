// A correction record, judged by itself: its one refusal is 20 at place 0.

#![tactic(auto)]

ghost use Rattle.std.specs.Prelude.{◌≡◌, ◌+◌, ◌≤◌, length};
ghost use Rattle.answers.specs.Answer.{answer_of};
ghost use Rattle.correction_format.specs.Record.{name_field_test, unused_test, new_clips_test, new_name_test, record_test};

use answers::{Cause, Refusal};
use octets::{ByteTest, fails, wide};

pub mod inner;

// The n bytes from `at` on are zero.
fn unused_test(record: &[u8], at: usize, n: usize) -> Result<(), Refusal>
    requires { at + n ≤ length «record».now }
    ensures { answer_of result ≡ unused_test at n «record».now }
{
    let end = at + n;
    if fails(ByteTest::Zero, &record[at..end]) {
        return Err(Refusal(Cause::Record, 0));
    }
    Ok(())
}

// A name of n bytes, with zeros after it, fills the 40 bytes from `at` on.
fn name_field_test(record: &[u8], at: usize, n: usize) -> Result<(), Refusal>
    requires { at + 40 ≤ length «record».now }
    ensures { answer_of result ≡ name_field_test at n «record».now }
{
    if n < 1 {
        return Err(Refusal(Cause::Record, 0));
    }
    if n > 40 {
        return Err(Refusal(Cause::Record, 0));
    }
    let end = at + n;
    if fails(ByteTest::NameByte, &record[at..end]) {
        return Err(Refusal(Cause::Record, 0));
    }
    unused_test(record, end, at + 40 - end)
}

// New clips, in kind 1 alone. These tests compare the byte itself, as their definitions do: it is not a kind yet.
fn new_clips_test(record: &[u8]) -> Result<(), Refusal>
    requires { length «record».now ≡ 96 }
    ensures { answer_of result ≡ new_clips_test «record».now }
{
    if record[0] == 1 {
        return Ok(());
    }
    unused_test(record, 8, 8)
}

// A new name, in kind 2 alone.
fn new_name_test(record: &[u8]) -> Result<(), Refusal>
    requires { length «record».now ≡ 96 }
    ensures { answer_of result ≡ new_name_test «record».now }
{
    if record[0] == 2 {
        return name_field_test(record, 56, wide(record[2]));
    }
    unused_test(record, 2, 1)?;
    unused_test(record, 56, 40)
}

// The whole test of a correction record.
pub fn record_test(record: &[u8]) -> Result<(), Refusal>
    ensures { answer_of result ≡ record_test «record».now }
{
    if record.len() != 96 {
        return Err(Refusal(Cause::Record, 0));
    }
    if record[0] < 1 {
        return Err(Refusal(Cause::Record, 0));
    }
    if record[0] > 3 {
        return Err(Refusal(Cause::Record, 0));
    }
    unused_test(record, 3, 1)?;
    name_field_test(record, 16, wide(record[1]))?;
    new_clips_test(record)?;
    new_name_test(record)
}
