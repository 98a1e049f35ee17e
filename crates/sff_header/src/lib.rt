// The header's tests, its flow and key characters, and its fields. `bad_index_length` alone decides which lengths an
// index may have, and `index_size` alone the room that it takes.

#![tactic(auto)]

ghost use Rattle.std.specs.Prelude.{◌≡◌, ◌≤◌, length};
ghost use Rattle.octets.specs.Parts.{up8};
ghost use Rattle.answers.specs.Answer.{answer_of};
ghost use Rattle.sff_format.specs.Rules.{bad_index_length, bad_index};
ghost use Rattle.sff_format.specs.HeaderTest.{header_length, characters_end, fixed_test, characters_test, header_test, file_flow_characters, file_key};

pub mod inner;

use crate::inner::{HeadedFile, is_declared};
use answers::{Cause, Refusal};
use octets::ByteTest;
use octets::inner::{first_not, get32, up8};

// The fields of the common header that differ from file to file, without the file: a value that a caller keeps.
#[derive(Clone, Copy)]
pub struct Header {
    pub index_offset: usize,
    pub index_length: usize,
    pub reads: usize,
    pub length: usize,
    pub key_length: usize,
    pub flows: usize,
}

#[tactic(auto, unfolding(sff_format::specs::Rules::bad_index_length))]
fn bad_index_length(index_length: usize) -> bool
    ensures { result ≡ bad_index_length index_length }
{
    (index_length < 8) | (index_length % 8 != 0)
}

// The index fields: just one of them 0, or a length that no index may have (8).
#[tactic(auto, unfolding(sff_format::specs::Rules::bad_index))]
fn bad_index(offset: usize, index_length: usize) -> bool
    ensures { result ≡ bad_index offset index_length }
{
    is_declared(offset, index_length) & ((offset == 0) | bad_index_length(index_length))
}

// The fields that are the same in every file, and the header length: magic (2), version (3), format code (4), length
// (5).
fn fixed_test(file: &HeadedFile) -> Result<(), Refusal>
    requires { 31 ≤ length file.now }
    ensures { answer_of result ≡ fixed_test file.now }
{
    let bytes = file.bytes();
    if get32(bytes, 0) != 0x2E736666 {
        return Err(Refusal(Cause::Magic, 0));
    }
    if get32(bytes, 4) != 1 {
        return Err(Refusal(Cause::Version, 4));
    }
    if bytes[30] != 1 {
        return Err(Refusal(Cause::FormatCode, 30));
    }
    if file.length() != up8(file.characters_end()) {
        return Err(Refusal(Cause::SectionLength, 24));
    }
    Ok(())
}

// Behind the fields, and the index: flow and key characters (6), padding (7), index fields (8).
fn characters_test(file: &HeadedFile) -> Result<(), Refusal>
    requires length_value { header_length file.now ≡ up8 (characters_end file.now) }
    requires length_in_bounds { header_length file.now ≤ length file.now }
    ensures { answer_of result ≡ characters_test file.now }
{
    let bytes = file.bytes();
    let padding = file.characters_end();
    let end = file.length();
    let other = first_not(ByteTest::FlowCharacter, bytes, 31, padding);
    if other < padding {
        return Err(Refusal(Cause::Character, other));
    }
    let other = first_not(ByteTest::Zero, bytes, padding, end);
    if other < end {
        return Err(Refusal(Cause::Padding, other));
    }
    if bad_index(file.index_offset(), file.index_length()) {
        return Err(Refusal(Cause::IndexFields, 8));
    }
    Ok(())
}

// All of the header's tests, in their order, on any bytes: under 31 bytes (1), the fixed fields and the length (2, 3,
// 4, 5), under its own length (1), characters, padding and index (6, 7, 8).
pub fn header_test(file: &[u8]) -> Result<(), Refusal>
    ensures { answer_of result ≡ header_test file.now }
{
    if file.len() < 31 {
        return Err(Refusal(Cause::CutShort, 0));
    }
    let headed = HeadedFile::new(file);
    fixed_test(&headed)?;
    if file.len() < headed.length() {
        return Err(Refusal(Cause::CutShort, 0));
    }
    characters_test(&headed)
}

// The flow characters, none where the header is refused: `header_test` then gives the number.
pub fn flow_characters(file: &[u8]) -> &[u8]
    ensures { result.now ≡ file_flow_characters file.now }
{
    let Ok(()) = header_test(file) else {
        return &file[..0];
    };
    HeadedFile::new(file).flow_characters()
}

// The key characters, none where the header is refused.
pub fn key(file: &[u8]) -> &[u8]
    ensures { result.now ≡ file_key file.now }
{
    let Ok(()) = header_test(file) else {
        return &file[..0];
    };
    HeadedFile::new(file).key()
}
