// A file with its header's fields, each read once, for this crate and those above it, which have seen that the file has
// the header's 31 bytes: so `new` may ask for them.
ghost use Rattle.std.specs.Prelude.{◌≡◌, ◌+◌, ◌≤◌, ◌<◌, length};
ghost use Rattle.octets.specs.Parts.{whole_part};
ghost use Rattle.sff_format.specs.Rules.{declared, index_size};
ghost use Rattle.sff_format.specs.HeaderTest;
ghost use Rattle.sff_header.specs.Header.{header_of, FieldsFit};
ghost use Rattle.sff_format.specs.HeaderTest.{index_offset, index_length, read_count, header_length, key_length, flows, characters_end};

use crate::Header;
use octets::inner::{get16, get32, get64};
use octets::whole_part;
use std::marker::Model;

// A file, and the fields of its header that differ from file to file, each in the width that it has there. A contract
// sees the file's bytes alone.
#[derive(Clone, Drop)]
pub struct HeadedFile<'a> {
    bytes: &'a [u8],
    index_offset: usize,
    index_length: u32,
    reads: u32,
    length: u16,
    key_length: u16,
    flows: u16,
}

impl<'a> Model for HeadedFile<'a> {
    ghost use Rattle.std.specs.Prelude.{ℕ, List};
    ghost use Rattle.sff_header.specs.Header.{FieldsRead};

    ghost Value = { List ℕ };

    ghost view = { λ file. file.bytes.now };

    ghost invariant = { FieldsRead };
}

impl<'a> HeadedFile<'a> {
    pub fn new(bytes: &'a [u8]) -> HeadedFile<'a>
        requires { 31 ≤ length bytes.now }
        ensures { result ≡ bytes.now }
    {
        HeadedFile {
            bytes,
            index_offset: get64(bytes, 8),
            index_length: get32(bytes, 16) as u32,
            reads: get32(bytes, 20) as u32,
            length: get16(bytes, 24) as u16,
            key_length: get16(bytes, 26) as u16,
            flows: get16(bytes, 28) as u16,
        }
    }

    // The same of a file of any length, by fields that were read before.
    pub fn of_fields(
        bytes: &'a [u8],
        index_offset: usize,
        index_length: u32,
        reads: u32,
        length: u16,
        key_length: u16,
        flows: u16,
    ) -> HeadedFile<'a>
        requires index_offset_value { index_offset ≡ HeaderTest.index_offset bytes.now }
        requires index_length_value { index_length ≡ HeaderTest.index_length bytes.now }
        requires reads_value { reads ≡ HeaderTest.read_count bytes.now }
        requires length_value { length ≡ HeaderTest.header_length bytes.now }
        requires key_length_value { key_length ≡ HeaderTest.key_length bytes.now }
        requires flows_value { flows ≡ HeaderTest.flows bytes.now }
        ensures { result ≡ bytes.now }
    {
        HeadedFile {
            bytes,
            index_offset,
            index_length,
            reads,
            length,
            key_length,
            flows,
        }
    }

    pub fn bytes(&self) -> &'a [u8]
        ensures { result.now ≡ self.now }
    {
        self.bytes
    }

    pub fn index_offset(&self) -> usize
        ensures { result ≡ index_offset self.now }
    {
        self.index_offset
    }

    pub fn index_length(&self) -> usize
        ensures { (result ≡ index_length self.now) × (result < 4294967296) }
    {
        self.index_length as usize
    }

    pub fn reads(&self) -> usize
        ensures { (result ≡ read_count self.now) × (result < 4294967296) }
    {
        self.reads as usize
    }

    pub fn length(&self) -> usize
        ensures { (result ≡ header_length self.now) × (result < 65536) }
    {
        self.length as usize
    }

    pub fn key_length(&self) -> usize
        ensures { (result ≡ key_length self.now) × (result < 65536) }
    {
        self.key_length as usize
    }

    pub fn flows(&self) -> usize
        ensures { (result ≡ flows self.now) × (result < 65536) }
    {
        self.flows as usize
    }

    // 31+F+K: where flow and key characters end.
    pub(crate) fn characters_end(&self) -> usize
        ensures { (result ≡ characters_end self.now) × (result < 131103) }
    {
        31 + self.flows() + self.key_length()
    }

    // The flow characters, none where they do not all lie in the file.
    pub fn flow_characters(&self) -> &'a [u8]
        ensures { result.now ≡ whole_part 31 (flows self.now) self.now }
    {
        whole_part(self.bytes(), 31, self.flows())
    }

    // The key characters likewise.
    pub fn key(&self) -> &'a [u8]
        ensures { result.now ≡ whole_part (31 + flows self.now) (key_length self.now) self.now }
    {
        whole_part(self.bytes(), 31 + self.flows(), self.key_length())
    }

    // Whether the header's two index fields say that there is an index.
    pub fn has_index(&self) -> bool
        ensures { result ≡ declared (index_offset self.now) (index_length self.now) }
    {
        is_declared(self.index_offset(), self.index_length())
    }

    // The room that the index occupies. A place in the file and this size have a sum.
    #[tactic(auto, unfolding(sff_format::specs::Rules::index_size))]
    pub fn index_size(&self) -> usize
        ensures value { result ≡ index_size (index_length self.now) }
        ensures fits { length self.now + result < 18446744073709551616 }
    {
        index_size(self.index_length as usize)
    }
}

// The header's fields, each read once.
#[tactic(auto, unfolding(crate::specs::Header::header_of))]
pub fn header_fields(file: &[u8]) -> Header
    requires { 31 ≤ length file.now }
    ensures value { result ≡ header_of file.now }
    ensures fields_fit { FieldsFit result }
{
    Header {
        index_offset: get64(file, 8),
        index_length: get32(file, 16),
        reads: get32(file, 20),
        length: get16(file, 24),
        key_length: get16(file, 26),
        flows: get16(file, 28),
    }
}

// Whether an index of this offset and length is there.
#[tactic(auto, unfolding(sff_format::specs::Rules::declared))]
pub fn is_declared(offset: usize, index_length: usize) -> bool
    ensures { result ≡ declared offset index_length }
{
    !((offset == 0) & (index_length == 0))
}

// The room that an index of a stated length occupies.
#[tactic(auto, unfolding(sff_format::specs::Rules::index_size))]
pub fn index_size(stated_length: usize) -> usize
    ensures { result ≡ index_size stated_length }
{
    stated_length
}
