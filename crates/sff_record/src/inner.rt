// A record that is well formed, for the crates above: what it says, by its fields and its names.
ghost use Rattle.std.specs.Prelude.{◌≡◌, length};
ghost use Rattle.octets.specs.Parts.{part};
ghost use Rattle.answers.specs.Answer.{Accepted};
ghost use Rattle.correction_format.specs.Record.{position, old_name, new_name, record_test};
ghost use Rattle.correction_format.specs.Fields.{fields_at, FieldsOf};

use correction_format::{Fields, Kind};
use octets::inner::{get16, get32};
use octets::wide;

// A well-formed record's bytes, and its fields read once.
#[derive(Clone, Copy)]
pub struct Record<'a> {
    pub bytes: &'a [u8],
    pub fields: Fields,
    pub ghost formed: { record_test bytes.now ≡ Accepted },
    pub ghost fields_of: { FieldsOf fields bytes.now },
}

// The fields of a record, with its own position. Its kind is told as `kind_by` tells it, without TryFrom: a `Record` has
// one of the three, and no error is left to make.
pub fn record_fields(record: &[u8]) -> Fields
    requires { length «record».now ≡ 96 }
    ensures { result ≡ fields_at (position «record».now) «record».now }
{
    Fields {
        kind: match record[0] {
            1 => Kind::Clips,
            2 => Kind::Rename,
            _ => Kind::Remove,
        },
        position: get32(record, 4),
        old_length: wide(record[1]),
        new_length: wide(record[2]),
        quality_left: get16(record, 8),
        quality_right: get16(record, 10),
        adapter_left: get16(record, 12),
        adapter_right: get16(record, 14),
    }
}

impl<'a> Record<'a> {
    // The record that the bytes are, with its own position. Tested before: a Result of it is copied, and slower.
    pub fn new(bytes: &'a [u8]) -> Self
        requires { record_test bytes.now ≡ Accepted }
        ensures bytes { result.bytes.now ≡ bytes.now }
        ensures fields { result.fields ≡ fields_at (position bytes.now) bytes.now }
    {
        Record {
            bytes,
            fields: record_fields(bytes),
        }
    }

    // The four clips that kind 1 gives the read, in file order.
    pub fn new_clips_field(&self) -> &'a [u8]
        ensures { result.now ≡ part 8 8 self.now.bytes.now }
    {
        &self.bytes[8..16]
    }

    // The name that the read must have.
    pub fn old_name(&self) -> &'a [u8]
        ensures { result.now ≡ old_name self.now.bytes.now }
    {
        let end = 16 + self.fields.old_length;
        &self.bytes[16..end]
    }

    // The name that a rename gives the read.
    pub fn new_name(&self) -> &'a [u8]
        ensures { result.now ≡ new_name self.now.bytes.now }
    {
        let end = 56 + self.fields.new_length;
        &self.bytes[56..end]
    }

    // The same in its field, with the zeros after it.
    pub fn new_name_field(&self) -> &'a [u8]
        ensures { result.now ≡ part 56 40 self.now.bytes.now }
    {
        &self.bytes[56..96]
    }
}
