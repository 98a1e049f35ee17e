// One test for each reason of document 01 from 21 on, and the first that holds. For the crates above, which have tested
// the file and, from 22 on, found the read: hence each `requires`.
ghost use Rattle.std.specs.Prelude.{◌≡◌, ℕ, ◌+◌, ◌≤◌, ◌<◌, [], length, get_or};
ghost use Rattle.octets.specs.Parts.{part, same};
ghost use Rattle.answers.specs.Answer.{Accepted, answer_of};
ghost use Rattle.sff_format.specs.HeaderTest.{read_count};
ghost use Rattle.sff_format.specs.ReadTest.{name_length, base_count};
ghost use Rattle.sff_format.specs.FileTest.{file_test};
ghost use Rattle.sff_format.specs.Parse.{parse};
ghost use Rattle.sff_format.specs.Places.{read_place, replaced};
ghost use Rattle.correction_format.specs.Fields.{asked};
ghost use Rattle.correction_format.specs.Reasons.{name_among, position_above, other_name, index_present, clip_above, name_taken, no_room, reasons};

use answers::{Cause, Refusal};
use correction_format::Kind;
use octets::inner::{get16, get32, up8};
use sff_clips::inner::clip_test;
use sff_file::inner::{first_boundary, next_boundary, past_index};
use sff_header::inner::{HeadedFile, is_declared};
use sff_record::inner::Record;
use sff_walk::BasePosition;

// Whether the read at `place` has the name.
fn has_name(file: &[u8], place: usize, name: &[u8]) -> bool
    requires { place + 16 + name_length file.now place ≤ length file.now }
    ensures { result ≡ same name.now (part (place + 16) (name_length file.now place) file.now) }
{
    let start = place + 16;
    let end = start + get16(file, place + 2);
    name == &file[start..end]
}

// Whether a read has the name, but for the one at the position.
fn name_among(file: &[u8], position: usize, name: &[u8]) -> bool
    requires { file_test file.now ≡ Accepted }
    ensures { result ≡ name_among name.now (replaced position [] (parse file.now).reads) }
{
    let headed = HeadedFile::new(file);
    let mut at = first_boundary(&headed);
    for behind in 0..headed.reads() {
        let start = past_index(&headed, at);
        let borne = (behind != position) & has_name(file, start.place, name);
        if borne {
            return true;
        }
        at = next_boundary(&headed, start);
    }
    false
}

// 21: the position is not below the number of reads.
pub fn position_above(file: &[u8], record: &Record) -> bool
    requires { file_test file.now ≡ Accepted }
    ensures { (room : ℕ) → result ≡ position_above room (asked «record».now.fields «record».now.bytes.now) (parse file.now) }
{
    record.fields.position >= get32(file, 20)
}

// The number of bases of the read at `place`.
fn base_count(file: &[u8], place: usize) -> usize
    requires { place + 16 ≤ length file.now }
    ensures { (result ≡ base_count file.now place) × (result < 4294967296) }
{
    get32(file, place + 4)
}

// 25: a rename or a removal, and the file has an index.
pub fn index_present(file: &[u8], record: &Record) -> bool
    requires file_value { file_test file.now ≡ Accepted }
    requires position_bound { «record».now.fields.position < read_count file.now }
    ensures { (room : ℕ) → result ≡ index_present room (asked «record».now.fields «record».now.bytes.now) (parse file.now) }
{
    if record.fields.kind == Kind::Clips {
        return false;
    }
    let headed = HeadedFile::new(file);
    is_declared(headed.index_offset(), headed.index_length())
}

// 24: a rename to a name that another read bears.
pub fn name_taken(file: &[u8], record: &Record) -> bool
    requires file_value { file_test file.now ≡ Accepted }
    requires position_bound { «record».now.fields.position < read_count file.now }
    ensures { (room : ℕ) → result ≡ name_taken room (asked «record».now.fields «record».now.bytes.now) (parse file.now) }
{
    if record.fields.kind != Kind::Rename {
        return false;
    }
    name_among(file, record.fields.position, record.new_name())
}

// A record, and its read in an accepted file.
#[derive(Clone, Copy)]
pub struct Judged<'a> {
    file: &'a [u8],
    record: &'a Record<'a>,
    place: usize,
    ghost bytes_fit: { (i : ℕ) → get_or file.now i 0 < 256 },
    ghost accepted: { file_test file.now ≡ Accepted },
    ghost below: { «record».now.fields.position < read_count file.now },
    ghost place_is: { place ≡ read_place file.now «record».now.fields.position },
}

impl<'a> Judged<'a> {
    // The record, and its read at `place`.
    pub fn new(file: &'a [u8], correction: &'a Record<'a>, place: usize) -> Judged<'a>
        requires file_value { file_test file.now ≡ Accepted }
        requires position_bound { correction.now.fields.position < read_count file.now }
        requires place_value { place ≡ read_place file.now correction.now.fields.position }
        ensures file_value { result.file.now ≡ file.now }
        ensures record_value { result.record.now ≡ correction.now }
    {
        Judged {
            file,
            record: correction,
            place,
        }
    }

    // 22: the read has another name.
    pub fn other_name(&self) -> bool
        ensures { (room : ℕ) → result ≡ other_name room (asked self.now.record.now.fields self.now.record.now.bytes.now) (parse self.now.file.now) }
    {
        !has_name(self.file, self.place, self.record.old_name())
    }

    // 23: a new clip is above the read's number of bases.
    pub fn clip_above(&self) -> bool
        ensures { (room : ℕ) → result ≡ clip_above room (asked self.now.record.now.fields self.now.record.now.bytes.now) (parse self.now.file.now) }
    {
        let fields = self.record.fields;
        if fields.kind != Kind::Clips {
            return false;
        }
        clip_test(
            0,
            base_count(self.file, self.place),
            BasePosition(fields.quality_left),
            BasePosition(fields.quality_right),
            BasePosition(fields.adapter_left),
            BasePosition(fields.adapter_right),
        )
        .is_err()
    }

    // 26: the file with the new name does not fit into a buffer of `room` bytes, into which it fits as it is.
    pub fn no_room(&self, room: usize) -> bool
        requires { length self.now.file.now ≤ room }
        ensures { result ≡ no_room room (asked self.now.record.now.fields self.now.record.now.bytes.now) (parse self.now.file.now) }
    {
        let fields = self.record.fields;
        if fields.kind != Kind::Rename {
            return false;
        }
        room - self.file.len() + get16(self.file, self.place) < up8(16 + fields.new_length)
    }
}

// The first reason from 22 on against a record whose read stands at `place`, in a buffer of `room` bytes.
pub fn reason(file: &[u8], room: usize, place: usize, record: &Record) -> Result<(), Refusal>
    requires file_value { file_test file.now ≡ Accepted }
    requires position_bound { «record».now.fields.position < read_count file.now }
    requires place_value { place ≡ read_place file.now «record».now.fields.position }
    requires file_len_bound { length file.now ≤ room }
    ensures { answer_of result ≡ reasons room (asked «record».now.fields «record».now.bytes.now) (parse file.now) }
{
    let judged = Judged {
        file,
        record,
        place,
    };
    if judged.other_name() {
        return Err(Refusal(Cause::OtherName, 0));
    }
    if index_present(file, record) {
        return Err(Refusal(Cause::IndexPresent, 0));
    }
    if judged.clip_above() {
        return Err(Refusal(Cause::NewClip, 0));
    }
    if name_taken(file, record) {
        return Err(Refusal(Cause::NameTaken, 0));
    }
    if judged.no_room(room) {
        return Err(Refusal(Cause::NoRoom, 0));
    }
    Ok(())
}
