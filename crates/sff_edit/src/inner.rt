// For the corrector, which has judged the record and found its read: hence each `requires`.
ghost use Rattle.std.specs.Prelude.{◌≡◌, ◌+◌, ◌-◌, ◌≤◌, length, take};
ghost use Rattle.octets.specs.Parts.{up8};
ghost use Rattle.answers.specs.Answer.{Accepted};
ghost use Rattle.sff_format.specs.HeaderTest.{read_count};
ghost use Rattle.sff_format.specs.ReadTest.{section_length};
ghost use Rattle.sff_format.specs.FileTest.{file_test};
ghost use Rattle.sff_format.specs.Parse.{parse};
ghost use Rattle.sff_format.specs.Places.{read_place};
ghost use Rattle.correction_format.specs.Fields.{asked};
ghost use Rattle.correction_format.specs.Reasons.{reasons};
ghost use Rattle.correction_format.specs.Correct.{file_replaced};
ghost use Rattle.sff_edit.specs.Edits.{afresh, clipped_at, renamed_at, removed_at};

use buffers::inner::{copy, put16, put32};
use correction_format::Kind;
use octets::inner::{get16, get32, up8};
use sff_read::inner::read_end;
use sff_record::inner::Record;
use splice::inner::{cut, splice};

// Gives the read at `place` the four new clips.
fn put_clips(buffer: &mut [u8], place: usize, clips: &[u8])
    requires { (place + 16 ≤ length buffer.old) × (length clips.now ≡ 8) }
    ensures { buffer.new ≡ clipped_at place clips.now buffer.old }
{
    copy(buffer, place + 8, clips, 0, 8);
}

// Gives the read at `place` the name that fills the first n bytes of the field, and answers the file's length
// afterwards.
fn put_name(buffer: &mut [u8], len: usize, place: usize, n: usize, field: &[u8]) -> usize
    requires bound { (16 ≤ section_length buffer.old place) × (place + section_length buffer.old place ≤ len) × (len ≤ length buffer.old) }
    requires field_len { (length field.now ≡ 40) × (n ≤ 40) }
    requires n_in_bounds { len + up8 (16 + n) ≤ length buffer.old + section_length buffer.old place }
    ensures value { result ≡ len - section_length buffer.old place + up8 (16 + n) }
    ensures buffer_after { buffer.new ≡ renamed_at place len n field.now buffer.old }
{
    let old_section = get16(buffer, place);
    let new_section = up8(16 + n);
    splice(
        buffer,
        place + 16,
        old_section - 16,
        len,
        field,
        0,
        new_section - 16,
    );
    put16(buffer, place, new_section);
    put16(buffer, place + 2, n);
    len - old_section + new_section
}

// Takes out the read of `size` bytes at `place`, and answers the file's length afterwards.
fn take_out(buffer: &mut [u8], len: usize, place: usize, size: usize) -> usize
    requires in_bounds { (24 ≤ length buffer.old) × (place + size ≤ len) × (len ≤ length buffer.old) }
    requires bound { 1 ≤ read_count buffer.old }
    ensures value { result ≡ len - size }
    ensures buffer_after { buffer.new ≡ removed_at place size len buffer.old }
{
    let reads = get32(buffer, 20);
    cut(buffer, place, size, len);
    put32(buffer, 20, reads - 1);
    len - size
}

// Carries out a record for which no reason holds on the file that fills the first `len` bytes of the buffer and whose
// read stands at `place`. Answers the file's length afterwards.
pub fn apply(buffer: &mut [u8], len: usize, place: usize, record: &Record) -> usize
    requires len_in_bounds { len ≤ length buffer.old }
    requires buffer_value { file_test (take len buffer.old) ≡ Accepted }
    requires place_value { place ≡ read_place (take len buffer.old) «record».now.fields.position }
    requires buffer_value_2 { reasons (length buffer.old) (asked «record».now.fields «record».now.bytes.now) (parse (take len buffer.old)) ≡ Accepted }
    ensures value { result ≡ length (afresh (asked «record».now.fields «record».now.bytes.now) len buffer.old) }
    ensures buffer_after { buffer.new ≡ file_replaced (afresh (asked «record».now.fields «record».now.bytes.now) len buffer.old) len buffer.old }
{
    match record.fields.kind {
        Kind::Clips => {
            put_clips(buffer, place, record.new_clips_field());
            len
        }
        Kind::Rename => {
            let field = record.new_name_field();
            put_name(buffer, len, place, record.fields.new_length, field)
        }
        Kind::Remove => {
            let flows = get16(buffer, 28);
            let end = read_end(&buffer[..len], place, flows);
            take_out(buffer, len, place, end - place)
        }
    }
}
