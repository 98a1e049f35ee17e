// For the crates above, which have measured the room that each of these fills: hence each `requires`. Each puts at a
// place of the whole buffer, as the definitions' `put_at` does: a part of it would have to be set back at each call.
ghost use Rattle.std.specs.Prelude.{ℕ, ◌≡◌, ◌+◌, ◌-◌, ◌*◌, ◌≤◌, ◌<◌, length, replicate};
ghost use Rattle.octets.specs.Parts.{put_at, up8};
ghost use Rattle.octets.specs.Numbers.{bytes_of, fields};
ghost use Rattle.sff_format.specs.Model.{layout, layout_read, layout_read_data};
ghost use Rattle.sff_sections.specs.Sections.{header_section, read_in, read_size, file_in, header_size, AllNarrow};

use crate::{NewHeader, NewRead};
use buffers::inner::put_words;
use octets::inner::up8;
use sff_format::Clips;

// Puts all bytes of `source` at `at`.
fn put_bytes(buffer: &mut [u8], at: usize, source: &[u8])
    requires { at + length source.now ≤ length buffer.old }
    ensures { buffer.new ≡ put_at at source.now buffer.old }
{
    buffer[at..at + source.len()].copy_from_slice(source);
}

// Puts zeros behind the used bytes of the section at `at`, up to the next multiple of 8.
fn put_padding(buffer: &mut [u8], at: usize, used: usize)
    requires { at + up8 used ≤ length buffer.old }
    ensures { buffer.new ≡ put_at (at + used) (replicate (up8 used - used) 0) buffer.old }
{
    buffer[at + used..at + up8(used)].fill(0);
}

// Puts the `width` low bytes of `value` at `at`, the most significant first. In `buffers` the width is a constant; here
// it stands in a list.
fn put_number(buffer: &mut [u8], at: usize, width: usize, value: usize)
    requires { (width ≤ 8) × (at + width ≤ length buffer.old) }
    ensures { buffer.new ≡ put_at at (bytes_of width value) buffer.old }
{
    let bytes = value.to_be_bytes();
    buffer[at..at + width].copy_from_slice(&bytes[8 - width..]);
}

// Puts numbers one after another, each of them behind its width in bytes.
fn put_fields(buffer: &mut [u8], at: usize, numbers: &[(usize, usize)])
    requires narrow { AllNarrow numbers.now }
    requires in_bounds { at + length (fields numbers.now) ≤ length buffer.old }
    ensures { buffer.new ≡ put_at at (fields numbers.now) buffer.old }
{
    let mut place = at;
    for (width, value) in numbers {
        put_number(buffer, place, *width, *value);
        place += *width;
    }
}

// How many bytes a read occupies.
pub fn read_size(name_length: usize, flows: usize, bases: usize) -> usize
    requires { (name_length < 65536) × (flows < 65536) × (bases < 4294967296) }
    ensures { result ≡ up8 (16 + name_length) + up8 (2 * flows + 3 * bases) }
{
    up8(16 + name_length) + up8(2 * flows + 3 * bases)
}

// How many bytes a header occupies.
pub fn header_size(flows: usize, key_length: usize) -> usize
    requires { flows + key_length ≤ 65497 }
    ensures { result ≡ up8 (31 + flows + key_length) }
{
    up8(31 + flows + key_length)
}

// Puts the header section of a read of so many bases at `at`.
pub fn put_read_header(buffer: &mut [u8], at: usize, name: &[u8], bases: usize, clips: Clips)
    requires name_in_bounds { at + up8 (16 + length name.now) ≤ length buffer.old }
    requires name_len_bound { length name.now ≤ 65512 }
    ensures { buffer.new ≡ put_at at (header_section name.now bases clips) buffer.old }
{
    let used = 16 + name.len();
    let fields = [
        (2, up8(used)),
        (2, name.len()),
        (4, bases),
        (2, usize::from(clips.quality_left)),
        (2, usize::from(clips.quality_right)),
        (2, usize::from(clips.adapter_left)),
        (2, usize::from(clips.adapter_right)),
    ];
    put_fields(buffer, at, &fields);
    put_bytes(buffer, at + 16, name);
    put_padding(buffer, at, used);
}

impl NewRead<'_> {
    // How many bytes the read occupies.
    pub fn size(&self) -> usize
        requires { (length self.now.name.now < 65536) × (length self.now.values.now < 65536) × (length self.now.bases.now < 4294967296) }
        ensures { result ≡ read_size (read_in self.now) }
    {
        read_size(self.name.len(), self.values.len(), self.bases.len())
    }

    // Puts the data section at `at`.
    pub fn put_data(&self, buffer: &mut [u8], at: usize)
        requires bases_in_bounds { at + up8 (2 * length self.now.values.now + 3 * length self.now.bases.now) ≤ length buffer.old }
        requires increments_len { length self.now.increments.now ≡ length self.now.bases.now }
        requires qualities_len { length self.now.qualities.now ≡ length self.now.bases.now }
        ensures { buffer.new ≡ put_at at (layout_read_data (read_in self.now)) buffer.old }
    {
        let values_size = 2 * self.values.len();
        let n = self.bases.len();
        put_words(buffer, at, self.values);
        put_bytes(buffer, at + values_size, self.increments);
        put_bytes(buffer, at + (values_size + n), self.bases);
        put_bytes(buffer, at + (values_size + 2 * n), self.qualities);
        put_padding(buffer, at, values_size + 3 * n);
    }

    // Puts the read at `at`.
    pub fn put(&self, buffer: &mut [u8], at: usize)
        requires in_bounds { at + read_size (read_in self.now) ≤ length buffer.old }
        requires name_len_bound { length self.now.name.now ≤ 65512 }
        requires increments_len { length self.now.increments.now ≡ length self.now.bases.now }
        requires qualities_len { length self.now.qualities.now ≡ length self.now.bases.now }
        ensures { buffer.new ≡ put_at at (layout_read (read_in self.now)) buffer.old }
    {
        put_read_header(buffer, at, self.name, self.bases.len(), self.clips);
        self.put_data(buffer, at + up8(16 + self.name.len()));
    }
}

impl NewHeader<'_> {
    // How many bytes the header occupies.
    pub fn size(&self) -> usize
        requires { length self.now.flows.now + length self.now.key.now ≤ 65497 }
        ensures { result ≡ header_size (file_in self.now) }
    {
        header_size(self.flows.len(), self.key.len())
    }

    // Puts a new file at the front of the buffer: the header alone.
    pub fn put(&self, buffer: &mut [u8])
        requires key_len_bound { length self.now.flows.now + length self.now.key.now ≤ 65497 }
        requires in_bounds { header_size (file_in self.now) ≤ length buffer.old }
        ensures { buffer.new ≡ put_at 0 (layout (file_in self.now)) buffer.old }
    {
        let key_at = 31 + self.flows.len();
        let fields = [
            (4, 0x2E736666),
            (4, 1),
            (8, 0),
            (4, 0),
            (4, 0),
            (2, self.size()),
            (2, self.key.len()),
            (2, self.flows.len()),
            (1, 1),
        ];
        put_fields(buffer, 0, &fields);
        put_bytes(buffer, 31, self.flows);
        put_bytes(buffer, key_at, self.key);
        put_padding(buffer, 0, key_at + self.key.len());
    }
}
