// New files, and reads appended to a file, in a lent buffer. All reasons to refuse are judged before the first byte is
// written.

#![tactic(auto)]

ghost use Rattle.std.specs.Prelude.{◌≡◌, ◌<◌, length};
ghost use Rattle.answers.specs.Answer.{zero_place, answer_of};
ghost use Rattle.sff_format.specs.ReadTest.{clip_test};
ghost use Rattle.sff_format.specs.Writing.{new_test, outcome_of, new_outcome, new_buffer, given_test, open_test, append_test, AppendLeaves};
ghost use Rattle.sff_sections.specs.Sections.{read_in};

use answers::{Cause, Refusal};
use buffers::inner::put32;
use octets::inner::get32;
use octets::{ByteTest, fails};
use sff_clips::inner::clip_test;
use sff_file::file_test;
use sff_format::{Clips, NotDone};
use sff_header::inner::HeadedFile;
use sff_sections::{NewHeader, NewRead};
use sff_walk::BasePosition;
use sff_walk::inner::bases_test;

// The most flow and key characters that leave the header's length below 65,536, the longest name that leaves a read's
// header section's length so, and the most reads that the count at 20 can say.
const MOST_CHARACTERS: usize = 65497;

const LONGEST_NAME: usize = 65512;

const MOST_READS: usize = 4294967295;

// A refusal of the writer's own input, at place 0.
fn zero_place(tested: Result<(), Refusal>) -> Result<(), Refusal>
    ensures { answer_of result ≡ zero_place (answer_of tested) }
{
    tested.map_err(|Refusal(cause, _)| Refusal(cause, 0))
}

// The clips: one above its limit (9), at place 0 as they are the caller's.
fn clips_test(clips: Clips, bases: usize) -> Result<(), Refusal>
    requires { bases < 4294967296 }
    ensures { answer_of result ≡ zero_place (clip_test 0 bases clips.quality_left clips.quality_right clips.adapter_left clips.adapter_right) }
{
    zero_place(clip_test(
        0,
        bases,
        BasePosition(usize::from(clips.quality_left)),
        BasePosition(usize::from(clips.quality_right)),
        BasePosition(usize::from(clips.adapter_left)),
        BasePosition(usize::from(clips.adapter_right)),
    ))
}

// A read for a file with these flow characters: its counts (30), its name's length (5) and bytes (6), its clips (9),
// the flow walk (10), a base (11).
fn given_test(characters: &[u8], read: &NewRead) -> Result<(), Refusal>
    requires { length characters.now < 65536 }
    ensures { answer_of result ≡ given_test characters.now (read_in read.now) }
{
    read.counts_test(characters.len())?;
    if read.name.len() > LONGEST_NAME {
        return Err(Refusal(Cause::SectionLength, 0));
    }
    if fails(ByteTest::NameByte, read.name) {
        return Err(Refusal(Cause::Character, 0));
    }
    clips_test(read.clips, read.bases.len())?;
    zero_place(bases_test(characters, read.increments, read.bases))
}

// A new file's reasons to refuse: too many characters (5), a character (6), no room (26).
fn new_test(room: usize, header: &NewHeader) -> Result<(), Refusal>
    ensures { answer_of result ≡ new_test room header.now.flows.now header.now.key.now }
{
    if header.flows.len() + header.key.len() > MOST_CHARACTERS {
        return Err(Refusal(Cause::SectionLength, 0));
    }
    if fails(ByteTest::FlowCharacter, header.flows) | fails(ByteTest::FlowCharacter, header.key) {
        return Err(Refusal(Cause::Character, 0));
    }
    if room < header.size() {
        return Err(Refusal(Cause::NoRoom, 0));
    }
    Ok(())
}

// Puts a new file, with no reads and no index, at the front of the buffer. Answers its length; refused, 0, with the
// buffer as it was.
pub fn new_file(buffer: &mut [u8], flows: &[u8], key: &[u8]) -> Result<usize, NotDone>
    ensures value { outcome_of result ≡ new_outcome buffer.old flows.now key.now }
    ensures buffer_after { buffer.new ≡ new_buffer buffer.old flows.now key.now }
{
    let header = NewHeader { flows, key };
    new_test(buffer.len(), &header).map_err(|refusal| NotDone { refusal, length: 0 })?;
    header.put(buffer);
    Ok(header.size())
}

// The reasons that a file gives against any read: its own refusal, an index (25), as many reads as can be counted (31).
fn open_test(file: &[u8]) -> Result<(), Refusal>
    ensures { answer_of result ≡ open_test file.now }
{
    file_test(file)?;
    let headed = HeadedFile::new(file);
    if headed.has_index() {
        return Err(Refusal(Cause::IndexPresent, 0));
    }
    if headed.reads() == MOST_READS {
        return Err(Refusal(Cause::ReadCount, 0));
    }
    Ok(())
}

// An append's reasons to refuse: a length above the buffer (14), those of the file, those of the read, no room (26).
fn append_test(buffer: &[u8], file_length: usize, read: &NewRead) -> Result<(), Refusal>
    ensures { answer_of result ≡ append_test buffer.now file_length (read_in read.now) }
{
    if file_length > buffer.len() {
        return Err(Refusal(Cause::FileLength, 0));
    }
    let file = &buffer[..file_length];
    open_test(file)?;
    given_test(HeadedFile::new(file).flow_characters(), read)?;
    if buffer.len() - file_length < read.size() {
        return Err(Refusal(Cause::NoRoom, 0));
    }
    Ok(())
}

// Puts a read behind the file that fills the first `file_length` bytes of the buffer, and counts it. Answers the file's
// length afterwards; refused, the length that was given, with the buffer as it was. File and room are one buffer, as
// the definition has them: so the file's length stands beside it.
pub fn append(buffer: &mut [u8], file_length: usize, read: &NewRead) -> Result<usize, NotDone>
    ensures { AppendLeaves buffer.old file_length (read_in read.now) (outcome_of result) buffer.new }
{
    append_test(buffer, file_length, read).map_err(|refusal| NotDone {
        refusal,
        length: file_length,
    })?;
    let reads = get32(buffer, 20);
    read.put(buffer, file_length);
    put32(buffer, 20, reads + 1);
    Ok(file_length + read.size())
}
