// The lines that the programs print, each a text that is measured and put field by field.
ghost use Rattle.std.specs.Prelude.{◌≡◌};
ghost use Rattle.text.specs.Writer.{HasRoom, Puts};
ghost use Rattle.lines.specs.Lines.{number_field, word_field, labelled_number, labelled_word, extent, refusal_line, too_long, answer_line};
ghost use Rattle.lines.specs.Texts.{header_text, read_text};
ghost use Rattle.answers.specs.Causes.{number};

use answers::Refusal;
use text::inner::{Text, TextWriter, number_length, word_length};

// Puts a number and the byte that ends it.
fn put_number_field(writer: &mut TextWriter, n: usize, end: u8)
    requires { HasRoom (number_field n end) writer.old }
    ensures { Puts (number_field n end) writer.old writer.new }
{
    writer.put_number(n);
    writer.put_byte(end);
}

// Puts a word, "-" where it is empty, and the byte that ends it.
fn put_word_field(writer: &mut TextWriter, word: &[u8], end: u8)
    requires { HasRoom (word_field word.now end) writer.old }
    ensures { Puts (word_field word.now end) writer.old writer.new }
{
    writer.put_or_dash(word);
    writer.put_byte(end);
}

// Puts a number behind its label.
fn put_labelled_number(writer: &mut TextWriter, label: &[u8], n: usize, end: u8)
    requires { HasRoom (labelled_number label.now n end) writer.old }
    ensures { Puts (labelled_number label.now n end) writer.old writer.new }
{
    writer.put_bytes(label);
    put_number_field(writer, n, end);
}

// Puts a word behind its label.
fn put_labelled_word(writer: &mut TextWriter, label: &[u8], word: &[u8], end: u8)
    requires { HasRoom (labelled_word label.now word.now end) writer.old }
    ensures { Puts (labelled_word label.now word.now end) writer.old writer.new }
{
    writer.put_bytes(label);
    put_word_field(writer, word, end);
}

// Puts a read's number of bases, and the first and the last base of its insert.
fn put_extent(writer: &mut TextWriter, bases: usize, first: usize, last: usize)
    requires { HasRoom (extent bases first last) writer.old }
    ensures { Puts (extent bases first last) writer.old writer.new }
{
    put_number_field(writer, bases, b' ');
    put_number_field(writer, first, b' ');
    put_number_field(writer, last, b' ');
}

// The line of a file's header.
#[derive(Clone, Copy)]
pub struct HeaderLine<'a> {
    pub flows: usize,
    pub key: &'a [u8],
    pub reads: usize,
}

impl Text for HeaderLine<'_> {
    ghost text = { header_text };

    #[tactic(auto, using(crate::proofs::Lengths::header_line_length))]
    fn left_of(&self, room: usize) -> Option<usize> {
        let numbers = number_length(self.flows) + number_length(self.reads);
        room.checked_sub(word_length(self.key))?
            .checked_sub(numbers + 19)
    }

    fn put(&self, writer: &mut TextWriter) {
        put_labelled_number(writer, b"flows ", self.flows, b' ');
        put_labelled_word(writer, b"key ", self.key, b' ');
        put_labelled_number(writer, b"reads ", self.reads, b'\n');
    }
}

// The line of a read: its number of bases, and the first and the last base of its insert.
#[derive(Clone, Copy)]
pub struct ReadLine<'a> {
    pub position: usize,
    pub name: &'a [u8],
    pub bases: usize,
    pub first: usize,
    pub last: usize,
    pub insert: &'a [u8],
}

impl Text for ReadLine<'_> {
    ghost text = { read_text };

    #[tactic(auto, using(crate::proofs::Lengths::read_line_length))]
    fn left_of(&self, room: usize) -> Option<usize> {
        let extent = number_length(self.bases)
            + number_length(self.first)
            + number_length(self.last);
        let numbers = number_length(self.position) + extent;
        room.checked_sub(word_length(self.name))?
            .checked_sub(word_length(self.insert))?
            .checked_sub(numbers + 6)
    }

    fn put(&self, writer: &mut TextWriter) {
        put_number_field(writer, self.position, b' ');
        put_word_field(writer, self.name, b' ');
        put_extent(writer, self.bases, self.first, self.last);
        put_word_field(writer, self.insert, b'\n');
    }
}

// The line of a refusal.
#[derive(Clone, Copy)]
pub struct RefusalLine {
    pub number: usize,
    pub place: usize,
}

impl From<Refusal> for RefusalLine {
    fn from(refusal: Refusal) -> RefusalLine
        ensures { result ≡ record { number = number refusal.0; place = refusal.1 } }
    {
        let Refusal(cause, place) = refusal;
        RefusalLine {
            number: cause.number() as usize,
            place,
        }
    }
}

impl Text for RefusalLine {
    ghost text = { λ line. refusal_line line.number line.place };

    #[tactic(auto, using(crate::proofs::Lengths::refusal_line_length))]
    fn left_of(&self, room: usize) -> Option<usize> {
        room.checked_sub(number_length(self.number) + number_length(self.place) + 13)
    }

    fn put(&self, writer: &mut TextWriter) {
        put_labelled_number(writer, b"refused ", self.number, b' ');
        put_labelled_number(writer, b"at ", self.place, b'\n');
    }
}

// The line of an input that is too long.
#[derive(Clone, Copy)]
pub struct TooLong;

impl Text for TooLong {
    ghost text = { λ line. too_long };

    fn left_of(&self, room: usize) -> Option<usize> {
        room.checked_sub(9)
    }

    fn put(&self, writer: &mut TextWriter) {
        writer.put_bytes(b"too long\n");
    }
}

// The line of a list run's answer.
#[derive(Clone, Copy)]
pub struct AnswerLine {
    pub count: usize,
    pub number: usize,
    pub place: usize,
    pub size: usize,
}

impl Text for AnswerLine {
    ghost text = { λ line. answer_line line.count line.number line.place line.size };

    #[tactic(auto, using(crate::proofs::Lengths::answer_line_length))]
    fn left_of(&self, room: usize) -> Option<usize> {
        let counts = number_length(self.count) + number_length(self.size);
        room.checked_sub(counts + number_length(self.number) + number_length(self.place) + 30)
    }

    fn put(&self, writer: &mut TextWriter) {
        put_labelled_number(writer, b"count ", self.count, b' ');
        put_labelled_number(writer, b"number ", self.number, b' ');
        put_labelled_number(writer, b"place ", self.place, b' ');
        put_labelled_number(writer, b"length ", self.size, b'\n');
    }
}
