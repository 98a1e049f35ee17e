// Text that is put into a lent buffer piece by piece. What puts a piece asks for its room, which the crates above have
// measured.
ghost use Rattle.std.specs.Prelude.{◌≡◌, ◌↔◌, IfOk, IsTrue, SomeIff, ℕ, List, [], ◌∷◌, ◌+◌, ◌-◌, ◌≤◌, ◌<◌, length};
ghost use Rattle.octets.specs.Parts.{put_at};
ghost use Rattle.text.specs.Writing.{IsPrefixLen, fitted, or_dash, written, written_of};
ghost use Rattle.text.specs.Decimal.{decimal, decimal_of};
ghost use Rattle.text.specs.Writer.{HasRoom, Puts};

use answers::{Cause, Refusal};

// A lent buffer, and the place that the text in it has come to.
#[derive(Drop)]
pub struct TextWriter<'a> {
    out: &'a mut [u8],
    at: usize,
}

impl<'a> TextWriter<'a> {
    pub fn new(out: &'a mut [u8]) -> TextWriter<'a>
        ensures same_buffer { result.out.ghost_name ≡ out.entry.ghost_name }
        ensures out_value { result.out.now ≡ out.old }
        ensures at_value { result.at ≡ 0 }
    {
        TextWriter { out, at: 0 }
    }

    // The length of the text.
    pub fn length(&self) -> usize
        ensures { result ≡ self.now.at }
    {
        self.at
    }

    pub fn put_byte(&mut self, x: u8)
        requires { HasRoom (x ∷ []) self.old }
        ensures { Puts (x ∷ []) self.old self.new }
    {
        self.out[self.at] = x;
        self.at += 1;
    }

    // Puts all bytes of `source`.
    pub fn put_bytes(&mut self, source: &[u8])
        requires { HasRoom source.now self.old }
        ensures { Puts source.now self.old self.new }
    {
        let n = source.len();
        buffers::inner::copy(self.out, self.at, source, 0, n);
        self.at += n;
    }

    // Puts all bytes of `source`, or "-" where it has none.
    #[tactic(auto, using(crate::proofs::Writing::dash, crate::proofs::Writing::word))]
    pub fn put_or_dash(&mut self, source: &[u8])
        requires { HasRoom (or_dash source.now) self.old }
        ensures { Puts (or_dash source.now) self.old self.new }
    {
        if source.is_empty() {
            self.put_byte(b'-');
        } else {
            self.put_bytes(source);
        }
    }

    // Puts n's decimal digits, the last `most` of them.
    #[tactic(auto, using(crate::proofs::Decimal::counted, crate::proofs::Writing::puts_none, crate::proofs::Writing::room_first))]
    fn put_digits(&mut self, most: usize, n: usize)
        requires { HasRoom (decimal_of most n) self.old }
        ensures { Puts (decimal_of most n) self.old self.new }
    {
        if most == 0 {
            return;
        }
        if n < 10 {
            return self.put_byte(digit_byte(n));
        }
        self.put_digits(most - 1, n / 10);
        self.put_byte(digit_byte(n % 10));
    }

    // Puts n in decimal.
    pub fn put_number(&mut self, n: usize)
        requires { HasRoom (decimal n) self.old }
        ensures { Puts (decimal n) self.old self.new }
    {
        self.put_digits(20, n)
    }
}

fn digit_byte(digit: usize) -> u8
    requires { digit < 10 }
    ensures { result ≡ 48 + digit }
{
    b'0' + digit as u8
}

// How many digits `put_digits` puts. Apart from it, so that wrong programs can measure wrong what they put right.
#[tactic(auto, using(crate::proofs::Decimal::counted))]
fn count_digits(most: usize, n: usize) -> usize
    ensures { result ≡ length (decimal_of most n) }
{
    if most == 0 {
        return 0;
    }
    if n < 10 {
        return 1;
    }
    count_digits(most - 1, n / 10) + 1
}

// How many bytes `put_number` puts.
#[tactic(auto, using(crate::proofs::Decimal::decimal_short))]
pub fn number_length(n: usize) -> usize
    ensures value { result ≡ length (decimal n) }
    ensures upper_bound { result ≤ 20 }
{
    count_digits(20, n)
}

// How many bytes `put_or_dash` puts.
#[tactic(auto, using(crate::proofs::Writing::dash, crate::proofs::Writing::word))]
pub fn word_length(source: &[u8]) -> usize
    ensures { result ≡ length (or_dash source.now) }
{
    source.len().max(1)
}

// A text that is measured before it is put.
pub trait Text {
    ghost text: { Self → List ℕ };

    // What it leaves of so much room, if that is enough.
    fn left_of(&self, room: usize) -> Option<usize>
        ensures { SomeIff result (length (text self.now) ≤ room) (room - length (text self.now)) };

    fn put(&self, writer: &mut TextWriter)
        requires { HasRoom (text self.now) writer.old }
        ensures { Puts (text self.now) writer.old writer.new };

    // Whether so much room is enough.
    fn fits(&self, room: usize) -> bool
        ensures { IsTrue result ↔ (length (text self.now) ≤ room) }
    {
        self.left_of(room).is_some()
    }
}

// Puts a text at the front of `out` and answers its length; 26 exactly if `out` is shorter.
#[tactic(auto, using(crate::proofs::Fitted::fits, crate::proofs::Fitted::fits_not, octets::proofs::Lists::put_nil))]
pub fn write_text<T: Text>(text: &T, out: &mut [u8]) -> Result<usize, Refusal>
    ensures value { written_of result ≡ written (fitted (length out.old) (T.text text.now)) }
    ensures out_after { out.new ≡ put_at 0 (fitted (length out.old) (T.text text.now)).text out.old }
    ensures prefix_len { IfOk result (λ n. IsPrefixLen n out.new) }
{
    if !text.fits(out.len()) {
        return Err(Refusal(Cause::NoRoom, 0));
    }
    let mut writer = TextWriter::new(out);
    text.put(&mut writer);
    Ok(writer.length())
}
