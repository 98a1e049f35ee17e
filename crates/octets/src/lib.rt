// Numbers, comparisons and scans in byte slices, and the least and the greatest of two numbers.

#![tactic(auto)]

ghost use Rattle.std.specs.Prelude.{◌≡◌, ◌<◌, min, max};
ghost use Rattle.octets.specs.Parts.{whole_part};
ghost use Rattle.octets.specs.Scans.{passes, fails};

pub mod inner;

// What the bytes of a stretch are tested for. An enum and no closure: the promises of the scans say `passes test`, which
// gives each case the paper's words.
#[derive(Clone, Copy)]
pub enum ByteTest {
    FlowCharacter,
    NameByte,
    Zero,
}

impl ByteTest {
    // Whether the byte x passes.
    fn passes(self, x: u8) -> bool
        ensures { result ≡ passes self x }
    {
        match self {
            ByteTest::FlowCharacter => ((x == 65) | (x == 67)) | ((x == 71) | (x == 84)),
            ByteTest::NameByte => (33 <= x) & (x <= 126),
            ByteTest::Zero => x == 0,
        }
    }
}

// The byte x as a number, whose promise says that it is below 256.
pub fn wide(x: u8) -> usize
    ensures { (result ≡ x) × (result < 256) }
{
    usize::from(x)
}

// The least of two numbers.
pub fn least(x: usize, y: usize) -> usize
    ensures { result ≡ min x y }
{
    if y < x { y } else { x }
}

// The greatest of two numbers.
pub fn greatest(x: usize, y: usize) -> usize
    ensures { result ≡ max x y }
{
    if x < y { y } else { x }
}

// The same of 32 bits, of which the compiler compares four at a time.
pub fn least32(a: u32, b: u32) -> u32
    ensures { result ≡ min a b }
{
    if b < a { b } else { a }
}

pub fn greatest32(a: u32, b: u32) -> u32
    ensures { result ≡ max a b }
{
    if a < b { b } else { a }
}

// The n bytes from `at` on, as a part of `bytes`; its empty front where they do not all lie there.
pub fn whole_part(bytes: &[u8], at: usize, n: usize) -> &[u8]
    ensures { result.now ≡ whole_part at n bytes.now }
{
    if at > bytes.len() {
        return &bytes[..0];
    }
    if n > bytes.len() - at {
        return &bytes[..0];
    }
    &bytes[at..at + n]
}

// Whether some byte fails the test. No turn leaves the loop: so the compiler tests many bytes at a time.
pub fn fails(test: ByteTest, bytes: &[u8]) -> bool
    ensures { result ≡ fails (passes test) bytes.now }
{
    let mut failed = false;
    for x in bytes {
        failed |= !test.passes(*x);
    }
    failed
}
