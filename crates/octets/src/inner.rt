// For the crates above, which have measured the bytes: hence each `requires`.
ghost use Rattle.std.specs.Prelude.{◌≡◌, ◌+◌, ◌≤◌, ◌<◌, ◌^◌, length};
ghost use Rattle.octets.specs.Parts.{part, same, up8};
ghost use Rattle.octets.specs.Numbers.{number};
ghost use Rattle.octets.specs.Scans.{first_not, passes};

use crate::ByteTest;

// The next multiple of 8, or n itself.
pub fn up8(n: usize) -> usize
    requires { n + 7 < 18446744073709551616 }
    ensures { result ≡ up8 n }
{
    (n + 7) / 8 * 8
}

// The number of N bytes at `at`, the most significant first. Each N makes one load of it.
fn get_number<const N: usize>(bytes: &[u8], at: usize) -> usize
    requires { (N ≤ 8) × (at + N ≤ length bytes.now) }
    ensures { (result ≡ number N at bytes.now) × (result < 256 ^ N) }
{
    let mut number = 0;
    for x in &bytes[at..at + N] {
        number = number * 256 + usize::from(*x);
    }
    number
}

// The number of two bytes at `at`.
pub fn get16(bytes: &[u8], at: usize) -> usize
    requires { at + 2 ≤ length bytes.now }
    ensures { (result ≡ number 2 at bytes.now) × (result < 65536) }
{
    get_number::<2>(bytes, at)
}

// The number of four bytes at `at`.
pub fn get32(bytes: &[u8], at: usize) -> usize
    requires { at + 4 ≤ length bytes.now }
    ensures { (result ≡ number 4 at bytes.now) × (result < 4294967296) }
{
    get_number::<4>(bytes, at)
}

// The number of eight bytes at `at`.
pub fn get64(bytes: &[u8], at: usize) -> usize
    requires { at + 8 ≤ length bytes.now }
    ensures { result ≡ number 8 at bytes.now }
{
    get_number::<8>(bytes, at)
}

// Whether the n bytes of `bytes` from `at` on are those of `other` from `from` on.
pub fn same_part(bytes: &[u8], at: usize, other: &[u8], from: usize, n: usize) -> bool
    requires { (at + n ≤ length bytes.now) × (from + n ≤ length other.now) }
    ensures { result ≡ same (part at n bytes.now) (part from n other.now) }
{
    bytes[at..at + n] == other[from..from + n]
}

// The first place from `from` on, before `to`, whose byte fails the test, or `to`.
pub fn first_not(test: ByteTest, bytes: &[u8], from: usize, to: usize) -> usize
    requires { (from ≤ to) × (to ≤ length bytes.now) }
    ensures { (result ≡ first_not (passes test) from to bytes.now) × (result ≤ to) }
{
    for (j, x) in bytes[from..to].iter().enumerate() {
        if !test.passes(*x) {
            return from + j;
        }
    }
    to
}
