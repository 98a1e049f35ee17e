// Each call that reads or writes a unit asks that the bytes have it; the callers have measured that.
ghost use Rattle.std.specs.Prelude.{◌≡◌, ◌+◌, ◌%◌, ◌<◌, ◌≤◌, ℕ, length};
ghost use Rattle.octets.specs.Parts.{put_at};
ghost use Rattle.octets.specs.Numbers.{number, bytes_of};
ghost use Rattle.filter_format.specs.Units.{IsWidth, range};
ghost use Rattle.filter_format.specs.Delta.{sum, difference};
ghost use Rattle.std.proofs.Common.{rules};

// A unit of 1, 2 or 4 bytes, big endian: what the formats put in a row.
pub trait Unit: Copy {
    // How many bytes a unit has, and the number that it is.
    ghost WIDTH: { ℕ };

    ghost value: { Self → ℕ };

    const WIDTH: usize;

    // The unit of the low bytes of a number.
    fn low(n: u32) -> Self
        ensures { value result ≡ n % range WIDTH };

    fn number(self) -> u32
        ensures { (result ≡ value self) × (result < range WIDTH) };

    // The unit at `at`.
    fn get(bytes: &[u8], at: usize) -> Self
        requires { at + WIDTH ≤ length bytes.now }
        ensures { value result ≡ number WIDTH at bytes.now };

    // Puts the unit at `at`.
    fn put(self, bytes: &mut [u8], at: usize)
        requires { at + WIDTH ≤ length bytes.old }
        ensures { bytes.new ≡ put_at at (bytes_of WIDTH (value self)) bytes.old };

    // Sum and difference, modulo the unit's range.
    fn plus(self, other: Self) -> Self
        ensures { value result ≡ sum (range WIDTH) (value self) (value other) };

    fn minus(self, other: Self) -> Self
        ensures { value result ≡ difference (range WIDTH) (value other) (value self) };

    ghost is_width: { IsWidth WIDTH };
}

impl Unit for u8 {
    ghost WIDTH = { 1 };

    ghost value = { λ x. x };

    const WIDTH: usize = 1;

    fn low(n: u32) -> u8 {
        (n % 256) as u8
    }

    fn number(self) -> u32 {
        u32::from(self)
    }

    #[tactic(auto, using(octets::proofs::Digits::number_one))]
    fn get(bytes: &[u8], at: usize) -> u8 {
        bytes[at]
    }

    #[tactic(auto, using(crate::proofs::Widths::put_one))]
    fn put(self, bytes: &mut [u8], at: usize) {
        bytes[at] = self;
    }

    fn plus(self, other: u8) -> u8 {
        self.wrapping_add(other)
    }

    fn minus(self, other: u8) -> u8 {
        self.wrapping_sub(other)
    }

    ghost is_width = { Prim.search rules };
}

impl Unit for u16 {
    ghost WIDTH = { 2 };

    ghost value = { λ x. x };

    const WIDTH: usize = 2;

    fn low(n: u32) -> u16 {
        (n % 65536) as u16
    }

    fn number(self) -> u32 {
        u32::from(self)
    }

    #[tactic(auto, using(octets::proofs::Digits::number_two))]
    fn get(bytes: &[u8], at: usize) -> u16 {
        u16::from_be_bytes([bytes[at], bytes[at + 1]])
    }

    #[tactic(auto, using(crate::proofs::Widths::put_two))]
    fn put(self, bytes: &mut [u8], at: usize) {
        bytes[at..at + 2].copy_from_slice(&self.to_be_bytes());
    }

    fn plus(self, other: u16) -> u16 {
        self.wrapping_add(other)
    }

    fn minus(self, other: u16) -> u16 {
        self.wrapping_sub(other)
    }

    ghost is_width = { Prim.search rules };
}

impl Unit for u32 {
    ghost WIDTH = { 4 };

    ghost value = { λ x. x };

    const WIDTH: usize = 4;

    fn low(n: u32) -> u32 {
        n
    }

    fn number(self) -> u32 {
        self
    }

    #[tactic(auto, using(octets::proofs::Digits::number_four))]
    fn get(bytes: &[u8], at: usize) -> u32 {
        u32::from_be_bytes([bytes[at], bytes[at + 1], bytes[at + 2], bytes[at + 3]])
    }

    #[tactic(auto, using(crate::proofs::Widths::put_four))]
    fn put(self, bytes: &mut [u8], at: usize) {
        bytes[at..at + 4].copy_from_slice(&self.to_be_bytes());
    }

    fn plus(self, other: u32) -> u32 {
        self.wrapping_add(other)
    }

    fn minus(self, other: u32) -> u32 {
        self.wrapping_sub(other)
    }

    ghost is_width = { Prim.search rules };
}
