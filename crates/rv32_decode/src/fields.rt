ghost use Rattle.std.specs.Prelude.{◌≡◌, ◌<◌, ◌%◌, ◌^◌};
ghost use Rattle.rv32_decode.specs.Destination.{place_of};
ghost use Rattle.rv32_decode.specs.Offset.{words_on};

use std::marker::Model;

/// The number of an integer register, x0 to x31. Contracts see it as that number.
///
/// Source: RISC-V Unprivileged ISA, "Programmers' Model for Base Integer ISA".
#[derive(Clone, Copy, PartialEq, Eq)]
pub struct Register {
    number: u8,
}

impl Model for Register {
    ghost use Rattle.std.specs.Prelude.{ℕ, ◌<◌};

    ghost Value = { ℕ };

    ghost view = { λ r. r.number };

    ghost invariant = { λ r. r.number < 32 };

    ghost inverse = { λ n. record { number = n } };
}

impl Register {
    /// The register of this number, which is below 32.
    pub fn new(number: u8) -> Register
        requires { number < 32 }
        ensures { result ≡ number }
    {
        Register { number }
    }

    /// Its number, below 32.
    pub fn number(self) -> u8
        ensures value { result ≡ self }
        ensures below { result < 32 }
    {
        self.number
    }
}

/// The number of an integer register to which a result goes, x0 to x31. Contracts see it as that number.
///
/// It is kept as a place: a register's own number, and 32 for x0. What is written to x0 then goes where nothing reads it, and
/// no write has to look for x0.
#[derive(Clone, Copy)]
pub struct Destination {
    place: u8,
}

impl Model for Destination {
    ghost use Rattle.std.specs.Prelude.{ℕ, ◌<◌, ◌≤◌, ◌%◌};
    ghost use Rattle.rv32_decode.specs.Destination.{place_of, place_back};

    ghost Value = { ℕ };

    ghost view = { λ d. d.place % 32 };

    ghost invariant = { λ d. (0 < d.place) × (d.place ≤ 32) };

    ghost inverse = { λ n. record { place = place_of n } };

    ghost inverse_ok = { λ d h i. record { place = place_back d.place h.0 h.1 i } };
}

impl Destination {
    /// The register of this number, which is below 32, as a destination.
    pub fn new(number: u8) -> Destination
        requires { number < 32 }
        ensures { result ≡ number }
    {
        Destination {
            place: if number == 0 { 32 } else { number },
        }
    }

    /// The register.
    pub fn register(self) -> Register
        ensures { result ≡ self }
    {
        Register::new(self.place % 32)
    }

    /// Its place, 1 to 32: its number, and 32 for x0.
    #[inline]
    pub fn place(self) -> u8
        ensures { result ≡ place_of self }
    {
        self.place
    }
}

/// How far a branch or a jump goes: bytes, of 32 bits, an even number. Contracts see it as that number.
///
/// It is kept as a number of words, of 32 bits with a sign. Where the bytes are no whole words it is 2^30 more, which is farther than
/// any code.
#[derive(Clone, Copy)]
pub struct Offset {
    words: u32,
}

impl Model for Offset {
    ghost use Rattle.std.specs.Prelude.{ℕ};
    ghost use Rattle.rv32_decode.specs.Offset.{words_of, bytes_of, AreWords, words_back};

    ghost Value = { ℕ };

    ghost view = { λ o. bytes_of o.words };

    ghost invariant = { λ o. AreWords o.words };

    ghost inverse = { λ n. record { words = words_of n } };

    ghost inverse_ok = { λ o h i. record { words = words_back o.words h i } };
}

impl Offset {
    /// The offset of so many bytes.
    pub fn new(bytes: u32) -> Offset
        requires { bytes % 2 ≡ 0 }
        ensures { result ≡ bytes }
    {
        let sign = if bytes < 1 << 31 { 0 } else { 3 << 30 };
        let odd = if bytes % 4 == 0 { 0 } else { 1 << 30 };
        Offset {
            words: (bytes / 4 + sign).wrapping_add(odd),
        }
    }

    /// How many bytes it is.
    pub fn bytes(self) -> u32
        ensures { result ≡ self }
    {
        let odd = if self.words.wrapping_add(1 << 29) < 1 << 30 {
            0
        } else {
            2
        };
        self.words.wrapping_mul(4) + odd
    }

    /// How many words it is, modulo 2^64; at least 2^29 where it is no whole words.
    #[inline]
    pub fn words_on(self) -> usize
        ensures words { result ≡ words_on self }
        ensures below { self < 2 ^ 32 }
    {
        i64::from(self.words.cast_signed()).cast_unsigned() as usize
    }
}

/// How far SLLI, SRLI and SRAI shift: 0 to 31 bits. Contracts see it as that number.
///
/// Source: RISC-V Unprivileged ISA, "Integer Register-Immediate Instructions".
#[derive(Clone, Copy)]
pub struct ShiftAmount {
    bits: u8,
}

impl Model for ShiftAmount {
    ghost use Rattle.std.specs.Prelude.{ℕ, ◌<◌};

    ghost Value = { ℕ };

    ghost view = { λ s. s.bits };

    ghost invariant = { λ s. s.bits < 32 };

    ghost inverse = { λ n. record { bits = n } };
}

impl ShiftAmount {
    /// The amount of this many bits, below 32.
    pub fn new(bits: u8) -> ShiftAmount
        requires { bits < 32 }
        ensures { result ≡ bits }
    {
        ShiftAmount { bits }
    }

    /// How many bits, below 32.
    pub fn bits(self) -> u8
        ensures value { result ≡ self }
        ensures below { result < 32 }
    {
        self.bits
    }
}
