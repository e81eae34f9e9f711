ghost use Rattle.std.specs.Prelude.{◌≡◌, nat_eq, nat_lt, slice_index};
ghost use lib.Pointwise.{pointwise};
ghost use Rattle.rv32_exec.specs.Hart.{AreRegisters, with_register};
ghost use Rattle.rv32_exec.specs.Execute.{add, is_less_signed, shift_right_arithmetic};

use rv32_decode::{Destination, Register};
use std::marker::Model;

/// The integer registers of a hart, x0 to x31, and after them the place of what is written to x0, which nothing reads. Contracts
/// see the registers as `x`, in which x0 is 0, and that place as `unread`.
#[derive(Clone, Copy)]
pub(crate) struct Registers {
    places: [u32; 33],
}

impl Model for Registers {
    ghost use Rattle.std.specs.Prelude.{◌≡◌, length, slice_index};
    ghost use Rattle.rv32_exec.specs.Registers.{RegisterFile, file_of, places_of, places_back};

    ghost Value = { RegisterFile };

    ghost view = { λ r. file_of r.places };

    ghost invariant = { λ r. (length r.places ≡ 33) × (slice_index r.places 0 ≡ 0) };

    ghost inverse = { λ f. record { places = places_of f } };

    ghost inverse_ok = { λ r h i. record { places = places_back r.places h.0 i } };
}

impl Registers {
    /// Registers that hold these values.
    pub(crate) fn new(x: [u32; 32]) -> Registers
        requires { slice_index x 0 ≡ 0 }
        ensures x { result.x ≡ x }
        ensures unread { result.unread ≡ 0 }
    {
        let mut places = [0; 33];
        for number in 0..32 {
            places[number] = x[number];
        }
        Registers { places }
    }

    /// Does nothing: it tells what holds of all registers.
    #[inline]
    pub(crate) fn look(&self)
        ensures { AreRegisters self.now.x }
    {
        let _ = &self.places;
    }

    /// The registers x0 to x31.
    #[inline]
    fn x(&self) -> &[u32; 32]
        ensures { result.now ≡ self.now.x }
    {
        self.places.first_chunk().unwrap()
    }

    /// Whether these hold the same.
    #[inline]
    pub(crate) fn is(&self, other: &Registers) -> bool
        ensures { result ≡ pointwise nat_eq self.now.x other.now.x }
    {
        self.x() == other.x()
    }

    /// Becomes these, with nothing written to x0: a copy of all places would be a call of the C library.
    #[inline(always)]
    pub(crate) fn copy_from(&mut self, other: &Registers)
        ensures x { self.new.x ≡ other.now.x }
        ensures unread { self.new.unread ≡ 0 }
    {
        other.look();
        *self.places.first_chunk_mut::<32>().unwrap() = *other.x();
        self.places[32] = 0;
    }

    /// Forgets what was written to x0.
    #[inline]
    pub(crate) fn settle(&mut self)
        ensures x { self.new.x ≡ self.old.x }
        ensures unread { self.new.unread ≡ 0 }
    {
        self.places[32] = 0_u32;
    }

    /// What a register holds.
    #[inline]
    pub(crate) fn get(&self, register: Register) -> u32
        ensures { result ≡ slice_index self.now.x register }
    {
        self.places[usize::from(register.number())]
    }

    /// The sum of what a register holds and a number, in 32 bits.
    #[inline]
    pub(crate) fn plus(&self, register: Register, number: u32) -> u32
        ensures { result ≡ add (slice_index self.now.x register) number }
    {
        self.get(register).wrapping_add(number)
    }

    /// Whether one holds less than the other, as unsigned numbers.
    #[inline]
    pub(crate) fn is_less(&self, left: Register, right: Register) -> bool
        ensures { result ≡ nat_lt (slice_index self.now.x left) (slice_index self.now.x right) }
    {
        self.get(left) < self.get(right)
    }

    /// Whether one holds less than the other, as signed numbers.
    #[inline]
    pub(crate) fn is_less_signed(&self, left: Register, right: Register) -> bool
        ensures { result ≡ is_less_signed (slice_index self.now.x left) (slice_index self.now.x right) }
    {
        self.get(left).cast_signed() < self.get(right).cast_signed()
    }

    /// What a register holds, shifted right by the low five bits of the amount, with copies of its sign.
    #[inline]
    pub(crate) fn shifted_signed(&self, register: Register, amount: u32) -> u32
        ensures { result ≡ shift_right_arithmetic (slice_index self.now.x register) amount }
    {
        self.get(register)
            .cast_signed()
            .wrapping_shr(amount)
            .cast_unsigned()
    }

    /// Writes a register; x0 stays 0.
    #[inline]
    pub(crate) fn put(&mut self, rd: Destination, value: u32)
        ensures { self.new.x ≡ with_register self.old.x rd value }
    {
        self.places[usize::from(rd.place())] = value;
    }
}
