ghost use Rattle.std.specs.Prelude.{◌≡◌, ◌<◌, ◌≤◌, ◌+◌, ◌*◌, ◌%◌, ◌^◌, false, true, length, slice_index};
ghost use Rattle.rv32_exec.specs.Hart as spec;
ghost use Rattle.rv32_exec.specs.Execute.{Stops, after_load, hart_effect};
ghost use Rattle.rv32_exec.specs.Interpreter.{IsFar, IsLeft, IsNoAccess, IsPlace, LeadsTo, hart_at};
ghost use Rattle.rv32_exec.specs.Sequential.{exits};
ghost use Rattle.memory_bytes.specs.Bytes.{IsWidth};
ghost use Rattle.rv32_image.specs.Image.{IsImage};

use crate::access::extend;
use crate::instruction::address;
use crate::interpreter::{Place, Why, run_code, stop, stop_outside};
use crate::notes::Notes;
use crate::registers::Registers;
use crate::stop::{EPOCH_END, Stop};
use rv32_decode::{Destination, Register};
use rv32_image::Image;
use std::marker::Model;

/// The state of one epoch's execution, memory aside. Contracts see it as its registers, its pc and its count.
///
/// The pc is a multiple of 4, and x0 is 0.
///
/// Source: RISC-V Unprivileged ISA, "Programmers' Model for Base Integer ISA".
#[derive(Clone, Copy)]
pub struct Hart {
    x: Registers,
    pc: u32,
    done: u64,
}

impl Model for Hart {
    ghost use Rattle.rv32_exec.specs.Hart.{HartState};

    ghost Value = { HartState };

    ghost use Rattle.std.specs.Prelude.{◌≡◌};
    ghost use Rattle.std.proofs.Common.{sym};
    ghost use Rattle.rv32_exec.specs.Hart.{IsHart};

    ghost view = { λ h. record { x = h.x.x; pc = h.pc; done = h.done } };

    ghost invariant = { λ h. IsHart (record { x = h.x.x; pc = h.pc; done = h.done }) × (h.x.unread ≡ 0) };

    ghost inverse = { λ s. record { x = record { x = s.x; unread = 0 }; pc = s.pc; done = s.done } };

    ghost inverse_ok = { λ h known i. record { x = record { x = h.x.x; unread = sym known.1 i }; pc = h.pc; done = h.done } };
}

impl PartialEq for Hart {
    ghost use Rattle.std.specs.Prelude.{nat_eq};
    ghost use Rattle.std.specs.Ordering.{eq_of_both, on};
    ghost use Rattle.std.proofs.Common.{rules};
    ghost use Rattle.std.specs.Cmp.Rules.{comparing};
    ghost use lib.Pointwise.{pointwise};

    ghost eq = { eq_of_both (on (λ h. h.x) (pointwise nat_eq)) (eq_of_both (on (λ h. h.pc) nat_eq) (on (λ h. h.done) nat_eq)) };

    ghost laws = { Prim.search (comparing, rules) };

    fn eq(&self, other: &Hart) -> bool {
        self.x.is(&other.x) && self.pc == other.pc && self.done == other.done
    }
}

impl Eq for Hart {
    ghost use Rattle.std.proofs.Common.{rules};
    ghost use Rattle.std.specs.Cmp.Rules.{comparing};

    ghost laws = { Prim.search (comparing, rules) };
}

impl Hart {
    /// What a register holds.
    #[inline]
    pub fn x(&self, register: Register) -> u32
        ensures { result ≡ slice_index self.now.x register }
    {
        self.x.get(register)
    }

    /// The address of the next instruction, a multiple of 4.
    #[inline]
    pub fn pc(&self) -> u32
        ensures pc { result ≡ self.now.pc }
        ensures hart { spec.IsHart self.now }
    {
        self.pc
    }

    /// How many instructions of its epoch the hart has executed.
    #[inline]
    pub fn done(&self) -> u64
        ensures { result ≡ self.now.done }
    {
        self.done
    }

    /// Whether an epoch that ends with this hart exits the loop: the image allows it, and x10 is not 0.
    pub fn exits(&self, image: &Image) -> bool
        ensures { result ≡ exits image.now self.now }
    {
        image.exit() && self.x.get(Register::new(10)) != 0
    }

    /// Becomes this other one, field by field: a copy of the whole would be a call of the C library.
    // Always inlined: each access of a core makes three such copies.
    #[inline(always)]
    pub fn copy_from(&mut self, other: &Hart)
        ensures { self.new ≡ other.now }
    {
        self.x.copy_from(&other.x);
        self.pc = other.pc;
        self.done = other.done;
    }

    /// Writes a register, and goes on to the next instruction.
    #[inline]
    pub(crate) fn write(&mut self, rd: Register, value: u32)
        requires { self.old.done < 2 ^ 63 }
        ensures { self.new ≡ spec.wrote self.old rd value }
    {
        self.x.put(Destination::new(rd.number()), value);
        self.x.settle();
        self.go_on();
    }

    /// Goes on to the next instruction.
    #[inline]
    pub(crate) fn go_on(&mut self)
        requires { self.old.done < 2 ^ 63 }
        ensures { self.new ≡ spec.stepped self.old }
    {
        self.pc = self.pc.wrapping_add(4);
        self.done += 1;
    }

    /// Completes a load of this number.
    #[inline]
    pub(crate) fn complete_load(&mut self, width: u32, signed: bool, rd: Register, number: u32)
        requires wide { IsWidth width }
        requires number { number < 256 ^ width }
        requires room { self.old.done < 2 ^ 63 }
        ensures { self.new ≡ after_load self.old width signed rd number }
    {
        self.write(rd, extend(width, signed, number));
    }

    /// Runs it over memory up to its end or fault, which it answers, and tells `notes` of each load and store.
    pub fn run_to_end<N: Notes>(&mut self, image: &Image, bytes: &mut [u8], notes: &mut N) -> Stop
        requires limits { IsImage image.now }
        requires size { length bytes.old ≡ image.now.size }
        requires right { N.right image.now notes.old self.old bytes.old }
        ensures stop { hart_effect image.now self.new ≡ Stops result }
        ensures end { IsNoAccess result }
        ensures size { length bytes.new ≡ image.now.size }
        ensures fixed { N.fixed notes.new ≡ N.fixed notes.old }
        ensures right { N.right image.now notes.new self.new bytes.new }
    {
        let mut at = Stop::Ended;
        self.run(image, bytes, &mut at, notes);
        at
    }

    /// Runs it over memory up to its next stop, and sets `at` to that. `bytes` is memory from address 0 on as far as it is at hand: it
    /// stops at a load or a store past it.
    #[inline]
    pub(crate) fn run<N: Notes>(
        &mut self,
        image: &Image,
        bytes: &mut [u8],
        at: &mut Stop,
        notes: &mut N,
    )
        requires size { length bytes.old ≤ image.now.size }
        requires words { length bytes.old % 4 ≡ 0 }
        requires right { N.right image.now notes.old self.old bytes.old }
        ensures stop { hart_effect image.now self.new ≡ Stops at.new }
        ensures whole { length bytes.old ≡ image.now.size → IsNoAccess at.new }
        ensures leads { LeadsTo image.now self.old bytes.old self.new bytes.new }
        ensures limit { image.now.limit ≤ 1000000 }
        ensures fixed { N.fixed notes.new ≡ N.fixed notes.old }
        ensures right { N.right image.now notes.new self.new bytes.new }
    {
        let (pc, done) = (self.pc, self.done);
        if done > u64::from(image.limit()) || pc > image.code() {
            *at = stop_outside(image, pc, done);
            return;
        }
        self.run_far(image, at, (pc / 4) as usize, bytes, notes);
    }

    /// The same of a hart that has come to this word. Up to where the limit is near, only a jump has to look for it: each run through
    /// the code ends before the limit.
    #[inline(never)]
    fn run_far<N: Notes>(
        &mut self,
        image: &Image,
        at: &mut Stop,
        word: usize,
        bytes: &mut [u8],
        notes: &mut N,
    )
        requires word { 4 * word ≡ self.old.pc }
        requires code { self.old.pc ≤ image.now.code }
        requires limit { self.old.done ≤ image.now.limit }
        requires size { length bytes.old ≤ image.now.size }
        requires words { length bytes.old % 4 ≡ 0 }
        requires right { N.right image.now notes.old self.old bytes.old }
        ensures stop { hart_effect image.now self.new ≡ Stops at.new }
        ensures whole { length bytes.old ≡ image.now.size → IsNoAccess at.new }
        ensures leads { LeadsTo image.now self.old bytes.old self.new bytes.new }
        ensures fixed { N.fixed notes.new ≡ N.fixed notes.old }
        ensures right { N.right image.now notes.new self.new bytes.new }
    {
        let done = self.done;
        let from = Place::of(image, word, done);
        if from.is_near(image) {
            return self.run_near(image, at, word, bytes, notes);
        }
        let why = self.run_from(from, image, at, false, bytes, notes);
        let (pc, done) = (self.pc, self.done);
        if let Why::Near = why {
            return self.run_near(image, at, (pc / 4) as usize, bytes, notes);
        }
        stop(image, pc, done, why, at);
    }

    /// The same, where the limit may come before the end of the code.
    #[inline(never)]
    fn run_near<N: Notes>(
        &mut self,
        image: &Image,
        at: &mut Stop,
        word: usize,
        bytes: &mut [u8],
        notes: &mut N,
    )
        requires word { 4 * word ≡ self.old.pc }
        requires code { self.old.pc ≤ image.now.code }
        requires limit { self.old.done ≤ image.now.limit }
        requires size { length bytes.old ≤ image.now.size }
        requires words { length bytes.old % 4 ≡ 0 }
        requires right { N.right image.now notes.old self.old bytes.old }
        ensures stop { hart_effect image.now self.new ≡ Stops at.new }
        ensures whole { length bytes.old ≡ image.now.size → IsNoAccess at.new }
        ensures leads { LeadsTo image.now self.old bytes.old self.new bytes.new }
        ensures fixed { N.fixed notes.new ≡ N.fixed notes.old }
        ensures right { N.right image.now notes.new self.new bytes.new }
    {
        let done = self.done;
        let from = Place::of(image, word, done);
        let why = self.run_from(from, image, at, true, bytes, notes);
        let (pc, done) = (self.pc, self.done);
        stop(image, pc, done, why, at);
    }

    /// Runs the loop over the code, from the place where it is, and answers why that has ended.
    #[inline(always)]
    fn run_from<N: Notes>(
        &mut self,
        from: Place,
        image: &Image,
        at: &mut Stop,
        is_near: bool,
        bytes: &mut [u8],
        notes: &mut N,
    ) -> Why
        requires from { hart_at image.now self.old.x from ≡ self.old }
        requires place { IsPlace image.now from }
        requires in_code { 4 * from.word ≤ image.now.code }
        requires near { is_near ≡ false → image.now.code ≤ 4 * from.last }
        requires size { length bytes.old ≤ image.now.size }
        requires words { length bytes.old % 4 ≡ 0 }
        requires right { N.right image.now notes.old self.old bytes.old }
        ensures left { IsLeft image.now (length bytes.old) self.new result at.new }
        ensures leads { LeadsTo image.now self.old bytes.old self.new bytes.new }
        ensures far { is_near ≡ true → IsFar result }
        ensures fixed { N.fixed notes.new ≡ N.fixed notes.old }
        ensures right { N.right image.now notes.new self.new bytes.new }
    {
        let left = run_code(image, &mut self.x, from, is_near, bytes, at, notes);
        self.x.settle();
        self.x.look();
        let (pc, done) = (address(&self.x, left.place.word), left.place.done(image));
        self.pc = pc;
        self.done = done;
        left.why
    }
}

/// The hart at the start of an epoch: pc 0, x10 the epoch's number, x1 `EPOCH_END`, the other registers as the
/// image says.
pub fn start(image: &Image, epoch: u32) -> Hart
    ensures { result ≡ spec.start_of image.now epoch }
{
    let mut x = image.regs();
    x[10] = epoch;
    x[1] = EPOCH_END;
    Hart {
        x: Registers::new(x),
        pc: 0,
        done: 0,
    }
}
