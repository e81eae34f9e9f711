ghost use Rattle.std.specs.Prelude.{◌≡◌, ◌<◌, ◌≤◌, ◌+◌, ◌^◌};
ghost use Rattle.rv32_exec.specs.Arrival as spec;
ghost use Rattle.rv32_exec.specs.NextEvent.{next_event};
ghost use Rattle.rv32_exec.specs.Hart.{stepped};
ghost use Rattle.rv32_exec.specs.Execute.{IsStopOf};

use crate::hart::Hart;
use crate::notes::NoNotes;
use crate::stop::Stop;
use rv32_image::Image;
use std::marker::Model;

/// How far a hart has come without an access to data: the hart that was handed in, the hart before the
/// instruction at which it stopped, and the stop. Contracts see these three.
///
/// At a load or a store the access has width 1, 2 or 4, and the hart has executed fewer than 1,000,000 instructions.
#[derive(Clone, Copy)]
pub struct Arrived {
    base: Hart,
    now: Hart,
    at: Stop,
}

impl Model for Arrived {
    ghost use Rattle.rv32_exec.specs.Arrival.{Arrival};

    ghost Value = { Arrival };

    ghost use Rattle.rv32_exec.specs.Arrival.{HasRoom};

    ghost view = { λ a. record { base = a.base; now = a.now; at = a.at } };

    ghost invariant = { λ a. HasRoom a.now a.at };

    ghost inverse = { λ v. record { base = v.base; now = v.now; at = v.at } };
}

impl Arrived {
    /// The hart that was handed in.
    pub fn base(&self) -> &Hart
        ensures { result.now ≡ self.entry.now.base }
    {
        &self.base
    }

    /// The hart before the instruction at which it stopped.
    pub fn now(&self) -> Hart
        ensures { result ≡ self.entry.now.now }
    {
        self.now
    }

    /// Where it stopped.
    pub fn at(&self) -> Stop
        ensures at { result ≡ self.entry.now.at }
        ensures room { spec.HasRoom self.entry.now.now self.entry.now.at }
    {
        self.at
    }

    /// Sets a hart to that after the load at which it stopped. `number` is that of the bytes that were loaded, little
    /// endian; its upper bytes are 0.
    pub fn set_loaded(&self, number: u32, hart: &mut Hart)
        requires { spec.IsAtLoad self.now.at number }
        ensures { hart.new ≡ spec.after_loading self.entry.now number }
    {
        hart.copy_from(&self.now);
        complete_load(hart, self.at, number);
    }

    /// Sets a hart to that after the store at which it stopped.
    pub fn set_stored(&self, hart: &mut Hart)
        requires { spec.IsAtStore self.now.at }
        ensures { hart.new ≡ stepped self.entry.now.now }
    {
        hart.copy_from(&self.now);
        hart.go_on();
    }

    /// Runs on the hart that has come so far.
    #[inline]
    fn run(&mut self, image: &Image)
        ensures base { self.new.base ≡ self.old.base }
        ensures now { self.new.now ≡ (next_event image.now self.old.now).now }
        ensures at { self.new.at ≡ (next_event image.now self.old.now).at }
        ensures stop { IsStopOf image.now self.new.now self.new.at }
        ensures later { self.old.now.done ≤ self.new.now.done }
    {
        let Arrived { now, at, .. } = self;
        run_on(image, now, at);
    }

    /// Advances from this hart, in place of what was there.
    pub fn advance_from(&mut self, image: &Image, hart: &Hart)
        ensures base { self.new.base ≡ hart.now }
        ensures now { self.new.now ≡ (next_event image.now hart.now).now }
        ensures at { self.new.at ≡ (next_event image.now hart.now).at }
        ensures stop { IsStopOf image.now self.new.now self.new.at }
        ensures later { hart.now.done ≤ self.new.now.done }
    {
        let Arrived { base, now, at } = self;
        base.copy_from(hart);
        now.copy_from(hart);
        run_on(image, now, at);
    }

    /// Makes the load at which it stopped, and advances from there. `number` is that of the bytes that are loaded, little
    /// endian; its upper bytes are 0.
    pub fn advance_past_load(&mut self, image: &Image, number: u32)
        requires { spec.IsAtLoad self.old.at number }
        ensures base { self.new.base ≡ spec.after_loading self.old number }
        ensures now { self.new.now ≡ (next_event image.now (spec.after_loading self.old number)).now }
        ensures at { self.new.at ≡ (next_event image.now (spec.after_loading self.old number)).at }
        ensures stop { IsStopOf image.now self.new.now self.new.at }
        ensures later { self.old.now.done ≤ self.new.now.done }
    {
        let Arrived { base, now, at } = self;
        complete_load(now, *at, number);
        base.copy_from(now);
        run_on(image, now, at);
    }

    /// Makes the store at which it stopped, and advances from there.
    pub fn advance_past_store(&mut self, image: &Image)
        requires { spec.IsAtStore self.old.at }
        ensures base { self.new.base ≡ stepped self.old.now }
        ensures now { self.new.now ≡ (next_event image.now (stepped self.old.now)).now }
        ensures at { self.new.at ≡ (next_event image.now (stepped self.old.now)).at }
        ensures stop { IsStopOf image.now self.new.now self.new.at }
        ensures later { self.old.now.done ≤ self.new.now.done }
    {
        let Arrived { base, now, at } = self;
        now.go_on();
        base.copy_from(now);
        run_on(image, now, at);
    }
}

/// Runs a hart to its next access to data, its end or its fault.
pub fn advance(image: &Image, hart: Hart) -> Arrived
    ensures base { result.base ≡ hart }
    ensures now { result.now ≡ (next_event image.now hart).now }
    ensures at { result.at ≡ (next_event image.now hart).at }
    ensures stop { IsStopOf image.now result.now result.at }
    ensures later { hart.done ≤ result.now.done }
{
    let mut arrived = Arrived {
        base: hart,
        now: hart,
        at: Stop::Ended,
    };
    arrived.run(image);
    arrived
}

/// Runs a hart on, and sets `at` to where it stops.
fn run_on(image: &Image, hart: &mut Hart, at: &mut Stop)
    ensures now { hart.new ≡ (next_event image.now hart.old).now }
    ensures at { at.new ≡ (next_event image.now hart.old).at }
    ensures stop { IsStopOf image.now hart.new at.new }
    ensures room { spec.HasRoom hart.new at.new }
    ensures later { hart.old.done ≤ hart.new.done }
{
    // With no memory at hand it stops at an access to data.
    hart.run(image, &mut [], at, &mut NoNotes);
}

/// The hart after the load at which it stopped. `number` is that of the bytes that were loaded, little endian; its
/// upper bytes are 0.
pub fn loaded(arrived: &Arrived, number: u32) -> Hart
    requires { spec.IsAtLoad arrived.now.at number }
    ensures { result ≡ spec.after_loading arrived.entry.now number }
{
    let mut hart = arrived.now;
    complete_load(&mut hart, arrived.at, number);
    hart
}

/// Completes the load at which a hart has stopped.
#[inline]
fn complete_load(hart: &mut Hart, at: Stop, number: u32)
    requires at { spec.IsAtLoad at number }
    requires room { spec.HasRoom hart.old at }
    ensures { hart.new ≡ spec.after_number hart.old at number }
{
    if let Stop::Load {
        width,
        signed,
        rd,
        ..
    } = at
    {
        hart.complete_load(width, signed, rd, number);
    }
}

/// The hart after the store at which it stopped.
pub fn stored(arrived: &Arrived) -> Hart
    requires { spec.IsAtStore arrived.now.at }
    ensures { result ≡ stepped arrived.entry.now.now }
{
    let mut after = arrived.now;
    after.go_on();
    after
}
