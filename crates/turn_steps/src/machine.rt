//! The machine of the caches that are shown.
ghost use Rattle.std.specs.Prelude.{◌≡◌, ◌≤◌};
ghost use Rattle.rv32_image.specs.Machine.{IsMachine, IsMachineFor};
ghost use Rattle.spec_bus.specs.Cached.{bus};
ghost use Rattle.turn_steps.specs.Caches as spec;

use rv32_image::Machine;
use spec_bus::CachedBus;
use std::marker::Model;

/// A machine that there is. Contracts see it as its sizes.
#[derive(Clone, Copy)]
pub struct KnownMachine {
    machine: Machine,
}

impl Model for KnownMachine {
    ghost use Rattle.rv32_image.specs.declared.machine.Machine.{Machine};
    ghost use Rattle.rv32_image.specs.Machine.{IsMachine};

    ghost Value = { Machine };

    ghost view = { λ m. m.machine };

    ghost invariant = { λ m. IsMachine m.machine };

    ghost inverse = { λ machine. record { machine = machine } };
}

impl KnownMachine {
    /// This machine.
    pub fn new(machine: Machine) -> KnownMachine
        requires { IsMachine machine }
        ensures { result ≡ machine }
    {
        KnownMachine { machine }
    }

    /// Its sizes.
    pub fn sizes(self) -> Machine
        ensures value { result ≡ self }
        ensures known { IsMachine result }
    {
        self.machine
    }

    /// How many lines a cache of this machine has.
    pub fn place_count(self) -> usize
        ensures { result ≡ spec.place_count self }
    {
        self.machine.sets as usize * self.machine.ways as usize
    }
}

/// The caches on a bus, each with at least the ways of a machine.
#[derive(Clone, Copy)]
pub struct PlacedCaches<'a> {
    /// The bus that they are on.
    pub caches: &'a CachedBus,
    /// The machine.
    pub machine: KnownMachine,
    pub ghost ways: { machine.ways ≤ (bus caches.now).geometry.ways },
}

/// A machine, and the bytes of a memory that it is allowed for.
#[derive(Clone, Copy)]
pub struct Layout {
    /// The machine.
    pub machine: Machine,
    /// The bytes of memory.
    pub size: u32,
    pub ghost allowed: { IsMachineFor size machine },
}
