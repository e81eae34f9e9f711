//! The caches and the buffers of all cores on the bus.
ghost use Rattle.std.specs.Prelude.{◌≡◌, ◌<◌, ◌≤◌, ◌++◌, ℕ, IfOk, OnOk, length};
ghost use Rattle.rv32_image.specs.Machine.{IsMachine};
ghost use Rattle.rv32_image.specs.Places.{of_places};
ghost use Rattle.spec_bus.specs.Cached.{CachedView, bus};
ghost use Rattle.turn_steps.specs.Caches as spec;

use crate::caches::ShownCore;
use crate::machine::{KnownMachine, Layout, PlacedCaches};
use crate::store::ShownStore;
use rv32_exec::{Image, Machine};
use spec_bus::CachedBus;
use spec_history::Entry;
use std::alloc::{AllocError, Global};
use std::collections::BTreeSet;
use violations::{Attempt, EpochStore};

/// What the caches and the buffers on a bus were shown to hold.
#[derive(Drop)]
pub struct ShownBus {
    /// The image's machine, and its bytes of memory.
    layout: Layout,
    /// Core by core.
    cores: Vec<ShownCore>,
}

impl ShownStore for CachedBus {
    ghost use Rattle.turn_steps.specs.Caches.{AreShown, IsOfShape, cached_changes};

    type Shown = ShownBus;

    ghost fits = { λ shown shape. IsOfShape shown.layout.machine shown.layout.size shown.cores.items shape };

    ghost shows = { λ shown v. AreShown shown.layout.machine shown.layout.size shown.cores.items v };

    ghost changes = { cached_changes };

    fn changes_are_fixed() {}

    fn attempt_of(&self, core: u32) -> Option<Attempt> {
        self.attempt(core)
    }

    fn first_shown(
        &self,
        alloc: Global,
        image: &Image,
        cores: u32,
    ) -> Result<ShownBus, AllocError> {
        self.look();
        let machine = image.machine();
        let placed = PlacedCaches {
            caches: self,
            machine: of_places(machine),
        };
        let cores = shown_cores(alloc, &placed, cores)?;
        let size = image.size();
        Ok(ShownBus {
            layout: Layout { machine, size },
            cores,
        })
    }

    fn push_changes(
        &self,
        alloc: Global,
        text: &mut Vec<u8>,
        shown: &mut ShownBus,
        _core: u32,
        _added: &[Entry],
    ) -> Result<(), AllocError> {
        self.look();
        let placed = PlacedCaches {
            caches: self,
            machine: of_places(shown.layout.machine),
        };
        let cores = push_bus_changes(alloc, text, &placed, self.cores(), shown.cores.as_slice())?;
        shown.cores = cores;
        Ok(())
    }

    fn push_own_rows(
        shown: &ShownBus,
        core: u32,
        rows: &mut BTreeSet<u32>,
    ) -> Result<(), AllocError> {
        match shown.cores.get(core as usize) {
            Some(held) => held.push_own_rows(shown.layout, rows),
            None => Ok(()),
        }
    }
}

/// The machine of the places, on which nothing lies apart.
fn of_places(machine: Machine) -> KnownMachine
    requires { IsMachine machine }
    ensures { result ≡ of_places machine }
{
    KnownMachine::new(Machine {
        apart: None,
        ..machine
    })
}

/// What each of so many cores holds.
fn shown_cores(
    alloc: Global,
    placed: &PlacedCaches,
    cores: u32,
) -> Result<Vec<ShownCore>, AllocError>
    requires { cores ≤ (bus placed.now.caches.now).shape.cores }
    ensures { IfOk result (λ shown. spec.AreHeld placed.now.machine placed.now.caches.now cores shown.items) }
{
    let mut shown = Vec::new(alloc);
    for core in 0..cores {
        shown.push(ShownCore::of(alloc, placed, core)?)?;
    }
    Ok(shown)
}

/// Adds the text of what each core holds otherwise than was shown of it, and answers what they hold.
fn push_bus_changes(
    alloc: Global,
    text: &mut Vec<u8>,
    placed: &PlacedCaches,
    cores: u32,
    shown: &[ShownCore],
) -> Result<Vec<ShownCore>, AllocError>
    requires cores { cores ≤ (bus placed.now.caches.now).shape.cores }
    requires shown { length shown.now ≡ cores }
    requires whole { spec.AreWhole placed.now.machine shown.now }
    ensures held { IfOk result (λ now. spec.AreHeld placed.now.machine placed.now.caches.now cores now.items) }
    ensures text { (old : CachedView) → spec.AreHeld placed.now.machine old cores shown.now
        → OnOk result (text.new.items ≡ text.old.items ++ spec.held_changes placed.now.machine old placed.now.caches.now cores) }
{
    let mut now = Vec::new(alloc);
    for core in 0..cores {
        let held = ShownCore::of(alloc, placed, core)?;
        shown[core as usize].push_changes(alloc, text, placed.machine, core, &held)?;
        now.push(held)?;
    }
    Ok(now)
}
