ghost use Rattle.std.specs.Prelude.{◌≡◌, ℕ, ◌+◌, ◌<◌, ◌≤◌, ◌&&◌, ◌||◌, false, length, slice_get, slice_index, Some, None};
ghost use Rattle.spec_states.specs.declared.line.TheConstants.{LONGEST_LINE};
ghost use Rattle.violations.specs.View.{epoch_of};
ghost use Rattle.violations.specs.CoreSet.{is_in};
ghost use Rattle.bus_states.specs.Bus.{committed, is_later};
ghost use Rattle.bus_states.specs.Messages as message_spec;
ghost use Rattle.spec_bus.specs.CoreStates.{state_of};
ghost use Rattle.bus_states.specs.Messages.{IsRoom};

use crate::bus_core::Core;
use crate::memory::memory_line;
use bus_states::{Notice, answer};
use cache_lines::Line;
use rv32_image::Machine;
use spec_states::{LONGEST_LINE, Next};
use violations::{Attempt, CoreSet};

/// The cores on the bus, at most sixteen, and memory, of lines that a cache can have.
#[derive(Drop)]
pub struct Parts {
    pub cores: Vec<Core>,
    pub memory: Vec<u8>,
    pub code: u32,
    pub machine: Machine,
    ghost few: { length cores.items ≤ 16 },
    ghost short: { machine.line_length ≤ LONGEST_LINE },
}

/// The epoch of an attempt; 0 where there is none.
fn epoch_of(attempt: Option<Attempt>) -> u32
    ensures { result ≡ epoch_of attempt }
{
    match attempt {
        Some(attempt) => attempt.epoch,
        None => 0,
    }
}

/// What becomes of a core at a message.
#[derive(Clone, Copy)]
struct Effect {
    /// Its attempt is violated.
    violated: bool,
    /// Its full buffer stops the access.
    holds_up: bool,
    /// It holds the line afterwards.
    remains: bool,
}

/// What becomes of the cores at a message.
#[derive(Clone, Copy)]
pub struct Survey {
    /// Those whose attempts are violated.
    pub hurt: CoreSet,
    /// A full buffer stops the access.
    pub busy: bool,
    /// No other core holds the line afterwards.
    pub alone: bool,
}

impl Parts {
    ghost use Rattle.spec_bus.specs.Laws.{IsPlacedCore};
    ghost use Rattle.spec_bus.specs.Parts.{IsAtLine, bus_in, room_at};

    /// Core `k`.
    pub(crate) fn core(&self, k: usize) -> &Core
        requires { k < length self.now.cores.items }
        ensures state { state_of result.now ≡ (bus_in self.now).core k }
        ensures is { slice_get self.now.cores.items k ≡ Some result.now }
    {
        &self.cores[k]
    }

    /// What core `k` runs; nothing where there is no such core.
    pub(crate) fn attempt(&self, k: usize) -> Option<Attempt>
        ensures { result ≡ ((bus_in self.now).core k).attempt }
    {
        match self.cores.get(k) {
            Some(core) => core.attempt,
            None => None,
        }
    }

    /// Whether core `k` runs a later epoch than this core.
    pub(crate) fn is_later(&self, core: usize, k: usize) -> bool
        ensures { result ≡ is_later (bus_in self.now) core k }
    {
        epoch_of(self.attempt(core)) < epoch_of(self.attempt(k))
    }

    /// The copy that core `k` has of the line at `addr`; an invalid line where it has none, or where there is no such core.
    pub(crate) fn copy(&self, k: usize, addr: u32) -> &Line
        ensures state { result.now.state ≡ (((bus_in self.now).core k).copy addr).state }
        ensures marks { result.now.marks ≡ (((bus_in self.now).core k).copy addr).marks }
        ensures cells { (x : ℕ) → slice_index result.now.cells x ≡ (((bus_in self.now).core k).copy addr).cell x }
    {
        match self.cores.get(k) {
            Some(core) => core.line_at(addr),
            None => &Line::INVALID,
        }
    }

    /// What a message of this core about the line at `addr` makes of the copy of core `k`.
    fn reply(&self, notice: Notice, core: usize, addr: u32, k: usize) -> Next
        requires { IsAtLine self.now k addr }
        ensures { result ≡ message_spec.reply (bus_in self.now) (message_spec.message_of (bus_in self.now) notice core addr) k }
    {
        let copy = self.copy(k, addr);
        answer(notice, copy.state, copy.marks, self.is_later(core, k))
    }

    /// What becomes of core `k` at a message of this core about the line at `addr`.
    fn effect(&self, notice: Notice, core: usize, addr: u32, k: usize) -> Effect
        requires { IsAtLine self.now k addr }
        ensures violated { result.violated ≡ message_spec.violates (bus_in self.now)
            (message_spec.message_of (bus_in self.now) notice core addr) k }
        ensures holds_up { result.holds_up ≡ message_spec.holds_up (bus_in self.now)
            (message_spec.message_of (bus_in self.now) notice core addr) k }
        ensures remains { result.remains ≡ message_spec.remains (bus_in self.now)
            (message_spec.message_of (bus_in self.now) notice core addr) k }
    {
        let next = self.reply(notice, core, addr, k);
        let later = self.is_later(core, k);
        let overflows = next.enters && self.core(k).orb.is_full();
        let other = k != core;
        let violated = other && (next.violated || (overflows && later));
        Effect {
            violated,
            holds_up: other && overflows && !later,
            remains: other && !violated && next.state.is_valid(),
        }
    }

    /// What becomes of all cores at a message of this core about the line at `addr`.
    pub(crate) fn survey(&self, notice: Notice, core: usize, addr: u32) -> Survey
        requires { IsAtLine self.now core addr }
        ensures hurt { (k : ℕ) → is_in result.hurt k ≡ message_spec.violates (bus_in self.now)
            (message_spec.message_of (bus_in self.now) notice core addr) k }
        ensures busy { result.busy ≡ message_spec.is_busy (bus_in self.now)
            (message_spec.message_of (bus_in self.now) notice core addr) }
        ensures alone { result.alone ≡ message_spec.is_alone (bus_in self.now)
            (message_spec.message_of (bus_in self.now) notice core addr) }
    {
        let mut hurt = CoreSet::none();
        let mut busy = false;
        let mut shared = false;
        for k in 0..self.cores.len() {
            let effect = self.effect(notice, core, addr, k);
            if effect.violated {
                hurt.insert(k as u32);
            }
            busy = effect.holds_up || busy;
            shared = effect.remains || shared;
        }
        Survey {
            hurt,
            busy,
            alone: !shared,
        }
    }

    /// The committed line at `addr`.
    pub(crate) fn committed_line(&self, addr: u32) -> [u8; LONGEST_LINE]
        requires { addr + self.now.machine.line_length ≤ length self.now.memory.items }
        ensures { (x : ℕ) → slice_index result x ≡ committed (bus_in self.now) addr x }
    {
        let mut line = memory_line(
            &self.memory,
            addr as usize,
            self.machine.line_length as usize,
        );
        for k in 0..self.cores.len() {
            let copy = self.copy(k, addr);
            if copy.state.is_modified() {
                line = copy.cells;
            }
        }
        line
    }

    /// The room for a line at `addr` in this core's cache is a line that the core holds, without marks, and each line stands in its
    /// place there.
    pub(crate) fn look_room(&self, core: usize, addr: u32)
        requires { core < length self.now.cores.items }
        ensures room { IsRoom ((bus_in self.now).core core) (room_at self.now.cores.items core addr) }
        ensures placed { IsPlacedCore self.now.cores.items core }
    {
        let _ways = self.core(core).cache.ways();
    }
}
