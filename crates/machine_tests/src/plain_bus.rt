//! A plain slow bus, written from the tables of the protocol alone. It shares nothing with the bus that it is compared with.

use crate::plain_core::{LINE, PLACES, PlainCore, PlainLine, mask_of};
use rv32_image::Machine;
use spec_states::LineState;
use violations::{Attempt, WaitCause};

/// The most cores.
pub const CORES: usize = 16;

/// The most bytes of memory.
pub const MEMORY: usize = 768;

/// What a core tells the others of a line.
#[derive(Clone, Copy, PartialEq, Eq)]
pub enum Told {
    Load,
    Store,
    /// A publish or a straight store.
    Publish,
}

/// What becomes of another core's copy.
#[derive(Clone, Copy)]
struct Effect {
    state: LineState,
    enters: bool,
    /// The owner is violated, and its copy goes.
    hurt: bool,
    /// The owner is earlier and its buffer is full: the sender has to wait.
    busy: bool,
}

impl Effect {
    /// There is no copy.
    fn none() -> Effect {
        Effect {
            state: LineState::I,
            enters: false,
            hurt: false,
            busy: false,
        }
    }
}

/// What becomes of the copies of all other cores.
#[derive(Clone, Copy)]
struct Effects {
    states: [LineState; CORES],
    enter: [bool; CORES],
    hurt: [bool; CORES],
    busy: [bool; CORES],
}

impl Effects {
    /// There are no copies.
    fn none() -> Effects {
        Effects {
            states: [LineState::I; CORES],
            enter: [false; CORES],
            hurt: [false; CORES],
            busy: [false; CORES],
        }
    }

    /// No other core has the line afterwards.
    fn is_alone(&self) -> bool {
        self.states == [LineState::I; CORES]
    }

    /// Some core makes the sender wait.
    fn is_busy(&self) -> bool {
        self.busy != [false; CORES]
    }
}

/// What an access gives.
#[derive(Clone, Copy)]
pub enum PlainStep {
    Done { value: u32, hurt: [bool; CORES] },
    Wait(WaitCause),
}

/// An access of some bytes.
#[derive(Clone, Copy)]
pub struct Access {
    pub core: u32,
    pub addr: u32,
    pub width: u32,
}

/// The table of what another core's copy becomes, apart from full buffers.
fn table(copy: &PlainLine, told: Told, later: bool) -> Effect {
    let mut effect = Effect::none();
    match copy.state {
        LineState::I => {}
        LineState::S | LineState::E | LineState::M => {
            if told == Told::Load {
                effect.state = LineState::S;
            }
        }
        LineState::SpS | LineState::SpE => {
            effect.hurt = copy.loaded
                && match told {
                    Told::Load => false,
                    Told::Store => later,
                    Told::Publish => true,
                };
            if !effect.hurt {
                effect.state = LineState::SpS;
                effect.enters = copy.state == LineState::SpE && copy.bytes != 0;
            }
        }
    }
    effect
}

/// These are violated too.
fn add_hurt(hurt: &mut [bool; CORES], more: &[bool; CORES]) {
    for k in 0..CORES {
        hurt[k] |= more[k];
    }
}

/// The bus.
#[derive(Clone, Copy)]
pub struct PlainBus {
    pub cores: [PlainCore; CORES],
    pub memory: [u8; MEMORY],
    /// How large the caches are: at most 64 lines.
    pub machine: Machine,
}

impl PlainBus {
    /// A bus of idle cores.
    pub fn new(machine: Machine) -> PlainBus {
        PlainBus {
            cores: [PlainCore::idle(); CORES],
            memory: [0; MEMORY],
            machine,
        }
    }

    /// The bytes of a line.
    pub fn length(&self) -> u32 {
        self.machine.line_length
    }

    /// The most lines of a buffer.
    fn limit(&self) -> usize {
        self.machine.buffer_lines as usize
    }

    fn core(&self, core: usize) -> &PlainCore {
        &self.cores[core % CORES]
    }

    fn core_mut(&mut self, core: usize) -> &mut PlainCore {
        &mut self.cores[core % CORES]
    }

    /// The place of a byte in its line.
    fn offset_of(&self, addr: u32) -> u32 {
        addr % self.length().max(1)
    }

    /// The line of a byte.
    pub fn line_of(&self, addr: u32) -> u32 {
        addr.saturating_sub(self.offset_of(addr))
    }

    fn set_of(&self, addr: u32) -> usize {
        let number = addr / self.length().max(1);
        (number % self.machine.sets.max(1)) as usize
    }

    fn memory_line(&self, addr: u32) -> [u8; LINE] {
        let mut line = [0; LINE];
        for place in 0..LINE {
            if (place as u32) < self.length() {
                line[place] = self.memory[(addr as usize).wrapping_add(place) % MEMORY];
            }
        }
        line
    }

    fn write_memory(&mut self, addr: u32, line: &[u8; LINE]) {
        for place in 0..LINE {
            if (place as u32) < self.length() {
                self.memory[(addr as usize).wrapping_add(place) % MEMORY] = line[place];
            }
        }
    }

    /// The committed line: that of an M copy, else that of memory.
    pub fn committed_line(&self, addr: u32) -> [u8; LINE] {
        for core in self.cores.iter() {
            let copy = core.line(addr);
            if copy.state == LineState::M {
                return copy.cells;
            }
        }
        self.memory_line(addr)
    }

    /// The committed byte.
    pub fn committed_byte(&self, addr: u32) -> u8 {
        self.committed_line(self.line_of(addr))[self.offset_of(addr) as usize % LINE]
    }

    /// The line as a core sees it.
    fn seen_line(&self, core: usize, addr: u32) -> [u8; LINE] {
        let committed = self.committed_line(addr);
        self.core(core).line(addr).merged(&committed)
    }

    // ---- transactions

    /// What a transaction makes of the copy of core `k`.
    fn effect(&self, sender: usize, k: usize, told: Told, addr: u32) -> Effect {
        let owner = self.core(k);
        let later = match self.core(sender).attempt {
            Some(attempt) => owner.is_later_than(attempt.epoch),
            None => false,
        };
        let mut effect = table(&owner.line(addr), told, later);
        if effect.enters && owner.is_full(self.limit()) {
            if later {
                effect = Effect::none();
                effect.hurt = true;
            } else {
                effect.busy = true;
            }
        }
        effect
    }

    /// What a transaction makes of all other copies, found before anything changes.
    fn effects(&self, sender: usize, told: Told, addr: u32) -> Effects {
        let mut effects = Effects::none();
        for k in 0..CORES {
            if k != sender {
                let effect = self.effect(sender, k, told, addr);
                effects.states[k] = effect.state;
                effects.enter[k] = effect.enters;
                effects.hurt[k] = effect.hurt;
                effects.busy[k] = effect.busy;
            }
        }
        effects
    }

    /// Core `k` does what the transaction makes of its copy.
    fn hear(&mut self, k: usize, told: Told, addr: u32, effects: &Effects, line: &[u8; LINE]) {
        let at = k % CORES;
        if effects.hurt[at] {
            self.core_mut(k).drop_attempt();
        }
        let Some(place) = self.core(k).place_of(addr) else {
            return;
        };
        let copy = self.core(k).line(addr);
        if copy.state == LineState::M {
            self.write_memory(addr, &copy.cells);
        }
        let owner = self.core_mut(k);
        if effects.enter[at] && !effects.hurt[at] {
            owner.enter(addr);
        }
        let copy = &mut owner.lines[place % PLACES];
        if effects.states[at] == LineState::I {
            copy.invalidate();
        } else {
            copy.state = effects.states[at];
            if told == Told::Publish {
                copy.cells = copy.merged(line);
            }
        }
    }

    /// All other cores do.
    fn tell(&mut self, sender: usize, told: Told, addr: u32, effects: &Effects, line: &[u8; LINE]) {
        for k in 0..CORES {
            if k != sender {
                self.hear(k, told, addr, effects, line);
            }
        }
    }

    /// The place that a new line of this set takes.
    fn victim(&self, core: usize, set: usize) -> Option<usize> {
        self.core(core).victim(set, self.machine.ways as usize)
    }

    /// The core holds the line so, in the place of another where it is new.
    fn put(&mut self, core: usize, line: &PlainLine) {
        let held = self.core(core).place_of(line.addr);
        let set = self.set_of(line.addr);
        let Some(place) = held.or(self.victim(core, set)) else {
            return;
        };
        let old = self.core(core).lines[place % PLACES];
        if old.state == LineState::M && old.addr != line.addr {
            self.write_memory(old.addr, &old.cells);
        }
        self.core_mut(core).lines[place % PLACES] = *line;
    }

    /// The core has no place for this line.
    fn has_no_way(&self, core: usize, addr: u32) -> bool {
        let set = self.set_of(addr);
        self.core(core).place_of(addr).is_none() && self.victim(core, set).is_none()
    }

    /// The number that a core sees.
    fn value_of(&self, access: &Access) -> u32 {
        let line = self.seen_line(access.core as usize, self.line_of(access.addr));
        let offset = self.offset_of(access.addr) as usize;
        let mut bytes = [0; 4];
        for (place, byte) in bytes.iter_mut().enumerate() {
            if place < access.width as usize {
                *byte = line[offset.wrapping_add(place) % LINE];
            }
        }
        u32::from_le_bytes(bytes)
    }

    /// The line with the low bytes of a number.
    fn with_value(&self, line: &[u8; LINE], access: &Access, value: u32) -> [u8; LINE] {
        let mut line = *line;
        let offset = self.offset_of(access.addr) as usize;
        for (place, byte) in value.to_le_bytes().iter().enumerate() {
            if place < access.width as usize {
                line[offset.wrapping_add(place) % LINE] = *byte;
            }
        }
        line
    }

    // ---- speculative accesses

    /// A speculative load.
    pub fn load(&mut self, access: &Access) -> PlainStep {
        let addr = self.line_of(access.addr);
        let mut copy = self.core(access.core as usize).line(addr);
        let effects = if copy.state == LineState::I {
            self.effects(access.core as usize, Told::Load, addr)
        } else {
            Effects::none()
        };
        if self.has_no_way(access.core as usize, addr) {
            return PlainStep::Wait(WaitCause::NoWay);
        }
        if effects.is_busy() {
            return PlainStep::Wait(WaitCause::OrbBusy);
        }
        if copy.state == LineState::I {
            copy.cells = self.committed_line(addr);
            copy.addr = addr;
            self.tell(
                access.core as usize,
                Told::Load,
                addr,
                &effects,
                &copy.cells,
            );
        }
        self.load_own(access, &mut copy, effects.is_alone());
        PlainStep::Done {
            value: self.value_of(access),
            hurt: effects.hurt,
        }
    }

    /// The load's own copy.
    fn load_own(&mut self, access: &Access, copy: &mut PlainLine, alone: bool) {
        let mask = mask_of(self.offset_of(access.addr), access.width);
        if copy.bytes & mask != mask {
            copy.loaded = true;
            if copy.state == LineState::M {
                self.write_memory(copy.addr, &copy.cells);
            }
            copy.state = match copy.state {
                LineState::I if alone => LineState::SpE,
                LineState::E | LineState::M | LineState::SpE => LineState::SpE,
                LineState::I | LineState::S | LineState::SpS => LineState::SpS,
            };
            self.put(access.core as usize, copy);
        }
    }

    /// A speculative store. It gives 0.
    pub fn store(&mut self, access: &Access, value: u32) -> PlainStep {
        let addr = self.line_of(access.addr);
        let mut copy = self.core(access.core as usize).line(addr);
        let owned = copy.is_owned();
        let effects = if owned {
            Effects::none()
        } else {
            self.effects(access.core as usize, Told::Store, addr)
        };
        let enters = !owned && !effects.is_alone();
        if let Some(cause) = self.store_wait(access.core as usize, addr, enters, &effects) {
            return PlainStep::Wait(cause);
        }
        if !owned {
            copy.cells = self.committed_line(addr);
            copy.addr = addr;
            self.tell(
                access.core as usize,
                Told::Store,
                addr,
                &effects,
                &copy.cells,
            );
            if copy.state == LineState::M {
                self.write_memory(addr, &copy.cells);
            }
            copy.state = if enters {
                LineState::SpS
            } else {
                LineState::SpE
            };
        }
        if enters {
            self.core_mut(access.core as usize).enter(addr);
        }
        copy.cells = self.with_value(&copy.cells, access, value);
        copy.bytes |= mask_of(self.offset_of(access.addr), access.width);
        self.put(access.core as usize, &copy);
        PlainStep::Done {
            value: 0,
            hurt: effects.hurt,
        }
    }

    /// Why a store has to wait.
    fn store_wait(
        &self,
        core: usize,
        addr: u32,
        enters: bool,
        effects: &Effects,
    ) -> Option<WaitCause> {
        if self.has_no_way(core, addr) {
            Some(WaitCause::NoWay)
        } else if enters && self.core(core).is_full(self.limit()) {
            Some(WaitCause::OrbFull)
        } else if effects.is_busy() {
            Some(WaitCause::OrbBusy)
        } else {
            None
        }
    }

    // ---- straight calls

    /// A publish. It answers who is violated.
    pub fn publish(&mut self, core: usize) -> [bool; CORES] {
        let mut hurt = [false; CORES];
        let lines = self.core(core).buffer;
        for place in 0..PLACES {
            if let Some(addr) = lines[place] {
                let one = self.publish_line(core, addr);
                add_hurt(&mut hurt, &one);
            }
        }
        let owner = self.core_mut(core);
        owner.settle();
        if let Some(attempt) = &mut owner.attempt {
            attempt.straight = true;
        }
        hurt
    }

    /// A line of the buffer is published.
    fn publish_line(&mut self, core: usize, addr: u32) -> [bool; CORES] {
        let effects = self.effects(core, Told::Publish, addr);
        let cells = self.seen_line(core, addr);
        self.tell(core, Told::Publish, addr, &effects, &cells);
        self.hold_unmarked(core, addr, &cells, effects.is_alone());
        effects.hurt
    }

    /// The core holds the line as M where it is alone, else as S with memory written.
    fn hold_unmarked(&mut self, core: usize, addr: u32, cells: &[u8; LINE], alone: bool) {
        if !alone {
            self.write_memory(addr, cells);
        }
        self.put(
            core,
            &PlainLine {
                addr,
                state: if alone { LineState::M } else { LineState::S },
                loaded: false,
                bytes: 0,
                cells: *cells,
            },
        );
    }

    /// A straight load.
    pub fn straight_load(&mut self, access: &Access) -> (u32, [bool; CORES]) {
        let addr = self.line_of(access.addr);
        let mut hurt = [false; CORES];
        if self.core(access.core as usize).place_of(addr).is_none() {
            let effects = self.effects(access.core as usize, Told::Load, addr);
            let mut copy = PlainLine::none();
            copy.addr = addr;
            copy.cells = self.committed_line(addr);
            copy.state = if effects.is_alone() {
                LineState::E
            } else {
                LineState::S
            };
            self.tell(
                access.core as usize,
                Told::Load,
                addr,
                &effects,
                &copy.cells,
            );
            self.put(access.core as usize, &copy);
            hurt = effects.hurt;
        }
        (self.value_of(access), hurt)
    }

    /// A straight store.
    pub fn straight_store(&mut self, access: &Access, value: u32) -> [bool; CORES] {
        let addr = self.line_of(access.addr);
        let state = self.core(access.core as usize).line(addr).state;
        let cells = self.with_value(&self.committed_line(addr), access, value);
        let mut effects = Effects::none();
        if state != LineState::E && state != LineState::M {
            effects = self.effects(access.core as usize, Told::Publish, addr);
            self.tell(access.core as usize, Told::Publish, addr, &effects, &cells);
        }
        self.hold_unmarked(access.core as usize, addr, &cells, effects.is_alone());
        effects.hurt
    }

    // ---- attempts

    /// An attempt begins.
    pub fn begin(&mut self, core: usize, epoch: u32) {
        self.core_mut(core).attempt = Some(Attempt {
            epoch,
            straight: false,
        });
    }

    /// A straight attempt ends.
    pub fn leave(&mut self, core: usize) {
        self.core_mut(core).attempt = None;
    }

    /// An attempt is given up.
    pub fn cancel(&mut self, core: usize) {
        self.core_mut(core).drop_attempt();
    }

    /// What a core runs.
    pub fn attempt(&self, core: usize) -> Option<Attempt> {
        self.core(core).attempt
    }

    /// No core runs this epoch or, straight, a later one.
    pub fn may_begin(&self, epoch: u32) -> bool {
        for core in &self.cores {
            if let Some(attempt) = core.attempt {
                if attempt.epoch == epoch || attempt.straight && epoch < attempt.epoch {
                    return false;
                }
            }
        }
        true
    }

    /// No attempt is of an earlier epoch than that of this core.
    pub fn is_first(&self, core: usize) -> bool {
        let Some(attempt) = self.core(core).attempt else {
            return false;
        };
        for other in &self.cores {
            if other.is_earlier_than(attempt.epoch) {
                return false;
            }
        }
        true
    }

    // ---- what it shows

    /// The copy that a core has of the line in which this address lies.
    pub fn copy(&self, core: usize, addr: u32) -> PlainLine {
        self.core(core).line(self.line_of(addr))
    }

    /// An entry of a core's buffer.
    pub fn entry(&self, core: usize, place: usize) -> Option<u32> {
        self.core(core).buffer.get(place).copied().flatten()
    }

    /// Memory begins with these bytes.
    pub fn fill(&mut self, bytes: &[u8]) {
        for (cell, byte) in self.memory.iter_mut().zip(bytes) {
            *cell = *byte;
        }
    }
}
