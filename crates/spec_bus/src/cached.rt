ghost use Rattle.std.specs.Prelude.{◌≡◌, ℕ, ◌<◌, ◌%◌, true, false, Some, IfOk, IsOk, option_map};
ghost use Rattle.violations.specs.View as view_spec;
ghost use Rattle.violations.specs.Rule as rule;
ghost use Rattle.violations.specs.Answers.{MatchStep, wait_of};
ghost use Rattle.violations.specs.CoreSet.{is_in};
ghost use Rattle.bus_states.specs.Attempts as attempts;
ghost use Rattle.bus_states.specs.Bus.{line_of};
ghost use Rattle.bus_states.specs.Coherent.{IsCoherent};
ghost use Rattle.bus_states.specs.Speculative as speculative;
ghost use Rattle.bus_states.specs.Straight as straight;
ghost use Rattle.bus_states.specs.Views.{view_of};
ghost use Rattle.spec_bus.specs.Cached as spec;
ghost use Rattle.spec_bus.specs.Fresh.{fresh_bus, by_places};
ghost use Rattle.spec_bus.specs.Laws.{IsPlacedCore};
ghost use Rattle.spec_bus.specs.Laws as laws;
ghost use Rattle.violations.specs.Calls as call;
ghost use Rattle.spec_bus.specs.Answers.{MatchAnswer, IsLoaded, IsStored};

use crate::cores::idle_cores;
use crate::memory::placed_memory;
use crate::parts::Parts;
use crate::speculative::owns_line;
use crate::straight::stores_alone;
use cache_lines::Line;
use orb::Orb;
use rv32_image::{Apart, Image, Machine, NoMemory};
use spec_states::LineState;
use std::alloc::{AllocError, Global};
use std::marker::Model;
use violations::{Attempt, CoreSet, EpochStore, Step, WaitCause};

/// A copy of a line, without its bytes.
#[derive(Clone, Copy)]
pub struct LineView {
    /// The state; I where there is no copy.
    pub state: LineState,
    /// The line was speculatively loaded.
    pub loaded: bool,
    /// The speculatively modified bytes: bit i is the byte at address i of the line.
    pub bytes: u64,
}

/// The caches of all cores on one bus, and memory. Only `fresh` takes memory.
///
/// The bus knows bytes by their places: where an image's machine has bytes that lie apart, each piece of them has a line of its own
/// behind memory. Calls name a byte by its address.
#[derive(Drop)]
pub struct CachedBus {
    parts: Parts,
    size: u32,
    apart: Option<Apart>,
}

impl Model for CachedBus {
    ghost use Rattle.spec_bus.specs.Cached.{CachedView};

    ghost Value = { CachedView };

    ghost use Rattle.spec_bus.specs.CachedInside.{view_of, IsCached};

    ghost view = { view_of };

    ghost invariant = { IsCached };
}

impl CachedBus {
    /// How many cores there are.
    pub fn cores(&self) -> u32
        ensures { result ≡ (spec.bus self.now).shape.cores }
    {
        self.parts.cores.len() as u32
    }

    /// The bytes of memory.
    pub fn size(&self) -> u32
        ensures { result ≡ self.now.size }
    {
        self.size
    }

    /// What a core runs; nothing where there is no such core.
    pub fn attempt(&self, core: u32) -> Option<Attempt>
        ensures { result ≡ ((spec.bus self.now).core core).attempt }
    {
        self.parts.attempt(core as usize)
    }

    /// The place of the byte at an address. One past memory counts as its end.
    fn place(&self, addr: u32) -> u32
        ensures place { result ≡ spec.place_of self.now addr }
        ensures inside { addr < self.now.size → result < (spec.bus self.now).shape.size }
    {
        let machine = Machine {
            apart: self.apart,
            ..self.parts.machine
        };
        machine.place(self.size, addr.min(self.size))
    }

    /// The line in which a place lies.
    fn line_of(&self, place: u32) -> u32
        ensures value { result ≡ line_of (spec.bus self.now).line_length place }
        ensures aligned { result % (spec.bus self.now).line_length ≡ 0 }
    {
        place - place % self.parts.machine.line_length
    }

    /// The copy that a core has of the line in which this address lies; none where there is no such core.
    pub fn line_at(&self, core: u32, addr: u32) -> LineView
        ensures state { result.state ≡ (((spec.bus self.now).core core).copy (spec.line_of self.now addr)).state }
        ensures loaded { result.loaded ≡ (((spec.bus self.now).core core).copy (spec.line_of self.now addr)).marks.loaded }
        ensures bytes { result.bytes ≡ (((spec.bus self.now).core core).copy (spec.line_of self.now addr)).marks.bytes }
    {
        let line = self.line_of(self.place(addr));
        let copy = self.parts.copy(core as usize, line);
        LineView {
            state: copy.state,
            loaded: copy.marks.loaded,
            bytes: copy.marks.bytes,
        }
    }

    /// The line that stands in a way of a core's cache, in the set of this place.
    pub fn line_in(&self, core: u32, place: u32, way: usize) -> &Line
        requires core { core < (spec.bus self.now).shape.cores }
        requires way { way < (spec.bus self.now).geometry.ways }
        ensures { result.now ≡ spec.line_in self.now core place way }
    {
        self.parts.core(core as usize).cache.line(place, way)
    }

    /// A core's ownership required buffer.
    pub fn orb_at(&self, core: u32) -> &Orb
        requires { core < (spec.bus self.now).shape.cores }
        ensures { result.now ≡ ((spec.bus self.now).core core).buffer }
    {
        &self.parts.core(core as usize).orb
    }

    /// Whether a core owns the line in which this address lies, so that it may speculatively store to it and tell nobody.
    pub fn owns_line(&self, core: u32, addr: u32) -> bool
        ensures { result ≡ speculative.owns (spec.bus self.now) core (spec.line_of self.now addr) }
    {
        let line = self.line_of(self.place(addr));
        let copy = self.parts.copy(core as usize, line);
        owns_line(copy.state, copy.marks)
    }

    /// Whether a core that doesn't speculate may store to the line in which this address lies, and tell nobody.
    pub fn stores_alone(&self, core: u32, addr: u32) -> bool
        ensures { result ≡ straight.stores_alone (speculative.own (spec.bus self.now) core (spec.line_of self.now addr)).state }
    {
        let line = self.line_of(self.place(addr));
        stores_alone(self.parts.copy(core as usize, line).state)
    }

    /// The state of the line in whose way the line of this address would come into a core's cache. None: every way of its set carries
    /// marks, or there is no such core.
    pub fn room_at(&self, core: u32, addr: u32) -> Option<LineState>
        ensures { result ≡ option_map (λ room. room.line.state) (spec.room self.now core (spec.line_of self.now addr)) }
    {
        let line = self.line_of(self.place(addr));
        let Some(core) = self.parts.cores.get(core as usize) else {
            return None;
        };
        match core.cache.victim(line) {
            Some(way) => Some(core.cache.line(line, way).state),
            None => None,
        }
    }

    /// Why a speculative load would wait, where it would.
    pub fn load_wait(&self, core: u32, addr: u32) -> Option<WaitCause>
        requires { core < (spec.bus self.now).shape.cores }
        ensures { (width : ℕ) → result ≡ (spec.waits self.now).load core addr width }
    {
        let line = self.line_of(self.place(addr));
        self.parts.load_wait(core as usize, line)
    }

    /// Why a speculative store of `width` bytes would wait, where it would.
    pub fn store_wait(&self, core: u32, addr: u32, width: u32) -> Option<WaitCause>
        requires core { core < (spec.bus self.now).shape.cores }
        requires access { view_spec.IsLoad (spec.store_view self.now).shape addr width }
        ensures { result ≡ (spec.waits self.now).store core addr width }
    {
        let place = self.place(addr);
        let line = self.line_of(place);
        let offset = place % self.parts.machine.line_length;
        self.parts.store_wait(core as usize, line, offset, width)
    }

    /// The bytes of memory in order, of these at their places.
    fn by_address(&self, alloc: Global, places: &[u8]) -> Result<Vec<u8>, AllocError>
        requires { view_spec.IsCommitted (view_of (spec.bus self.now)) places.now }
        ensures { IfOk result (λ bytes. view_spec.IsCommitted (spec.store_view self.now) bytes.items) }
    {
        let mut bytes = Vec::with_capacity(alloc, self.size as usize)?;
        for addr in 0..self.size {
            bytes.push(places[self.place(addr) as usize])?;
        }
        Ok(bytes)
    }

    /// In a core's cache each line stands in its place: this call does nothing, and its contract is the law.
    pub fn look_cache(&self, core: u32)
        requires { core < (spec.bus self.now).shape.cores }
        ensures { IsPlacedCore self.now.cores core }
    {
        let _ways = self.parts.core(core as usize).cache.ways();
    }

    /// In each cache each line stands in its place: this call does nothing, and its contract is the law.
    pub fn look_caches(&self)
        ensures { (k : ℕ) → IsPlacedCore self.now.cores k }
    {
        for core in 0..self.cores() {
            self.look_cache(core);
        }
    }
}

impl EpochStore for CachedBus {
    ghost use Rattle.spec_bus.specs.Cached.{store_view, waits};

    ghost view = { store_view };

    ghost waits = { waits };

    ghost budget = { λ _. 4 };

    ghost use Rattle.spec_bus.specs.Laws.{Makes, HoldTheSame, Starts};

    ghost makes = { Makes };

    ghost alike = { HoldTheSame };

    ghost starts = { Starts };

    /// A bus with the image's memory, and so many cores that hold nothing and run nothing. The cores are 1 to the most that the
    /// image's version allows.
    ///
    /// `NoMemory`: there was no memory for it, and nothing was made.
    fn fresh(alloc: Global, image: &Image, cores: u32) -> Result<CachedBus, NoMemory>
        requires cores { rule.IsCoreCount image.now cores }
        ensures bus { IfOk result (λ made. (spec.bus made) ≡ fresh_bus (by_places image.now) cores) }
        ensures starts { IfOk result (λ made. laws.Starts image.now cores made) }
        ensures fresh { IfOk result (λ made. rule.IsFresh image.now cores (spec.store_view made)) }
    {
        let machine = image.machine();
        let of_places = Machine {
            apart: None,
            ..machine
        };
        let memory = placed_memory(alloc, image)?;
        let cores = idle_cores(alloc, cores, of_places)?;
        let parts = Parts {
            cores,
            memory,
            code: image.code(),
            machine: of_places,
        };
        let size = image.size();
        Ok(CachedBus {
            parts,
            size,
            apart: machine.apart,
        })
    }

    /// What the caches hold is fixed by the image, the cores and the calls: this call does nothing, and its contract is the law.
    fn calls_are_fixed() {}

    /// What every store keeps, and that the bus is coherent: this call does nothing, and its contract is the law.
    fn look(&self)
        ensures settled { view_spec.IsSettled (spec.store_view self.now) }
        ensures coherent { IsCoherent (spec.bus self.now) }
    {
        let _ = &self.parts;
    }

    /// There is always room.
    fn reserve(&mut self) -> Result<(), NoMemory>
        ensures ok { IsOk result }
        ensures same { self.new ≡ self.old }
        ensures makes { laws.Makes self.old call.Reserve self.new }
    {
        Ok(())
    }

    /// A core that runs nothing begins an attempt of an epoch.
    fn begin(&mut self, core: u32, epoch: u32)
        requires may { view_spec.MayBegin (spec.store_view self.old) core epoch }
        ensures bus { (spec.bus self.new) ≡ attempts.after_begin (spec.bus self.old) core epoch }
        ensures makes { laws.Makes self.old (call.Begin core epoch) self.new }
        ensures begins { rule.Begins (spec.store_view self.old) (spec.store_view self.new) core epoch }
    {
        self.parts.begin(core as usize, epoch);
    }

    /// A speculative load of `width` bytes, by a core whose attempt isn't straight.
    fn load(&mut self, core: u32, addr: u32, width: u32) -> Step
        requires runs { view_spec.Runs (spec.store_view self.old) core false }
        requires access { view_spec.IsLoad (spec.store_view self.old).shape addr width }
        ensures waits { wait_of result ≡ (spec.waits self.old).load core addr width }
        ensures bus { MatchAnswer result
            (λ value hurt. IsLoaded (spec.bus self.old) (spec.bus self.new) core (spec.line_of self.old addr) (spec.offset_of self.old addr) width
            (spec.room self.old core (spec.line_of self.old addr)) value hurt)
            (λ cause. (speculative.load_wait (spec.bus self.old) core (spec.line_of self.old addr)
            (spec.room self.old core (spec.line_of self.old addr)) ≡ Some cause) × (self.new ≡ self.old)) }
        ensures loads { MatchStep result (λ value hurt. rule.Loads (spec.store_view self.old) (spec.store_view self.new) core addr width value hurt)
            (self.new ≡ self.old) }
        ensures makes { laws.Makes self.old (call.Load core addr width) self.new }
    {
        let place = self.place(addr);
        let line = self.line_of(place);
        self.parts.look_room(core as usize, line);
        let offset = place % self.parts.machine.line_length;
        self.parts.load(core as usize, line, offset, width)
    }

    /// A speculative store of the low `width` bytes of `value`, by a core whose attempt isn't straight. It gives 0.
    fn store(&mut self, core: u32, addr: u32, width: u32, value: u32) -> Step
        requires runs { view_spec.Runs (spec.store_view self.old) core false }
        requires access { view_spec.IsLoad (spec.store_view self.old).shape addr width }
        ensures waits { wait_of result ≡ (spec.waits self.old).store core addr width }
        ensures bus { MatchAnswer result
            (λ answer hurt. (answer ≡ 0) × IsStored (spec.bus self.old) (spec.bus self.new) core (spec.line_of self.old addr)
            (spec.offset_of self.old addr) width value (spec.room self.old core (spec.line_of self.old addr)) hurt)
            (λ cause. (speculative.store_wait (spec.bus self.old) core (spec.line_of self.old addr) (spec.offset_of self.old addr) width
            (spec.room self.old core (spec.line_of self.old addr)) ≡ Some cause) × (self.new ≡ self.old)) }
        ensures stores { MatchStep result
            (λ answer hurt. (answer ≡ 0) × rule.Stores (spec.store_view self.old) (spec.store_view self.new) core addr width value hurt) (self.new ≡ self.old) }
        ensures makes { laws.Makes self.old (call.Store core addr width value) self.new }
    {
        let place = self.place(addr);
        let line = self.line_of(place);
        self.parts.look_room(core as usize, line);
        let offset = place % self.parts.machine.line_length;
        self.parts.store(core as usize, line, offset, width, value)
    }

    /// The attempt, whose epoch is the first of all attempts, commits what it sees and is straight. Answers the cores that it
    /// violates.
    fn publish(&mut self, core: u32) -> CoreSet
        requires may { view_spec.MayPublish (spec.store_view self.old) core }
        ensures bus { (spec.bus self.new) ≡ straight.after_publish (spec.bus self.old) core }
        ensures makes { laws.Makes self.old (call.Publish core) self.new }
        ensures hurt { (k : ℕ) → is_in result k ≡ straight.publish_violates (spec.bus self.old) core k }
        ensures publishes { rule.Publishes (spec.store_view self.old) (spec.store_view self.new) core (is_in result) }
    {
        self.parts.publish(core as usize)
    }

    /// A load of a straight attempt, with the cores that it violates.
    fn straight_load(&mut self, core: u32, addr: u32, width: u32) -> (u32, CoreSet)
        requires runs { view_spec.Runs (spec.store_view self.old) core true }
        requires access { view_spec.IsLoad (spec.store_view self.old).shape addr width }
        ensures bus { (spec.bus self.new) ≡ straight.after_straight_load (spec.bus self.old) core (spec.line_of self.old addr)
            (spec.room self.old core (spec.line_of self.old addr)) }
        ensures hurt { (k : ℕ) → is_in result.1 k ≡ straight.straight_load_violates (spec.bus self.old) core (spec.line_of self.old addr) k }
        ensures loads { rule.LoadsStraight (spec.store_view self.old) (spec.store_view self.new) core addr width result.0 (is_in result.1) }
        ensures makes { laws.Makes self.old (call.StraightLoad core addr width) self.new }
    {
        let place = self.place(addr);
        let line = self.line_of(place);
        self.parts.look_room(core as usize, line);
        let offset = place % self.parts.machine.line_length;
        self.parts.straight_load(core as usize, line, offset, width)
    }

    /// A store of the low `width` bytes of `value` by a straight attempt: they are committed. Answers the cores that it violates.
    fn straight_store(&mut self, core: u32, addr: u32, width: u32, value: u32) -> CoreSet
        requires runs { view_spec.Runs (spec.store_view self.old) core true }
        requires access { view_spec.IsLoad (spec.store_view self.old).shape addr width }
        ensures bus { (spec.bus self.new) ≡ straight.after_straight_store (spec.bus self.old) core (spec.line_of self.old addr)
            (spec.offset_of self.old addr) width value (spec.room self.old core (spec.line_of self.old addr)) }
        ensures hurt { (k : ℕ) → is_in result k ≡ straight.straight_store_violates (spec.bus self.old) core (spec.line_of self.old addr)
            (spec.offset_of self.old addr) width value k }
        ensures stores { rule.StoresStraight (spec.store_view self.old) (spec.store_view self.new) core addr width value (is_in result) }
        ensures makes { laws.Makes self.old (call.StraightStore core addr width value) self.new }
    {
        let place = self.place(addr);
        let line = self.line_of(place);
        self.parts.look_room(core as usize, line);
        let offset = place % self.parts.machine.line_length;
        self.parts
            .straight_store(core as usize, line, offset, width, value)
    }

    /// A straight attempt ends.
    fn leave(&mut self, core: u32)
        requires runs { view_spec.Runs (spec.store_view self.old) core true }
        ensures bus { (spec.bus self.new) ≡ attempts.after_leave (spec.bus self.old) core }
        ensures makes { laws.Makes self.old (call.Leave core) self.new }
        ensures leaves { rule.Ends (spec.store_view self.old) (spec.store_view self.new) core }
    {
        self.parts.leave(core as usize);
    }

    /// An attempt that isn't straight ends, and what it stored is forgotten.
    fn cancel(&mut self, core: u32)
        requires runs { view_spec.Runs (spec.store_view self.old) core false }
        ensures bus { (spec.bus self.new) ≡ attempts.after_cancel (spec.bus self.old) core }
        ensures makes { laws.Makes self.old (call.Cancel core) self.new }
        ensures cancels { rule.Ends (spec.store_view self.old) (spec.store_view self.new) core }
    {
        self.parts.cancel(core as usize);
    }

    fn committed_byte(&self, addr: u32) -> u8 {
        let place = self.place(addr);
        let line = self.line_of(place);
        let offset = place % self.parts.machine.line_length;
        self.parts.committed_line(line)[offset as usize]
    }

    fn committed_memory(&self, alloc: Global) -> Result<Vec<u8>, AllocError> {
        let memory = self.parts.committed_memory(alloc)?;
        if self.apart.is_none() {
            return Ok(memory);
        }
        self.by_address(alloc, memory.as_slice())
    }
}
