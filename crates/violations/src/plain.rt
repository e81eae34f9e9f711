ghost use Rattle.std.specs.Prelude.{◌≡◌, ◌<◌, ◌≤◌, ◌+◌, ◌^◌, ◌==◌, ℕ, IfOk, IfSome, OnOk, Some, None, true, false, is_some, length, slice_get, slice_index};
ghost use Rattle.violations.specs.Plain as spec;
ghost use Rattle.violations.specs.View as view_spec;
ghost use Rattle.violations.specs.Rule as rule;
ghost use Rattle.violations.specs.Answers.{MatchStep, wait_of};
ghost use Rattle.violations.specs.View.{is_accessed};
ghost use Rattle.violations.specs.CoreSet.{is_in};
ghost use Rattle.violations.specs.Calls as call;

use crate::attempt::Attempt;
use crate::core_set::CoreSet;
use crate::core_state::CoreState;
use crate::core_states::{
    commit_number, drop_attempts, idle_states, readers_from, readers_of, reserve,
};
use crate::step::Step;
use crate::store::EpochStore;
use rv32_image::{Image, Machine, NoMemory};
use std::alloc::{AllocError, Global};
use std::marker::Model;

/// For how many accesses of each core room is made at once, where memory has as many words.
const MOST_ACCESSES: u32 = 64;

/// A store of committed bytes and, for each core, of the bytes that its attempt has stored and of those that it has loaded
/// from outside. It never waits. Its publish and its straight store violate each later core that guards a byte that is
/// written, changed or not; its speculative store violates nobody.
///
/// A load and a store take the same time whatever is kept; a publish, a violation, a cancel and a leave take time for what the
/// attempt has touched. It takes no memory for a core before the first `reserve`, which takes room for two cells for each byte of memory and each
/// core; they are made up to the highest byte that is touched. A later one grows nothing but the lists of touched bytes, and looks at the cores
/// once in 64 accesses.
#[derive(Drop)]
pub struct PlainStore {
    size: u32,
    code: u32,
    machine: Machine,
    committed: Vec<u8>,
    states: Vec<CoreState>,
    budget: u32,
}

impl Model for PlainStore {
    ghost use Rattle.violations.specs.Plain.{PlainView};

    ghost Value = { PlainView };

    ghost use Rattle.violations.specs.PlainInside.{view_of, IsPlain};

    ghost view = { view_of };

    ghost invariant = { IsPlain };
}

impl PlainStore {
    /// How many bytes of memory there are.
    pub fn size(&self) -> u32
        ensures size { result ≡ (spec.store_view self.now).shape.size }
        ensures small { result ≤ 1048576 }
    {
        self.size
    }

    /// What a core runs.
    pub fn attempt(&self, core: u32) -> Option<Attempt>
        ensures { result ≡ (spec.store_view self.now).attempt core }
    {
        self.states.get(core as usize)?.attempt
    }

    /// Whether a core guards the byte at an address: it has loaded it from outside its own.
    pub fn guards(&self, core: u32, addr: u32) -> bool
        ensures { result ≡ (spec.store_view self.now).guarded core addr }
    {
        match self.states.get(core as usize) {
            Some(state) => state.guarded.get(addr).is_some(),
            None => false,
        }
    }

    /// The byte that a core has stored at an address, if there is one.
    pub fn own_byte(&self, core: u32, addr: u32) -> Option<u8>
        ensures owned { is_some result ≡ (spec.store_view self.now).own core addr }
        ensures byte { IfSome result (λ byte. byte ≡ (spec.store_view self.now).sees core addr) }
    {
        self.states.get(core as usize)?.own.get(addr)
    }

    /// Makes room for some more calls.
    fn grow(&mut self) -> Result<(), NoMemory>
        ensures view { rule.IsSameView (spec.store_view self.old) (spec.store_view self.new) }
        ensures budget { OnOk result (4 ≤ self.new.budget) }
    {
        let accesses = self.size.min(4 * MOST_ACCESSES) / 4;
        self.budget = 0;
        reserve(&mut self.states, self.size, accesses)?;
        self.budget = accesses;
        Ok(())
    }
}

impl EpochStore for PlainStore {
    ghost use Rattle.violations.specs.Plain.{store_view, Makes, AreAlike, Starts};
    ghost use Rattle.violations.specs.View.{never_waits};

    ghost view = { store_view };

    ghost waits = { λ _. never_waits };

    ghost budget = { λ p. p.budget };

    ghost makes = { Makes };

    ghost alike = { AreAlike };

    ghost starts = { Starts };

    fn fresh(alloc: Global, image: &Image, cores: u32) -> Result<PlainStore, NoMemory> {
        let committed = Vec::from_slice(alloc, image.bytes())?;
        let states = idle_states(alloc, cores)?;
        Ok(PlainStore {
            size: image.size(),
            code: image.code(),
            machine: image.machine(),
            committed,
            states,
            budget: 0,
        })
    }

    fn calls_are_fixed() {}

    fn look(&self) {
        let _ = &self.code;
    }

    fn reserve(&mut self) -> Result<(), NoMemory> {
        if self.budget < 4 {
            self.grow()?;
        }
        Ok(())
    }

    fn begin(&mut self, core: u32, epoch: u32) {
        let state = &mut self.states[core as usize];
        state.attempt = Some(Attempt {
            epoch,
            straight: false,
        });
    }

    /// A speculative load: it never waits, violates nobody, and guards just the bytes that it takes from outside.
    fn load(&mut self, core: u32, addr: u32, width: u32) -> Step
        requires budget { 1 ≤ self.old.budget }
        requires runs { view_spec.Runs (spec.store_view self.old) core false }
        requires access { view_spec.IsLoad (spec.store_view self.old).shape addr width }
        ensures waits { wait_of result ≡ None }
        ensures loads { MatchStep result (λ value hurt. rule.Loads (spec.store_view self.old) (spec.store_view self.new) core addr width value hurt) ⊥ }
        ensures guards { spec.GuardsLoaded (spec.store_view self.old) (spec.store_view self.new) core addr width }
        ensures nobody { MatchStep result (λ value hurt. (k : ℕ) → hurt k ≡ false) ⊥ }
        ensures makes { spec.Makes self.old (call.Load core addr width) self.new }
        ensures budget { self.old.budget ≤ self.new.budget + 1 }
    {
        let state = &mut self.states[core as usize];
        let value = state.load(self.committed.as_slice(), addr, width);
        self.budget -= 1;
        Step::Done {
            value,
            hurt: CoreSet::none(),
        }
    }

    /// A speculative store: it never waits, and violates nobody.
    fn store(&mut self, core: u32, addr: u32, width: u32, value: u32) -> Step
        requires budget { 1 ≤ self.old.budget }
        requires runs { view_spec.Runs (spec.store_view self.old) core false }
        requires access { view_spec.IsStore (spec.store_view self.old).shape addr width value }
        ensures waits { wait_of result ≡ None }
        ensures stores { MatchStep result (λ answer hurt. (answer ≡ 0) × rule.Stores (spec.store_view self.old) (spec.store_view self.new) core addr width value hurt) ⊥ }
        ensures nobody { MatchStep result (λ answer hurt. (k : ℕ) → hurt k ≡ false) ⊥ }
        ensures makes { spec.Makes self.old (call.Store core addr width value) self.new }
        ensures budget { self.old.budget ≤ self.new.budget + 1 }
    {
        let state = &mut self.states[core as usize];
        state.own.keep(addr, width, value);
        self.budget -= 1;
        Step::Done {
            value: 0,
            hurt: CoreSet::none(),
        }
    }

    /// A publish: it violates exactly the other cores that guard a byte of the caller's own.
    fn publish(&mut self, core: u32) -> CoreSet
        requires budget { 1 ≤ self.old.budget }
        requires may { view_spec.MayPublish (spec.store_view self.old) core }
        ensures publishes { rule.Publishes (spec.store_view self.old) (spec.store_view self.new) core (is_in result) }
        ensures violates { spec.ViolatesReaders core ((spec.store_view self.old).own core) (is_in result) (spec.store_view self.old) }
        ensures makes { spec.Makes self.old (call.Publish core) self.new }
        ensures budget { self.old.budget ≤ self.new.budget + 1 }
    {
        let own = &self.states[core as usize].own;
        let hurt = readers_of(self.states.as_slice(), core, own);
        drop_attempts(&mut self.states, hurt);
        let state = &mut self.states[core as usize];
        state.own.commit(&mut self.committed);
        state.go_straight();
        hurt
    }

    /// A straight load: it violates nobody.
    fn straight_load(&mut self, core: u32, addr: u32, width: u32) -> (u32, CoreSet)
        requires budget { 1 ≤ self.old.budget }
        requires runs { view_spec.Runs (spec.store_view self.old) core true }
        requires access { view_spec.IsLoad (spec.store_view self.old).shape addr width }
        ensures loads { rule.LoadsStraight (spec.store_view self.old) (spec.store_view self.new) core addr width result.0 (is_in result.1) }
        ensures nobody { (k : ℕ) → is_in result.1 k ≡ false }
        ensures makes { spec.Makes self.old (call.StraightLoad core addr width) self.new }
        ensures budget { self.old.budget ≤ self.new.budget + 1 }
    {
        let value = self.states[core as usize]
            .own
            .number(self.committed.as_slice(), addr, width);
        (value, CoreSet::none())
    }

    /// A straight store: it violates exactly the other cores that guard a byte that is written.
    fn straight_store(&mut self, core: u32, addr: u32, width: u32, value: u32) -> CoreSet
        requires budget { 1 ≤ self.old.budget }
        requires runs { view_spec.Runs (spec.store_view self.old) core true }
        requires access { view_spec.IsStore (spec.store_view self.old).shape addr width value }
        ensures stores { rule.StoresStraight (spec.store_view self.old) (spec.store_view self.new) core addr width value (is_in result) }
        ensures violates { spec.ViolatesReaders core (is_accessed addr width) (is_in result) (spec.store_view self.old) }
        ensures makes { spec.Makes self.old (call.StraightStore core addr width value) self.new }
        ensures budget { self.old.budget ≤ self.new.budget + 1 }
    {
        let hurt = readers_from(self.states.as_slice(), core, addr, width);
        drop_attempts(&mut self.states, hurt);
        commit_number(&mut self.committed, addr, width, value);
        hurt
    }

    fn leave(&mut self, core: u32) {
        let state = &mut self.states[core as usize];
        state.drop_attempt();
    }

    fn cancel(&mut self, core: u32) {
        let state = &mut self.states[core as usize];
        state.drop_attempt();
    }

    fn committed_byte(&self, addr: u32) -> u8 {
        self.committed[addr as usize]
    }

    fn committed_memory(&self, alloc: Global) -> Result<Vec<u8>, AllocError> {
        Vec::from_slice(alloc, self.committed.as_slice())
    }
}
