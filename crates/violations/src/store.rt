ghost use Rattle.std.specs.Prelude.{◌≡◌, ◌+◌, ◌<◌, ◌≤◌, ℕ, IfOk, OnOk, true, false};
ghost use Rattle.violations.specs.View.{StoreView, Waits};
ghost use Rattle.violations.specs.View as view_spec;
ghost use Rattle.violations.specs.Rule as rule;
ghost use Rattle.violations.specs.CoreSet.{is_in};
ghost use Rattle.violations.specs.Answers.{MatchStep, wait_of};
ghost use Rattle.violations.specs.Calls.{Call, IsFixed, FixWaits, RoomsJoin};
ghost use Rattle.violations.specs.Calls as call;
ghost use Rattle.rv32_image.specs.Image.{LoadedImage};

use crate::core_set::CoreSet;
use crate::step::Step;
use rv32_image::{Image, NoMemory};
use std::alloc::{AllocError, Global};

/// A store of speculative epochs. Each core runs at most one attempt of an epoch, which loads and stores speculatively
/// until it publishes, and goes straight from then on.
///
/// Contracts see a store by its view, and a budget of calls: each changing call but `cancel` needs one of it, and takes at most one.
/// No call but `fresh` and `reserve` takes memory.
pub trait EpochStore: Drop + Send {
    /// What the store holds.
    ghost view: { Self → StoreView };

    /// Why a speculative access of a core waits, where it does.
    ghost waits: { Self → Waits };

    /// How many changing calls there is room for.
    ghost budget: { Self → ℕ };

    /// What a call makes of the whole store, what no view shows of it included.
    ghost makes: { Self → Call → Self → Type 0 };

    /// Two stores hold the same, what no view shows of them included.
    ghost alike: { Self → Self → Type 0 };

    /// The store is as `fresh` makes it for an image and so many cores.
    ghost starts: { LoadedImage → ℕ → Self → Type 0 };

    /// A store with the image's memory, for so many cores, and no attempts. The cores are 1 to the most that the image's version
    /// allows.
    ///
    /// `NoMemory`: there was no memory for it, and nothing was made.
    fn fresh(alloc: Global, image: &Image, cores: u32) -> Result<Self, NoMemory>
        requires cores { rule.IsCoreCount image.now cores }
        ensures fresh { IfOk result (λ store. rule.IsFresh image.now cores (view store)) }
        ensures starts { IfOk result (λ store. starts image.now cores store) };

    /// What a store holds is fixed by the image, the cores and the calls: this call does nothing, and its contract is the law.
    fn calls_are_fixed()
        ensures starts { (image : LoadedImage) (cores : ℕ) (s t : Self) → starts image cores s → starts image cores t → alike s t }
        ensures fixed { IsFixed makes alike }
        ensures views { (s t : Self) → alike s t → rule.IsSameView (view s) (view t) }
        ensures waits { FixWaits makes alike waits }
        ensures rooms { RoomsJoin makes };

    /// What every store keeps: this call does nothing, and its contract is the law.
    fn look(&self)
        ensures { view_spec.IsSettled (view self.now) };

    /// Makes room for four changing calls.
    ///
    /// `NoMemory`: there was no memory. Also then the view is as it was, and the same accesses wait.
    fn reserve(&mut self) -> Result<(), NoMemory>
        ensures view { rule.IsSameView (view self.old) (view self.new) }
        ensures waits { waits self.new ≡ waits self.old }
        ensures makes { makes self.old call.Reserve self.new }
        ensures budget { OnOk result (4 ≤ budget self.new) };

    /// The core begins an attempt of the epoch.
    fn begin(&mut self, core: u32, epoch: u32)
        requires budget { 1 ≤ budget self.old }
        requires may { view_spec.MayBegin (view self.old) core epoch }
        ensures begins { rule.Begins (view self.old) (view self.new) core epoch }
        ensures makes { makes self.old (call.Begin core epoch) self.new }
        ensures budget { budget self.old ≤ budget self.new + 1 };

    /// A speculative load of `width` bytes. It violates those cores alone whose full buffers have no place for the line.
    fn load(&mut self, core: u32, addr: u32, width: u32) -> Step
        requires budget { 1 ≤ budget self.old }
        requires runs { view_spec.Runs (view self.old) core false }
        requires access { view_spec.IsLoad (view self.old).shape addr width }
        ensures waits { wait_of result ≡ (waits self.old).load core addr width }
        ensures loads { MatchStep result (λ value hurt. rule.Loads (view self.old) (view self.new) core addr width value hurt) (self.new ≡ self.old) }
        ensures makes { makes self.old (call.Load core addr width) self.new }
        ensures budget { budget self.old ≤ budget self.new + 1 };

    /// A speculative store of the low `width` bytes of a value, which are the core's own from then on. It gives 0. It violates those
    /// cores alone that guard one of its bytes or whose full buffers have no place for the line, and without caches nobody.
    fn store(&mut self, core: u32, addr: u32, width: u32, value: u32) -> Step
        requires budget { 1 ≤ budget self.old }
        requires runs { view_spec.Runs (view self.old) core false }
        requires access { view_spec.IsStore (view self.old).shape addr width value }
        ensures waits { wait_of result ≡ (waits self.old).store core addr width }
        ensures stores { MatchStep result (λ answer hurt. (answer ≡ 0) × rule.Stores (view self.old) (view self.new) core addr width value hurt) (self.new ≡ self.old) }
        ensures makes { makes self.old (call.Store core addr width value) self.new }
        ensures budget { budget self.old ≤ budget self.new + 1 };

    /// The attempt, whose epoch is the first of all attempts, commits what it sees and is straight. Answers the cores that
    /// it violates: exactly the others that guard a byte of its own.
    fn publish(&mut self, core: u32) -> CoreSet
        requires budget { 1 ≤ budget self.old }
        requires may { view_spec.MayPublish (view self.old) core }
        ensures publishes { rule.Publishes (view self.old) (view self.new) core (is_in result) }
        ensures makes { makes self.old (call.Publish core) self.new }
        ensures budget { budget self.old ≤ budget self.new + 1 };

    /// A load of a straight attempt, with the cores that it violates: those alone whose full buffers have no place for the line.
    fn straight_load(&mut self, core: u32, addr: u32, width: u32) -> (u32, CoreSet)
        requires budget { 1 ≤ budget self.old }
        requires runs { view_spec.Runs (view self.old) core true }
        requires access { view_spec.IsLoad (view self.old).shape addr width }
        ensures loads { rule.LoadsStraight (view self.old) (view self.new) core addr width result.0 (is_in result.1) }
        ensures makes { makes self.old (call.StraightLoad core addr width) self.new }
        ensures budget { budget self.old ≤ budget self.new + 1 };

    /// A store of a straight attempt: its bytes are committed. Answers the cores that it violates: all others that guard one of the
    /// bytes, and beside them those alone whose full buffers have no place for the line.
    fn straight_store(&mut self, core: u32, addr: u32, width: u32, value: u32) -> CoreSet
        requires budget { 1 ≤ budget self.old }
        requires runs { view_spec.Runs (view self.old) core true }
        requires access { view_spec.IsStore (view self.old).shape addr width value }
        ensures stores { rule.StoresStraight (view self.old) (view self.new) core addr width value (is_in result) }
        ensures makes { makes self.old (call.StraightStore core addr width value) self.new }
        ensures budget { budget self.old ≤ budget self.new + 1 };

    /// A straight attempt ends.
    fn leave(&mut self, core: u32)
        requires budget { 1 ≤ budget self.old }
        requires runs { view_spec.Runs (view self.old) core true }
        ensures leaves { rule.Ends (view self.old) (view self.new) core }
        ensures makes { makes self.old (call.Leave core) self.new }
        ensures budget { budget self.old ≤ budget self.new + 1 };

    /// An attempt that isn't straight ends, and what it stored is forgotten. It asks for no budget.
    fn cancel(&mut self, core: u32)
        requires runs { view_spec.Runs (view self.old) core false }
        ensures cancels { rule.Ends (view self.old) (view self.new) core }
        ensures makes { makes self.old (call.Cancel core) self.new }
        ensures budget { budget self.new ≡ budget self.old };

    /// The committed byte at an address of memory.
    fn committed_byte(&self, addr: u32) -> u8
        requires { addr < (view self.now).shape.size }
        ensures { result ≡ (view self.now).committed addr };

    /// Committed memory, byte for byte from address 0 on. It is taken whole, at a cost of memory and of what the store keeps beside it.
    ///
    /// `AllocError`: memory ran out.
    fn committed_memory(&self, alloc: Global) -> Result<Vec<u8>, AllocError>
        ensures { IfOk result (λ bytes. view_spec.IsCommitted (view self.now) bytes.items) };
}
