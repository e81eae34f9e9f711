ghost use Rattle.std.specs.Prelude.{◌≡◌, ℕ, ◌+◌, ◌-◌, ◌%◌, ◌<◌, ◌≤◌, ◌^◌, IfOk, OnOk, Some, None, ◌++◌, ◌∷◌, [], List, length, slice_index, true, false};
ghost use Rattle.memory_bytes.specs.Bytes.{IsWidth};
ghost use Rattle.rv32_exec.specs.declared.sequential.End.TheVariants.{Done};
ghost use Rattle.rv32_exec.specs.Sequential.{first_epochs};
ghost use Rattle.dependences.specs.declared.flow.Dependence.{Dependence};
ghost use Rattle.dependences.specs.Flow.{AreDependences};
ghost use Rattle.epoch_paths.specs.Kept.{CanRun, IsNext};
ghost use Rattle.dependences.specs.Kept.{AreNoNearer, HasAsNear, IsNearestOf, IsSuch};
ghost use Rattle.dependences.specs.Kept as spec_kept;
ghost use Rattle.dependences.specs.KeptRun.{HaveAllRun, IsFlowKept, IsLeft, IsLoadKept, IsRunKept, IsSame};
ghost use Rattle.dependences.specs.KeptPairs.{ArePairSums};
ghost use Rattle.dependences.specs.KeptLast.{dependence_by};
ghost use Rattle.dependences.specs.KeptStores as spec;
ghost use Rattle.epoch_paths.specs.Lengths.{Lasts};
ghost use Rattle.dependences.specs.Lengths.{AreLengths};
ghost use Rattle.dependences.specs.Nearest.{IsLaterAt, IsNearest};
ghost use Rattle.dependences.specs.Summed.{AreSums};

use crate::ends::next_runs;
use crate::last_stores::{LastStore, LastStores};
use crate::pairs::{PairSum, PairSums};
use crate::word_stores::Word;
use epoch_paths::Epoch;
use rv32_exec::{NoMemory, Notes, start};
use rv32_image::Image;
use std::alloc::Global;
use std::collections::BTreeMap;

/// A load that reads from outside what an earlier epoch stores, and the last store of that.
#[derive(Clone, Copy, PartialEq, Eq)]
pub struct Dependence {
    /// The epoch that stores.
    pub earlier: u32,
    /// How many instructions it has executed at the store.
    pub stored: u32,
    /// The pc of the store.
    pub store_pc: u32,
    /// The epoch that loads.
    pub later: u32,
    /// How many instructions it has executed at the load.
    pub loaded: u32,
    /// The pc of the load.
    pub load_pc: u32,
    /// Of the bytes of the load, the first of those whose last store is the latest epoch's.
    pub byte: u32,
}

/// What the run in order shows.
#[derive(Drop)]
pub struct RunInOrder {
    /// What its dependences have in common, by the pcs of the store and of the load. There is a dependence of each load that reads from
    /// outside what an earlier epoch stores.
    pub sums: BTreeMap<(u32, u32), PairSum>,
    /// How many instructions each of its epochs executes, up to its end or fault.
    pub lengths: Vec<u64>,
    /// The least distance at which an epoch depends on an earlier one over bytes, if any does.
    pub nearest: Option<u32>,
    /// The first epoch that depends so near on an earlier one, where any does.
    pub later: u32,
}

/// The sums of the dependences of the run in order, how many instructions its epochs execute, and how near they depend on each other:
/// one run shows all.
///
/// `NoMemory`: there was none for a copy of the image's bytes, four words beside each, the sums, and two words for each epoch.
pub fn shown_in_order(alloc: Global, image: &Image) -> Result<RunInOrder, NoMemory>
    ensures sums { IfOk result (λ shown. AreSums image.now shown.sums) }
    ensures lengths { IfOk result (λ shown. AreLengths image.now shown.lengths.items) }
    ensures nearest { IfOk result (λ shown. IsNearest image.now shown.nearest) }
    ensures later { IfOk result (λ shown. IsLaterAt image.now shown.nearest shown.later) }
{
    let sums = PairSums::new(alloc)?;
    let (flow, lengths) = run_in_order(alloc, image, sums)?;
    shown_by(image, flow, lengths)
}

/// The same by what is kept of the run at its end, and its lengths.
///
/// `NoMemory`: there was none for the sums.
pub(crate) fn shown_by(
    _image: &Image,
    flow: Flow<PairSums>,
    lengths: Vec<u64>,
) -> Result<RunInOrder, NoMemory>
    requires { HaveAllRun ArePairSums _image.now flow lengths.items }
    ensures sums { IfOk result (λ shown. AreSums _image.now shown.sums) }
    ensures lengths { IfOk result (λ shown. AreLengths _image.now shown.lengths.items) }
    ensures nearest { IfOk result (λ shown. IsNearest _image.now shown.nearest) }
    ensures later { IfOk result (λ shown. IsLaterAt _image.now shown.nearest shown.later) }
{
    Ok(RunInOrder {
        sums: flow.found.all()?,
        lengths,
        nearest: flow.nearest,
        later: flow.later,
    })
}

/// The dependences of the run in order: one of each load that reads from outside what an earlier epoch stores, in order.
///
/// `NoMemory`: there was none for a copy of the image's bytes, four words beside each, the dependences, and two words for each epoch.
pub fn dependences_in_order(alloc: Global, image: &Image) -> Result<Vec<Dependence>, NoMemory>
    ensures { IfOk result (λ found. AreDependences image.now found.items) }
{
    let found: Vec<Dependence> = Vec::new(alloc);
    let (flow, _) = run_in_order(alloc, image, found)?;
    Ok(flow.found)
}

/// How many instructions each epoch executes that runs in order, up to its end or fault.
///
/// `NoMemory`: there was none for what `dependences_in_order` takes.
pub fn lengths_in_order(alloc: Global, image: &Image) -> Result<Vec<u64>, NoMemory>
    ensures { IfOk result (λ lengths. AreLengths image.now lengths.items) }
{
    let found: Vec<Dependence> = Vec::new(alloc);
    let (_, lengths) = run_in_order(alloc, image, found)?;
    Ok(lengths)
}

/// What is kept of the run in order at its end, and its lengths. `found` keeps no dependence yet.
///
/// `NoMemory`: there was none for them, for a copy of the image's bytes, or for what is kept of each byte.
fn run_in_order<F: Found>(
    alloc: Global,
    image: &Image,
    found: F,
) -> Result<(Flow<F>, Vec<u64>), NoMemory>
    requires { F.keeps found [] }
    ensures { IfOk result (λ ran. HaveAllRun F.keeps image.now ran.0 ran.1.items) }
{
    let mut memory = Vec::from_slice(alloc, image.bytes())?;
    let mut flow = Flow::none(alloc, image, found)?;
    // Room for all at once: a list that grows leaves memory behind that was touched.
    let mut lengths = Vec::with_capacity(alloc, image.epochs() as usize)?;
    run_all(
        image,
        0,
        true,
        memory.as_mut_slice(),
        &mut flow,
        &mut lengths,
    )?;
    Ok((flow, lengths))
}

/// Keeps dependences as they are found.
pub(crate) trait Found: Drop {
    /// It keeps these.
    ghost keeps: { Self → List Dependence → Type 0 };

    /// Keeps one more.
    ///
    /// `NoMemory`: there was none for it.
    fn add(&mut self, one: Dependence) -> Result<(), NoMemory>
        requires order { one.earlier ≤ one.later }
        requires kept { (list : List Dependence) × keeps self.old list }
        ensures { OnOk result ((list : List Dependence) → keeps self.old list → keeps self.new (list ++ one ∷ [])) };

    /// Keeps one more of these instructions, at this distance and by this byte, where that is all that it keeps of it, and one before
    /// is as near. Answers whether it does; else nothing changes.
    fn counts(&mut self, store_pc: u32, load_pc: u32, distance: u32, byte: u32) -> bool
        requires { (list : List Dependence) × keeps self.old list }
        ensures kept { result ≡ true → (list : List Dependence) → keeps self.old list → (one : Dependence) → IsSuch store_pc load_pc distance byte one → keeps self.new (list ++ one ∷ []) }
        ensures near { result ≡ true → (list : List Dependence) → keeps self.old list → HasAsNear list distance }
        ensures same { result ≡ false → (list : List Dependence) → keeps self.old list → keeps self.new list };
}

impl Found for Vec<Dependence> {
    ghost keeps = { λ found list. found.items ≡ list };

    fn add(&mut self, one: Dependence) -> Result<(), NoMemory> {
        self.push(one).map_err(|_| NoMemory)
    }

    fn counts(&mut self, _store_pc: u32, _load_pc: u32, _distance: u32, _byte: u32) -> bool {
        false
    }
}

/// What is kept of the run in order: the last store of each byte, the dependences, and how near epochs depend on each other.
#[derive(Drop)]
pub(crate) struct Flow<F: Found> {
    /// The epoch that runs.
    pub(crate) epoch: Epoch,
    pub(crate) stores: LastStores,
    pub(crate) found: F,
    pub(crate) nearest: Option<u32>,
    /// The first epoch that depends so near on an earlier one, where any does.
    pub(crate) later: u32,
    /// There was no memory for a dependence, and nothing is noted since.
    pub(crate) is_full: bool,
}

impl<F: Found> Notes for Flow<F> {
    ghost use Rattle.dependences.specs.KeptRun.{IsRight};

    ghost right = { λ image flow h memory. IsRight F.keeps image flow h memory };

    ghost fixed = { λ flow. flow.epoch ∷ [] };

    fn others_need_no_note() {}

    #[inline(always)]
    fn load(&mut self, _image: &Image, pc: u32, done: u64, addr: u32, width: u32) {
        if self.is_full {
            return;
        }
        self.note_load(pc, done, addr, width);
    }

    #[inline(always)]
    fn store(&mut self, _image: &Image, pc: u32, done: u64, addr: u32, width: u32) {
        self.stores.mark(addr, width, self.epoch, done as u32, pc);
    }
}

impl<F: Found> Flow<F> {
    /// Where no epoch has run. `found` keeps no dependence yet.
    ///
    /// `NoMemory`: there was none for what is kept of each byte.
    pub(crate) fn none(alloc: Global, image: &Image, found: F) -> Result<Flow<F>, NoMemory>
        requires { F.keeps found [] }
        ensures { IfOk result (λ flow. IsFlowKept F.keeps image.now 0 flow) }
    {
        let stores = LastStores::none(alloc, image.size() as usize)?;
        Ok(Flow {
            epoch: Epoch::of(0),
            stores,
            found,
            nearest: None,
            later: 0,
            is_full: false,
        })
    }

    /// Notes an aligned load, where there was memory for all before.
    #[inline(always)]
    fn note_load(&mut self, pc: u32, done: u64, addr: u32, width: u32)
        requires wide { IsWidth width }
        requires aligned { addr % width ≡ 0 }
        requires small { length self.old.stores.writers < 2 ^ 32 }
        requires within { addr + width ≤ length self.old.stores.writers }
        requires step { done < 2 ^ 32 }
        requires found { (list : List Dependence) × F.keeps self.old.found list × AreNoNearer list self.old.nearest }
        requires room { self.old.is_full ≡ false }
        ensures epoch { self.new.epoch ≡ self.old.epoch }
        ensures stores { self.new.stores ≡ self.old.stores }
        ensures kept { self.new.is_full ≡ false → IsLoadKept F.keeps self.old self.new pc done addr width }
    {
        if self.is_done(pc, addr, width) {
            return;
        }
        self.note_others(pc, done, addr, width);
    }

    /// Whether nothing more has to be noted of a load: it depends on no earlier epoch, or is counted now with others of its
    /// instructions.
    #[inline(always)]
    fn is_done(&mut self, pc: u32, addr: u32, width: u32) -> bool
        requires wide { IsWidth width }
        requires aligned { addr % width ≡ 0 }
        requires within { addr + width ≤ length self.old.stores.writers }
        requires found { (list : List Dependence) × F.keeps self.old.found list × AreNoNearer list self.old.nearest }
        requires room { self.old.is_full ≡ false }
        ensures epoch { self.new.epoch ≡ self.old.epoch }
        ensures stores { self.new.stores ≡ self.old.stores }
        ensures kept { result ≡ true → (done : ℕ) → IsLoadKept F.keeps self.old self.new pc done addr width }
        ensures same { result ≡ false → IsSame F.keeps self.old self.new }
    {
        let by = self.stores.kept_at(addr, width);
        if by.is_before(self.epoch) {
            let distance = self.epoch.note() - by.writer;
            return self.found.counts(by.pc, pc, distance, addr);
        }
        !by.is_each()
    }

    /// The same, whatever its bytes were stored by. What is rarely asked for is worked out here, so that LLVM keeps it in no register
    /// before.
    #[inline(never)]
    fn note_others(&mut self, pc: u32, done: u64, addr: u32, width: u32)
        requires wide { IsWidth width }
        requires aligned { addr % width ≡ 0 }
        requires small { length self.old.stores.writers < 2 ^ 32 }
        requires within { addr + width ≤ length self.old.stores.writers }
        requires step { done < 2 ^ 32 }
        requires found { (list : List Dependence) × F.keeps self.old.found list }
        requires room { self.old.is_full ≡ false }
        ensures epoch { self.new.epoch ≡ self.old.epoch }
        ensures stores { self.new.stores ≡ self.old.stores }
        ensures kept { self.new.is_full ≡ false → IsLoadKept F.keeps self.old self.new pc done addr width }
    {
        match self.stores.last_of(addr, width) {
            Word::Untouched => {}
            Word::Whole(by) => {
                if by.is_before(self.epoch) {
                    self.depend(pc, done, LastStore { byte: addr, by });
                }
            }
            Word::Bytes => self.note_bytes(pc, done, addr, width),
        }
    }

    /// The same, by what each of its bytes was stored last.
    #[inline(never)]
    fn note_bytes(&mut self, pc: u32, done: u64, addr: u32, width: u32)
        requires small { length self.old.stores.writers < 2 ^ 32 }
        requires within { addr + width ≤ length self.old.stores.writers }
        requires step { done < 2 ^ 32 }
        requires found { (list : List Dependence) × F.keeps self.old.found list }
        requires room { self.old.is_full ≡ false }
        ensures epoch { self.new.epoch ≡ self.old.epoch }
        ensures stores { self.new.stores ≡ self.old.stores }
        ensures kept { self.new.is_full ≡ false → IsLoadKept F.keeps self.old self.new pc done addr width }
    {
        if let Some(byte) = self.stores.nearest_byte(self.epoch, addr, width) {
            let by = self.stores.stored_by(byte);
            self.depend(pc, done, LastStore { byte, by });
        }
    }

    /// Notes a load that depends on an earlier epoch, by a byte with this last store.
    #[inline(always)]
    fn depend(&mut self, pc: u32, done: u64, last: LastStore)
        requires earlier { last.by.writer ≤ self.old.epoch }
        requires some { 0 < last.by.writer }
        requires step { done < 2 ^ 32 }
        requires found { (list : List Dependence) × F.keeps self.old.found list }
        ensures epoch { self.new.epoch ≡ self.old.epoch }
        ensures stores { self.new.stores ≡ self.old.stores }
        ensures nearest { self.new.nearest ≡ spec_kept.nearer self.old.nearest (Some (self.old.epoch + 1 - last.by.writer)) }
        ensures later { (list : List Dependence) → IsNearestOf list self.old.nearest self.old.later
            → IsNearestOf (list ++ dependence_by last self.old.epoch pc done ∷ []) self.new.nearest self.new.later }
        ensures found { self.new.is_full ≡ false → (list : List Dependence) → F.keeps self.old.found list → F.keeps self.new.found (list ++ dependence_by last self.old.epoch pc done ∷ []) }
    {
        let one = last.dependence(self.epoch, pc, done as u32);
        let distance = one.later - one.earlier;
        if is_nearer(self.nearest, distance) {
            self.nearest = Some(distance);
            self.later = one.later;
        }
        if self.found.add(one).is_err() {
            self.is_full = true;
        }
    }
}

/// Whether a distance is nearer than the nearest so far, if any.
fn is_nearer(nearest: Option<u32>, distance: u32) -> bool
    ensures nearer { result ≡ true → spec_kept.nearer nearest (Some distance) ≡ Some distance }
    ensures no { result ≡ false → spec_kept.nearer nearest (Some distance) ≡ nearest }
    ensures some { result ≡ false → nearest ≡ None → ⊥ }
{
    match nearest {
        Some(nearest) => distance < nearest,
        None => true,
    }
}

/// Runs the epochs over memory that are left after so many, in order, and notes their dependences and their lengths.
pub(crate) fn run_all<F: Found>(
    image: &Image,
    from: u32,
    goes_on: bool,
    memory: &mut [u8],
    flow: &mut Flow<F>,
    lengths: &mut Vec<u64>,
) -> Result<(), NoMemory>
    requires most { from ≤ image.now.epochs }
    requires size { length memory.old ≡ image.now.size }
    requires left { IsLeft image.now from memory.old goes_on }
    requires kept { IsRunKept F.keeps image.now from flow.old lengths.old.items }
    ensures { IfOk result (λ done. HaveAllRun F.keeps image.now flow.new lengths.new.items) }
{
    let mut goes_on = goes_on;
    for epoch in from..image.epochs() {
        if !goes_on {
            return Ok(());
        }
        let ran = follow(image, epoch, memory, flow)?;
        add(lengths, ran.length)?;
        goes_on = ran.goes_on;
    }
    Ok(())
}

/// Adds the length of one more epoch.
pub(crate) fn add(lengths: &mut Vec<u64>, count: u64) -> Result<(), NoMemory>
    ensures { OnOk result (lengths.new.items ≡ lengths.old.items ++ count ∷ []) }
{
    lengths.push(count).map_err(|_| NoMemory)
}

/// What came of an epoch: how many instructions it has executed, and whether the next one runs.
#[derive(Clone, Copy)]
struct Ran {
    length: u64,
    goes_on: bool,
}

/// Runs one epoch over memory, notes its dependences, and keeps the last store of each byte.
fn follow<F: Found>(
    image: &Image,
    epoch: u32,
    memory: &mut [u8],
    flow: &mut Flow<F>,
) -> Result<Ran, NoMemory>
    requires run { CanRun image.now epoch memory.old }
    requires before { first_epochs image.now epoch ≡ record { end = Done epoch; bytes = memory.old } }
    requires kept { IsFlowKept F.keeps image.now epoch flow.old }
    ensures kept { IfOk result (λ ran. IsFlowKept F.keeps image.now (epoch + 1) flow.new) }
    ensures lasts { IfOk result (λ ran. Lasts image.now epoch ran.length) }
    ensures next { IfOk result (λ ran. IsNext image.now (epoch + 1) memory.new ran.goes_on) }
{
    flow.epoch = Epoch::of(epoch);
    let mut hart = start(image, epoch);
    let at = hart.run_to_end(image, memory, flow);
    if flow.is_full {
        return Err(NoMemory);
    }
    Ok(Ran {
        length: hart.done(),
        goes_on: next_runs(image, &hart, at),
    })
}
