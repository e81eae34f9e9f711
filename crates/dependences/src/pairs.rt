ghost use Rattle.std.specs.Prelude.{◌≡◌, ◌≢◌, ℕ, ◌<◌, ◌≤◌, IfOk, OnOk, Some, None, [], true, false, cond, length, min, max};
ghost use Rattle.std.specs.Ordering.{is_eq};
ghost use Rattle.std.specs.BTreeMap.{get};
ghost use Rattle.dependences.specs.declared.pairs.PairSum.{PairSum};
ghost use Rattle.dependences.specs.Pairs as spec;
ghost use Rattle.dependences.specs.KeptPairs as kept;

use crate::flow::{Dependence, Found};
use rv32_exec::NoMemory;
use std::alloc::Global;
use std::collections::BTreeMap;

/// What the dependences have in common that two instructions, a store and a load, join.
#[derive(Clone, Copy, PartialEq, Eq)]
pub struct PairSum {
    /// How many they are.
    pub times: u64,
    /// The least distance of their epochs.
    pub least: u32,
    /// The greatest.
    pub most: u32,
    /// The lowest of their bytes.
    pub lowest: u32,
    /// The highest.
    pub highest: u32,
    /// The first of them.
    pub first: Dependence,
}

impl PairSum {
    /// Of one alone.
    fn of(one: Dependence) -> PairSum
        requires { one.earlier ≤ one.later }
        ensures { result ≡ spec.sum_of_one one }
    {
        let distance = one.later - one.earlier;
        PairSum {
            times: 1,
            least: distance,
            most: distance,
            lowest: one.byte,
            highest: one.byte,
            first: one,
        }
    }

    /// Counts one more.
    ///
    /// `NoMemory`: there was none for a higher count.
    fn count(&mut self, one: Dependence) -> Result<(), NoMemory>
        requires { one.earlier ≤ one.later }
        ensures { OnOk result (self.new ≡ spec.sum_more self.old one) }
    {
        let Some(times) = self.times.checked_add(1) else {
            return Err(NoMemory);
        };
        self.times = times;
        let distance = one.later - one.earlier;
        lower(&mut self.least, distance);
        raise(&mut self.most, distance);
        lower(&mut self.lowest, one.byte);
        raise(&mut self.highest, one.byte);
        Ok(())
    }

    /// Counts one more at this distance and by this byte, unless it is nearer than all before. Answers whether it does; else nothing
    /// changes.
    #[inline]
    fn counts(&mut self, distance: u32, byte: u32) -> bool
        ensures counted { result ≡ true → (one : Dependence) → spec.distance one ≡ distance → one.byte ≡ byte → self.new ≡ spec.sum_more self.old one }
        ensures near { result ≡ true → self.old.least ≤ distance }
        ensures same { result ≡ false → self.new ≡ self.old }
    {
        if distance < self.least {
            return false;
        }
        let Some(times) = self.times.checked_add(1) else {
            return false;
        };
        self.times = times;
        raise(&mut self.most, distance);
        lower(&mut self.lowest, byte);
        raise(&mut self.highest, byte);
        true
    }
}

/// Puts the other number in its place, if this is lower. Mostly it isn't, and nothing is written.
#[inline]
fn lower(number: &mut u32, other: u32)
    ensures { number.new ≡ min number.old other }
{
    if other < *number {
        *number = other;
    }
}

/// Puts the other number in its place, if this is higher.
#[inline]
fn raise(number: &mut u32, other: u32)
    ensures { number.new ≡ max number.old other }
{
    if *number < other {
        *number = other;
    }
}

/// Puts the sum of a pair in place of what it had.
fn put(
    sums: &mut BTreeMap<(u32, u32), PairSum>,
    pair: (u32, u32),
    sum: PairSum,
) -> Result<(), NoMemory>
    ensures { OnOk result ((store load : ℕ) → get spec.by_pcs sums.new (store, load)
        ≡ cond (is_eq (spec.by_pcs pair (store, load))) (Some sum) (get spec.by_pcs sums.old (store, load))) }
{
    match sums.insert(pair, sum) {
        Ok(_) => Ok(()),
        Err(_) => Err(NoMemory),
    }
}

/// A pair of instructions whose sum is at hand.
#[derive(Clone, Copy)]
struct Ready {
    /// The pc of the store.
    store: u32,
    /// The pc of the load.
    load: u32,
    sum: PairSum,
}

/// How many pairs are at hand at most.
const SLOTS: usize = 256;

/// Where the pair of these two instructions is at hand, if it is. The store has a part in it, so that LLVM counts no second number
/// beside the pc of each instruction.
#[inline]
fn slot_of(store: u32, load: u32) -> usize
    ensures slot { result ≡ kept.slot store load }
    ensures few { result < 256 }
{
    (load as usize + 2 * store as usize) / 4 % SLOTS
}

/// It stands where no pair is at hand: in any place but that of a store at pc 0 and a load at this pc.
fn elsewhere(load: u32) -> Ready
    ensures store { result.store ≡ 0 }
    ensures load { result.load ≡ load }
{
    let first = Dependence {
        earlier: 0,
        stored: 0,
        store_pc: 0,
        later: 0,
        loaded: 0,
        load_pc: load,
        byte: 0,
    };
    Ready {
        store: 0,
        load,
        sum: PairSum::of(first),
    }
}

/// What dependences have in common by pairs of instructions, kept as the dependences come. A few pairs are at hand, each in a place of
/// its own: its sum there is the pair's, and not that of the map. A pair counts only in its place, so a place needs no mark that
/// nothing is there.
#[derive(Drop)]
pub(crate) struct PairSums {
    ready: Vec<Ready>,
    sums: BTreeMap<(u32, u32), PairSum>,
}

impl Found for PairSums {
    ghost use Rattle.dependences.specs.KeptPairs.{ArePairSums};

    ghost keeps = { ArePairSums };

    fn add(&mut self, one: Dependence) -> Result<(), NoMemory> {
        self.keep(one)?;
        Ok(())
    }

    #[inline]
    fn counts(&mut self, store_pc: u32, load_pc: u32, distance: u32, byte: u32) -> bool {
        let ready = &mut self.ready[slot_of(store_pc, load_pc)];
        if (ready.store != store_pc) | (ready.load != load_pc) {
            return false;
        }
        ready.sum.counts(distance, byte)
    }
}

impl PairSums {
    /// None.
    pub(crate) fn new(alloc: Global) -> Result<PairSums, NoMemory>
        ensures { IfOk result (λ s. kept.ArePairSums s []) }
    {
        // The place of a store and a load at pc 0 is the first.
        let mut ready = vec![in alloc; elsewhere(0); SLOTS]?;
        ready[0] = elsewhere(4);
        Ok(PairSums {
            ready,
            sums: BTreeMap::new(alloc),
        })
    }

    /// Adds one to the sum of its pair.
    fn keep(&mut self, one: Dependence) -> Result<(), NoMemory>
        requires long { length self.old.ready.items ≡ 256 }
        requires order { one.earlier ≤ one.later }
        ensures long { OnOk result (length self.new.ready.items ≡ 256) }
        ensures added { OnOk result (kept.IsAdded self.old self.new one) }
    {
        if self.count_ready(one)? {
            return Ok(());
        }
        self.make_ready(one)
    }

    /// Adds one to the sum of its pair, where this is at hand. Answers whether it is.
    ///
    /// `NoMemory`: there was none for a higher count.
    fn count_ready(&mut self, one: Dependence) -> Result<bool, NoMemory>
        requires long { length self.old.ready.items ≡ 256 }
        requires order { one.earlier ≤ one.later }
        ensures long { length self.new.ready.items ≡ 256 }
        ensures added { IfOk result (λ is_so. is_so ≡ true → kept.IsAdded self.old self.new one) }
        ensures same { IfOk result (λ is_so. is_so ≡ false → (self.new.ready.items ≡ self.old.ready.items) × (self.new.sums ≡ self.old.sums)) }
        ensures none { IfOk result (λ is_so. is_so ≡ false → kept.ready_sum self.old.ready.items one.store_pc one.load_pc ≡ None) }
    {
        let ready = &mut self.ready[slot_of(one.store_pc, one.load_pc)];
        if (ready.store != one.store_pc) | (ready.load != one.load_pc) {
            return Ok(false);
        }
        ready.sum.count(one)?;
        Ok(true)
    }

    /// Takes the pair of a dependence to hand, in place of the one that was there, and adds the dependence to its sum.
    fn make_ready(&mut self, one: Dependence) -> Result<(), NoMemory>
        requires long { length self.old.ready.items ≡ 256 }
        requires order { one.earlier ≤ one.later }
        requires none { kept.ready_sum self.old.ready.items one.store_pc one.load_pc ≡ None }
        ensures long { OnOk result (length self.new.ready.items ≡ 256) }
        ensures added { OnOk result (kept.IsAdded self.old self.new one) }
    {
        let (store, load) = (one.store_pc, one.load_pc);
        let slot = slot_of(store, load);
        let sum = self.sum_with(one)?;
        self.put_back(slot)?;
        self.ready[slot] = Ready { store, load, sum };
        Ok(())
    }

    /// The sum that the map has of the pair of a dependence, with this one.
    ///
    /// `NoMemory`: there was none for a higher count.
    fn sum_with(&self, one: Dependence) -> Result<PairSum, NoMemory>
        requires { one.earlier ≤ one.later }
        ensures { IfOk result (λ sum. spec.sum_with (get spec.by_pcs self.now.sums (one.store_pc, one.load_pc)) one ≡ Some sum) }
    {
        match self.sums.get(&(one.store_pc, one.load_pc)) {
            Some(before) => {
                let mut sum = *before;
                sum.count(one)?;
                Ok(sum)
            }
            None => Ok(PairSum::of(one)),
        }
    }

    /// Puts the sum of the pair that is at hand in this place, if any, into the map.
    fn put_back(&mut self, slot: usize) -> Result<(), NoMemory>
        requires { slot < length self.old.ready.items }
        ensures ready { self.new.ready.items ≡ self.old.ready.items }
        ensures here { OnOk result ((store load : ℕ) → kept.slot store load ≡ slot → get spec.by_pcs self.new.sums (store, load) ≡ kept.kept_sum self.old.ready.items self.old.sums store load) }
        ensures others { OnOk result ((store load : ℕ) → kept.slot store load ≢ slot → get spec.by_pcs self.new.sums (store, load) ≡ get spec.by_pcs self.old.sums (store, load)) }
    {
        let ready = self.ready[slot];
        if slot_of(ready.store, ready.load) != slot {
            return Ok(());
        }
        put(&mut self.sums, (ready.store, ready.load), ready.sum)
    }

    /// All sums, by the pcs of the store and of the load.
    ///
    /// `NoMemory`: there was none for those that were at hand.
    pub(crate) fn all(self) -> Result<BTreeMap<(u32, u32), PairSum>, NoMemory>
        requires { length self.ready.items ≡ 256 }
        ensures { IfOk result (λ sums. (store load : ℕ) → get spec.by_pcs sums (store, load) ≡ kept.kept_sum self.ready.items self.sums store load) }
    {
        let mut all = self;
        for slot in 0..SLOTS {
            all.put_back(slot)?;
        }
        Ok(all.sums)
    }
}
