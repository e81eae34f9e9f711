//! When epochs store and commit, where each step comes as early as it can.
ghost use Rattle.std.specs.Prelude.{◌≡◌, ℕ, ◌+◌, ◌-◌, ◌<◌, ◌≤◌, ◌^◌, IfOk, OnOk, [], length, slice_index};
ghost use Rattle.epoch_paths.specs.Kept.{IsMarked};
ghost use Rattle.limits.specs.Kept as spec;

use crate::limit::Waits;
use rv32_exec::NoMemory;
use std::alloc::Global;
use std::marker::Model;

/// The steps in which epochs store and commit.
#[derive(Drop)]
pub(crate) struct Times {
    /// What loads wait for.
    waits: Waits,
    /// The commit of each epoch so far.
    commits: Vec<u64>,
    /// Of each byte the epoch of the last store and 1, or 0 for none.
    writers: Vec<u32>,
    /// The step of that store.
    stores: Vec<u64>,
}

impl Model for Times {
    ghost use Rattle.limits.specs.Kept.{Kept};

    ghost Value = { Kept };

    ghost view = { λ t. record { waits = t.waits; commits = t.commits.items; writers = t.writers.items; stores = t.stores.items } };
}

impl Times {
    /// None, of so many bytes.
    pub(crate) fn none(alloc: Global, size: usize, waits: Waits) -> Result<Times, NoMemory>
        ensures waits { IfOk result (λ t. t.waits ≡ waits) }
        ensures long { IfOk result (λ t. spec.AreLong t size) }
        ensures commits { IfOk result (λ t. t.commits ≡ []) }
        ensures writers { IfOk result (λ t. (a : ℕ) → slice_index t.writers a ≡ 0) }
    {
        let writers = vec![in alloc; 0; size]?;
        let stores = vec![in alloc; 0; size]?;
        Ok(Times {
            waits,
            commits: Vec::new(alloc),
            writers,
            stores,
        })
    }

    /// When an epoch begins on so many cores: in the step after the commit of the one that its core ran before, if any.
    pub(crate) fn begin(&self, cores: u32, epoch: u32) -> u64
        requires cores { 1 ≤ cores }
        requires long { epoch ≤ length self.now.commits }
        requires soon { (d : ℕ) → d < epoch → slice_index self.now.commits d < 2 ^ 62 }
        ensures early { epoch < cores → result ≡ 0 }
        ensures late { cores ≤ epoch → result ≡ slice_index self.now.commits (epoch - cores) + 1 }
    {
        if epoch < cores {
            0
        } else {
            self.commits[(epoch - cores) as usize] + 1
        }
    }

    /// The step in which a load of these bytes is ready: the last of those that its bytes wait for which an earlier epoch has stored
    /// last. 0 where it waits for none.
    pub(crate) fn ready(&self, epoch: u32, addr: u32, width: u32) -> u64
        requires long { spec.AreLong self.now (length self.now.writers) }
        requires small { length self.now.writers < 2 ^ 32 }
        requires within { addr + width ≤ length self.now.writers }
        requires commits { epoch ≤ length self.now.commits }
        ensures { spec.IsReady self.now epoch addr (addr + width) result }
    {
        let mut ready = 0;
        for byte in addr..addr + width {
            let writer = self.writers[byte as usize];
            if 0 < writer && writer <= epoch {
                ready = ready.max(self.awaited(byte));
            }
        }
        ready
    }

    /// The step that a load of this byte waits for.
    fn awaited(&self, byte: u32) -> u64
        requires long { spec.AreLong self.now (length self.now.writers) }
        requires within { byte < length self.now.writers }
        requires some { 0 < slice_index self.now.writers byte }
        requires commits { slice_index self.now.writers byte ≤ length self.now.commits }
        ensures { result ≡ spec.awaited_by self.now byte }
    {
        match self.waits {
            Waits::Store => self.stores[byte as usize],
            Waits::Commit => self.commits[(self.writers[byte as usize] - 1) as usize],
        }
    }

    /// Keeps a store of these bytes.
    pub(crate) fn mark(&mut self, addr: u32, width: u32, writer: u32, step: u64)
        requires long { spec.AreLong self.old (length self.old.writers) }
        requires small { length self.old.writers < 2 ^ 32 }
        requires within { addr + width ≤ length self.old.writers }
        ensures { spec.AreMarked self.old self.new addr width writer step }
    {
        mark(
            self.writers.as_mut_slice(),
            self.stores.as_mut_slice(),
            addr,
            width,
            writer,
            step,
        );
    }

    /// Keeps the commit of one more epoch, whose end comes in this step: not before the epoch before it commits.
    pub(crate) fn commit(&mut self, end: u64) -> Result<(), NoMemory>
        ensures { OnOk result (self.new ≡ spec.with_commit self.old end) }
    {
        let commit = end.max(self.last_commit());
        self.commits.push(commit).map_err(|_| NoMemory)
    }

    /// The last commit, or 0 for none.
    pub(crate) fn last_commit(&self) -> u64
        ensures { result ≡ spec.last_commit self.now.commits }
    {
        match self.commits.last() {
            Some(commit) => *commit,
            None => 0,
        }
    }
}

/// Notes who stored these bytes, and when.
fn mark(writers: &mut [u32], stores: &mut [u64], addr: u32, width: u32, writer: u32, step: u64)
    requires small { length writers.old < 2 ^ 32 }
    requires long { length stores.old ≡ length writers.old }
    requires within { addr + width ≤ length writers.old }
    ensures long { (length writers.new ≡ length writers.old) × (length stores.new ≡ length stores.old) }
    ensures writers { IsMarked writers.old writers.new addr width writer }
    ensures stores { IsMarked stores.old stores.new addr width step }
{
    for i in 0..width {
        let at = (addr + i) as usize;
        writers[at] = writer;
        stores[at] = step;
    }
}
