//! Which run of its epoch each core is in, noted entry by entry.

ghost use Rattle.std.specs.Prelude.{◌≡◌, ◌+◌, ◌<◌, ◌^◌, IfSome, List, OnOk, length};
ghost use Rattle.std.specs.BTreeMap.{get};
ghost use Rattle.std.specs.Ordering.{nat_cmp};
ghost use Rattle.spec_history.specs.declared.entry.Entry.{Entry};
ghost use Rattle.conflicts.specs.Attempts as attempts;
ghost use Rattle.conflict_findings.specs.Numbers as spec;

use spec_history::{Entry, What};
use std::alloc::{AllocError, Global};
use std::collections::BTreeMap;

/// Which run of its epoch each core is in before a place of the history.
#[derive(Drop)]
pub struct Numbers {
    /// The place.
    pub place: usize,
    /// By the number of a core that has started an epoch. Runs count from 1.
    pub runs: BTreeMap<u32, usize>,
}

impl Numbers {
    /// Before the history.
    pub(crate) fn new(alloc: Global) -> Numbers
        ensures known { (entries : List Entry) → spec.AreNumbers entries result }
        ensures first { result.place ≡ 0 }
    {
        Numbers {
            place: 0,
            runs: BTreeMap::new(alloc),
        }
    }

    /// The run that an entry begins, if it begins one of an epoch that its core has started.
    fn begun_by(&self, entry: Entry) -> Option<usize>
        requires { IfSome (get nat_cmp self.now.runs entry.by) (λ run. run + 1 < 2 ^ 64) }
        ensures { result ≡ spec.begun_by entry.what (get nat_cmp self.now.runs entry.by) }
    {
        match entry.what {
            What::Start(_) => Some(1),
            What::Restart => {
                let run = self.runs.get(&entry.by).copied()?;
                Some(run + 1)
            }
            What::Load { .. }
            | What::Store { .. }
            | What::Hurt(_)
            | What::Cancel(_)
            | What::Publish
            | What::Commit
            | What::Fault { .. } => None,
        }
    }

    /// Notes the entry at the place, and goes one place further. After the history it stays where it is.
    pub(crate) fn note(&mut self, entries: &[Entry]) -> Result<(), AllocError>
        requires { spec.AreNumbers entries.now self.old }
        ensures known { OnOk result (spec.AreNumbers entries.now self.new) }
        ensures further { OnOk result (self.old.place < length entries.now → self.new.place ≡ self.old.place + 1) }
    {
        let Some(entry) = entries.get(self.place) else {
            return Ok(());
        };
        if let Some(run) = self.begun_by(*entry) {
            self.runs.insert(entry.by, run)?;
        }
        self.place += 1;
        Ok(())
    }

    /// Which run of its epoch the attempt is that a core runs before the place, counted from 1.
    pub(crate) fn attempt_number(&self, core: u32) -> usize
        ensures { (entries : List Entry) → spec.AreNumbers entries self.now → result ≡ attempts.attempt_number entries core self.now.place }
    {
        self.runs.get(&core).copied().unwrap_or(1)
    }
}
