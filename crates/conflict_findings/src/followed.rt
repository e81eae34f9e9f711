//! What is kept of the attempts of a history while its entries are gone through, so that none is walked over twice.

ghost use Rattle.std.specs.Prelude.{◌≡◌, ◌+◌, ◌<◌, List, OnOk, length};
ghost use Rattle.spec_history.specs.declared.entry.Entry.{Entry};
ghost use Rattle.conflicts.specs.Attempts as attempts;
ghost use Rattle.conflicts.specs.Fates as fates;
ghost use Rattle.conflict_findings.specs.Followed as spec;

use crate::known_ends::KnownEnds;
use crate::numbers::Numbers;
use conflicts::Explanation;
use spec_history::Entry;
use std::alloc::{AllocError, Global};

/// The numbers of the attempts that go on, and the ends of those that violated others.
#[derive(Drop)]
pub struct Followed {
    /// Which run of its epoch each core is in.
    pub numbers: Numbers,
    /// Where attempts that violated others were over.
    pub known_ends: KnownEnds,
}

impl Followed {
    /// Nothing yet.
    pub fn new(alloc: Global) -> Followed
        ensures { (entries : List Entry) → spec.IsFollowedTo entries 0 result }
    {
        Followed {
            numbers: Numbers::new(alloc),
            known_ends: KnownEnds::new(),
        }
    }

    /// Notes the next entry of the history, if there is one.
    ///
    /// An Err says that memory was refused.
    pub fn note(&mut self, entries: &[Entry]) -> Result<(), AllocError>
        requires { spec.IsFollowed entries.now self.old }
        ensures known { OnOk result (spec.IsFollowed entries.now self.new) }
        ensures further { OnOk result (self.old.numbers.place < length entries.now → self.new.numbers.place ≡ self.old.numbers.place + 1) }
    {
        self.numbers.note(entries)
    }

    /// Which run of its epoch the attempt is that a core runs where the entries that are noted end, counted from 1.
    pub fn attempt_number(&self, core: u32) -> usize
        ensures { (entries : List Entry) → spec.IsFollowed entries self.now → result ≡ attempts.attempt_number entries core self.now.numbers.place }
    {
        self.numbers.attempt_number(core)
    }

    /// In vain: the place of the entry that violates or cancels the causer's attempt, if it does not commit. It looks for the end of an
    /// attempt once.
    pub(crate) fn undone_at(&mut self, entries: &[Entry], e: Explanation) -> Option<usize>
        requires { spec.IsFollowed entries.now self.old }
        ensures undone { result ≡ fates.undone_at entries.now e }
        ensures known { spec.IsFollowed entries.now self.new }
        ensures noted { self.new.numbers ≡ self.old.numbers }
    {
        self.known_ends.undone_at(entries, e)
    }
}
