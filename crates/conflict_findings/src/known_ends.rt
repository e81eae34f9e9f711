//! Where the attempts were over that made the violations, for each core, so that no end is searched for twice.

ghost use Rattle.std.specs.Prelude.{◌≡◌, ◌<◌, ◌≤◌, IfSome, List};
ghost use Rattle.std.specs.Bool.{OnTrue};
ghost use Rattle.spec_history.specs.declared.entry.Entry.{Entry};
ghost use Rattle.conflicts.specs.Fates as fates;
ghost use Rattle.conflict_findings.specs.KnownEnds as spec;

use conflicts::{Explanation, Runner};
use spec_history::{Entry, What};

/// Where the attempt of a runner that goes on after a place ends.
#[derive(Clone, Copy)]
pub struct KnownEnd {
    /// Who makes the attempt.
    pub runner: Runner,
    /// The place in the history after which it goes on.
    pub place: usize,
    /// The place of the entry that ends it, if there is one.
    pub at: Option<usize>,
}

impl KnownEnd {
    /// The same attempt goes on after the violation.
    fn is_of(self, e: Explanation) -> bool
        ensures core { OnTrue result (self.runner.core ≡ e.causer.core) }
        ensures epoch { OnTrue result (self.runner.epoch ≡ e.causer.epoch) }
        ensures later { OnTrue result (self.place ≤ e.place) }
        ensures before { OnTrue result (IfSome self.at (λ at. e.place < at)) }
    {
        let is_before = match self.at {
            Some(at) => e.place < at,
            None => true,
        };
        is_before
            && self.runner.core == e.causer.core
            && self.runner.epoch == e.causer.epoch
            && self.place <= e.place
    }
}

/// The end that was found last for each core.
#[derive(Drop)]
pub struct KnownEnds {
    /// By the number of the core, modulo 16.
    pub slots: [Option<KnownEnd>; 16],
}

impl KnownEnds {
    /// Nothing yet.
    pub(crate) fn new() -> KnownEnds
        ensures { (entries : List Entry) → spec.AreKnownEnds entries result }
    {
        KnownEnds { slots: [None; 16] }
    }

    /// Where the causer's attempt was over. It looks for that once an attempt, where it is asked in the order of the history.
    fn over_at(&mut self, entries: &[Entry], e: Explanation) -> Option<usize>
        requires { spec.AreKnownEnds entries.now self.old }
        ensures over { result ≡ fates.over_at entries.now e }
        ensures known { spec.AreKnownEnds entries.now self.new }
    {
        let slot = (e.causer.core % 16) as usize;
        if let Some(ending) = self.slots[slot] {
            if ending.is_of(e) {
                return ending.at;
            }
        }
        let at = e.over_at(entries);
        self.slots[slot] = Some(KnownEnd {
            runner: e.causer,
            place: e.place,
            at,
        });
        at
    }

    /// In vain: the place of the entry that violates or cancels the causer's attempt, if it does not commit. It looks for that
    /// as `over_at` does.
    pub(crate) fn undone_at(&mut self, entries: &[Entry], e: Explanation) -> Option<usize>
        requires { spec.AreKnownEnds entries.now self.old }
        ensures undone { result ≡ fates.undone_at entries.now e }
        ensures known { spec.AreKnownEnds entries.now self.new }
    {
        let place = self.over_at(entries, e)?;
        match entries.get(place)?.what {
            What::Hurt(epoch) | What::Cancel(epoch) if epoch == e.causer.epoch => Some(place),
            _ => None,
        }
    }
}
