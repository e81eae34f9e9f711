ghost use Rattle.std.specs.Prelude.{◌≡◌};
ghost use Rattle.violations.specs.View.{attempt_of};

use run_ledger::Totals;
use rv32_exec::{End, Hart, Image};
use spec_history::Entry;
use violations::Attempt;

/// What a core runs.
#[derive(Clone, Copy)]
pub struct Running {
    /// The epoch's number.
    pub epoch: u32,
    /// Its hart at its last event.
    pub hart: Hart,
    /// It has published: its stores are committed at once.
    pub straight: bool,
    /// It was violated, and has not restarted.
    pub hurt: bool,
}

impl Running {
    /// The attempt, where it isn't hurt. It has no hart, which is large.
    pub(crate) fn attempt(&self) -> Attempt
        ensures { result ≡ attempt_of self.entry.now.epoch self.entry.now.straight }
    {
        Attempt {
            epoch: self.epoch,
            straight: self.straight,
        }
    }
}

/// An access of memory.
#[derive(Clone, Copy)]
pub(crate) struct Access {
    /// Its first byte.
    pub addr: u32,
    /// How many bytes it has.
    pub width: u32,
    /// What was loaded, or is stored.
    pub value: u32,
}

/// The history, and where it has led, the store aside.
#[derive(Drop)]
pub(crate) struct Register {
    /// The image of the loop.
    pub image: Image,
    /// What the turns so far did.
    pub history: Vec<Entry>,
    /// How many loads, stores, restarts and commits the history has.
    pub totals: Totals,
    /// What each core runs.
    pub running: Vec<Option<Running>>,
    /// The first epoch that has not committed.
    pub homefree: u32,
    /// The next epoch to be started.
    pub next_epoch: u32,
    /// How the loop ended, where it is over.
    pub end: Option<End>,
}
