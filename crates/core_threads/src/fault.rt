//! Why a run halted.
ghost use Rattle.std.specs.Prelude.{◌≡◌};
ghost use Rattle.core_threads.specs.Faults.{name_of, fault_of};

use homefree::StopCause;
use thiserror::Error;

/// Why a run halted before its loop was over.
#[derive(Clone, Copy, Debug, PartialEq, Eq, Error)]
pub enum RunFault {
    /// The history has no room for another turn.
    #[error("HistoryFull")]
    HistoryFull,
    /// Memory was refused.
    #[error("NoMemory")]
    NoMemory,
    /// The thread of a core was refused.
    #[error("NoThread")]
    NoThread,
    /// All tickets of the lock have been drawn.
    #[error("Spent")]
    Spent,
    /// A gate was shut.
    #[error("Shut")]
    Shut,
}

impl RunFault {
    /// The printed name, which is the variant's.
    pub fn name(self) -> &'static str
        ensures { result.now ≡ name_of self }
    {
        match self {
            RunFault::HistoryFull => "HistoryFull",
            RunFault::NoMemory => "NoMemory",
            RunFault::NoThread => "NoThread",
            RunFault::Spent => "Spent",
            RunFault::Shut => "Shut",
        }
    }

    /// The fault of a run whose book was stopped for this cause, or wasn't stopped.
    pub(crate) fn of(stopped: Option<StopCause>) -> RunFault
        ensures { result ≡ fault_of stopped }
    {
        match stopped {
            Some(StopCause::HistoryFull) => RunFault::HistoryFull,
            Some(StopCause::NoMemory) => RunFault::NoMemory,
            Some(StopCause::NoThread) => RunFault::NoThread,
            Some(StopCause::Shut) => RunFault::Shut,
            None => RunFault::Spent,
        }
    }
}
