ghost use Rattle.std.specs.Prelude.{◌≡◌};
ghost use Rattle.homefree.specs.Names.{name_of};

use thiserror::Error;

/// Why there was no turn. The book is as it was, but for what its store can do without asking for memory.
#[derive(Clone, Copy, Debug, PartialEq, Eq, Error)]
pub enum TurnFault {
    /// The history has fewer free entries than the image's version asks for.
    #[error("HistoryFull")]
    HistoryFull,
    /// Memory ran out.
    #[error("NoMemory")]
    NoMemory,
}

impl TurnFault {
    /// The printed name, which is the variant's.
    pub fn name(self) -> &'static str
        ensures { result.now ≡ name_of self }
    {
        match self {
            TurnFault::HistoryFull => "HistoryFull",
            TurnFault::NoMemory => "NoMemory",
        }
    }
}
