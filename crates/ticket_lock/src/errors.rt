//! Why a call of the lock gives up.
ghost use Rattle.std.specs.Prelude.{◌≡◌, codes};

use std::alloc::AllocError;
use thiserror::Error;

/// An allocation was refused.
#[derive(Clone, Copy, Debug, PartialEq, Eq, Error)]
#[error("no memory for the lock")]
pub struct NoMemory;

impl NoMemory {
    /// The printed name.
    pub fn name(self) -> &'static str
        ensures { result.now ≡ codes "NoMemory" }
    {
        "NoMemory"
    }
}

impl From<AllocError> for NoMemory {
    ghost from_gives = { λ _ _. Unit {0} };

    fn from(_: AllocError) -> NoMemory {
        NoMemory
    }
}

/// The tickets, which are the numbers below 2^63, have all been drawn.
#[derive(Clone, Copy, Debug, PartialEq, Eq, Error)]
#[error("all tickets of the lock have been drawn")]
pub struct Spent;

impl Spent {
    /// The printed name.
    pub fn name(self) -> &'static str
        ensures { result.now ≡ codes "Spent" }
    {
        "Spent"
    }
}
