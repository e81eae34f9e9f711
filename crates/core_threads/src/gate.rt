//! Gates, which each core passes before each of its turns.
ghost use Rattle.std.specs.Prelude.{◌≡◌, IsOk, codes};

use rv32_exec::Arrived;
use thiserror::Error;

/// The gate is shut: the core takes no more turns.
#[derive(Clone, Copy, Debug, PartialEq, Eq, Error)]
#[error("Shut")]
pub struct Shut;

impl Shut {
    /// The printed name.
    pub fn name(self) -> &'static str
        ensures { result.now ≡ codes "Shut" }
    {
        "Shut"
    }
}

/// What a core passes before each of its turns, with the lock not held.
pub trait Gate: Sync {
    /// Lets a core take its next turn, with what it hands in then. The turns of a core are counted from 0; the number stays at the
    /// largest once it is reached.
    ///
    /// `Shut`: the core takes no more turns, and the book is stopped unless its loop is over.
    fn pass(&self, core: u32, turn: u64, next: Option<&Arrived>) -> Result<(), Shut>;
}

/// The gate that always passes.
#[derive(Clone, Copy, Drop)]
pub struct Open;

impl Gate for Open {
    fn pass(&self, _core: u32, _turn: u64, _next: Option<&Arrived>) -> Result<(), Shut>
        ensures { IsOk result }
    {
        Ok(())
    }
}
