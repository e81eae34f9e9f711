//! What is kept of the attempts of a history, so that nothing is looked for twice.

ghost use Rattle.std.specs.Prelude.{ℕ, List};
ghost use Rattle.spec_history.specs.declared.entry.Entry.{Entry};
ghost use Rattle.conflicts.specs.Behind as spec;

use crate::ahead::Ahead;
use crate::behind::Behind;
use std::alloc::Global;

/// For each core, what its attempt has behind it, and what it has ahead.
#[derive(Drop)]
pub struct Known {
    /// The stores that the attempts of causers have ahead of them.
    pub ahead: Ahead,
    /// The bytes that the attempts of causers and of victims have read and stored.
    pub behind: Behind,
}

impl Known {
    /// Nothing yet.
    pub fn new(alloc: Global) -> Known
        ensures { (size : ℕ) (entries : List Entry) → spec.IsKnown size entries result }
    {
        Known {
            ahead: Ahead::new(alloc),
            behind: Behind::new(alloc),
        }
    }
}
