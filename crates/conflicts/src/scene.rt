//! What a violation is looked at with.

ghost use Rattle.conflicts.specs.Behind.{IsBehind};

use crate::behind::Behind;
use spec_history::{Entry, Flat};

/// The scene of a violation: the machine before it, the whole history, and what is known of the accesses that attempts have behind
/// them, which is right.
#[derive(Clone, Copy)]
pub struct Scene<'h> {
    /// The machine before the violation.
    pub flat: &'h Flat,
    /// The whole history.
    pub entries: &'h [Entry],
    /// What is known of the accesses that attempts have behind them.
    pub behind: &'h Behind,
    pub ghost known: { IsBehind flat.now.image.size entries.now behind.now },
}
