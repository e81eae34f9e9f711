//! The law of the caches: the function does nothing, and its contract is the law.

ghost use Rattle.spec_bus.specs.Laws.{CallsAreFixed};

/// From two buses that are seen equal, with their lines in the same ways, the same calls lead to two that are alike: what they hold,
/// and what waits, is fixed by the contracts of the calls alone.
pub fn calls_are_fixed()
    ensures { CallsAreFixed }
{}
