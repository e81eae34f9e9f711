//! What a lock keeps.
ghost use Rattle.std.specs.Prelude.{List, ℕ};

/// A value with a part that never changes and a past that only grows. Both exist for the proofs alone.
pub trait Kept: Drop + Send {
    /// The part that stays as it was when the lock was opened.
    type Fixed;

    /// What an entry of the past says, beside the number of the pass that made it.
    type What;

    ghost fixed: { Self → Self.Fixed };

    ghost past: { Self → List (ℕ × Self.What) };
}
