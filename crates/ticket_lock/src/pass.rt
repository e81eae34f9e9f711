//! A thread's leave to take the lock.
ghost use Rattle.std.specs.Prelude.{◌≡◌};

use crate::kept::Kept;
use crate::rule::Place;
use std::marker::Model;

/// Some numbers `lo..hi` of a lock, at least one, and the beginning of the value's past that was seen with them. A pass that is
/// dropped keeps its numbers, and the lock can't be closed then.
#[derive(Drop)]
pub struct Pass<T: Kept> {
    pub(crate) lo: u64,
    pub(crate) seat: Place<T>,
    /// The ticket that it tries to draw first: what the word `next` was when the pass last looked.
    pub(crate) expected: u64,
}

impl<T: Kept> Model for Pass<T> {
    ghost use Rattle.ticket_lock.specs.Known.{Known, known_of, IsResting};

    ghost Value = { Known T.Fixed T.What };

    ghost view = { λ p. known_of p.seat };

    ghost invariant = { λ p. IsResting p.seat p.lo };
}

impl<T: Kept> Pass<T> {
    /// The number under which entries are made with this pass: the first that it covers.
    pub fn who(&self) -> u64
        ensures { result ≡ self.now.lo }
    {
        self.lo
    }
}
