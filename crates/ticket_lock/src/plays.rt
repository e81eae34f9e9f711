//! The kinds of step on the table.
ghost use Rattle.std.specs.Prelude.{ℕ};

use crate::kept::Kept;
use crate::rule::{Slot, View};
use atomic_table::{Join, Play, Split};
use std::marker::{Brand, PhantomData};

/// A look at `next`, which may find that all tickets are drawn.
pub(crate) struct LookNext;

impl<T, F, W> Play<Slot<T>, View<F, W>> for LookNext {
    ghost use Rattle.ticket_lock.specs.Steps.{looked_next};

    ghost then = { looked_next };
}

/// The look after a join, which tells that both passes still have their own entries.
pub(crate) struct Recall;

impl<T, F, W> Play<Slot<T>, View<F, W>> for Recall {
    ghost use Rattle.ticket_lock.specs.Steps.{recalled};

    ghost then = { recalled };
}

/// The exchange on `next` that draws a ticket.
pub(crate) struct Draw;

impl<T, F, W> Play<Slot<T>, View<F, W>> for Draw {
    ghost use Rattle.ticket_lock.specs.Steps.{drawn};

    ghost then = { drawn };
}

/// A look at `serving`, which takes the value where it finds the own ticket.
pub(crate) struct Serve;

impl<T: Kept> Play<Slot<T>, View<T::Fixed, T::What>> for Serve {
    ghost use Rattle.ticket_lock.specs.Steps.{served};

    ghost then = { served T.fixed T.past };
}

/// The exchange on `serving` that adds 1 and gives the value back.
pub(crate) struct HandBack;

impl<T: Kept> Play<Slot<T>, View<T::Fixed, T::What>> for HandBack {
    ghost use Rattle.ticket_lock.specs.Steps.{handed_back};

    ghost then = { handed_back T.past };
}

/// Where a pass is split. Each call picks its own number.
pub(crate) trait Cut {
    ghost at: { ℕ };
}

impl Cut for Brand {
    ghost at = { 0 };
}

/// The numbers below the cut, and those from it on.
pub(crate) struct Halves<C> {
    cut: PhantomData<C>,
}

impl<F, W, C: Cut> Split<View<F, W>> for Halves<C> {
    ghost use Rattle.ticket_lock.specs.Steps.{numbers_below, numbers_from};

    ghost left = { numbers_below C.at };

    ghost right = { numbers_from C.at };
}

/// The last split of a lock: one seat stays, and the other is closed.
pub(crate) struct Last;

impl<F, W> Split<View<F, W>> for Last {
    ghost use Rattle.ticket_lock.specs.Steps.{closed};

    ghost left = { λ v. v };

    ghost right = { closed };
}

/// Both passes in one.
pub(crate) struct Both;

impl<F, W> Join<View<F, W>> for Both {
    ghost use Rattle.ticket_lock.specs.Steps.{both_of, spent};

    ghost both = { both_of };

    ghost spent = { spent };
}
