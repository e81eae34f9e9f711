//! The value while it is out of the lock.
ghost use mir.Syntax.{named};
ghost use Rattle.std.specs.Prelude.{◌≡◌, []};
ghost use Rattle.std.specs.Borrow.{Lends, sem};
ghost use Rattle.ticket_lock.specs.Past.{GrowsBy};

use crate::kept::Kept;
use crate::pass::Pass;
use crate::places::Places;
use crate::plays::HandBack;
use crate::rule::{HOME, NEXT, Place, SERVING, Words};
use std::marker::Model;
use std::snapshot::Snapshot;
use std::sync::Wait;
use std::time::Duration;

/// How often `wait_for_others` looks. With its sleeps it takes about a second.
const MOST_LOOKS: u32 = 10_000;

/// The sleep between two such looks, in microseconds.
const BETWEEN_LOOKS: u64 = 50;

/// The value, with the pass that took it. It can't be dropped: it has to be released.
///
/// The value stays in its place in the lock, and is lent from there.
pub struct Held<'a, T: Kept> {
    pub(crate) words: &'a Words<T>,
    pub(crate) places: Places<'a>,
    pub(crate) lo: u64,
    pub(crate) seat: Place<T>,
    /// The value as it was taken. It has no bytes.
    pub(crate) taken: Snapshot<T>,
}

impl<'a, T: Kept> Model for Held<'a, T> {
    ghost use Rattle.std.specs.Prelude.{◌≡◌};
    ghost use Rattle.ticket_lock.specs.Known.{Hold, known_of, value_in, IsServed};

    ghost Value = { Hold T.Fixed T.What T };

    ghost view = { λ h. record { pass = known_of h.seat; value = value_in h.taken.value h.seat.me.1 } };

    ghost invariant = { λ h. IsServed h.words.now.table_id h.seat h.lo };
}

impl<'a, T: Kept> Held<'a, T> {
    ghost use Rattle.ticket_lock.specs.contracts.held.Held.{the_row};
    ghost use Rattle.ticket_lock.specs.Known.{IsFixedOf, with_value};

    /// The value, to read and to write. What is written through the borrow is the value afterwards.
    pub fn value(&mut self) -> &mut T
        ensures* writes_back { sem 𝓛 (Lends
            (the_row (record { mir = named 1; lft = [] }) T.row T.Fixed.row T.What.row T.Kept)
            T.row self.entry result (with_value self.old)) }
        ensures shows { result.now ≡ self.old.value }
    {
        let slot = self.seat.slot_mut(self.words, HOME);
        &mut slot.value
    }

    /// Waits until so many other threads have drawn tickets, but not for long: it may return before. No clause speaks of it.
    pub fn wait_for_others<R: Wait>(&self, rt: &R, others: u64) {
        for _ in 0..MOST_LOOKS {
            let drawn = self.words.peek(NEXT).wrapping_sub(self.words.peek(SERVING));
            if drawn > others {
                return;
            }
            self.places.rest(rt, Duration::from_micros(BETWEEN_LOOKS));
        }
    }

    /// Gives the value back to the lock, and serves the next ticket. The fixed part is to be as it was, and the past to have
    /// grown at its end, by entries of the pass's own number alone. The pass has then seen the whole past.
    pub fn release(self) -> Pass<T>
        requires fixed { IsFixedOf self.pass (T.fixed self.value) }
        requires grown { GrowsBy self.pass.lo self.pass.seen (T.past self.value) }
        ensures { result ≡ record self.entry.pass { seen = T.past self.entry.value } }
    {
        let Held {
            words,
            places,
            lo,
            mut seat,
            taken: _,
        } = self;
        let served = words.fetch_add::<HandBack>(&mut seat, SERVING, 1);
        let expected = words.peek(NEXT);
        let now = served.wrapping_add(1);
        // where nobody has the next ticket, nobody sleeps
        if expected != now {
            places.wake_next(now, expected);
        }
        Pass { lo, seat, expected }
    }
}
