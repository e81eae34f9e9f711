//! The lock.
ghost use Rattle.std.specs.Prelude.{◌≡◌, ◌<◌, ◌≤◌, ◌^◌, Some, None, IfOk, IfErr, true, All};
ghost use Rattle.ticket_lock.specs.Past.{StartsWith, entries_of};
ghost use Rattle.ticket_lock.specs.Known.{IsCutAt, mine, first_pass, joined_pass};

use crate::errors::{NoMemory, Spent};
use crate::held::Held;
use crate::kept::Kept;
use crate::pass::Pass;
use crate::places::Rooms;
use crate::plays::{Both, Cut, Halves, Last, Recall};
use crate::rule::{Board, HOME, NEXT, SERVING, Slot, Start};
use crate::ticket::{draw, wait};
use atomic_table::Table;
use std::alloc::{Allocator, Global};
use std::marker::{Brand, Model};
use std::snapshot::Snapshot;
use std::sync::Wait;

/// A lock round one value, for passes that cover the numbers below `numbers`.
#[derive(Drop)]
pub struct TicketLock<T: Kept, A: Allocator = Global> {
    pub(crate) table: Board<T, A>,
    /// Where threads sleep while they wait.
    pub(crate) rooms: Rooms<A>,
}

impl<T: Kept, A: Allocator> Model for TicketLock<T, A> {
    ghost use Rattle.std.specs.Prelude.{◌≡◌};
    ghost use Rattle.ticket_lock.specs.Known.{LockOf, lock_of};
    ghost use Rattle.ticket_lock.specs.Rule.{opening_of};

    ghost Value = { LockOf T.Fixed };

    ghost view = { λ l. lock_of l.table.shared.table_id (opening_of T.fixed l.table.shared.key) };

    ghost invariant = { λ l. (l.table.shared.table_id.words ≡ 2) × (l.table.shared.table_id.slots ≡ 1) };
}

impl<T: Kept, A: Allocator> TicketLock<T, A> {
    /// Opens a lock with a pass that covers the numbers `0..n`, which are at least one. Its first ticket is 0.
    /// `NoMemory`: an allocation was refused, and the value was dropped.
    pub fn open(alloc: A, value: T, n: u64) -> Result<(TicketLock<T, A>, Pass<T>), NoMemory>
    where
        A: Clone,
        requires { 0 < n }
        ensures numbers { IfOk result (λ r. r.0.numbers ≡ n) }
        ensures fixed { IfOk result (λ r. r.0.fixed ≡ T.fixed value) }
        ensures pass { IfOk result (λ r. r.1 ≡ first_pass r.0 (T.past value)) }
    {
        TicketLock::open_at(alloc, value, n, 0)
    }

    /// The same, for a lock whose first ticket is `first`, which is at most 2^63. From 2^63 on there are none.
    pub fn open_at(
        alloc: A,
        value: T,
        n: u64,
        first: u64,
    ) -> Result<(TicketLock<T, A>, Pass<T>), NoMemory>
    where
        A: Clone,
        requires numbers { 0 < n }
        requires tickets { first ≤ 2 ^ 63 }
        ensures numbers { IfOk result (λ r. r.0.numbers ≡ n) }
        ensures fixed { IfOk result (λ r. r.0.fixed ≡ T.fixed value) }
        ensures pass { IfOk result (λ r. r.1 ≡ first_pass r.0 (T.past value)) }
    {
        let rooms = Rooms::open(alloc.clone()?)?;
        let start = Start {
            numbers: n,
            value: Snapshot::of(&value),
        };
        let mut slots = Vec::new(alloc.clone()?);
        let Ok(()) = slots.push(Slot { value }) else {
            return Err(NoMemory);
        };
        match Table::new(alloc, &[first, first], slots, &start) {
            Ok((table, seat)) => Ok((
                TicketLock { table, rooms },
                Pass {
                    lo: 0,
                    seat,
                    expected: first,
                },
            )),
            Err(_) => Err(NoMemory),
        }
    }

    /// The ticket that is drawn next, and the one that is served: each as it was when it was looked at, which other threads may have
    /// changed since.
    pub fn tickets(&self) -> (u64, u64) {
        let words = &self.table.shared;
        (words.peek(NEXT), words.peek(SERVING))
    }

    /// Two passes in place of one: of its numbers below `at`, and of those from `at` on. Both have seen what it has seen.
    pub fn split(&self, pass: Pass<T>, at: u64) -> (Pass<T>, Pass<T>)
        requires own { pass.lock ≡ Some self.now }
        requires inside { (pass.lo < at) × (at < pass.hi) }
        ensures first { result.0 ≡ record pass { hi = at } }
        ensures second { result.1 ≡ record pass { lo = at } }
    {
        self.split_by::<Brand>(pass, at)
    }

    fn split_by<C: Cut>(&self, pass: Pass<T>, at: u64) -> (Pass<T>, Pass<T>)
        requires pass { IsCutAt self.now pass at }
        requires cut { at ≡ C.at }
        ensures first { result.0 ≡ record pass { hi = at } }
        ensures second { result.1 ≡ record pass { lo = at } }
    {
        let Pass {
            lo,
            mut seat,
            expected,
        } = pass;
        let right = self.table.shared.split_seat::<Halves<C>>(&mut seat);
        (
            Pass { lo, seat, expected },
            Pass {
                lo: at,
                seat: right,
                expected,
            },
        )
    }

    /// One pass in place of two, of which the second begins where the first ends. It has seen the longer of what both have
    /// seen, and the entries of either are its own.
    pub fn join(&self, first: Pass<T>, second: Pass<T>) -> Pass<T>
        requires first_own { first.lock ≡ Some self.now }
        requires second_own { second.lock ≡ Some self.now }
        requires beside { first.hi ≡ second.lo }
        ensures joined { result ≡ joined_pass first second }
        ensures first_mine { entries_of first.lo first.hi (mine result) ≡ mine first }
        ensures second_mine { entries_of second.lo second.hi (mine result) ≡ mine second }
    {
        let Pass {
            lo,
            mut seat,
            expected,
        } = first;
        let Pass { seat: other, .. } = second;
        let words = &self.table.shared;
        words.join_seat::<Both>(&mut seat, other);
        words.load::<Recall>(&mut seat, SERVING);
        Pass { lo, seat, expected }
    }

    /// Draws a ticket, waits until it is served, and takes the value, whose past begins with all that the pass has seen and
    /// has, of the pass's numbers, the pass's own entries alone.
    /// `Spent`: no ticket is left. The pass comes back and has noted it, as `out`.
    pub fn lock<R: Wait>(&self, rt: &R, pass: Pass<T>) -> Result<Held<'_, T>, (Spent, Pass<T>)>
        requires { pass.lock ≡ Some self.now }
        ensures pass { IfOk result (λ h. h.pass ≡ record pass { seen = T.past h.value }) }
        ensures fixed { IfOk result (λ h. T.fixed h.value ≡ self.entry.now.fixed) }
        ensures begins { IfOk result (λ h. StartsWith (T.past h.value) pass.seen) }
        ensures own { IfOk result (λ h. mine h.pass ≡ mine pass) }
        ensures numbers { IfOk result (λ h. pass.lo < pass.hi) }
        ensures spent { IfErr result (λ e. e.1 ≡ record pass { out = true }) }
    {
        let Pass {
            lo,
            mut seat,
            expected,
        } = pass;
        let words = &self.table.shared;
        let Some(ticket) = draw(rt, words, &mut seat, expected) else {
            return Err((Spent, Pass { lo, seat, expected }));
        };
        let places = self.rooms.places();
        wait(rt, words, places, &mut seat, ticket);
        let slot = seat.slot_mut(words, HOME);
        let taken = Snapshot::of(&slot.value);
        Ok(Held {
            words,
            places,
            lo,
            seat,
            taken,
        })
    }

    /// Ends the lock with the pass that covers all its numbers, and gives the value back. The pass is then one of no lock.
    pub fn close(self, pass: Pass<T>) -> (T, Pass<T>)
        requires own { pass.lock ≡ Some self }
        requires whole { (pass.lo ≡ 0) × (pass.hi ≡ self.numbers) }
        ensures pass { result.1 ≡ record pass { lock = None } }
        ensures fixed { T.fixed result.0 ≡ self.fixed }
        ensures begins { StartsWith (T.past result.0) pass.seen }
        ensures own { entries_of pass.lo pass.hi (T.past result.0) ≡ mine pass }
        ensures past { All (λ e. e.0 < self.numbers) (T.past result.0) → T.past result.0 ≡ pass.seen }
    {
        let TicketLock { table, rooms: _ } = self;
        let Pass {
            lo,
            mut seat,
            expected,
        } = pass;
        let ended = table.shared.split_seat::<Last>(&mut seat);
        let mut closed = table.close_with(seat);
        let Slot { value } = closed.take(HOME);
        closed.free();
        (
            value,
            Pass {
                lo,
                seat: ended,
                expected,
            },
        )
    }
}
