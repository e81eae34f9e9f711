//! The table under the lock: the words `next` and `serving`, one slot with the value, and what each seat knows.
use crate::kept::Kept;
use atomic_table::{Seat, Shared, Table, TableRule};
use std::collections::LinkedList;
use std::snapshot::Snapshot;

/// The word that shows which ticket is drawn next.
pub(crate) const NEXT: usize = 0;

/// The word that shows which ticket is served.
pub(crate) const SERVING: usize = 1;

/// The slot that has the value while no pass has it.
pub(crate) const HOME: usize = 0;

/// No ticket has this number, nor a higher one.
pub(crate) const END: u64 = 1 << 63;

/// What the table is told when it is made: how many numbers there are, and the value.
#[derive(Drop)]
pub struct Start<T> {
    pub numbers: u64,
    pub value: Snapshot<T>,
}

/// What the slot has.
#[derive(Drop)]
pub struct Slot<T> {
    pub value: T,
}

/// What stays as it was at the opening. No value of it is made.
pub struct Opening<F> {
    pub numbers: u64,
    pub fixed: F,
}

/// Where a pass stands: it has no ticket, it waits with one, or it has the value.
pub enum Turn {
    Idle,
    Waiting(u64),
    Holding(u64),
}

/// What a pass had of its own when it was joined to another. No value of it is made.
pub struct Noted<W> {
    pub lo: u64,
    pub hi: u64,
    pub mine: LinkedList<(u64, W)>,
}

/// What a seat at the table knows. No value of it is made.
pub struct View<F, W> {
    /// The opening of the lock. It is None once the seat is spent, since its pass was joined to another or closed the lock.
    pub opening: Option<Opening<F>>,
    /// The first number that its pass covers.
    pub lo: u64,
    /// The number after the last.
    pub hi: u64,
    /// The beginning of the past that it has seen.
    pub seen: LinkedList<(u64, W)>,
    /// True once it has found that all tickets are drawn.
    pub out: bool,
    pub turn: Turn,
    /// After a join, until the look that follows: what both passes had.
    pub noted: LinkedList<Noted<W>>,
}

/// The table keeps the lock rule.
pub struct Tickets;

impl<T: Kept> TableRule<Slot<T>, View<T::Fixed, T::What>, Start<T>> for Tickets {
    ghost use Rattle.ticket_lock.specs.Rule.{LockRule, opening_of, first_view};

    ghost holds = { λ start. LockRule T.fixed T.past (opening_of T.fixed start) };

    ghost first = { λ start. first_view T.past (opening_of T.fixed start) start.value.value };
}

pub(crate) type Board<T, A> = Table<
    Slot<T>,
    View<<T as Kept>::Fixed, <T as Kept>::What>,
    Start<T>,
    Tickets,
    A,
>;

pub(crate) type Words<T> = Shared<
    Slot<T>,
    View<<T as Kept>::Fixed, <T as Kept>::What>,
    Start<T>,
    Tickets,
>;

pub(crate) type Place<T> = Seat<Slot<T>, View<<T as Kept>::Fixed, <T as Kept>::What>>;
