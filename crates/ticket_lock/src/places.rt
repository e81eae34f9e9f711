//! Where threads sleep while they wait: a word for each ticket, by its number modulo 64. They stand in a table of their own, whose
//! rule says nothing, since no proof rests on them.
//!
//! Who waits sets the word of its ticket, looks once more, and sleeps while the word is set. Who serves a ticket looks at its word
//! then, clears it where it is set, and wakes all that sleep on it. Nobody else clears it, so none of those who share it is missed.
ghost use Rattle.std.specs.Prelude.{◌≡◌, ◌<◌};
ghost use Rattle.ticket_lock.specs.declared.places.TheConstants.{WORDS};

use atomic_table::{Play, Shared, Table, TableRule};
use crossbeam_utils::Backoff;
use std::alloc::{AllocError, Allocator};
use std::sync::Wait;
use std::time::Duration;

/// How often a thread looks, with pauses between, before it sleeps between two looks.
const LOOKS: u32 = 100;

/// A thread with more tickets than these before its own sleeps at once, and is woken where there are so many.
const NEAR: u64 = 3;

/// Tickets that are so many apart share a word.
const PLACES: u64 = 64;

/// From one word to the next that is used, so that no two of these share a cache line.
const STRIDE: u64 = 8;

/// How many words there are: the one at `SCARCE`, and those of the places.
const WORDS: usize = 520;

/// The word that shows up to which ticket processors are scarce: before it only the thread that is next spins.
const SCARCE: usize = 0;

/// A word that stays 0, on which nobody is woken.
const REST: usize = 1;

/// For how many tickets they are, once a thread has looked in vain.
const SPAN: u64 = 5;

const AWAKE: u64 = 0;

const ASLEEP: u64 = 1;

/// The longest sleep, in milliseconds. Where more than 64 threads wait, two share a word, and one may miss its wake.
const SLEEP: u64 = 10;

/// The rule of the places, and what a step tells there: nothing.
pub struct Anything;

impl TableRule<(), (), ()> for Anything {
    ghost holds = { λ _ _. Unit {0} };

    ghost first = { λ _. tt };
}

impl Play<(), ()> for Anything {
    ghost then = { λ _ _ _ _. Unit {0} };
}

type Words = Shared<(), (), (), Anything>;

/// All words of a lock.
#[derive(Drop)]
pub(crate) struct Rooms<A: Allocator> {
    table: Table<(), (), (), Anything, A>,
    ghost size: { table.shared.table_id.words ≡ WORDS },
}

impl<A: Allocator> Rooms<A> {
    /// Words that are all 0: nobody sleeps, and processors are not scarce.
    pub(crate) fn open(alloc: A) -> Result<Rooms<A>, AllocError> {
        let (table, _seat) = Table::of_words(alloc, &[AWAKE; WORDS], &())?;
        Ok(Rooms { table })
    }

    pub(crate) fn places(&self) -> Places<'_> {
        Places {
            words: &self.table.shared,
        }
    }
}

/// The words of a lock, as the threads share them.
#[derive(Clone, Copy)]
pub(crate) struct Places<'a> {
    words: &'a Words,
    ghost size: { words.now.table_id.words ≡ WORDS },
}

fn place_of(ticket: u64) -> usize
    ensures { result < WORDS }
{
    ((1 + ticket % PLACES) * STRIDE) as usize
}

impl<'a> Places<'a> {
    /// Wakes the thread of the ticket that is served now, and, while it pays to spin, the one that is near now. `next` is the ticket
    /// that is drawn next.
    pub(crate) fn wake_next(self, served: u64, next: u64) {
        self.wake(served);
        if next.wrapping_sub(served) > NEAR && !self.is_scarce(served) {
            self.wake(served.wrapping_add(NEAR));
        }
    }

    /// Wakes the thread of a ticket, if it sleeps.
    fn wake(self, ticket: u64) {
        let place = place_of(ticket);
        if self.words.peek(place) == ASLEEP {
            self.words.swap_new_seat::<Anything>(place, AWAKE);
            self.words.wake_all(place);
        }
    }

    /// Sleeps for so long, where nobody wakes.
    pub(crate) fn rest<R: Wait>(self, rt: &R, pause: Duration) {
        self.words.park_timeout(rt, REST, AWAKE as u32, pause);
    }

    /// Whether processors are scarce at this ticket.
    fn is_scarce(self, ticket: u64) -> bool {
        ticket < self.words.peek(SCARCE)
    }

    /// Notes that a thread has looked in vain, while this ticket is served.
    fn note_scarce(self, served: u64) {
        let until = served.saturating_add(SPAN);
        if self.words.peek(SCARCE) < until {
            self.words.swap_new_seat::<Anything>(SCARCE, until);
        }
    }

    /// Says that the thread of a ticket sleeps.
    fn lie_down(self, ticket: u64) {
        self.words
            .swap_new_seat::<Anything>(place_of(ticket), ASLEEP);
    }

    /// Sleeps until the thread of this ticket is woken, but not for long.
    fn sleep<R: Wait>(self, rt: &R, ticket: u64) {
        let most = Duration::from_millis(SLEEP);
        self.words
            .park_timeout(rt, place_of(ticket), ASLEEP as u32, most);
    }
}

/// A thread that waits until its ticket is served.
#[derive(Drop)]
pub(crate) struct Waiter<'a> {
    places: Places<'a>,
    ticket: u64,
    backoff: Backoff,
    /// With so many tickets before its own, or fewer, it spins.
    near: u64,
    /// How many more looks it takes before it sleeps between two looks.
    looks: u32,
    /// It has said that it sleeps, and has looked since.
    is_down: bool,
}

impl<'a> Waiter<'a> {
    pub(crate) fn new(places: Places<'a>, ticket: u64) -> Waiter<'a> {
        let near = if places.is_scarce(ticket) { 1 } else { NEAR };
        Waiter {
            places,
            ticket,
            backoff: Backoff::new(),
            near,
            looks: LOOKS,
            is_down: false,
        }
    }

    /// What it does between two looks, of which the first found that this ticket is served: it spins, lies down, or sleeps.
    pub(crate) fn pause<R: Wait>(&mut self, rt: &R, served: u64) {
        if self.looks > 0 && self.ticket.saturating_sub(served) <= self.near {
            self.looks -= 1;
            self.backoff.spin();
        } else if self.is_down {
            self.places.sleep(rt, self.ticket);
            self.is_down = false;
        } else {
            if self.looks == 0 && self.near > 1 {
                self.places.note_scarce(served);
            }
            self.places.lie_down(self.ticket);
            self.is_down = true;
        }
    }
}
