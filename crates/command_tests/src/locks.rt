//! The lock: what no clause says, which is that the calls succeed, at which ticket it starts, how many there are, and the printed names.
ghost use Rattle.std.specs.Prelude.{◌≡◌, ◌≤◌, ◌^◌, Some, IfOk};
ghost use Rattle.ticket_lock.specs.Past.{GrowsBy};

use crate::words::prints;
use std::alloc::Global;
use std::process::Abort;
use std::sync::Wait;
use std::test::Fail;
use ticket_lock::{Kept, NoMemory, Pass, Spent, TicketLock};

/// A list of entries, each with the number of the pass that made it.
#[derive(Drop)]
struct List {
    entries: Vec<(u64, char)>,
}

impl Kept for List {
    type Fixed = ();

    type What = char;

    ghost fixed = { λ _. tt };

    ghost past = { λ l. l.entries.items };
}

impl List {
    // Adds an entry, unless there is no memory.
    fn add(&mut self, who: u64, what: char)
        ensures { GrowsBy who self.old.entries.items self.new.entries.items }
    {
        let _ = self.entries.push((who, what));
    }
}

// One turn, in which the pass adds an entry.
fn add<R: Wait>(
    rt: &R,
    lock: &TicketLock<List>,
    pass: Pass<List>,
    what: char,
) -> Result<Pass<List>, Spent>
    requires { pass.lock ≡ Some lock.now }
    ensures { IfOk result (λ p. (p.lock ≡ pass.lock) × (p.lo ≡ pass.lo) × (p.hi ≡ pass.hi)) }
{
    let who = pass.who();
    match lock.lock(rt, pass) {
        Ok(mut held) => {
            held.value().add(who, what);
            Ok(held.release())
        }
        Err((spent, _pass)) => Err(spent),
    }
}

// The list has an entry of each of two passes.
fn has_both(list: &List) -> bool {
    list.entries.as_slice() == [(0, 'a'), (1, 'b')].as_slice()
}

// One turn, in which the pass finds the entries of both.
fn find<R: Abort + Wait>(
    rt: &R,
    lock: &TicketLock<List>,
    pass: Pass<List>,
) -> Result<Pass<List>, Spent>
    requires { pass.lock ≡ Some lock.now }
    ensures { IfOk result (λ p. (p.lock ≡ pass.lock) × (p.lo ≡ pass.lo) × (p.hi ≡ pass.hi)) }
{
    match lock.lock(rt, pass) {
        Ok(mut held) => {
            assert!(rt; has_both(held.value()));
            Ok(held.release())
        }
        Err((spent, _pass)) => Err(spent),
    }
}

#[test]
fn a_pass_finds_the_entries_of_both(rt: HostRuntime) -> Result<(), Fail> {
    let list = List {
        entries: Vec::new(rt.alloc()),
    };
    let (lock, pass) = TicketLock::open(rt.alloc(), list, 2)?;
    let (first, second) = lock.split(pass, 1);
    assert!(rt; first.who() == 0 && second.who() == 1);
    let first = add(&rt, &lock, first, 'a')?;
    let second = add(&rt, &lock, second, 'b')?;
    let first = find(&rt, &lock, first)?;
    let pass = lock.join(first, second);
    let (list, whole) = lock.close(pass);
    assert!(rt; has_both(&list) && whole.who() == 0);
    Ok(())
}

// So many turns of a pass.
fn add_often<R: Wait>(
    rt: &R,
    lock: &TicketLock<List>,
    first: Pass<List>,
    turns: usize,
) -> Result<Pass<List>, Spent>
    requires { first.lock ≡ Some lock.now }
    ensures { IfOk result (λ p. (p.lock ≡ first.lock) × (p.lo ≡ first.lo) × (p.hi ≡ first.hi)) }
{
    let mut pass = first;
    for _ in 0..turns {
        pass = add(rt, lock, pass, 'a')?;
    }
    Ok(pass)
}

// A lock whose first ticket is `first` has so many turns left.
fn has_turns<R: Abort + Wait>(rt: &R, alloc: Global, first: u64, turns: usize) -> Result<(), Fail> {
    assert!(rt; first <= 1 << 63);
    let list = List {
        entries: Vec::new(alloc),
    };
    let (lock, pass) = TicketLock::open_at(alloc, list, 1, first)?;
    let pass = add_often(rt, &lock, pass, turns)?;
    let pass = match lock.lock(rt, pass) {
        Ok(held) => {
            held.release();
            panic!(rt; "a ticket past the last, from {first}")
        }
        Err((spent, pass)) => {
            assert!(rt; spent == Spent);
            pass
        }
    };
    let (list, _pass) = lock.close(pass);
    assert!(rt; list.entries.len() == turns);
    Ok(())
}

#[test]
fn no_ticket_is_drawn_past_the_last(rt: HostRuntime) -> Result<(), Fail> {
    has_turns(&rt, rt.alloc(), 1 << 63, 0)?;
    has_turns(&rt, rt.alloc(), (1 << 63) - 1, 1)?;
    has_turns(&rt, rt.alloc(), (1 << 63) - 3, 3)
}

// The tickets that a lock starts at, where its first is `first`.
fn starts_at(rt: &HostRuntime, first: u64) -> Result<(u64, u64), NoMemory>
    requires { first ≤ 2 ^ 63 }
{
    let list = List {
        entries: Vec::new(rt.alloc()),
    };
    let (lock, _pass) = TicketLock::open_at(rt.alloc(), list, 1, first)?;
    Ok(lock.tickets())
}

#[test]
fn both_words_start_at_the_first_ticket(rt: HostRuntime) -> Result<(), Fail> {
    let list = List {
        entries: Vec::new(rt.alloc()),
    };
    let (lock, _pass) = TicketLock::open(rt.alloc(), list, 1)?;
    assert_eq!(rt; lock.tickets(), (0, 0));
    assert_eq!(rt; starts_at(&rt, 7)?, (7, 7));
    assert_eq!(rt; starts_at(&rt, 1 << 63)?, (1 << 63, 1 << 63));
    Ok(())
}

#[test]
fn errors_have_names_and_print_what_they_are(rt: HostRuntime) -> Result<(), Fail> {
    let alloc = rt.alloc();
    assert!(rt;
        NoMemory.name() == "NoMemory" && prints(alloc, NoMemory, "no memory for the lock")?
    );
    assert!(rt;
        Spent.name() == "Spent" && prints(alloc, Spent, "all tickets of the lock have been drawn")?
    );
    Ok(())
}
