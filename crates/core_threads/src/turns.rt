//! The turns of one core.
ghost use Rattle.std.specs.Prelude.{◌≡◌, ◌≢◌, ◌<◌, ◌≤◌, ℕ, None, Some, true, length, IsOk, IsErr, option_copied, is_none, ◌&&◌, if◌then◌else◌};
ghost use Rattle.spec_history.specs.FlatState.{FlatState};
ghost use Rattle.spec_history.specs.Replay.{replay};
ghost use Rattle.homefree.specs.Acted.{IfArrived};
ghost use Rattle.homefree.specs.BookView.{IsFull, IsOfSameLoop};
ghost use Rattle.homefree.specs.Counted.{IsNoMore, counted_in};
ghost use Rattle.homefree.specs.LockView.{loop_of, past_of};
ghost use Rattle.homefree.specs.Room.{most_room};
ghost use Rattle.core_threads.specs.Adds.{Adds};
ghost use Rattle.core_threads.specs.Answered.{IsShut, Takes, TakesTurn, TakesTurns, after_answer, cause_for, hart_after};
ghost use Rattle.core_threads.specs.Passes.{IsLater, IsCounted, IsOver, IsGoing};

use crate::gate::{Gate, Shut};
use crossbeam_utils::Backoff;
use homefree::{Answer, Book, StopCause, TurnFault};
use run_ledger::Shares;
use rv32_exec::{Arrived, End, Hart, Image, advance, start};
use std::sync::Wait;
use ticket_lock::{Pass, TicketLock};
use violations::EpochStore;

/// How the turns of a core ended.
#[derive(Clone, Copy)]
pub enum LoopEnd {
    /// The loop is over.
    Over,
    /// The book was stopped.
    Stopped,
    /// All tickets of the lock have been drawn.
    Spent,
}

/// What comes of a turn.
enum After {
    /// The core goes on from the hart that the turn has set.
    Goes,
    /// It has to come again with what it has.
    Waits,
    /// It is idle.
    Leaves,
    /// It takes no more turns.
    Ends(LoopEnd),
}

/// Turns of one core, whose number is the first that the pass covers, until the loop is over, the book is stopped or the tickets are
/// spent. Before each turn it passes the gate and goes on to its next access, end or fault, and both with the lock free; where the
/// gate is shut, it stops the book.
///
/// The pass is one of this lock, the image is the book's, and the shares are the counts of the pass's own entries.
pub fn core_loop<S: EpochStore, G: Gate, R: Wait>(
    rt: &R,
    lock: &TicketLock<Book<S>>,
    pass: Pass<Book<S>>,
    shares: Shares,
    image: &Image,
    gate: &G,
) -> (Pass<Book<S>>, Shares, LoopEnd)
    requires own { pass.lock ≡ Some lock.now }
    requires core { (pass.lo < lock.now.fixed.cores) × (lock.now.fixed.cores ≤ 16) }
    requires image { lock.now.fixed.image ≡ image.now }
    requires counted { IsCounted pass shares }
    ensures later { IsLater pass result.0 }
    ensures counted { IsCounted result.0 result.1 }
    ensures over { result.2 ≡ LoopEnd.Over → IsOver lock.now.fixed result.0.seen }
    ensures stopped { result.2 ≡ LoopEnd.Stopped → IsGoing lock.now.fixed result.0.seen }
    ensures spent { result.2 ≡ LoopEnd.Spent → result.0.out ≡ true }
    ensures turns { (n : ℕ) × TakesTurns S.makes S.view S.waits lock.now.fixed pass.lo n pass shares None result.0 result.1 result.2 }
{
    let backoff = Backoff::new();
    let mut pass = pass;
    let mut shares = shares;
    let mut next = None;
    // In one place, since a hart is large: each turn that goes on sets it.
    let mut hart = start(image, 0);
    let mut turn = 0u64;
    for _ in rt.forever() {
        let handed = next.as_ref();
        let passed = gate.pass(pass.who() as u32, turn, handed);
        let (later, after) = one_turn(rt, lock, passed, pass, &mut shares, handed, &mut hart);
        turn = turn.saturating_add(1);
        pass = later;
        match after {
            After::Goes => {
                backoff.reset();
                match &mut next {
                    Some(arrived) => arrived.advance_from(image, &hart),
                    None => next = Some(advance(image, hart)),
                }
            }
            After::Waits => backoff.snooze(),
            After::Leaves => next = None,
            After::Ends(end) => return (pass, shares, end),
        }
    }
    unreachable!()
}

/// Takes the lock for a turn, or to stop the book where the gate is shut. Sets the hart where the core goes on.
fn one_turn<S: EpochStore, R: Wait>(
    rt: &R,
    lock: &TicketLock<Book<S>>,
    passed: Result<(), Shut>,
    pass: Pass<Book<S>>,
    shares: &mut Shares,
    next: Option<&Arrived>,
    hart: &mut Hart,
) -> (Pass<Book<S>>, After)
    requires own { pass.lock ≡ Some lock.now }
    requires core { (pass.lo < lock.now.fixed.cores) × (lock.now.fixed.cores ≤ 16) }
    requires next { IfArrived lock.now.fixed.image (option_copied next) }
    requires counted { IsCounted pass shares.old }
    ensures later { IsLater pass result.0 }
    ensures counted { IsCounted result.0 shares.new }
    ensures over { result.1 ≡ After.Ends LoopEnd.Over → IsOver lock.now.fixed result.0.seen }
    ensures stopped { result.1 ≡ After.Ends LoopEnd.Stopped → IsGoing lock.now.fixed result.0.seen }
    ensures none { result.1 ≡ After.Ends LoopEnd.Spent → (result.0 ≡ record pass { out = true }) × (shares.new ≡ shares.old) }
    ensures turn { result.1 ≢ After.Ends LoopEnd.Spent
        → TakesTurn S.makes S.view S.waits lock.now.fixed pass.lo (option_copied next.entry) pass result.0 shares.old shares.new hart.old hart.new result.1 }
{
    let core = pass.who() as u32;
    match lock.lock(rt, pass) {
        Ok(mut held) => {
            let after = act(held.value(), core, passed, next, shares, hart);
            (held.release(), after)
        }
        Err((_, pass)) => (pass, After::Ends(LoopEnd::Spent)),
    }
}

/// What a core does while it has the book: its turn, or where its gate is shut, it stops the book.
fn act<S: EpochStore>(
    book: &mut Book<S>,
    core: u32,
    passed: Result<(), Shut>,
    next: Option<&Arrived>,
    shares: &mut Shares,
    hart: &mut Hart,
) -> After
    requires core { core < book.old.cores }
    requires next { IfArrived book.old.image (option_copied next) }
    requires shares { IsNoMore shares.old (counted_in book.old.history) }
    ensures adds { Adds core book.old book.new shares.old shares.new }
    ensures few { length book.new.history ≤ most_room }
    ensures shut { IsErr passed → (s : FlatState) → replay book.old.image book.old.cores book.old.history ≡ Some s → IsShut book.old book.new s result }
    ensures takes { IsOk passed → (s : FlatState) → replay book.old.image book.old.cores book.old.history ≡ Some s
        → Takes S.makes S.view S.waits book.old book.new s core (option_copied next.entry) shares.old shares.new hart.old hart.new result }
    ensures over { result ≡ After.Ends LoopEnd.Over → IsOver (loop_of book.new) (past_of book.new.history) }
    ensures stopped { result ≡ After.Ends LoopEnd.Stopped → IsGoing (loop_of book.new) (past_of book.new.history) }
    ensures spent { result ≢ After.Ends LoopEnd.Spent }
{
    match passed {
        Ok(()) => take_turn(book, core, next, shares, hart),
        Err(_) => After::Ends(stop(book, StopCause::Shut)),
    }
}

/// One turn of a core at the book. Sets the hart where the core goes on. Where the turn fails, the book is stopped for that.
fn take_turn<S: EpochStore>(
    book: &mut Book<S>,
    core: u32,
    next: Option<&Arrived>,
    shares: &mut Shares,
    hart: &mut Hart,
) -> After
    requires core { core < book.old.cores }
    requires next { IfArrived book.old.image (option_copied next) }
    requires shares { IsNoMore shares.old (counted_in book.old.history) }
    ensures adds { Adds core book.old book.new shares.old shares.new }
    ensures few { length book.new.history ≤ most_room }
    ensures takes { (s : FlatState) → replay book.old.image book.old.cores book.old.history ≡ Some s
        → Takes S.makes S.view S.waits book.old book.new s core (option_copied next.entry) shares.old shares.new hart.old hart.new result }
    ensures over { result ≡ After.Ends LoopEnd.Over → IsOver (loop_of book.new) (past_of book.new.history) }
    ensures stopped { result ≡ After.Ends LoopEnd.Stopped → IsGoing (loop_of book.new) (past_of book.new.history) }
    ensures spent { result ≢ After.Ends LoopEnd.Spent }
{
    book.look();
    let turned = book.turn(core, next, shares);
    book.look();
    match &turned {
        Ok(answer) => goes_on(answer, hart),
        Err(fault) => {
            stop_for(book, *fault);
            After::Ends(LoopEnd::Stopped)
        }
    }
}

/// What comes of an answer. Sets the hart where the core goes on.
fn goes_on(answer: &Answer, hart: &mut Hart) -> After
    ensures after { result ≡ after_answer answer.now }
    ensures hart { hart.new ≡ hart_after answer.now hart.old }
{
    match answer {
        Answer::Go(reached) => {
            hart.copy_from(reached);
            After::Goes
        }
        Answer::Again(_) => After::Waits,
        Answer::Left => After::Leaves,
        Answer::Over(_) => After::Ends(LoopEnd::Over),
        Answer::Stopped(_) => After::Ends(LoopEnd::Stopped),
    }
}

/// Stops a book at which a turn failed, for that, unless its loop is over or it is stopped already.
fn stop_for<S: EpochStore>(book: &mut Book<S>, fault: TurnFault)
    requires { fault ≡ TurnFault.HistoryFull → IsFull book.old }
    ensures same { IsOfSameLoop book.old book.new }
    ensures history { book.new.history ≡ book.old.history }
    ensures book { (s : FlatState) → replay book.old.image book.old.cores book.old.history ≡ Some s
        → book.new ≡ (if is_none s.end && is_none book.old.stopped then record book.old { stopped = Some (cause_for fault) } else book.old) }
{
    match fault {
        TurnFault::HistoryFull => book.stop(StopCause::HistoryFull),
        TurnFault::NoMemory => book.stop(StopCause::NoMemory),
    };
}

/// Stops the book for this cause, unless its loop is over or it is stopped already.
pub(crate) fn stop<S: EpochStore>(book: &mut Book<S>, cause: StopCause) -> LoopEnd
    requires { cause ≢ StopCause.HistoryFull }
    ensures same { IsOfSameLoop book.old book.new }
    ensures history { book.new.history ≡ book.old.history }
    ensures book { (s : FlatState) → replay book.old.image book.old.cores book.old.history ≡ Some s
        → book.new ≡ (if is_none s.end && is_none book.old.stopped then record book.old { stopped = Some cause } else book.old) }
    ensures few { length book.new.history ≤ most_room }
    ensures over { result ≡ LoopEnd.Over → IsOver (loop_of book.new) (past_of book.new.history) }
    ensures stopped { result ≡ LoopEnd.Stopped → IsGoing (loop_of book.new) (past_of book.new.history) }
    ensures spent { result ≢ LoopEnd.Spent }
{
    book.look();
    book.stop(cause);
    match book.ended() {
        Some(_) => LoopEnd::Over,
        None => LoopEnd::Stopped,
    }
}
