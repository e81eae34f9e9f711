ghost use Rattle.std.specs.Prelude.{true, false, Bool, ◌≡◌, ◌≢◌, ◌+◌, ◌<◌, ◌≤◌, ◌++◌, [], ℕ, length, IfOk, IfSome, Some, None, option_copied, OnOk, vec_len, vec_capacity, is_none, ◌&&◌, if◌then◌else◌};
ghost use Rattle.rv32_image.specs.Version.{limits_of};
ghost use Rattle.run_ledger.specs.Counts.{no_counts};
ghost use Rattle.spec_history.specs.FlatState.{FlatState};
ghost use Rattle.violations.specs.Rule.{IsCoreCount, IsFresh};
ghost use Rattle.violations.specs.Rule.{IsSameView};
ghost use Rattle.homefree.specs.BookView.{IsFull, ReplaysTo};
ghost use Rattle.homefree.specs.BookInside.{IsAsBefore, IsBook, book_of};
ghost use Rattle.homefree.specs.InStep.{InStep};
ghost use Rattle.homefree.specs.Room.{most_room};
ghost use Rattle.homefree.specs.Turned.{Turned, MayAct, turn_at};
ghost use Rattle.homefree.specs.Fixed.{TurnsStore};
ghost use Rattle.homefree.specs.Moves.{StoreMoves, standing_of};
ghost use Rattle.violations.specs.Calls as call;
ghost use Rattle.homefree.specs.Grown.{GrowsBy};
ghost use Rattle.homefree.specs.Again.{IfAgain, IsWhy, RunsHomefree};
ghost use Rattle.homefree.specs.Acted.{IfArrived};
ghost use Rattle.homefree.specs.Came as spec;
ghost use Rattle.homefree.specs.Counted.{IsNoMore};
ghost use Rattle.homefree.specs.Retraced.{IsRetraced, IsStill};

use crate::answer::{Answer, Came, Cause, StopCause};
use crate::fault::TurnFault;
use crate::opening::{end_at_first, idle_cores};
use crate::parts::Parts;
use crate::register::Register;
use run_ledger::{Shares, open};
use rv32_exec::{Arrived, End, Image, NoMemory};
use spec_history::What;
use std::alloc::Global;
use std::marker::Model;
use ticket_lock::Kept;
use violations::EpochStore;

/// The most entries for which a book has room.
pub const MOST_ROOM: u32 = 16_777_216;

/// A history of speculative epochs, with the store and the cores that it has led to.
#[derive(Drop)]
pub struct Book<S: EpochStore> {
    /// In a block of its own, so that a book is moved as one word.
    pub(crate) inside: Box<Inside<S>>,
}

/// What a book has.
#[derive(Drop)]
pub(crate) struct Inside<S: EpochStore> {
    /// The history, where it has led, and the store.
    pub parts: Parts<S>,
    /// How many entries the history may have.
    pub room: u32,
    /// Why no more turns are taken, where that is so.
    pub stopped: Option<StopCause>,
}

impl<S: EpochStore> Model for Book<S> {
    ghost use Rattle.std.specs.Prelude.{length};
    ghost use Rattle.homefree.specs.BookView.{BookView};
    ghost use Rattle.homefree.specs.BookInside.{IsBook, book_of};
    ghost use Rattle.homefree.specs.Retraced.{IsRetraced};

    ghost Value = { BookView S };

    ghost view = { λ b. record { image = b.inside.value.parts.register.image; cores = length b.inside.value.parts.register.running.items; room = b.inside.value.room; history = b.inside.value.parts.register.history.items; totals = b.inside.value.parts.register.totals; store = b.inside.value.parts.store; stopped = b.inside.value.stopped } };

    ghost invariant = { λ b. IsBook S.view b.inside.value.parts.register b.inside.value.parts.store b.inside.value.room b.inside.value.stopped
        × IsRetraced S.starts S.makes S.view S.waits (book_of b.inside.value.parts.register b.inside.value.parts.store b.inside.value.room b.inside.value.stopped) };
}

/// What stays as it was while turns are taken. No value of it is made.
pub struct Loop {
    /// The image of the loop.
    pub image: Image,
    /// How many cores there are.
    pub cores: u32,
    /// How many entries the history may have.
    pub room: u32,
}

impl<S: EpochStore> Kept for Book<S> {
    ghost use Rattle.homefree.specs.LockView.{loop_of, past_of};

    type Fixed = Loop;

    type What = What;

    ghost fixed = { λ b. loop_of b };

    ghost past = { λ b. past_of b.history };
}

impl<S: EpochStore> Book<S> {
    /// An empty history over a fresh store, and the shares that hold its counts. It keeps a copy of the image. The cores are 1 to
    /// the most that the image's version allows, and the room is 16 to `MOST_ROOM` entries.
    ///
    /// `NoMemory`: there was no memory for it, and nothing was made.
    pub fn new(
        alloc: Global,
        image: &Image,
        cores: u32,
        room: u32,
    ) -> Result<(Book<S>, Shares), NoMemory>
        requires cores { IsCoreCount image.now cores }
        requires least { 16 ≤ room }
        requires most { room ≤ most_room }
        ensures image { IfOk result (λ made. made.0.image ≡ image.now) }
        ensures cores { IfOk result (λ made. made.0.cores ≡ cores) }
        ensures room { IfOk result (λ made. made.0.room ≡ room) }
        ensures history { IfOk result (λ made. made.0.history ≡ []) }
        ensures totals { IfOk result (λ made. made.0.totals ≡ no_counts) }
        ensures shares { IfOk result (λ made. made.1 ≡ no_counts) }
        ensures store { IfOk result (λ made. IsFresh image.now cores (S.view made.0.store)) }
        ensures starts { IfOk result (λ made. S.starts image.now cores made.0.store) }
        ensures stopped { IfOk result (λ made. made.0.stopped ≡ None) }
    {
        let store: S = S::fresh(alloc, image, cores)?;
        let running = idle_cores(alloc, cores)?;
        let image = image.copy()?;
        let (totals, shares) = open();
        let end = end_at_first(&image);
        let register = Register {
            image,
            history: Vec::new(alloc),
            totals,
            running,
            homefree: 0,
            next_epoch: 0,
            end,
        };
        let inside = Inside {
            parts: Parts { register, store },
            room,
            stopped: None,
        };
        let Ok(inside) = Box::new(alloc, inside) else {
            return Err(NoMemory);
        };
        let book = Book { inside };
        Ok((book, shares))
    }

    /// What holds of every book: this call does nothing, and its contract is the law.
    pub fn look(&self)
        ensures { InStep S.view self.now }
    {
        let _ = &self.inside;
    }

    /// What holds of the history of every book: the turns that it shows, over a fresh store, make it again. This call does nothing, and its
    /// contract is the law.
    pub fn look_back(&self)
        ensures { IsRetraced S.starts S.makes S.view S.waits self.now }
    {
        let _ = &self.inside;
    }

    /// One turn of a core, with the hart that it has in hand gone on to its next access, end or fault. It makes at most 15
    /// entries, or 31 in version 2: fewer than it has to find free.
    ///
    /// `HistoryFull`: the history has fewer free entries than the image's version asks for, and nothing has changed. `NoMemory`:
    /// memory ran out, and nothing has changed but what the store can do without asking for it.
    pub fn turn(
        &mut self,
        core: u32,
        next: Option<&Arrived>,
        shares: &mut Shares,
    ) -> Result<Answer, TurnFault>
        requires core { core < self.old.cores }
        requires next { IfArrived self.old.image (option_copied next) }
        requires shares { IsNoMore shares.old self.old.totals }
        ensures turned { (s : FlatState) → ReplaysTo self.old s
            → TurnsStore S.makes S.view S.waits self.old s shares.old core (option_copied next.entry) result self.new shares.new }
        ensures grows { GrowsBy core self.old self.new shares.old shares.new }
        ensures shares { IsNoMore shares.new self.new.totals }
        ensures again { (s : FlatState) → ReplaysTo self.old s → IfAgain result (IsWhy (turn_at S.waits self.old s core (option_copied next.entry))) }
        ensures homefree { (s : FlatState) (cause : Cause) → ReplaysTo self.old s → RunsHomefree s core → result ≢ Ok (Answer.Again cause) }
        ensures over { (end : End) (s : FlatState) → result ≡ Ok (Answer.Over end) → ReplaysTo self.new s → s.end ≡ Some end }
        ensures stopped { (cause : StopCause) → result ≡ Ok (Answer.Stopped cause) → self.old.stopped ≡ Some cause }
        ensures full { result ≡ Err TurnFault.HistoryFull → IsFull self.new }
        ensures most { length self.new.history < length self.old.history + (limits_of self.old.image.version).free_entries }
    {
        self.look();
        self.take_turn(core, next, shares)
    }

    /// One turn of a core, as `turn` has it.
    fn take_turn(
        &mut self,
        core: u32,
        next: Option<&Arrived>,
        shares: &mut Shares,
    ) -> Result<Answer, TurnFault>
        requires core { core < self.old.cores }
        requires next { IfArrived self.old.image (option_copied next) }
        requires shares { IsNoMore shares.old self.old.totals }
        ensures turned { (s : FlatState) → ReplaysTo self.old s
            → TurnsStore S.makes S.view S.waits self.old s shares.old core (option_copied next.entry) result self.new shares.new }
        ensures most { length self.new.history < length self.old.history + (limits_of self.old.image.version).free_entries }
    {
        let inside = &mut *self.inside;
        turn_within(
            &mut inside.parts,
            inside.room,
            inside.stopped,
            core,
            next,
            shares,
        )
    }

    /// Takes no more turns, for this cause, and answers true. Where the loop is over, or the book is stopped already, it answers
    /// false and changes nothing. `HistoryFull` is handed in only where the history has no room for a turn.
    pub fn stop(&mut self, cause: StopCause) -> bool
        requires { cause ≡ StopCause.HistoryFull → IsFull self.old }
        ensures answer { (s : FlatState) → ReplaysTo self.old s → result ≡ (is_none s.end && is_none self.old.stopped) }
        ensures book { self.new ≡ (if result then record self.old { stopped = Some cause } else self.old) }
    {
        if self.inside.parts.register.end.is_some() || self.inside.stopped.is_some() {
            return false;
        }
        self.inside.stopped = Some(cause);
        true
    }
}

/// One turn of a core at the parts of a book with this room, which has been stopped so.
fn turn_within<S: EpochStore>(
    parts: &mut Parts<S>,
    room: u32,
    stopped: Option<StopCause>,
    core: u32,
    next: Option<&Arrived>,
    shares: &mut Shares,
) -> Result<Answer, TurnFault>
    requires book { IsBook S.view parts.old.register parts.old.store room stopped }
    requires retraced { IsRetraced S.starts S.makes S.view S.waits (book_of parts.old.register parts.old.store room stopped) }
    requires core { core < length parts.old.register.running.items }
    requires next { IfArrived parts.old.register.image (option_copied next) }
    requires shares { IsNoMore shares.old parts.old.register.totals }
    ensures book { IsBook S.view parts.new.register parts.new.store room stopped }
    ensures retraced { IsRetraced S.starts S.makes S.view S.waits (book_of parts.new.register parts.new.store room stopped) }
    ensures turned { (s : FlatState) → ReplaysTo (book_of parts.old.register parts.old.store room stopped) s
        → Turned S.view S.waits (book_of parts.old.register parts.old.store room stopped) s shares.old core (option_copied next.entry) result
        (book_of parts.new.register parts.new.store room stopped) shares.new }
    ensures moves { (s : FlatState) (answer : Answer) → ReplaysTo (book_of parts.old.register parts.old.store room stopped) s
        → MayAct (book_of parts.old.register parts.old.store room stopped) s → result ≡ Ok answer
        → StoreMoves S.makes S.view S.waits (standing_of (turn_at S.waits (book_of parts.old.register parts.old.store room stopped) s core (option_copied next.entry))) parts.old.store parts.new.store }
    ensures most { length parts.new.register.history.items < length parts.old.register.history.items + (limits_of parts.old.register.image.version).free_entries }
{
    S::calls_are_fixed();
    if let Some(end) = parts.register.end {
        return Ok(Answer::Over(end));
    }
    if let Some(cause) = stopped {
        return Ok(Answer::Stopped(cause));
    }
    let free = free_entries(&parts.register.image);
    if room - (parts.register.history.len() as u32) < free {
        return Err(TurnFault::HistoryFull);
    }
    let Ok(()) = make_room(parts, free) else {
        return Err(TurnFault::NoMemory);
    };
    parts.store.look();
    let came = parts.turn(shares, core, next);
    Ok(answer_of(&parts.register, core, came))
}

/// What the book answers, where a turn at its parts came to this.
fn answer_of(register: &Register, core: u32, came: Came) -> Answer
    requires { core < length register.now.running.items }
    ensures { result ≡ spec.answer_of register.now.running.items core came }
{
    match came {
        Came::Goes => match &register.running[core as usize] {
            Some(now) => Answer::Go(now.hart),
            None => Answer::Left,
        },
        Came::Again(cause) => Answer::Again(cause),
        Came::Left => Answer::Left,
        Came::Over(end) => Answer::Over(end),
    }
}

/// How many entries of the history a turn has to find free.
fn free_entries(image: &Image) -> u32
    ensures { result ≡ (limits_of image.now.version).free_entries }
{
    image.version().limits().free_entries
}

/// Makes room for so many entries, and for the calls of the store that a turn makes.
fn make_room<S: EpochStore>(parts: &mut Parts<S>, entries: u32) -> Result<(), NoMemory>
    ensures register { IsAsBefore parts.old.register parts.new.register }
    ensures store { IsSameView (S.view parts.old.store) (S.view parts.new.store) }
    ensures waits { S.waits parts.new.store ≡ S.waits parts.old.store }
    ensures still { IsStill S.makes S.view S.waits parts.old.store parts.new.store }
    ensures makes { OnOk result (S.makes parts.old.store call.Reserve parts.new.store) }
    ensures room { OnOk result (vec_len parts.new.register.history + entries ≤ vec_capacity parts.new.register.history) }
    ensures budget { OnOk result (4 ≤ S.budget parts.new.store) }
{
    if parts.register.history.reserve(entries as usize).is_err() {
        return Err(NoMemory);
    }
    parts.store.reserve()
}
