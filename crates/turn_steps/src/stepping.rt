//! The turns of a schedule one by one, as text.
ghost use Rattle.std.specs.Prelude.{◌≡◌, ◌≢◌, ◌++◌, ◌<◌, ◌≤◌, ◌==◌, ℕ, All, List, None, Ok, Err, IfOk, IfErr, OnOk, length, if◌then◌else◌};
ghost use Rattle.spec_history.specs.declared.entry.Entry.{Entry as HistoryEntry};
ghost use Rattle.violations.specs.Rule.{IsFresh};
ghost use Rattle.homefree.specs.BookView.{BookView, IsOfSameLoop};
ghost use Rattle.homefree.specs.Counted.{IsNoMore};
ghost use Rattle.homefree.specs.Driven.{Driven, TurnedWith, driver, held_after, with_held};
ghost use Rattle.homefree.specs.Held.{HaveArrived, harts_of};
ghost use Rattle.turn_steps.specs.Stepped as spec;
ghost use Rattle.turn_steps.specs.Telling as telling;
ghost use Rattle.turn_steps.specs.Writing as writing;

use crate::cores::{push_attempt_changes, push_hart_change};
use crate::loop_shown::ShownLoop;
use crate::store::ShownStore;
use crate::turns::{push_entries, push_turn};
use crate::writing::write_long;
use homefree::{Answer, Book, TurnFault, step};
use run_ledger::Shares;
use rv32_exec::{Arrived, Hart, Image};
use std::alloc::{AllocError, Global};
use std::io::Write;
use violations::{Attempt, EpochStore, MAX_CORES};

/// Takes turns as `drive` of `homefree` does, over a fresh store of this image on so many cores, and writes the text of each as it is
/// taken: the number of the turn, counted from 0, its core and what it was answered; its entries; and what isn't as it was before it, of
/// what the cores run, of the core's hart, of what the store holds for the cores, and of committed memory. It answers the rest of the text,
/// which isn't written yet, and whether all before it was: after a failed write the further turns are taken, and nothing more is written.
///
/// `HistoryFull`: a turn found too few free entries. `NoMemory`: memory ran out. The text of the turns before it, or some of the first of
/// it, was written.
pub fn drive_steps<S: ShownStore, W: Write>(
    alloc: Global,
    book: &mut Book<S>,
    image: &Image,
    cores: u32,
    schedule: &[u32],
    shares: &mut Shares,
    writer: &mut W,
) -> Result<(Vec<u8>, bool), TurnFault>
    requires image { book.old.image ≡ image.now }
    requires cores { book.old.cores ≡ cores }
    requires fresh { IsFresh image.now cores (S.view book.old.store) }
    requires schedule { All (λ core. core < cores) schedule.now }
    requires shares { IsNoMore shares.old book.old.totals }
    ensures stepped { IfOk result (λ told. writing.HasStepped S.makes S.view S.waits S.changes (driver book.old shares.old) schedule.now (driver book.new shares.new) told.0.items told.1
        (W.contents writer.old) (W.contents writer.new)) }
    ensures begun { IfErr result (λ _. writing.HasBegun S.makes S.view S.waits S.changes (driver book.old shares.old) schedule.now (W.contents writer.old) (W.contents writer.new)) }
    ensures full { result ≡ Err TurnFault.HistoryFull
        → Driven S.makes S.view S.waits (λ _. None) (driver book.old shares.old) schedule.now (Err TurnFault.HistoryFull) (driver book.new shares.new) }
    ensures same { IsOfSameLoop book.old book.new }
    ensures shares { IsNoMore shares.new book.new.totals }
{
    let Ok(mut shown) = ShownLoop::of(alloc, book.store(), image, cores) else {
        return Err(TurnFault::NoMemory);
    };
    let mut text = Vec::new(alloc);
    let mut whole = true;
    let mut held = [None; MAX_CORES];
    for number in 0..schedule.len() {
        let place = Place {
            number,
            core: schedule[number],
            cores,
        };
        let answer = step_shown(alloc, book, &mut held, place, shares, &mut shown, &mut text)?;
        match answer {
            Answer::Over(_) => return Ok((text, whole)),
            Answer::Stopped(_) => return Ok((text, whole)),
            _ => (),
        }
        write_long(writer, &mut whole, &mut text);
    }
    Ok((text, whole))
}

/// Where a turn stands in a schedule, its core, and how many there are.
#[derive(Clone, Copy)]
struct Place {
    number: usize,
    core: u32,
    cores: u32,
}

/// One turn of a core, as `step` of `homefree`, and its text.
fn step_shown<S: ShownStore>(
    alloc: Global,
    book: &mut Book<S>,
    held: &mut [Option<Arrived>; MAX_CORES],
    place: Place,
    shares: &mut Shares,
    shown: &mut ShownLoop<S>,
    text: &mut Vec<u8>,
) -> Result<Answer, TurnFault>
    requires place { (place.core < place.cores) × (book.old.cores ≡ place.cores) }
    requires held { HaveArrived book.old.image held.old }
    requires shares { IsNoMore shares.old book.old.totals }
    requires shown { telling.IsCurrent S.view S.fits S.shows shown.old.store shown.old.memory book.old }
    ensures turned { result ≢ Err TurnFault.NoMemory → TurnedWith S.makes S.view S.waits (driver book.old shares.old) place.core (harts_of held.old place.core) result (driver book.new shares.new) }
    ensures same { IsOfSameLoop book.old book.new }
    ensures shares { IsNoMore shares.new book.new.totals }
    ensures held { HaveArrived book.new.image held.new }
    ensures harts { IfOk result (λ answer. (k : ℕ) → harts_of held.new k ≡ with_held (harts_of held.old) place.core (held_after answer (harts_of held.old place.core)) k) }
    ensures told { IfOk result (λ answer. (first : List ℕ) × spec.IsTold S.view S.changes place.number place.core answer (harts_of held.old place.core) book.old book.new first
        × (text.new.items ≡ text.old.items ++ first)) }
    ensures shown { OnOk result (telling.IsCurrent S.view S.fits S.shows shown.new.store shown.new.memory book.new) }
{
    book.look();
    let before = Before {
        entries: book.len(),
        attempts: attempts_of(book.store(), place.cores),
        hart: hart_of(held, place.core),
    };
    let answer = step(book, held, place.core, shares)?;
    book.look();
    let taken = Taken {
        answer,
        hart: hart_of(held, place.core),
    };
    match push_step(alloc, text, shown, book, place, &before, &taken) {
        Ok(()) => Ok(taken.answer),
        Err(AllocError) => Err(TurnFault::NoMemory),
    }
}

/// What there was before a turn: so many entries, what each core ran, and the hart that the turn's core had in hand.
#[derive(Drop)]
struct Before {
    entries: usize,
    attempts: [Option<Attempt>; MAX_CORES],
    hart: Option<Hart>,
}

/// What a turn was answered, and the hart that its core has in hand then.
#[derive(Drop)]
struct Taken {
    answer: Answer,
    hart: Option<Hart>,
}

/// Adds the text of a turn, after which the book is this.
fn push_step<S: ShownStore>(
    alloc: Global,
    text: &mut Vec<u8>,
    shown: &mut ShownLoop<S>,
    book: &Book<S>,
    place: Place,
    before: &Before,
    taken: &Taken,
) -> Result<(), AllocError>
    requires cores { (place.core < place.cores) × (place.cores ≤ 16) × ((S.view book.now.store).shape.cores ≡ place.cores) }
    requires entries { before.now.entries ≤ length book.now.history }
    requires fits { telling.Fits S.view S.fits shown.old.store shown.old.memory book.now.store }
    ensures text { (old : BookView S) (added : List HistoryEntry) → telling.Follows S.view S.shows shown.old.store shown.old.memory place.core old book.now added
        → telling.IsBefore S.view before.now.entries before.now.attempts old → old.cores ≡ place.cores
        → OnOk result (text.new.items ≡ text.old.items ++ spec.turn_text S.view S.changes place.number place.core taken.now.answer added before.now.hart taken.now.hart old book.now) }
    ensures shown { (old : BookView S) (added : List HistoryEntry) → telling.Follows S.view S.shows shown.old.store shown.old.memory place.core old book.now added
        → telling.IsBefore S.view before.now.entries before.now.attempts old
        → OnOk result (telling.IsCurrent S.view S.fits S.shows shown.new.store shown.new.memory book.now) }
{
    let added = &book.history()[before.entries..];
    push_turn(text, place.number, place.core, &taken.answer)?;
    push_entries(text, added)?;
    let attempts = attempts_of(book.store(), place.cores);
    push_attempt_changes(alloc, text, place.cores, &before.attempts, &attempts)?;
    push_hart_change(alloc, text, place.core, before.hart, taken.hart)?;
    shown.push_changes(alloc, text, book.store(), place.core, added)?;
    Ok(())
}

/// What each core runs, of so many.
fn attempts_of<S: ShownStore>(store: &S, cores: u32) -> [Option<Attempt>; MAX_CORES]
    requires cores { (S.view store.now).shape.cores ≡ cores }
    requires most { cores ≤ 16 }
    ensures { (k : ℕ) → spec.attempt_in result k ≡ (S.view store.now).attempt k }
{
    store.look();
    let mut attempts = [None; MAX_CORES];
    for core in 0..cores {
        set_attempt(&mut attempts, core, store.attempt_of(core));
    }
    attempts
}

/// Sets what a core runs.
fn set_attempt(attempts: &mut [Option<Attempt>; MAX_CORES], core: u32, now: Option<Attempt>)
    requires { core < 16 }
    ensures { (k : ℕ) → spec.attempt_in attempts.new k ≡ (if k == core then now else spec.attempt_in attempts.old k) }
{
    attempts[core as usize] = now;
}

/// The hart that a core has in hand.
fn hart_of(held: &[Option<Arrived>; MAX_CORES], core: u32) -> Option<Hart>
    requires { core < 16 }
    ensures { result ≡ harts_of held.now core }
{
    match held[core as usize] {
        Some(arrived) => Some(*arrived.base()),
        None => None,
    }
}
