//! The turns of a run at even speed.
ghost use Rattle.std.specs.Prelude.{◌≡◌, ◌≢◌, ◌≤◌, ◌<◌, ◌-◌, ◌+◌, ◌*◌, ◌^◌, [], ℕ, None, Some, Ok, OnOk, true, length, take, option_map};
ghost use Rattle.memory_bytes.specs.Shadow.{byte_in};
ghost use Rattle.rv32_image.specs.Image.{LoadedImage};
ghost use Rattle.rv32_exec.specs.Hart.{HartState};
ghost use Rattle.rv32_exec.specs.NextEvent.{next_event};
ghost use Rattle.spec_history.specs.FlatState.{FlatState};
ghost use Rattle.homefree.specs.Acted.{IfArrived};
ghost use Rattle.homefree.specs.BookView.{IsOfSameLoop, ReplaysTo};
ghost use Rattle.homefree.specs.Counted.{IsNoMore};
ghost use Rattle.homefree.specs.Driven.{Driven, IsInOrder, TurnedWith, driver, with_held};
ghost use Rattle.homefree.specs.Grown.{GrowsBy};
ghost use Rattle.homefree.specs.Held.{HaveArrived, harts_of, held_by};
ghost use Rattle.even_speed.specs.Even as spec;
ghost use Rattle.even_speed.specs.Held as held_spec;
ghost use Rattle.even_speed.specs.Held.{held_in};
ghost use Rattle.even_speed.specs.Holds.{has_stores, holding_of};
ghost use Rattle.even_speed.specs.Kept.{NeverWaits, is_held_in};
ghost use Rattle.even_speed.specs.Owns.{none_own, own_at, owns_after};
ghost use Rattle.even_speed.specs.Seats.{epoch_kept, none_seated, seat_at, seats_after};
ghost use Rattle.even_speed.specs.Timed.{Leads};

use crate::account::Account;
use crate::choice::next_turn;
use crate::clocks::{account_of, be_late, clock_of, first_clocks, set_clock, wake_all};
use crate::holds::Holds;
use crate::owns::{Own, bytes_of, first_owns, keep_all};
use crate::pricing::ALL_FREE;
use crate::seats::{Seat, note_all, seat_of};
use crate::terms::Terms;
use homefree::{Answer, Book, MOST_ROOM, TurnFault};
use memory_bytes::ShadowBytes;
use run_ledger::Shares;
use rv32_exec::{Arrived, End, Image, NoMemory, Stop};
use std::alloc::Global;
use turn_costs::PricedStore;
use violations::{EpochStore, MAX_CORES};

/// The most turns that a run takes. Each turn that isn't answered `Again` makes an entry, of which there are at most `MOST_ROOM`, and
/// between two of them each core asks at most once in vain.
const MOST_TURNS: u32 = 17 * MOST_ROOM + 17;

/// A run that came to the end of its loop.
#[derive(Clone, Copy)]
pub struct Ran {
    /// The end of the loop.
    pub end: End,
    /// How many steps the run took.
    pub steps: u64,
    /// Where the steps of its cores went.
    pub account: Account,
}

/// Takes turns at even speed, on these terms, up to the one that ends the loop: each of the core whose turn begins first. It writes whose
/// turns it took into the schedule, which is empty before. A core at a load that waits isn't due until its epoch is the homefree one, or was
/// violated.
///
/// It answers what the run came to. None: the book was stopped before, or its history wasn't empty; a run from an empty history goes on up to
/// the end of its loop, unless that fills the history or memory runs out. A fault is that of the last turn, and leaves the book of the
/// turns before; `NoMemory` may also be that there was none for the schedule.
pub fn drive_evenly<S: PricedStore>(
    alloc: Global,
    book: &mut Book<S>,
    image: &Image,
    cores: u32,
    terms: &Terms,
    schedule: &mut Vec<u32>,
    shares: &mut Shares,
) -> Result<Option<Ran>, TurnFault>
    requires book { (book.old.image ≡ image.now) × (book.old.cores ≡ cores) }
    requires schedule { schedule.old.items ≡ [] }
    requires shares { IsNoMore shares.old book.old.totals }
    ensures evenly { spec.UnlessRefused result (spec.Evenly S.makes S.view S.waits S.keeps (spec.pacing_of S.prices terms.now) spec.at_first (driver book.old shares.old) schedule.new.items result (driver book.new shares.new)) }
    ensures driven { spec.UnlessRefused result (Driven S.makes S.view S.waits (λ _. None) (driver book.old shares.old) schedule.new.items (spec.end_in result) (driver book.new shares.new)) }
    ensures same { IsOfSameLoop book.old book.new }
    ensures shares { IsNoMore shares.new book.new.totals }
    ensures end { spec.IfRan result (λ ran. IsInOrder book.new.image ran.end (S.view book.new.store).committed) }
    ensures whole { spec.IfRan result (spec.IsWhole book.old.cores) }
    ensures short { spec.IfRan result spec.IsShort }
    ensures accounts { spec.IfRan result (spec.AccountsFor (spec.pacing_of S.prices terms.now) book.old) }
    ensures ends { book.old.history ≡ [] → book.old.stopped ≡ None → result ≢ Ok None }
{
    let Ok(mut clocks) = first_clocks(alloc, cores) else {
        return Err(TurnFault::NoMemory);
    };
    book.look();
    let mut held = [None; MAX_CORES];
    let mut seats = [None; MAX_CORES];
    note_from(&mut seats, book, 0);
    let Ok(mut owns) = first_owns(alloc, cores) else {
        return Err(TurnFault::NoMemory);
    };
    let Ok(()) = keep_from(&mut owns, book, &terms.holds, 0) else {
        return Err(TurnFault::NoMemory);
    };
    let mut free = ALL_FREE;
    for _taken in 0..MOST_TURNS {
        let waiting = held_cores(book, image, &seats, &owns, &held, &terms.holds, cores);
        let Some(turn) = next_turn(book, terms, &held, &clocks, &waiting, &free) else {
            return Ok(None);
        };
        let Ok(()) = schedule.push(turn.core) else {
            return Err(TurnFault::NoMemory);
        };
        be_late(&mut clocks, terms, &turn);
        let clock = clock_of(&clocks, turn.core);
        let restarts = book.totals().restarts;
        let place = book.len();
        let answer = step(book, &mut held, turn.core, shares)?;
        note_from(&mut seats, book, place);
        let Ok(()) = keep_from(&mut owns, book, &terms.holds, place) else {
            return Err(TurnFault::NoMemory);
        };
        let restarted = book.totals().restarts != restarts;
        let executed = executed_by(image, &held[turn.core as usize], &answer);
        let clock = clock.answered(turn.at, restarted, executed, &turn.price.spent, &answer);
        set_clock(&mut clocks, turn.core, clock);
        let steps = free.over(turn.at, &turn.price);
        free = free.after(turn.at, &turn.price, &answer);
        match answer {
            Answer::Over(end) => {
                book.look();
                let account = account_of(&clocks, steps);
                return Ok(Some(Ran {
                    end,
                    steps,
                    account,
                }));
            }
            Answer::Stopped(_) => return Ok(None),
            Answer::Again(_) => (),
            _ => wake_all(&mut clocks, turn.at),
        }
    }
    Ok(None)
}

/// One turn of a core, as `homefree::step` takes it, and what is known of the book before and after it.
fn step<S: EpochStore>(
    book: &mut Book<S>,
    held: &mut [Option<Arrived>; MAX_CORES],
    core: u32,
    shares: &mut Shares,
) -> Result<Answer, TurnFault>
    requires core { core < book.old.cores }
    requires held { HaveArrived book.old.image held.old }
    requires shares { IsNoMore shares.old book.old.totals }
    ensures turned { TurnedWith S.makes S.view S.waits (driver book.old shares.old) core (harts_of held.old core) result (driver book.new shares.new) }
    ensures same { IsOfSameLoop book.old book.new }
    ensures shares { IsNoMore shares.new book.new.totals }
    ensures over { (end : End) (s : FlatState) → result ≡ Ok (Answer.Over end) → ReplaysTo book.new s → s.end ≡ Some end }
    ensures held { HaveArrived book.new.image held.new }
    ensures harts { (k : ℕ) → harts_of held.new k ≡ with_held (harts_of held.old) core (held_by result (harts_of held.old core)) k }
    ensures alone { book.old.cores ≡ 1 → (book.new.totals.restarts ≡ 0) × NeverWaits result }
    ensures grows { GrowsBy core book.old book.new shares.old shares.new }
    ensures leads { Leads (driver book.old shares.old) (driver book.new shares.new) core (harts_of held.old core) result }
{
    book.look();
    let answer = homefree::step(book, held, core, shares);
    book.look();
    answer
}

/// Which cores are held, of which the entries of the history tell this, that have stored this, and that have this in hand: those whose next event
/// is a load that waits, that weren't violated, and whose epoch isn't the homefree one.
fn held_cores<S: EpochStore>(
    book: &Book<S>,
    image: &Image,
    seats: &[Option<Seat>; MAX_CORES],
    owns: &[Own],
    held: &[Option<Arrived>; MAX_CORES],
    holds: &Holds,
    cores: u32,
) -> [bool; MAX_CORES]
    requires image { book.now.image ≡ image.now }
    requires few { cores ≤ 16 }
    requires cores { length owns.now ≡ cores }
    requires seats { (k : ℕ) → seat_at seats.now k ≡ seats_after none_seated book.now.history k }
    requires owns { has_stores holds.now ≡ true → (k : ℕ) → own_at owns.now k ≡ owns_after none_own book.now.history k }
    requires held { HaveArrived book.now.image held.now }
    ensures { (k : ℕ) → k < cores → is_held_in result k ≡ held_in (holding_of holds.now) book.now (harts_of held.now) k }
{
    let mut waiting = [false; MAX_CORES];
    if holds.holds_none() {
        return waiting;
    }
    let first = book.homefree();
    for core in 0..cores {
        let seat = seat_of(seats, core);
        let own = bytes_of(owns, core);
        let waits = is_held(image, holds, first, seat, own, &held[core as usize]);
        waiting[core as usize] = waits;
    }
    waiting
}

/// Whether a core is held that runs this, has stored this, and has this in hand.
fn is_held(
    image: &Image,
    holds: &Holds,
    homefree: u32,
    seat: Option<Seat>,
    own: &ShadowBytes,
    arrived: &Option<Arrived>,
) -> bool
    requires { IfArrived image.now arrived.now }
    ensures { result ≡ held_spec.is_held (holding_of holds.now) image.now homefree (epoch_kept seat) (byte_in own.now.cells) (option_map (λ a. a.base) arrived.now) }
{
    match (seat, arrived) {
        (Some(seat), Some(arrived)) => {
            !seat.hurt
                && seat.epoch != homefree
                && waits_at(image, holds, homefree, seat.epoch, own, arrived)
        }
        _ => false,
    }
}

/// Whether the next event of a core of this epoch, which has stored this, is a load that waits.
fn waits_at(
    image: &Image,
    holds: &Holds,
    homefree: u32,
    epoch: u32,
    own: &ShadowBytes,
    arrived: &Arrived,
) -> bool
    requires { IfArrived image.now (Some arrived.now) }
    ensures { result ≡ held_spec.waits_at (holding_of holds.now) homefree epoch (byte_in own.now.cells) arrived.entry.now }
{
    let _ = image.size();
    match arrived.at() {
        Stop::Load { addr, width, .. } => {
            holds.place(arrived.now().pc()) || holds.reads_stored(homefree, epoch, own, addr, width)
        }
        _ => false,
    }
}

/// Notes what the entries of the history from this place on made of what the cores have stored, where loads wait for stores.
fn keep_from<S: EpochStore>(
    owns: &mut Vec<Own>,
    book: &Book<S>,
    holds: &Holds,
    place: usize,
) -> Result<(), NoMemory>
    requires place { place ≤ length book.now.history }
    requires cores { length owns.old.items ≡ book.now.cores }
    requires owns { has_stores holds.now ≡ true → (k : ℕ) → own_at owns.old.items k ≡ owns_after none_own (take place book.now.history) k }
    ensures cores { length owns.new.items ≡ length owns.old.items }
    ensures owns { OnOk result (has_stores holds.now ≡ true → (k : ℕ) → own_at owns.new.items k ≡ owns_after none_own book.now.history k) }
{
    if !holds.has_stores() {
        return Ok(());
    }
    book.look();
    keep_all(owns, &book.history()[place..])
}

/// Notes the entries of the history from this place on.
fn note_from<S: EpochStore>(seats: &mut [Option<Seat>; MAX_CORES], book: &Book<S>, place: usize)
    requires place { place ≤ length book.now.history }
    requires seats { (k : ℕ) → seat_at seats.old k ≡ seats_after none_seated (take place book.now.history) k }
    ensures { (k : ℕ) → seat_at seats.new k ≡ seats_after none_seated book.now.history k }
{
    book.look();
    note_all(seats, &book.history()[place..]);
}

/// How many instructions a core that has this in hand executes from its hart to its next event, after this answer.
fn executed_by(image: &Image, arrived: &Option<Arrived>, answer: &Answer) -> u64
    requires arrived { IfArrived image.now arrived.now }
    requires base { (hart : HartState) → answer.now ≡ Answer.Go hart → option_map (λ a. a.base) arrived.now ≡ Some hart }
    ensures is { result ≡ spec.executed_by image.now answer.now }
    ensures few { result ≤ 1000001 }
{
    let _ = image.size();
    match answer {
        Answer::Go(hart) => match arrived {
            Some(arrived) => arrived.now().done() - hart.done(),
            None => 0,
        },
        _ => 0,
    }
}
