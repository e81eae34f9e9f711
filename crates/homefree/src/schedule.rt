//! Turns by a list of core numbers, on one thread.
ghost use Rattle.std.specs.Prelude.{◌≡◌, ◌<◌, ◌==◌, ℕ, All, None, Some, length, option_map, if◌then◌else◌};
ghost use Rattle.spec_history.specs.FlatState.{FlatState};
ghost use Rattle.homefree.specs.Again.{IfAgain, IsWhy};
ghost use Rattle.homefree.specs.Counted.{IsNoMore};
ghost use Rattle.homefree.specs.Driven.{Driven, TurnedWith, IfEnded, IsInOrder, arrival_of, driver, held_after, with_held};
ghost use Rattle.homefree.specs.BookView.{IsOfSameLoop, ReplaysTo};
ghost use Rattle.homefree.specs.Grown.{GrowsBy};
ghost use Rattle.homefree.specs.Held.{HaveArrived, harts_of, held_at, held_by};
ghost use Rattle.homefree.specs.Turned.{turn_at};

use crate::answer::{Answer, StopCause};
use crate::book::Book;
use crate::fault::TurnFault;
use run_ledger::Shares;
use rv32_exec::{Arrived, End, Image, advance};
use violations::{EpochStore, MAX_CORES};

/// Takes one turn for each core number of the list, in order, up to the first that ends the loop, finds the book stopped or fails.
/// No core has a hart in hand at first; then each hands in what `advance` makes of the hart that its last turn gave it.
///
/// It answers the end of the loop, which is that of the sequential loop, with its memory; or None where the book was stopped or
/// the list is used up. A fault is that of the last turn, and leaves the book of the turns before.
pub fn drive<S: EpochStore>(
    book: &mut Book<S>,
    schedule: &[u32],
    shares: &mut Shares,
) -> Result<Option<End>, TurnFault>
    requires cores { All (λ core. core < book.old.cores) schedule.now }
    requires shares { IsNoMore shares.old book.old.totals }
    ensures driven { Driven S.makes S.view S.waits (λ _. None) (driver book.old shares.old) schedule.now result (driver book.new shares.new) }
    ensures same { IsOfSameLoop book.old book.new }
    ensures shares { IsNoMore shares.new book.new.totals }
    ensures end { IfEnded result (λ end. IsInOrder book.new.image end (S.view book.new.store).committed) }
{
    let mut held = [None; MAX_CORES];
    for core in schedule {
        match step(book, &mut held, *core, shares)? {
            Answer::Over(end) => {
                book.look();
                return Ok(Some(end));
            }
            Answer::Stopped(_) => return Ok(None),
            _ => (),
        }
    }
    Ok(None)
}

/// One turn of a core with what it has in hand: where `advance` came to from the hart that its last turn gave it, or nothing. What the
/// core has in hand then is put there; that of the other cores stays.
///
/// A fault is that of the turn, and leaves what is in hand.
pub fn step<S: EpochStore>(
    book: &mut Book<S>,
    held: &mut [Option<Arrived>; MAX_CORES],
    core: u32,
    shares: &mut Shares,
) -> Result<Answer, TurnFault>
    requires core { core < book.old.cores }
    requires held { HaveArrived book.old.image held.old }
    requires shares { IsNoMore shares.old book.old.totals }
    ensures turned { TurnedWith S.makes S.view S.waits (driver book.old shares.old) core (harts_of held.old core) result (driver book.new shares.new) }
    ensures again { (s : FlatState) → ReplaysTo book.old s
        → IfAgain result (IsWhy (turn_at S.waits book.old s core (option_map (arrival_of book.old.image) (harts_of held.old core)))) }
    ensures grows { GrowsBy core book.old book.new shares.old shares.new }
    ensures same { IsOfSameLoop book.old book.new }
    ensures shares { IsNoMore shares.new book.new.totals }
    ensures over { (end : End) (s : FlatState) → result ≡ Ok (Answer.Over end) → ReplaysTo book.new s → s.end ≡ Some end }
    ensures stopped { (cause : StopCause) → result ≡ Ok (Answer.Stopped cause) → book.old.stopped ≡ Some cause }
    ensures held { HaveArrived book.new.image held.new }
    ensures harts { (k : ℕ) → harts_of held.new k ≡ with_held (harts_of held.old) core (held_by result (harts_of held.old core)) k }
{
    book.look();
    let answer = book.turn(core, held[core as usize].as_ref(), shares)?;
    take(held, core, book.image(), &answer);
    Ok(answer)
}

/// What a core has in hand after an answer.
fn take(held: &mut [Option<Arrived>; MAX_CORES], core: u32, image: &Image, answer: &Answer)
    requires core { core < 16 }
    requires held { HaveArrived image.now held.old }
    ensures held { HaveArrived image.now held.new }
    ensures harts { (k : ℕ) → harts_of held.new k ≡ with_held (harts_of held.old) core (held_after answer.now (harts_of held.old core)) k }
{
    match answer {
        Answer::Go(hart) => hold(held, core, Some(advance(image, *hart))),
        Answer::Again(_) => (),
        _ => hold(held, core, None),
    }
}

/// Sets what a core has in hand.
fn hold(held: &mut [Option<Arrived>; MAX_CORES], core: u32, now: Option<Arrived>)
    requires { core < 16 }
    ensures { (k : ℕ) → held_at held.new k ≡ (if k == core then now else held_at held.old k) }
{
    held[core as usize] = now;
}
