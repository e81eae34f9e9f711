//! The laws of histories: the functions do nothing of their own, and their contracts are the laws.
ghost use Rattle.std.specs.Prelude.{ℕ};
ghost use Rattle.homefree.specs.LockView.{loop_of};
ghost use Rattle.all_schedules.specs.Fixed.{DrawnHistoryIsFixed, EvenHistoryIsFixed, HistoryIsFixed};
ghost use Rattle.all_schedules.specs.MadeAgain.{IsMadeAgain, Parts};

use even_speed::run_is_fixed;
use homefree::{Book, drive_is_fixed};
use turn_costs::PricedStore;
use violations::EpochStore;

/// The turns of a schedule over a fresh store come to the same each time, make the same history, and leave stores that hold the same,
/// unless memory runs out.
pub fn history_is_fixed<S: EpochStore>()
    ensures { HistoryIsFixed S.starts S.makes S.alike S.view S.waits }
{
    S::calls_are_fixed();
    drive_is_fixed::<S>();
}

/// The turns that the history of a book shows, taken in order over a fresh store, make that very history again, and so never another
/// one. So it is of each book that a run on threads gives back, however its threads went.
pub fn trace_is_made_again<S: EpochStore>(book: &Book<S>)
    ensures again { IsMadeAgain S.starts S.makes S.view S.waits (loop_of book.now) book.now.history }
    ensures never { (place : ℕ) → Parts S.starts S.makes S.view S.waits (loop_of book.now) book.now.history place → ⊥ }
{
    history_is_fixed::<S>();
    book.look();
    book.look_back();
}

/// The run at even speed over a fresh store, on the same terms, comes to the same each time, takes the same turns, and makes the same history, where it
/// isn't stopped.
pub fn even_history_is_fixed<S: PricedStore>()
    ensures { EvenHistoryIsFixed S.starts S.makes S.view S.waits S.prices S.keeps }
{
    S::calls_are_fixed();
    run_is_fixed::<S>();
}

/// The run that a seed draws over a fresh store comes to the same each time, takes the same turns, and makes the same history, unless
/// memory runs out.
pub fn drawn_history_is_fixed<S: EpochStore>()
    ensures { DrawnHistoryIsFixed S.starts S.makes S.view S.waits }
{
    S::calls_are_fixed();
    drive_is_fixed::<S>();
}
