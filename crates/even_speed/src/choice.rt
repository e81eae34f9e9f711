//! Whose turn is next.
ghost use Rattle.std.specs.Prelude.{◌≡◌, ◌≤◌, ◌<◌, ◌+◌, ℕ, length, Option, Some};
ghost use Rattle.violations.specs.View.{IsSettled};
ghost use Rattle.homefree.specs.Held.{HaveArrived, harts_of};
ghost use Rattle.even_speed.specs.Clocks as spec;
ghost use Rattle.even_speed.specs.Even.{price_by};
ghost use Rattle.even_speed.specs.Held.{held_in};
ghost use Rattle.even_speed.specs.Holds.{holding_of};
ghost use Rattle.even_speed.specs.Kept as kept;
ghost use Rattle.even_speed.specs.Kept.{IsNext, MayPrice, is_held_in};
ghost use Rattle.even_speed.specs.Pricing.{IsLow, begins};

use crate::clock::Clock;
use crate::clocks::{Turn, clock_of};
use crate::pricing::{Free, NO_PRICE, Price, later, price_of};
use crate::terms::Terms;
use homefree::Book;
use rv32_exec::Arrived;
use turn_costs::{Costs, PricedStore, actions_of};
use violations::{EpochStore, MAX_CORES};

/// The turn that begins first among those of the cores that are due and aren't held; of several the one that was due first, and of these
/// that of the core with the lowest number. Only turns that may be that one are priced.
pub(crate) fn next_turn<S: PricedStore>(
    book: &Book<S>,
    terms: &Terms,
    hands: &[Option<Arrived>; MAX_CORES],
    clocks: &Vec<Clock>,
    waiting: &[bool; MAX_CORES],
    free: &Free,
) -> Option<Turn>
    requires cores { length clocks.now.items ≡ book.now.cores }
    requires few { book.now.cores ≤ 16 }
    requires hands { HaveArrived book.now.image hands.now }
    requires waiting { (k : ℕ) → k < book.now.cores → is_held_in waiting.now k ≡ held_in (holding_of terms.now.holds) book.now (harts_of hands.now) k }
    ensures next { IsNext free.now (price_by S.prices S.waits terms.now.costs book.now (harts_of hands.now))
        (spec.dues (held_in (holding_of terms.now.holds) book.now (harts_of hands.now)) (spec.clock_at clocks.now.items)) book.now.cores result }
    ensures settled { IsSettled (S.view book.now.store) }
    ensures kept { S.keeps book.now.store }
{
    look_store(book);
    let mut found = None;
    for core in 0..clocks.len() as u32 {
        let due = due(clocks, waiting, core);
        found = with_core(found, book, terms.costs, hands, free, core, due);
    }
    found
}

/// What every store keeps, and every one of its kind: this call does nothing.
fn look_store<S: PricedStore>(book: &Book<S>)
    ensures settled { IsSettled (S.view book.now.store) }
    ensures kept { S.keeps book.now.store }
{
    book.look();
    book.store().look();
    book.store().look_inside();
}

/// The one found so far, or the turn of this core, where it is due at this time and would begin sooner.
fn with_core<S: PricedStore>(
    found: Option<Turn>,
    book: &Book<S>,
    costs: Option<Costs>,
    hands: &[Option<Arrived>; MAX_CORES],
    free: &Free,
    core: u32,
    due: Option<u64>,
) -> Option<Turn>
    requires { MayPrice book.now.image book.now.cores hands.now core }
    ensures { (dues : ℕ → Option ℕ) → IsNext free.now (price_by S.prices S.waits costs book.now (harts_of hands.now)) dues core found → dues core ≡ due
        → IsNext free.now (price_by S.prices S.waits costs book.now (harts_of hands.now)) dues (core + 1) result }
{
    let Some(due) = due else {
        return found;
    };
    if !may_begin_sooner(&found, free, due) {
        return found;
    }
    let price = price_at(book, costs, hands, core);
    sooner(found, turn_of(free, core, due, price))
}

/// The time at which a core is due, where it is due and isn't held.
fn due(clocks: &Vec<Clock>, waiting: &[bool; MAX_CORES], core: u32) -> Option<u64>
    requires few { length clocks.now.items ≤ 16 }
    requires core { core < length clocks.now.items }
    ensures { result ≡ spec.dues (is_held_in waiting.now) (spec.clock_at clocks.now.items) core }
{
    if waiting[core as usize] {
        None
    } else {
        clock_of(clocks, core).due()
    }
}

/// What the turn of a core would cost.
fn price_at<S: PricedStore>(
    book: &Book<S>,
    costs: Option<Costs>,
    hands: &[Option<Arrived>; MAX_CORES],
    core: u32,
) -> Price
    requires { MayPrice book.now.image book.now.cores hands.now core }
    ensures price { result ≡ price_by S.prices S.waits costs book.now (harts_of hands.now) core }
    ensures low { IsLow result }
{
    match costs {
        Some(costs) => {
            book.look();
            let hand = hands[core as usize].as_ref();
            price_of(&costs, &actions_of(book, core, hand))
        }
        None => NO_PRICE,
    }
}

/// The turn of a core that is due at this time, at this price.
fn turn_of(free: &Free, core: u32, due: u64, price: Price) -> Turn
    ensures { result ≡ record { core = core; due = due; at = begins free.now price due; price = price } }
{
    Turn {
        core,
        due,
        at: free.begins(&price, due),
        price,
    }
}

/// Whether a turn that is due at this time may begin before the one found so far.
fn may_begin_sooner(found: &Option<Turn>, free: &Free, due: u64) -> bool
    ensures { result ≡ kept.may_begin_sooner found.now free.now due }
{
    match found {
        Some(turn) => !is_no_later(turn, later(free.began, due), due),
        None => true,
    }
}

/// The one found so far, or this turn, where it begins sooner, or was due sooner.
fn sooner(found: Option<Turn>, turn: Turn) -> Option<Turn>
    ensures { result ≡ Some (kept.sooner found turn) }
{
    match found {
        Some(old) if is_no_later(&old, turn.at, turn.due) => found,
        _ => Some(turn),
    }
}

/// Whether the turn begins before one that begins at this time and was due at that one, or then and was due no later.
fn is_no_later(turn: &Turn, at: u64, due: u64) -> bool
    ensures { result ≡ kept.is_no_later turn.now at due }
{
    turn.at < at || turn.at == at && turn.due <= due
}
