//! What the turn of a core does that costs.
ghost use Rattle.std.specs.Prelude.{◌≡◌, ◌<◌, ℕ, Option, Some, None, is_some, option_copied};
ghost use Rattle.rv32_exec.specs.Arrival.{Arrival};
ghost use Rattle.spec_history.specs.FlatState.{FlatState};
ghost use Rattle.homefree.specs.Acted.{IfArrived};
ghost use Rattle.homefree.specs.BookView.{ReplaysTo};
ghost use Rattle.homefree.specs.Turned.{turn_at, wait_at};
ghost use Rattle.turn_costs.specs.Actions.{AreFew, no_actions};
ghost use Rattle.turn_costs.specs.Turns as spec;

use crate::actions::Actions;
use crate::store::PricedStore;
use homefree::{Book, Running};
use rv32_exec::laws::the_next_access_is_in_memory;
use rv32_exec::{Arrived, Stop};

/// Actions that are no more than a turn does.
#[derive(Drop)]
struct Few {
    actions: Actions,
    ghost few: { AreFew actions },
}

/// Nothing that costs.
fn none() -> Few
    ensures { result.actions ≡ no_actions }
{
    Few {
        actions: Actions::NONE,
    }
}

/// What the turn of a core does that costs, in the state before it, where the turn is taken: by what the core runs, and what it hands in.
/// It scans neither memory nor the history, and takes no memory.
pub fn actions_of<S: PricedStore>(book: &Book<S>, core: u32, next: Option<&Arrived>) -> Actions
    requires core { core < book.now.cores }
    requires next { IfArrived book.now.image (option_copied next) }
    ensures value { (s : FlatState) → ReplaysTo book.now s
        → result ≡ spec.actions_of (S.prices book.now.store) (turn_at S.waits book.now s core (option_copied next.entry)) }
    ensures few { AreFew result }
{
    book.look();
    if book.ended().is_some() {
        return Actions::NONE;
    }
    let Some(running) = book.running(core) else {
        return begin_of(book).actions;
    };
    if running.hurt {
        return Actions {
            restarts: 1,
            ..Actions::NONE
        };
    }
    run_of(book, core, running, next).actions
}

/// What an idle core does: it begins an epoch, where one is left.
fn begin_of<S: PricedStore>(book: &Book<S>) -> Few
    ensures { (s : FlatState) (core : ℕ) (next : Option Arrival) → ReplaysTo book.now s
        → result.actions ≡ spec.acts_by (S.prices book.now.store) (turn_at S.waits book.now s core next) None }
{
    match book.next_epoch() {
        Some(_) => Few {
            actions: Actions {
                begins: 1,
                ..Actions::NONE
            },
        },
        None => none(),
    }
}

/// What a core does that runs this and isn't hurt.
fn run_of<S: PricedStore>(
    book: &Book<S>,
    core: u32,
    running: &Running,
    next: Option<&Arrived>,
) -> Few
    requires core { core < book.now.cores }
    requires next { IfArrived book.now.image (option_copied next) }
    ensures { (s : FlatState) → ReplaysTo book.now s
        → result.actions ≡ spec.runs_on (S.prices book.now.store) (turn_at S.waits book.now s core (option_copied next.entry)) running.now (option_copied next.entry) }
{
    let Some(arrived) = next else {
        return none();
    };
    if *arrived.base() == running.hart {
        stop_of(book, core, running, arrived)
    } else {
        none()
    }
}

/// What a core does that runs this and is at this stop.
fn stop_of<S: PricedStore>(book: &Book<S>, core: u32, running: &Running, arrived: &Arrived) -> Few
    requires core { core < book.now.cores }
    requires arrived { IfArrived book.now.image (Some arrived.now) }
    ensures { (s : FlatState) (next : Option Arrival) → ReplaysTo book.now s
        → result.actions ≡ spec.stops_at (S.prices book.now.store) (turn_at S.waits book.now s core next) running.now arrived.entry.now.at }
{
    match arrived.at() {
        Stop::Load { .. } => access_of(book, core, running, arrived),
        Stop::Store { .. } => access_of(book, core, running, arrived),
        Stop::Ended => end_of(book, core, running),
        Stop::Fault { .. } => end_of(book, core, running),
    }
}

/// What a core does that runs this and is at an access.
fn access_of<S: PricedStore>(book: &Book<S>, core: u32, running: &Running, arrived: &Arrived) -> Few
    requires core { core < book.now.cores }
    requires arrived { IfArrived book.now.image (Some arrived.now) }
    ensures { (s : FlatState) (next : Option Arrival) → ReplaysTo book.now s
        → result.actions ≡ spec.accesses_at (S.prices book.now.store) (turn_at S.waits book.now s core next) running.now arrived.entry.now.at }
{
    let at = arrived.at();
    if running.straight {
        return access_at(book, core, true, at);
    }
    if !waits_at(book, core, arrived) {
        return access_at(book, core, false, at);
    }
    if running.epoch == book.homefree() {
        let access = access_at(book, core, true, at);
        with_publish(book, core, false, access)
    } else {
        none()
    }
}

/// What a core does that runs this and is at its end or fault.
fn end_of<S: PricedStore>(book: &Book<S>, core: u32, running: &Running) -> Few
    ensures { (s : FlatState) (next : Option Arrival) → ReplaysTo book.now s
        → result.actions ≡ spec.ends_at (S.prices book.now.store) (turn_at S.waits book.now s core next) running.now }
{
    if running.epoch != book.homefree() {
        return none();
    }
    let commit = Few {
        actions: Actions {
            commits: 1,
            ..Actions::NONE
        },
    };
    with_publish(book, core, running.straight, commit)
}

/// These, and the publish before them, unless the core is straight.
fn with_publish<S: PricedStore>(book: &Book<S>, core: u32, straight: bool, few: Few) -> Few
    ensures { result.actions ≡ spec.with_publish (S.prices book.now.store) straight core few.actions }
{
    if straight {
        return few;
    }
    Few {
        actions: Actions {
            lines: book.store().publish_lines(core),
            ..few.actions
        },
    }
}

/// The access at a stop, straight or speculative.
fn access_at<S: PricedStore>(book: &Book<S>, core: u32, straight: bool, at: Stop) -> Few
    ensures { result.actions ≡ spec.access_at (S.prices book.now.store) straight core at }
{
    let actions = match at {
        Stop::Load { addr, .. } => book.store().load_actions(core, straight, addr),
        Stop::Store { addr, .. } => book.store().store_actions(core, straight, addr),
        Stop::Ended | Stop::Fault { .. } => Actions::NONE,
    };
    Few { actions }
}

/// Whether the store would wait at a speculative access at this stop.
fn waits_at<S: PricedStore>(book: &Book<S>, core: u32, arrived: &Arrived) -> bool
    requires core { core < book.now.cores }
    requires arrived { IfArrived book.now.image (Some arrived.now) }
    ensures { result ≡ is_some (wait_at (S.waits book.now.store) core arrived.entry.now.at) }
{
    book.look();
    the_next_access_is_in_memory();
    match arrived.at() {
        Stop::Load { addr, width, .. } => book.store().load_waits(core, addr, width),
        Stop::Store { addr, width, .. } => book.store().store_waits(core, addr, width),
        Stop::Ended | Stop::Fault { .. } => false,
    }
}
