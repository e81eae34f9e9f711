//! One thread for each core, by a recursion over the pass and the shares. The starting thread holds the book until all have drawn a
//! ticket, so that each core has its first turn before any has its second.
ghost use Rattle.std.specs.Prelude.{◌≡◌, ◌+◌, ◌<◌, ◌≤◌, Some, MatchOption, MatchResult};
ghost use denote.Param.Send.{IsSync, IsSend};
ghost use Rattle.run_ledger.specs.Counts.{no_counts};
ghost use Rattle.core_threads.specs.Passes.{IsLater, IsCounted};
ghost use Rattle.core_threads.specs.Starting.{Covers, HasBookAs, IsNew, IsNewOf};

use crate::gate::Gate;
use crate::turns::{core_loop, stop};
use homefree::{Book, StopCause};
use run_ledger::{Shares, gather};
use rv32_exec::Image;
use std::snapshot::Snapshot;
use std::sync::Wait;
use std::sync::atomic::{AtomicBool, Ordering};
use std::thread::{self, Promise, PromisedHandle, Scope, Threads};
use ticket_lock::{Held, Pass, TicketLock};
use violations::EpochStore;

/// A core before or after its turns: its pass, and shares that are the counts of the pass's own entries.
#[derive(Drop)]
pub(crate) struct Core<S: EpochStore> {
    pub(crate) pass: Pass<Book<S>>,
    pub(crate) shares: Shares,
    ghost counted: { IsCounted pass shares },
}

/// The core that a thread gives back is the one that it began with, later.
impl<S: EpochStore> Promise<Core<S>> for Snapshot<Core<S>> {
    ghost use Rattle.core_threads.specs.Passes.{IsLater};

    ghost kept_by = { λ began core. IsLater began.value.pass core.pass };
}

/// What the threads of a run have in common: the image and the number of cores are the book's.
#[derive(Drop)]
struct Run<'s, S: EpochStore, G, R> {
    rt: &'s R,
    lock: &'s TicketLock<Book<S>>,
    image: &'s Image,
    gate: &'s G,
    cores: u32,
    /// Whether a thread was refused. Then no core begins its turns any more.
    refused: AtomicBool,
    ghost same_image: { lock.now.fixed.image ≡ image.now },
    ghost all_cores: { (cores ≡ lock.now.fixed.cores) × (cores ≤ 16) },
}

/// The starting thread: it holds the book with the last number. Err: no ticket was left for it.
type Starter<'s, S> = Result<Held<'s, Book<S>>, Pass<Book<S>>>;

/// A core whose thread runs. Err: its thread was refused.
type Started<S> = Result<PromisedHandle<Core<S>, Snapshot<Core<S>>>, Core<S>>;

/// A thread for each core, in a scope of their own, and their passes and shares together once all are joined.
pub(crate) fn run_threads<'x, S: EpochStore, G: Gate, R: Threads + Wait + Sync>(
    rt: &'x R,
    lock: &'x TicketLock<Book<S>>,
    pass: Pass<Book<S>>,
    shares: Shares,
    image: &'x Image,
    gate: &'x G,
    cores: u32,
) -> Core<S>
    requires new { IsNewOf lock.now 0 (cores + 1) pass × (shares ≡ no_counts) }
    requires image { lock.now.fixed.image ≡ image.now }
    requires cores { (0 < cores) × (cores ≡ lock.now.fixed.cores) × (cores ≤ 16) }
    ensures { Covers lock.now 0 (cores + 1) result.pass }
{
    let (rest, last) = split_new(lock, pass, cores as u64);
    let run = Run {
        rt,
        lock,
        image,
        gate,
        cores,
        refused: AtomicBool::new(false),
    };
    let run = &run;
    thread::scope(
        thread::scope_env(),
        rt,
        move |scope| -> Core<S>
            requires rest { IsNewOf run.now.lock.now 0 run.now.cores rest × (shares ≡ no_counts) }
            requires last { IsNewOf run.now.lock.now run.now.cores (run.now.cores + 1) last }
            requires sync { IsSync R.row × IsSync G.row × IsSend S.row }
            ensures { Covers run.entry.now.lock.now 0 (run.entry.now.cores + 1) result.pass }
        { start(scope, run, 0, Some(rest), shares, take_book(run, last)) },
    )
}

/// Starts the threads of the cores from this one on, and joins them.
fn start<'s, 'e, S: EpochStore + 's, G: Gate + 's, R: Threads + Wait + Sync>(
    scope: &Scope<'s, &'e ()>,
    run: &'s Run<'s, S, G, R>,
    core: u64,
    rest: Option<Pass<Book<S>>>,
    shares: Shares,
    starter: Starter<'s, S>,
) -> Core<S>
    requires rest { MatchOption rest (core ≡ run.now.cores) (IsNewOf run.now.lock.now core run.now.cores) × (shares ≡ no_counts) }
    requires starter { MatchResult starter (HasBookAs run.now.lock.now run.now.cores) (IsNewOf run.now.lock.now run.now.cores (run.now.cores + 1)) }
    ensures { Covers run.now.lock.now core (run.now.cores + 1) result.pass }
{
    let Some(pass) = rest else {
        return last_part(run, starter, shares);
    };
    let (first, rest, theirs) = split_first(run.lock, core, run.cores, pass, shares);
    let started = start_core(scope, run, first);
    let others = start(scope, run, core + 1, rest, theirs, starter);
    let own = match started {
        Ok(thread) => thread.join(run.rt),
        Err(own) => own,
    };
    rejoin(run.lock, own, others)
}

/// Starts the thread of a core. Where it is refused, the core comes back with no turn.
fn start_core<'s, 'e, S: EpochStore + 's, G: Gate + 's, R: Wait + Sync>(
    scope: &Scope<'s, &'e ()>,
    run: &'s Run<'s, S, G, R>,
    first: Core<S>,
) -> Started<S>
    requires { (first.pass.lock ≡ Some run.now.lock.now) × (first.pass.lo < run.now.cores) }
    ensures { MatchResult result (λ thread. thread.promise.value ≡ first) (λ own. IsLater first.pass own.pass) }
{
    let promise = Snapshot::of(&first);
    let job = move || -> Core<S>
        requires { (first.pass.lock ≡ Some run.now.lock.now) × (first.pass.lo < run.now.cores) }
        ensures { IsLater first.pass result.pass }
    { run_core(run, first) };
    match scope.spawn_with(promise, job) {
        Ok(thread) => Ok(thread),
        Err(refused) => {
            run.refused.store(true, Ordering::SeqCst);
            Err((refused.value)())
        }
    }
}

/// The turns of a core, or none where a thread was refused.
fn run_core<S: EpochStore, G: Gate, R: Wait>(run: &Run<'_, S, G, R>, core: Core<S>) -> Core<S>
    requires { (core.pass.lock ≡ Some run.now.lock.now) × (core.pass.lo < run.now.cores) }
    ensures { IsLater core.pass result.pass }
{
    if run.refused.load(Ordering::SeqCst) {
        return core;
    }
    let Core { pass, shares } = core;
    let (pass, shares, _) = core_loop(run.rt, run.lock, pass, shares, run.image, run.gate);
    Core { pass, shares }
}

/// Takes the book with the last number. Err: no ticket is left.
fn take_book<'s, S: EpochStore, G, R: Wait>(
    run: &'s Run<'s, S, G, R>,
    last: Pass<Book<S>>,
) -> Starter<'s, S>
    requires { IsNewOf run.now.lock.now run.now.cores (run.now.cores + 1) last }
    ensures { MatchResult result (HasBookAs run.now.lock.now run.now.cores) (IsNewOf run.now.lock.now run.now.cores (run.now.cores + 1)) }
{
    match run.lock.lock(run.rt, last) {
        Ok(held) => Ok(held),
        Err((_, last)) => Err(last),
    }
}

/// The pass of the starting thread, and the shares, which are empty, once the book is let go.
fn last_part<S: EpochStore, G, R: Wait>(
    run: &Run<'_, S, G, R>,
    starter: Starter<'_, S>,
    shares: Shares,
) -> Core<S>
    requires starter { MatchResult starter (HasBookAs run.now.lock.now run.now.cores) (IsNewOf run.now.lock.now run.now.cores (run.now.cores + 1)) }
    requires empty { shares ≡ no_counts }
    ensures { Covers run.now.lock.now run.now.cores (run.now.cores + 1) result.pass }
{
    let pass = let_go(run, starter);
    Core { pass, shares }
}

/// Waits for as many threads as there are cores, but not for long, and gives the book back as it was. Where a thread was refused, the
/// book is stopped for that.
fn let_go<S: EpochStore, G, R: Wait>(
    run: &Run<'_, S, G, R>,
    starter: Starter<'_, S>,
) -> Pass<Book<S>>
    requires { MatchResult starter (HasBookAs run.now.lock.now run.now.cores) (IsNewOf run.now.lock.now run.now.cores (run.now.cores + 1)) }
    ensures { IsNewOf run.now.lock.now run.now.cores (run.now.cores + 1) result }
{
    match starter {
        Ok(mut held) => {
            if run.refused.load(Ordering::SeqCst) {
                stop(held.value(), StopCause::NoThread);
                return held.release();
            }
            held.wait_for_others(run.rt, run.cores as u64);
            held.value().look();
            held.release()
        }
        Err(last) => last,
    }
}

/// The first number of a pass that has made no entry, with its part of the shares, and the rest of both, if there is more.
fn split_first<S: EpochStore>(
    lock: &TicketLock<Book<S>>,
    core: u64,
    cores: u32,
    pass: Pass<Book<S>>,
    shares: Shares,
) -> (Core<S>, Option<Pass<Book<S>>>, Shares)
    requires { IsNewOf lock.now core cores pass × (shares ≡ no_counts) }
    ensures first { Covers lock.now core (core + 1) result.0.pass }
    ensures rest { MatchOption result.1 (core + 1 ≡ cores) (IsNewOf lock.now (core + 1) cores) }
    ensures empty { result.2 ≡ no_counts }
{
    let (shares, theirs) = shares.split();
    if core + 1 == cores as u64 {
        return (Core { pass, shares }, None, theirs);
    }
    let (pass, rest) = split_new(lock, pass, core + 1);
    (Core { pass, shares }, Some(rest), theirs)
}

/// Two passes in place of one that has made no entry.
fn split_new<S: EpochStore>(
    lock: &TicketLock<Book<S>>,
    pass: Pass<Book<S>>,
    at: u64,
) -> (Pass<Book<S>>, Pass<Book<S>>)
    requires new { IsNew lock.now pass }
    requires inside { (pass.lo < at) × (at < pass.hi) }
    ensures first { IsNewOf lock.now pass.lo at result.0 }
    ensures second { IsNewOf lock.now at pass.hi result.1 }
{
    lock.split(pass, at)
}

/// Two cores side by side in one.
fn rejoin<S: EpochStore>(lock: &TicketLock<Book<S>>, first: Core<S>, rest: Core<S>) -> Core<S>
    requires own { (first.pass.lock ≡ Some lock.now) × (rest.pass.lock ≡ Some lock.now) }
    requires beside { (first.pass.hi ≡ rest.pass.lo) × (first.pass.lo ≤ first.pass.hi) × (rest.pass.lo ≤ rest.pass.hi) }
    ensures { Covers lock.now first.pass.lo rest.pass.hi result.pass }
{
    let pass = lock.join(first.pass, rest.pass);
    let shares = gather(first.shares, rest.shares);
    Core { pass, shares }
}
