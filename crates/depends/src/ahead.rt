//! Schedules in which a later epoch runs ahead of those before it.
ghost use Rattle.std.specs.Prelude.{◌≡◌, ◌≤◌, ◌<◌, IfOk, IfSome};
ghost use Rattle.homefree.specs.BookView.{IsOfSameLoop};
ghost use Rattle.homefree.specs.Counted.{IsNoMore};
ghost use Rattle.homefree.specs.LockView.{loop_of};
ghost use Rattle.all_schedules.specs.Made.{the_loop};
ghost use Rattle.depends.specs.Ahead as spec;

use all_schedules::LoopOn;
use homefree::{Answer, Book, TurnFault, step};
use run_ledger::Shares;
use rv32_exec::Arrived;
use spec_history::{Entry, What};
use std::alloc::{AllocError, Global};
use violations::{EpochStore, MAX_CORES};

/// The most turns of a schedule: no more than `replay` takes in lines of turns, which have at most 3 bytes for each.
const MOST_TURNS: u32 = 8_388_608;

/// The book of turns up to their first violation, if they come to one. The epochs before the window of this one commit in order, on core
/// 0. Then the epochs of the window start, one on each core; the last one runs as far as it comes, and then each one before it; at last
/// they commit in order.
///
/// `AllocError`: memory ran out.
pub fn run_ahead<S: EpochStore>(
    alloc: Global,
    on: &LoopOn<'_>,
    later: u32,
) -> Result<Book<S>, AllocError>
    ensures { IfOk result (λ book. loop_of book ≡ the_loop on.now) }
{
    let cores = on.cores;
    let room = on.room.entries();
    let made: Result<(Book<S>, Shares), _> = Book::new(alloc, on.image, cores, room);
    let Ok((mut book, mut shares)) = made else {
        return Err(AllocError);
    };
    match take_turns(&mut book, &mut shares, Plan::of(cores, later)) {
        Ok(()) | Err(TurnFault::HistoryFull) => Ok(book),
        Err(TurnFault::NoMemory) => Err(AllocError),
    }
}

/// Takes the turns of a plan.
fn take_turns<S: EpochStore>(
    book: &mut Book<S>,
    shares: &mut Shares,
    plan: Plan,
) -> Result<(), TurnFault>
    requires shares { IsNoMore shares.old book.old.totals }
    requires plan { spec.IsPlan book.old.cores plan }
    ensures { IsOfSameLoop book.old book.new }
{
    let mut held = [None; MAX_CORES];
    let mut plan = plan;
    for _taken in 0..MOST_TURNS {
        let before = book.history().len();
        let answer = step(book, &mut held, plan.core, shares)?;
        if has_violation(book.history(), before) {
            return Ok(());
        }
        match plan.next(&answer) {
            Some(next) => plan = next,
            None => return Ok(()),
        }
    }
    Ok(())
}

/// Whether a history has a violation at this place or behind it.
fn has_violation(history: &[Entry], from: usize) -> bool {
    match history.get(from..) {
        Some(entries) => entries
            .iter()
            .any(|entry| matches!(entry.what, What::Hurt(_))),
        None => false,
    }
}

/// What cores do.
#[derive(Clone, Copy)]
enum Stage {
    /// Core 0 runs so many epochs up to their commits.
    Before { epochs: u32 },
    /// Each core of the window starts its epoch, in order.
    Start,
    /// Each runs as far as it comes, the last one first.
    Ahead,
    /// Each runs up to its commit, in order.
    InOrder,
}

impl Stage {
    /// So many epochs are left before the window.
    fn until(epochs: u32) -> Stage {
        if epochs == 0 {
            Stage::Start
        } else {
            Stage::Before { epochs }
        }
    }
}

/// Whose turn comes, where so many cores run the epochs of the window.
#[derive(Clone, Copy)]
struct Plan {
    stage: Stage,
    core: u32,
    window: u32,
}

impl Plan {
    /// At the start, for the window of an epoch.
    fn of(cores: u32, later: u32) -> Plan
        requires { 1 ≤ cores }
        ensures { spec.IsPlan cores result }
    {
        let first = later.saturating_sub(cores - 1);
        Plan {
            stage: Stage::until(first),
            core: 0,
            window: cores.min(later.saturating_sub(first).saturating_add(1)),
        }
    }

    /// After a turn. None: that was the last one.
    fn next(self, answer: &Answer) -> Option<Plan>
        ensures { IfSome result (spec.IsNext self) }
    {
        match self.stage {
            Stage::Before { epochs } => self.before(epochs, answer),
            Stage::Start => match self.behind() {
                Some(core) => Some(Plan { core, ..self }),
                None => Some(Plan {
                    stage: Stage::Ahead,
                    ..self
                }),
            },
            Stage::Ahead | Stage::InOrder => match answer {
                Answer::Go(_) => Some(self),
                Answer::Again(_) | Answer::Left => self.another(),
                Answer::Over(_) | Answer::Stopped(_) => None,
            },
        }
    }

    /// While epochs before the window run.
    fn before(self, epochs: u32, answer: &Answer) -> Option<Plan>
        ensures { IfSome result (spec.IsNext self) }
    {
        match answer {
            Answer::Go(_) => Some(self),
            Answer::Left => Some(Plan {
                stage: Stage::until(epochs.saturating_sub(1)),
                ..self
            }),
            Answer::Again(_) | Answer::Over(_) | Answer::Stopped(_) => None,
        }
    }

    /// The next core of the stage, or of the next one.
    fn another(self) -> Option<Plan>
        ensures { IfSome result (spec.IsNext self) }
    {
        match self.stage {
            Stage::Ahead if 1 < self.core => Some(Plan {
                core: self.core - 1,
                ..self
            }),
            Stage::Ahead => Some(Plan {
                stage: Stage::InOrder,
                core: 0,
                ..self
            }),
            _ => {
                let core = self.behind()?;
                Some(Plan { core, ..self })
            }
        }
    }

    /// The core behind this one in the window.
    fn behind(self) -> Option<u32>
        ensures { IfSome result (λ core. core < self.window) }
    {
        let core = self.core.checked_add(1)?;
        if core < self.window { Some(core) } else { None }
    }
}
