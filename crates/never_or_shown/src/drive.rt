//! Turns over a plain store, up to the first violation.
ghost use Rattle.std.specs.Prelude.{◌≡◌, ◌≢◌, ◌<◌, ◌≤◌, ℕ, true, false, IfErr, MatchResult, slice_get};
ghost use Rattle.rv32_exec.specs.declared.hart.Hart.{Hart};
ghost use Rattle.spec_history.specs.declared.entry.Entry.{Entry};
ghost use Rattle.spec_history.specs.Conflict.{is_hurt};
ghost use Rattle.homefree.specs.BookView.{IsOfSameLoop};
ghost use Rattle.never_or_shown.specs.Violation.{HasViolation, IsCalmFrom};
ghost use Rattle.never_or_shown.specs.Drives as spec;

use homefree::{Answer, Book, TurnFault, step};
use run_ledger::Shares;
use rv32_exec::Arrived;
use spec_history::{Entry, What};
use violations::{MAX_CORES, PlainStore};

/// A book over a plain store, and what its turns are handed.
#[derive(Drop)]
pub struct Drive {
    pub book: Book<PlainStore>,
    pub shares: Shares,
    /// What each core has in hand.
    pub held: [Option<Arrived>; MAX_CORES],
}

/// Why no more turns are taken.
#[derive(Clone, Copy)]
pub enum Halt {
    /// The last turn has violated an epoch.
    Violated,
    /// The history has no room for a turn.
    HistoryFull,
    /// Memory ran out.
    NoMemory,
}

/// A turn of a core, if it violates no epoch.
pub fn turn(drive: &mut Drive, core: u32) -> Result<Answer, Halt>
    requires drive { spec.IsDrive drive.old }
    requires core { core < drive.old.book.cores }
    ensures turned { MatchResult result (spec.IsTurn drive.old drive.new core) (spec.IsHalted drive.new) }
    ensures same { IsOfSameLoop drive.old.book drive.new.book }
{
    drive.book.look();
    let before = drive.book.len();
    let answer = match step(&mut drive.book, &mut drive.held, core, &mut drive.shares) {
        Ok(answer) => answer,
        Err(TurnFault::HistoryFull) => return Err(Halt::HistoryFull),
        Err(TurnFault::NoMemory) => return Err(Halt::NoMemory),
    };
    drive.book.look();
    if has_violation(drive.book.history(), before) {
        return Err(Halt::Violated);
    }
    Ok(answer)
}

/// Whether a history has a violation at this place or behind it.
fn has_violation(history: &[Entry], from: usize) -> bool
    ensures has { result ≡ true → HasViolation history.now }
    ensures none { result ≡ false → IsCalmFrom history.now from }
{
    for place in from..history.len() {
        if is_violation(history[place].what) {
            return true;
        }
    }
    false
}

/// Whether this is a violation.
fn is_violation(what: What) -> bool
    ensures { result ≡ is_hurt what }
{
    matches!(what, What::Hurt(_))
}

/// Turns of a core that runs an epoch, for as long as it goes on.
pub fn run(drive: &mut Drive, core: u32) -> Result<Answer, Halt>
    requires drive { spec.IsDrive drive.old }
    requires core { core < drive.old.book.cores }
    ensures ran { MatchResult result (spec.HasRun drive.old drive.new core) (spec.IsHalted drive.new) }
    ensures same { IsOfSameLoop drive.old.book drive.new.book }
{
    'turns: loop {
        match turn(drive, core)? {
            Answer::Go(_) => (),
            answer => return Ok(answer),
        }
    }
}
