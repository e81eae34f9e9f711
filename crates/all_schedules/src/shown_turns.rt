//! The turns that a history shows.
ghost use Rattle.std.specs.Prelude.{◌≡◌, ◌++◌, IfOk, OnOk};
ghost use Rattle.homefree.specs.Retraced as shown;

use spec_history::{Entry, What};
use std::alloc::{AllocError, Global};

/// The turns that entries show, in order: of a history's those that make it.
///
/// `AllocError`: memory ran out.
pub fn turns_of(alloc: Global, cores: u32, entries: &[Entry]) -> Result<Vec<u32>, AllocError>
    ensures { IfOk result (λ schedule. schedule.items ≡ shown.turns_of cores entries.now) }
{
    let mut schedule = Vec::new(alloc);
    for entry in entries {
        push_turn(&mut schedule, cores, *entry)?;
    }
    Ok(schedule)
}

/// Adds the core of an entry that stands for a turn.
fn push_turn(schedule: &mut Vec<u32>, cores: u32, entry: Entry) -> Result<(), AllocError>
    ensures { OnOk result (schedule.new.items ≡ schedule.old.items ++ shown.turn_of cores entry) }
{
    if entry.by < cores && is_of_own(entry.what) {
        schedule.push(entry.by)?;
    }
    Ok(())
}

/// Whether an entry stands for a turn.
fn is_of_own(what: What) -> bool
    ensures { result ≡ shown.is_of_own what }
{
    match what {
        What::Hurt(_) | What::Cancel(_) | What::Publish => false,
        _ => true,
    }
}
