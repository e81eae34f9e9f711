//! Which schedules there are.
ghost use Rattle.std.specs.Prelude.{◌≡◌, ◌++◌, IfOk, OnOk};
ghost use Rattle.all_schedules.specs.Schedules as spec;
ghost use Rattle.all_schedules.specs.Longer as inside;

use std::alloc::{AllocError, Global};

/// Every schedule of so many turns of these cores, each once.
///
/// `AllocError`: memory ran out.
pub fn every_schedule(alloc: Global, cores: u32, turns: u32) -> Result<Vec<Vec<u32>>, AllocError>
    ensures { IfOk result (λ all. spec.AreAllSchedules cores turns (spec.lists_of all.items)) }
{
    let mut all = Vec::new(alloc);
    all.push(Vec::new(alloc))?;
    for _turn in 0..turns {
        all = longer(alloc, all.as_slice(), cores)?;
    }
    Ok(all)
}

/// Each of these schedules with one turn more, of each core.
fn longer(alloc: Global, schedules: &[Vec<u32>], cores: u32) -> Result<Vec<Vec<u32>>, AllocError>
    ensures { IfOk result (λ made. spec.lists_of made.items ≡ inside.longer cores (spec.lists_of schedules.now)) }
{
    let mut made = Vec::new(alloc);
    for schedule in schedules {
        push_each(alloc, &mut made, schedule.as_slice(), cores)?;
    }
    Ok(made)
}

/// Adds this schedule with one turn more, once for each core.
fn push_each(
    alloc: Global,
    made: &mut Vec<Vec<u32>>,
    schedule: &[u32],
    cores: u32,
) -> Result<(), AllocError>
    ensures { OnOk result (spec.lists_of made.new.items ≡ spec.lists_of made.old.items ++ inside.going_on schedule.now cores) }
{
    for core in 0..cores {
        let mut next = Vec::from_slice(alloc, schedule)?;
        next.push(core)?;
        made.push(next)?;
    }
    Ok(())
}
