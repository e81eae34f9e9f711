//! The lines of the further bytes at which two epochs met.
ghost use Rattle.std.specs.Prelude.{◌≡◌, ◌++◌, OnOk};
ghost use Rattle.conflict_text.specs.Lines as spec;

use crate::accesses::{push_access, push_bytes};
use crate::words::{kind_name, push_named, push_text, push_word};
use conflict_findings::FurtherRun;
use std::alloc::AllocError;

/// The line of a further run of the violation at a place.
#[tactic(auto, using(crate::proofs::Joining::joined), unfolding(crate::specs::Lines::also_line))]
fn push_also(text: &mut Vec<u8>, place: usize, run: FurtherRun) -> Result<(), AllocError>
    ensures { OnOk result (text.new.items ≡ text.old.items ++ spec.also_line place run) }
{
    push_named(text, b"also ", place as u128)?;
    push_word(text, b" ", kind_name(run.kind).as_bytes())?;
    push_access(text, b" load ", Some(run.load))?;
    push_access(text, b" store ", Some(run.store))?;
    push_bytes(text, Some(run.bytes))?;
    push_text(text, b"\n")
}

/// The lines of all of them.
pub(crate) fn push_further(
    text: &mut Vec<u8>,
    place: usize,
    runs: &[FurtherRun],
) -> Result<(), AllocError>
    ensures { OnOk result (text.new.items ≡ text.old.items ++ spec.also_lines place runs.now) }
{
    for run in runs {
        push_also(text, place, *run)?;
    }
    Ok(())
}
