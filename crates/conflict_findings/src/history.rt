//! The further runs of a violation of a history.

ghost use Rattle.std.specs.Prelude.{◌≡◌, ℕ, IfOk, OnOk, Option, Some, ◌++◌};
ghost use Rattle.spec_history.specs.View.{state_in};
ghost use Rattle.spec_history.specs.Conflict as conflict;
ghost use Rattle.conflict_findings.specs.Findings.{further_in};
ghost use Rattle.conflict_findings.specs.Runs as spec;

use crate::finding::{FurtherRun, what_at, with_instructions};
use crate::run::{Run, Told, beside};
use conflicts::{Explanation, Kind, Parties, Scene, Site, Violated, line_number};
use rv32_exec::Image;
use spec_history::Flat;
use std::alloc::{AllocError, Global};

/// The further runs of bytes at which the epochs of a violation met. It takes the scene of the violation, the sites of the
/// history, and the explanation.
///
/// First those of bytes that the cause writes and the victim had read, by their addresses; then one for each line of which both
/// have a byte but share none, by their numbers. The blamed run is left out.
pub fn further_runs(
    alloc: Global,
    scene: &Scene<'_>,
    sites: &[Option<Site>],
    e: Explanation,
) -> Result<Vec<FurtherRun>, AllocError>
    ensures { IfOk result (λ further. further.items ≡ further_in scene.now.flat.now.image scene.now.entries.now sites.now e (Some (state_in scene.now.flat.now))) }
{
    let runs = runs_of(alloc, scene, e)?;
    with_instructions(alloc, sites, runs.as_slice())
}

/// The same without their instructions.
fn runs_of(alloc: Global, scene: &Scene<'_>, e: Explanation) -> Result<Vec<Run>, AllocError>
    ensures { IfOk result (λ runs. runs.items ≡ spec.runs_in scene.now.flat.now.image scene.now.entries.now e (Some (state_in scene.now.flat.now))) }
{
    let mut runs = Vec::new(alloc);
    push_runs(alloc, &mut runs, scene, e)?;
    Ok(runs)
}

/// The addresses of the bytes that a core has read from outside, ascending.
fn in_order(alloc: Global, flat: &Flat, core: u32) -> Result<Vec<u32>, AllocError>
    ensures { IfOk result (λ read. spec.AreRead flat.now.image.size (conflict.read_bytes ((state_in flat.now).cores core)) read.items) }
{
    let mut read = Vec::new(alloc);
    read.extend_from_slice(flat.read_addresses(core))?;
    read.sort_unstable();
    Ok(read)
}

/// The numbers of the lines in which these bytes lie, ascending.
fn lines_in_order(alloc: Global, image: &Image, read: &[u32]) -> Result<Vec<u32>, AllocError>
    ensures { IfOk result (λ lines. (reads : ℕ → Option ℕ) → spec.AreRead image.now.size reads read.now
        → spec.AreLinesRead image.now reads lines.items) }
{
    let mut lines = Vec::new(alloc);
    for addr in read {
        lines.push(line_number(image, *addr))?;
    }
    lines.sort_unstable();
    Ok(lines)
}

/// The same, at the end of a list.
fn push_runs(
    alloc: Global,
    runs: &mut Vec<Run>,
    scene: &Scene<'_>,
    e: Explanation,
) -> Result<(), AllocError>
    ensures { OnOk result (runs.new.items ≡ runs.old.items ++ spec.runs_in scene.now.flat.now.image scene.now.entries.now e (Some (state_in scene.now.flat.now))) }
{
    let Some(cause) = e.cause else {
        return Ok(());
    };
    let Some(what) = what_at(scene.entries, e.cause) else {
        return Ok(());
    };
    let read = in_order(alloc, scene.flat, e.victim.core)?;
    let shared = Told {
        violated: Violated {
            parties: Parties {
                causer: e.causer.core,
                cause: what,
                victim: e.victim.core,
            },
            kind: Kind::SilentStore,
            place: e.place,
            cause,
        },
        scene: *scene,
        blame: e.blame,
    };
    shared.push_shared(runs, read.as_slice())?;
    let lines = lines_in_order(alloc, scene.flat.image(), read.as_slice())?;
    let told = Told {
        violated: beside(shared.violated),
        ..shared
    };
    told.push_lines(runs, lines.as_slice())
}
