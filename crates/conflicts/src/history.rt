//! The explanations of a history.

ghost use Rattle.std.specs.Prelude.{◌≡◌, ◌<◌, ◌++◌, All, IfOk, IfSome, MatchResult, None, OnOk, Some, option_to_list, is_some, length, slice_get, true};
ghost use Rattle.spec_history.specs.declared.entry.Entry.{Entry};
ghost use Rattle.spec_history.specs.Refusal.{refusal_of};
ghost use Rattle.spec_history.specs.Replay.{replay};
ghost use Rattle.spec_history.specs.View.{IsAuditFault, cores_in, state_in};
ghost use Rattle.spec_history.specs.Conflict as conflict;
ghost use Rattle.spec_history.specs.Conflict.{entry_is};
ghost use Rattle.conflicts.specs.Behind.{IsKnown};
ghost use Rattle.conflicts.specs.Explained as spec;

use crate::blame::Violated;
use crate::causes::{cause_of, core_at};
use crate::explanation::{Blame, Explanation, Runner};
use crate::known::Known;
use crate::later::later_of;
use crate::meeting::Parties;
use crate::scene::Scene;
use rv32_exec::Image;
use spec_history::{Entry, Flat, Illegal, Kind, What};
use std::alloc::{AllocError, Global};

/// The explanations of the violations of a history on a machine of so many cores: one for each, in order.
///
/// An Err is that of an audit: the place, counted from 0, of the first entry that is refused, and its refusal. `NoMemory` has
/// the place at which memory was refused, and the number of entries where there was none for the machine itself or for the
/// explanations.
pub fn explain(
    alloc: Global,
    image: &Image,
    cores: u32,
    entries: &[Entry],
) -> Result<Vec<Explanation>, (usize, Illegal)>
    ensures each_once { IfOk result (λ found. spec.places_of found.items ≡ spec.violations_before entries.now (length entries.now)) }
    ensures explained { IfOk result (λ found. All (spec.IsExplained image.now cores entries.now) found.items) }
    ensures legal { MatchResult result (λ _. is_some (replay image.now cores entries.now) ≡ true)
        (λ fault. IsAuditFault image.now cores entries.now fault.0 fault.1) }
{
    let Ok(mut flat) = Flat::new(alloc, image, cores) else {
        return Err((entries.len(), Illegal::NoMemory));
    };
    let mut explanations = Vec::new(alloc);
    let mut known = Known::new(alloc);
    for (place, entry) in entries.iter().enumerate() {
        let Ok(found) = explanation_at(alloc, cores, &flat, entries, &mut known, place) else {
            return Err((entries.len(), Illegal::NoMemory));
        };
        if let Err(illegal) = flat.apply(*entry) {
            return Err((place, illegal));
        }
        if keep(&mut explanations, found).is_err() {
            return Err((entries.len(), Illegal::NoMemory));
        }
    }
    Ok(explanations)
}

/// The list with an explanation at its end, if there is one.
pub(crate) fn keep(
    explanations: &mut Vec<Explanation>,
    found: Option<Explanation>,
) -> Result<(), AllocError>
    ensures { OnOk result (explanations.new.items ≡ explanations.old.items ++ option_to_list found) }
{
    if let Some(explanation) = found {
        explanations.push(explanation)?;
    }
    Ok(())
}

/// The explanation of the violation at a place, if the entry there is one; it takes the machine before it, and the whole history.
///
/// It has one for each violation that the machine does not refuse. `explain` asks it at each place; who replays a history for more than
/// that asks it there, in order, so that what an attempt has behind it and ahead of it is looked for once. An Err: there was no memory for that.
pub fn explanation_at(
    alloc: Global,
    cores: u32,
    flat: &Flat,
    entries: &[Entry],
    known: &mut Known,
    place: usize,
) -> Result<Option<Explanation>, AllocError>
    requires cores { cores_in flat.now ≡ cores }
    requires place { place < length entries.now }
    requires known { IsKnown flat.now.image.size entries.now known.old }
    ensures explained { IfOk result (λ found. IfSome found (λ e. (e.place ≡ place) × spec.IsExplainedIn flat.now.image (state_in flat.now) entries.now e)) }
    ensures found { IfOk result (λ found. (entry : Entry) → slice_get entries.now place ≡ Some entry → refusal_of flat.now.image cores (state_in flat.now) entry ≡ None
        → is_some found ≡ entry_is entries.now place (λ e. conflict.is_hurt e.what)) }
    ensures known { IsKnown flat.now.image.size entries.now known.new }
{
    let Entry { by, what } = entries[place];
    let What::Hurt(epoch) = what else {
        return Ok(None);
    };
    let Some(victim) = core_at(flat, cores, epoch) else {
        return Ok(None);
    };
    let Some(causing) = flat.epoch(by) else {
        return Ok(None);
    };
    let Some(next) = flat.next_event(victim) else {
        return Ok(None);
    };
    let stop = next.now();
    let last = next.base();
    let cause = cause_of(entries, place, by);
    let image = flat.image();
    known.behind.look(alloc, image, entries, by, place)?;
    known.behind.look(alloc, image, entries, victim, place)?;
    let scene = Scene {
        flat,
        entries,
        behind: &known.behind,
    };
    let (kind, blame) = conflict_of(&scene, place, by, victim, cause);
    let ahead = &mut known.ahead;
    let later = later_of(alloc, &scene, ahead, by, victim, kind, cause)?;
    Ok(Some(Explanation {
        place,
        causer: Runner {
            core: by,
            epoch: causing,
        },
        victim: Runner {
            core: victim,
            epoch,
        },
        cause,
        kind,
        blame,
        later,
        lost: stop.done(),
        entered: last.done(),
    }))
}

/// What kind a violation of one core by another is, with this cause, and whom to blame.
fn conflict_of(
    scene: &Scene<'_>,
    place: usize,
    causer: u32,
    victim: u32,
    cause: Option<usize>,
) -> (Kind, Option<Blame>)
    ensures kind { result.0 ≡ conflict.kind_of scene.now.flat.now.image (state_in scene.now.flat.now) causer victim (conflict.what_at scene.now.entries.now cause) }
    ensures blame { result.1 ≡ spec.blame_by scene.now.flat.now.image (state_in scene.now.flat.now) scene.now.entries.now place causer victim result.0 cause (conflict.what_at scene.now.entries.now cause) }
{
    let Some(cause) = cause else {
        return (Kind::Unexplained, None);
    };
    let Some(entry) = scene.entries.get(cause) else {
        return (Kind::Unexplained, None);
    };
    let parties = Parties {
        causer,
        cause: entry.what,
        victim,
    };
    let kind = parties.kind(scene.flat);
    let violated = Violated {
        parties,
        kind,
        place,
        cause,
    };
    (kind, violated.blame(scene))
}
