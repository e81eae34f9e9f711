//! The violation of a history, and the turns that make it.
ghost use Rattle.std.specs.Prelude.{◌≡◌, IfOk, IfSome, IsSome};
ghost use Rattle.homefree.specs.LockView.{loop_of};
ghost use Rattle.all_schedules.specs.Made.{the_loop};
ghost use Rattle.conflicts.specs.Explained.{IsExplained};
ghost use Rattle.never_or_shown.specs.Violation.{HasViolation};
ghost use Rattle.depends.specs.Shown as spec;

use all_schedules::{LoopOn, trace_is_made_again, turns_of};
use conflicts::{Blame, Explanation, Site, explain_with_sites};
use homefree::Book;
use rv32_exec::Image;
use spec_history::Entry;
use std::alloc::{AllocError, Global};
use violations::EpochStore;

/// At what the victim and the causer of a violation met.
#[derive(Clone, Copy)]
pub enum Met {
    /// A load of the victim, and a store of the causer, by their pcs.
    Instructions { load: u32, store: u32 },
    /// A full buffer of the victim.
    Buffer,
}

/// A violation.
#[derive(Clone, Copy)]
pub struct Shown {
    /// The epoch that is violated.
    pub victim: u32,
    /// The epoch that violates it.
    pub causer: u32,
    /// At what they met.
    pub met: Met,
}

/// The first violation of a book's history, and the turns that make it over a fresh store. None: it has none.
///
/// `AllocError`: memory ran out.
pub fn show<S: EpochStore>(
    alloc: Global,
    on: &LoopOn<'_>,
    book: Book<S>,
) -> Result<Option<(Vec<u32>, Shown)>, AllocError>
    requires same { loop_of book ≡ the_loop on.now }
    ensures is { IfOk result (λ it. IfSome it (λ found. spec.IsShown S.starts S.makes S.view S.waits (the_loop on.now) found.0.items found.1)) }
    ensures some { HasViolation book.history → IfOk result IsSome }
{
    trace_is_made_again(&book);
    let cores = on.cores;
    let history = history_of(alloc, book)?;
    let entries = history.as_slice();
    let Some(first) = first_of(alloc, on.image, cores, entries)? else {
        return Ok(None);
    };
    let turns = turns_of(alloc, cores, entries)?;
    Ok(Some((turns, first)))
}

/// The history of a book, which ends here: what explains the history has the book's memory then.
///
/// `AllocError`: memory ran out.
fn history_of<S: EpochStore>(alloc: Global, book: Book<S>) -> Result<Vec<Entry>, AllocError>
    ensures { IfOk result (λ entries. entries.items ≡ book.history) }
{
    Vec::from_slice(alloc, book.history())
}

/// The first violation of a history, if it has one.
///
/// `AllocError`: memory ran out.
fn first_of(
    alloc: Global,
    image: &Image,
    cores: u32,
    history: &[Entry],
) -> Result<Option<Shown>, AllocError>
    ensures is { IfOk result (λ shown. IfSome shown (spec.IsOf image.now cores history.now)) }
    ensures some { HasViolation history.now → IfOk result IsSome }
{
    let Ok((explanations, sites)) = explain_with_sites(alloc, image, cores, history) else {
        return Err(AllocError);
    };
    match first_explanation(explanations.as_slice()) {
        Some(explanation) => Ok(Some(shown_by(sites.as_slice(), &explanation))),
        None => Ok(None),
    }
}

fn first_explanation(explanations: &[Explanation]) -> Option<Explanation>
    ensures { spec.IsFirst explanations.now result }
{
    match explanations.first() {
        Some(explanation) => Some(*explanation),
        None => None,
    }
}

/// What an explanation says, where the entries are of these instructions.
fn shown_by(sites: &[Option<Site>], explanation: &Explanation) -> Shown
    ensures { result ≡ spec.shown_by sites.now explanation.now }
{
    Shown {
        victim: explanation.victim.epoch,
        causer: explanation.causer.epoch,
        met: met_by(sites, explanation.blame),
    }
}

/// The instructions that are blamed: a full buffer has none.
fn met_by(sites: &[Option<Site>], blame: Option<Blame>) -> Met
    ensures { result ≡ spec.met_by sites.now blame }
{
    match blame {
        Some(blame) => met_at(pc_at(sites, blame.load), pc_at(sites, blame.store)),
        None => Met::Buffer,
    }
}

fn met_at(load: Option<u32>, store: Option<u32>) -> Met
    ensures { result ≡ spec.met_at load store }
{
    match (load, store) {
        (Some(load), Some(store)) => Met::Instructions { load, store },
        _ => Met::Buffer,
    }
}

/// The pc of the access at a place of the history.
fn pc_at(sites: &[Option<Site>], place: usize) -> Option<u32>
    ensures { result ≡ spec.pc_at sites.now place }
{
    match sites.get(place) {
        Some(Some(site)) => Some(site.pc),
        _ => None,
    }
}
