//! The line of a store: whether a schedule of so many cores can violate an epoch over it.
ghost use Rattle.std.specs.Prelude.{◌≡◌, ◌≤◌, ◌++◌, IfOk, OnOk};
ghost use Rattle.depends.specs.Line as spec;
ghost use Rattle.depends.specs.Ran.{IsOver};
ghost use Rattle.spec_bus.specs.Cached as caches;
ghost use Rattle.spec_bus.specs.Laws as cache;

use crate::ahead::run_ahead;
use crate::least::{Grain, known_by, least_by_halves};
use crate::ran::{OverCaches, Seen};
use crate::shown::{Met, Shown, show};
use crate::text::{push_address, push_named, push_word};
use all_schedules::LoopOn;
use homefree::Book;
use replay_command::push_turns;
use spec_bus::CachedBus;
use std::alloc::{AllocError, Global};

/// What is told of a store.
#[derive(Drop)]
pub enum Line {
    /// No schedule has a violation.
    Never,
    /// Epochs conflict on so many cores, and these turns make a violation; on fewer no schedule has one.
    From {
        cores: u32,
        turns: Vec<u32>,
        shown: Shown,
    },
    /// Epochs conflict on so many cores, and the schedules that were tried make no violation; on fewer none has one.
    Open {
        cores: u32,
    },
}

/// What is told of the caches on a bus, and up to so many cores. It looks first on as many cores as let those epochs run beside each
/// other that depend on each other over bytes and are nearest.
///
/// `AllocError`: memory ran out.
pub fn line_over_caches(alloc: Global, on: &LoopOn<'_>, seen: Seen) -> Result<Line, AllocError>
    requires { IsOver on.now.image.now on.now.cores seen.over_caches }
    ensures { IfOk result (spec.IsLine cache.Starts cache.Makes caches.store_view caches.waits on.now.image.now Grain.Lines on.now.cores on.now.room) }
{
    let cores = on.cores;
    let known = match seen.over_caches {
        OverCaches::Clear => return Ok(Line::Never),
        OverCaches::Conflict(conflict) => known_by(on.image, conflict, cores),
        OverCaches::Unseen => None,
    };
    let guess = guess_of(cores, seen.in_order.nearest);
    match least_by_halves(alloc, on.image, Grain::Lines, cores, guess, known)? {
        Some(least) => {
            let on = LoopOn {
                image: on.image,
                cores: least.cores,
                room: on.room,
            };
            line_from(alloc, &on, least.later)
        }
        None => Ok(Line::Never),
    }
}

/// As many cores as let two epochs run beside each other that are so far apart, but no more than these.
fn guess_of(cores: u32, nearest: Option<u32>) -> u32
    ensures { result ≤ cores }
{
    match nearest {
        Some(distance) => cores.min(distance.saturating_add(1)),
        None => cores,
    }
}

/// The line from so many cores on, where this epoch is tried as the later one of a conflict.
fn line_from(alloc: Global, on: &LoopOn<'_>, later: Option<u32>) -> Result<Line, AllocError>
    ensures { IfOk result (spec.IsFrom cache.Starts cache.Makes caches.store_view caches.waits on.now.image.now on.now.cores on.now.room) }
{
    if let Some(later) = later {
        let book: Book<CachedBus> = run_ahead(alloc, on, later)?;
        if let Some((turns, shown)) = show(alloc, on, book)? {
            return Ok(Line::From {
                cores: on.cores,
                turns,
                shown,
            });
        }
    }
    Ok(Line::Open { cores: on.cores })
}

/// Adds what is told of the store that this word names, on up to so many cores.
///
/// `AllocError`: memory ran out.
#[tactic(auto, using(crate::proofs::Joining::joined))]
pub fn push_line(text: &mut Vec<u8>, word: &str, most: u32, line: &Line) -> Result<(), AllocError>
    ensures { OnOk result (text.new.items ≡ text.old.items ++ spec.line_text word.now most line.now) }
{
    match line {
        Line::Never => push_never(text, word, most),
        Line::From {
            cores,
            turns,
            shown,
        } => {
            push_from(text, word, *cores, *shown)?;
            push_turns(text, turns.as_slice())
        }
        Line::Open { cores } => push_open(text, word, *cores),
    }
}

#[tactic(auto, using(crate::proofs::Joining::joined), unfolding(crate::specs::Line::never_text))]
fn push_never(text: &mut Vec<u8>, word: &str, cores: u32) -> Result<(), AllocError>
    ensures { OnOk result (text.new.items ≡ text.old.items ++ spec.never_text word.now cores) }
{
    push_head(text, b"never ", word, cores)?;
    text.extend_from_slice(b"\n")
}

#[tactic(auto, using(crate::proofs::Joining::joined), unfolding(crate::specs::Line::open_text))]
fn push_open(text: &mut Vec<u8>, word: &str, cores: u32) -> Result<(), AllocError>
    ensures { OnOk result (text.new.items ≡ text.old.items ++ spec.open_text word.now cores) }
{
    push_head(text, b"open ", word, cores)?;
    text.extend_from_slice(b"\n")
}

#[tactic(auto, using(crate::proofs::Joining::joined), unfolding(crate::specs::Line::from_text))]
fn push_from(text: &mut Vec<u8>, word: &str, cores: u32, shown: Shown) -> Result<(), AllocError>
    ensures { OnOk result (text.new.items ≡ text.old.items ++ spec.from_text word.now cores shown) }
{
    push_head(text, b"from ", word, cores)?;
    push_shown(text, shown)?;
    text.extend_from_slice(b"\n")
}

/// A name, which ends with a space, the word of the store, and so many cores.
#[tactic(auto, using(crate::proofs::Joining::joined), unfolding(crate::specs::Line::head_text))]
fn push_head(text: &mut Vec<u8>, name: &[u8], word: &str, cores: u32) -> Result<(), AllocError>
    ensures { OnOk result (text.new.items ≡ text.old.items ++ spec.head_text name.now word.now cores) }
{
    push_word(text, name, word.as_bytes())?;
    push_named(text, b" ", cores as u64)
}

/// Who was violated, and by whom.
#[tactic(auto, using(crate::proofs::Joining::joined), unfolding(crate::specs::Line::shown_text))]
fn push_shown(text: &mut Vec<u8>, shown: Shown) -> Result<(), AllocError>
    ensures { OnOk result (text.new.items ≡ text.old.items ++ spec.shown_text shown) }
{
    push_named(text, b" epoch ", shown.victim as u64)?;
    push_victim(text, shown.met)?;
    push_named(text, b" by epoch ", shown.causer as u64)?;
    push_causer(text, shown.met)
}

fn push_victim(text: &mut Vec<u8>, met: Met) -> Result<(), AllocError>
    ensures { OnOk result (text.new.items ≡ text.old.items ++ spec.victim_text met) }
{
    match met {
        Met::Instructions { load, .. } => push_address(text, b" load ", load),
        Met::Buffer => text.extend_from_slice(b" buffer"),
    }
}

fn push_causer(text: &mut Vec<u8>, met: Met) -> Result<(), AllocError>
    ensures { OnOk result (text.new.items ≡ text.old.items ++ spec.causer_text met) }
{
    match met {
        Met::Instructions { store, .. } => push_address(text, b" store ", store),
        Met::Buffer => Ok(()),
    }
}
