//! From how many cores on epochs conflict.
ghost use Rattle.std.specs.Prelude.{◌≡◌, ◌≤◌, ℕ, IfNone, IfOk, IfSome, Some};
ghost use Rattle.rv32_image.specs.Image.{IsImage};
ghost use Rattle.epoch_paths.specs.InOrder.{AreAll};
ghost use Rattle.dependences.specs.KeptTouches.{IsFound};
ghost use Rattle.dependences.specs.Nearest.{IsNearest};
ghost use Rattle.depends.specs.Never as spec;

use dependences::laws::early_epochs_conflict_on_few_cores;
use dependences::{
    CacheConflict, conflict_over_caches, conflicts_over_bytes, least_conflict_over_bytes,
};
use never_or_shown::laws::without_line_conflict_and_shared_overflow_never_over_bus;
use rv32_exec::Image;
use std::alloc::{AllocError, Global};

/// What a store watches for conflicts: the lines of the caches on a bus and their buffers, or bytes.
#[derive(Clone, Copy)]
pub enum Grain {
    Lines,
    Bytes,
}

/// Two epochs that conflict.
#[derive(Clone, Copy)]
pub struct Found {
    /// On so many cores.
    pub cores: u32,
    /// The later one, where the search tells it.
    pub later: Option<u32>,
}

/// Two epochs that conflict over bytes on the fewest cores, up to these. None: on none of them any do, and no schedule has a violation. So
/// many epochs run in order, and the nearest that depend on each other over bytes are so far apart.
///
/// `AllocError`: memory ran out.
pub fn least_over_bytes(
    alloc: Global,
    image: &Image,
    cores: u32,
    ran: u32,
    nearest: Option<u32>,
) -> Result<Option<Found>, AllocError>
    requires all { AreAll image.now ran }
    requires nearest { IsNearest image.now nearest }
    ensures { IfOk result (spec.IsLeast image.now Grain.Bytes cores) }
{
    if ran == image.epochs() {
        Ok(least_near(image, cores, nearest))
    } else {
        least_by_halves(alloc, image, Grain::Bytes, cores, cores, None)
    }
}

/// The same over bytes of a loop of which all epochs run in order.
fn least_near(image: &Image, cores: u32, nearest: Option<u32>) -> Option<Found>
    requires limits { IsImage image.now }
    requires all { AreAll image.now image.now.epochs }
    requires nearest { IsNearest image.now nearest }
    ensures { spec.IsLeast image.now Grain.Bytes cores result }
{
    match least_conflict_over_bytes(image, nearest, cores) {
        Some(cores) => Some(Found { cores, later: None }),
        None => None,
    }
}

/// Two epochs that conflict over lines on fewer cores, where this conflict is shown on these: on as many as run all epochs up to the
/// later one at a time. None: those are more, or the conflict is of a buffer.
pub fn known_by(_image: &Image, conflict: CacheConflict, cores: u32) -> Option<Found>
    requires { IsFound _image.now cores (Some conflict) }
    ensures some { IfSome result (λ found. spec.Conflicts _image.now Grain.Lines found.cores) }
    ensures none { IfNone result ((later : ℕ) → conflict ≡ CacheConflict.Line later → cores ≤ later) }
{
    early_epochs_conflict_on_few_cores();
    match conflict {
        CacheConflict::Line { later } if later < cores => Some(Found {
            cores: later + 1,
            later: Some(later),
        }),
        _ => None,
    }
}

/// Two epochs that conflict over a store of this grain on the fewest cores, by a search on more and fewer cores. It begins with this
/// guess, or with what is known on fewer.
///
/// `AllocError`: memory ran out.
pub fn least_by_halves(
    alloc: Global,
    image: &Image,
    grain: Grain,
    cores: u32,
    guess: u32,
    known: Option<Found>,
) -> Result<Option<Found>, AllocError>
    requires guess { guess ≤ cores }
    requires known { IfSome known (λ found. spec.Conflicts image.now grain found.cores) }
    ensures { IfOk result (spec.IsLeast image.now grain cores) }
{
    let Some((found, below)) = conflict_from(alloc, image, grain, cores, guess, known)? else {
        return Ok(None);
    };
    let mut least = found;
    let mut low = below;
    'halves: while low < least.cores {
        let middle = low + (least.cores - low) / 2;
        match conflict_on(alloc, image, grain, middle)? {
            Some(found) => least = found,
            None => low = middle + 1,
        }
    }
    Ok(Some(least))
}

/// Two epochs that conflict on some cores, and a number of cores below which none do. On the guess it looks first, unless those that
/// are known conflict on no more.
///
/// `AllocError`: memory ran out.
fn conflict_from(
    alloc: Global,
    image: &Image,
    grain: Grain,
    cores: u32,
    guess: u32,
    known: Option<Found>,
) -> Result<Option<(Found, u32)>, AllocError>
    requires guess { guess ≤ cores }
    requires known { IfSome known (λ found. spec.Conflicts image.now grain found.cores) }
    ensures found { IfOk result (λ it. IfSome it (λ found. spec.IsBetween image.now grain cores found.0 found.1)) }
    ensures none { IfOk result (λ it. IfNone it (spec.NeverRollsBack image.now grain cores)) }
{
    let first = match known {
        Some(found) if found.cores <= guess => known,
        _ => conflict_on(alloc, image, grain, guess)?,
    };
    if let Some(found) = first {
        return Ok(Some((found, 0)));
    }
    if guess == cores {
        return Ok(None);
    }
    match conflict_on(alloc, image, grain, cores)? {
        Some(found) => Ok(Some((found, guess + 1))),
        None => Ok(None),
    }
}

/// Two epochs that conflict on so many cores. None: on these, and on fewer, no schedule has a violation.
fn conflict_on(
    alloc: Global,
    image: &Image,
    grain: Grain,
    cores: u32,
) -> Result<Option<Found>, AllocError>
    ensures { IfOk result (spec.IsFound image.now grain cores) }
{
    match grain {
        Grain::Lines => conflict_on_caches(alloc, image, cores),
        Grain::Bytes => conflict_on_plain(alloc, image, cores),
    }
}

fn conflict_on_caches(alloc: Global, image: &Image, cores: u32) -> Result<Option<Found>, AllocError>
    ensures { IfOk result (spec.IsFound image.now Grain.Lines cores) }
{
    without_line_conflict_and_shared_overflow_never_over_bus();
    let Ok(found) = conflict_over_caches(alloc, image, cores) else {
        return Err(AllocError);
    };
    match found {
        Some(conflict) => Ok(Some(Found {
            cores,
            later: Some(later_of(conflict)),
        })),
        None => Ok(None),
    }
}

fn later_of(conflict: CacheConflict) -> u32 {
    match conflict {
        CacheConflict::Line { later } | CacheConflict::Buffer { later } => later,
    }
}

fn conflict_on_plain(alloc: Global, image: &Image, cores: u32) -> Result<Option<Found>, AllocError>
    ensures { IfOk result (spec.IsFound image.now Grain.Bytes cores) }
{
    match conflicts_over_bytes(alloc, image, cores) {
        Ok(true) => Ok(Some(Found { cores, later: None })),
        Ok(false) => Ok(None),
        Err(_) => Err(AllocError),
    }
}
