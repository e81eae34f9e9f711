ghost use Rattle.std.specs.Prelude.{◌≡◌, ℕ, ◌+◌, ◌<◌, ◌≤◌, IfOk, None, [], ◌∷◌, length};
ghost use Rattle.rv32_exec.specs.declared.sequential.End.TheVariants.{Done};
ghost use Rattle.rv32_exec.specs.Sequential.{first_epochs};
ghost use Rattle.epoch_paths.specs.InOrder.{IsInOrder, AreAll};
ghost use Rattle.dependences.specs.Conflict.{Overflow, first_beside, run_memory};
ghost use Rattle.dependences.specs.Shared.{AreApart};
ghost use Rattle.dependences.specs.Laws.{NeverOverLines};
ghost use Rattle.epoch_paths.specs.Kept.{CanRun, IsNext};
ghost use Rattle.dependences.specs.KeptLines.{MeetsNone};
ghost use Rattle.dependences.specs.KeptTouches as spec;
ghost use Rattle.dependences.specs.KeptWatch.{IsWatchKept};

use crate::alone::run_between;
use crate::beside::first_beside;
use crate::ends::next_runs;
use crate::watch::Watch;
use rv32_exec::{NoMemory, start};
use rv32_image::Image;
use std::alloc::Global;

/// In what two epochs conflict over caches.
#[derive(Clone, Copy)]
pub enum CacheConflict {
    /// The earlier one stores in a line in which the later one, this one, reads a byte from outside.
    Line { later: u32 },
    /// An epoch, this one or one before it, stores in a line that an earlier one touches, and in as many other shared lines as its
    /// buffer takes.
    Buffer { later: u32 },
}

/// What came of an epoch: in what it conflicts with an earlier one, and whether the next one runs.
#[derive(Clone, Copy)]
pub(crate) struct Looked {
    pub(crate) found: Option<CacheConflict>,
    pub(crate) goes_on: bool,
}

/// What came of the run in order: the first conflict, and, where there is none, how many epochs it has.
#[derive(Clone, Copy)]
struct RanClear {
    found: Option<CacheConflict>,
    epochs: u32,
}

/// A conflict over caches of two epochs that so many cores can run beside each other, also past the loop's exit or fault; None
/// where there is none. Then nor do any two paths conflict, on so many cores or on fewer; and where no epoch stores in more lines than
/// its buffer takes, shared or not, no legal history has a violation that is of a kind.
///
/// It runs the loop in order, up to the first conflict. Where that ends early it runs it once more, and each epoch past the end
/// that the cores can reach over a copy of memory.
///
/// `NoMemory`: there was none for three copies of the image's bytes, two words for each 16 of them, five for each line, and one for each
/// epoch.
pub fn conflict_over_caches(
    alloc: Global,
    image: &Image,
    cores: u32,
) -> Result<Option<CacheConflict>, NoMemory>
    ensures found { IfOk result (λ found. spec.IsFound image.now cores found) }
    ensures none { IfOk result (λ found. found ≡ None → spec.IsNever image.now cores) }
    ensures apart { IfOk result (λ found. found ≡ None → (fewer : ℕ) → fewer ≤ cores → AreApart image.now fewer) }
    ensures never { IfOk result (λ found. found ≡ None → (fewer : ℕ) → fewer ≤ cores → (Overflow image.now fewer → ⊥) → NeverOverLines image.now fewer) }
{
    let bytes = image.bytes();
    if cores < 2 {
        return Ok(None);
    }
    let mut memory = Vec::from_slice(alloc, bytes)?;
    let mut watch = Watch::none(alloc, image, cores)?;
    let ran = conflict_in_order(image, cores, memory.as_mut_slice(), &mut watch);
    if ran.found.is_some() {
        return Ok(ran.found);
    }
    conflict_past_end(alloc, image, cores, ran.epochs, &mut watch)
}

/// Runs the epochs in order, up to the first that conflicts with one before it.
fn conflict_in_order(image: &Image, cores: u32, memory: &mut [u8], watch: &mut Watch) -> RanClear
    requires memory { memory.old ≡ image.now.bytes }
    requires kept { IsWatchKept image.now cores watch.old 0 }
    ensures found { spec.IsFound image.now cores result.found }
    ensures all { result.found ≡ None → AreAll image.now result.epochs }
    ensures none { result.found ≡ None → spec.AreClear image.now cores result.epochs }
    ensures kept { result.found ≡ None → IsWatchKept image.now cores watch.new result.epochs }
{
    for epoch in 0..image.epochs() {
        let looked = conflict_of(image, cores, epoch, memory, watch);
        if looked.found.is_some() {
            return RanClear {
                found: looked.found,
                epochs: epoch + 1,
            };
        }
        if !looked.goes_on {
            return RanClear {
                found: None,
                epochs: epoch + 1,
            };
        }
    }
    RanClear {
        found: None,
        epochs: image.epochs(),
    }
}

/// In what an epoch past those that run in order, of which there are so many, conflicts with an earlier one.
pub(crate) fn conflict_past_end(
    alloc: Global,
    image: &Image,
    cores: u32,
    ran: u32,
    watch: &mut Watch,
) -> Result<Option<CacheConflict>, NoMemory>
    requires all { AreAll image.now ran }
    requires kept { IsWatchKept image.now cores watch.old ran }
    requires clear { spec.AreClear image.now cores ran }
    ensures found { IfOk result (λ found. spec.IsFound image.now cores found) }
    ensures none { IfOk result (λ found. found ≡ None → spec.IsNever image.now cores) }
{
    if ran == image.epochs() {
        return Ok(None);
    }
    let mut memory = Vec::from_slice(alloc, image.bytes())?;
    let mut alone = Vec::from_slice(alloc, image.bytes())?;
    let memory = memory.as_mut_slice();
    Ok(search(image, cores, ran, memory, alone.as_mut_slice(), watch))
}

/// Runs each epoch past the end over a copy of memory as the epochs before the first one beside it leave it.
fn search(
    image: &Image,
    cores: u32,
    ran: u32,
    memory: &mut [u8],
    alone: &mut [u8],
    watch: &mut Watch,
) -> Option<CacheConflict>
    requires all { AreAll image.now ran }
    requires memory { memory.old ≡ image.now.bytes }
    requires alone { length alone.old ≡ image.now.size }
    requires kept { IsWatchKept image.now cores watch.old ran }
    requires clear { spec.AreClear image.now cores ran }
    ensures found { spec.IsFound image.now cores result }
    ensures none { result ≡ None → spec.IsNever image.now cores }
{
    let mut done = 0;
    for later in ran..image.epochs() {
        let first = first_beside(cores, later);
        if first >= ran {
            return None;
        }
        run_between(image, done, first, memory);
        done = first;
        alone.copy_from_slice(memory);
        let found = conflict_of(image, cores, later, alone, watch).found;
        if found.is_some() {
            return found;
        }
    }
    None
}

/// Runs one epoch over memory, and notes the lines that it touches, up to a byte that it reads from outside in a line in which an
/// epoch beside it has stored.
fn conflict_of(
    image: &Image,
    cores: u32,
    epoch: u32,
    memory: &mut [u8],
    watch: &mut Watch,
) -> Looked
    requires run { CanRun image.now epoch memory.old }
    requires starts { IsInOrder image.now (first_beside cores epoch) }
    requires memory { memory.old ≡ run_memory image.now cores epoch }
    requires kept { IsWatchKept image.now cores watch.old epoch }
    ensures found { spec.IsFound image.now cores result.found }
    ensures none { result.found ≡ None → MeetsNone image.now cores epoch }
    ensures kept { result.found ≡ None → IsWatchKept image.now cores watch.new (epoch + 1) }
    ensures next { result.found ≡ None → first_epochs image.now epoch ≡ record { end = Done epoch; bytes = memory.old } → IsNext image.now (epoch + 1) memory.new result.goes_on }
{
    watch.begin(epoch);
    let mut hart = start(image, epoch);
    let at = hart.run_to_end(image, memory, watch);
    Looked {
        found: watch.found(),
        goes_on: next_runs(image, &hart, at),
    }
}
