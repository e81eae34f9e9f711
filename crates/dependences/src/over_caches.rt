//! What the run in order shows, also over caches, by one run.
ghost use Rattle.std.specs.Prelude.{◌≡◌, ◌+◌, ◌≤◌, IfOk, None, length};
ghost use Rattle.rv32_exec.specs.declared.sequential.End.TheVariants.{Done};
ghost use Rattle.rv32_exec.specs.Sequential.{first_epochs};
ghost use Rattle.epoch_paths.specs.InOrder.{AreAll};
ghost use Rattle.epoch_paths.specs.Kept.{CanRun, IsNext};
ghost use Rattle.dependences.specs.KeptLines.{MeetsNone};
ghost use Rattle.dependences.specs.KeptPairs.{ArePairSums};
ghost use Rattle.dependences.specs.KeptRun.{HaveAllRun, IsFlowKept, IsLeft, IsRunKept};
ghost use Rattle.dependences.specs.KeptTouches as spec;
ghost use Rattle.dependences.specs.KeptWatch.{IsWatchKept};
ghost use Rattle.dependences.specs.OverCaches.{IsShownOverCaches};

use crate::both::Both;
use crate::caches::{CacheConflict, Looked, conflict_past_end};
use crate::ends::next_runs;
use crate::flow::{Flow, Found, RunInOrder, add, run_all, shown_by};
use crate::pairs::PairSums;
use crate::watch::Watch;
use epoch_paths::Epoch;
use rv32_exec::{NoMemory, start};
use rv32_image::Image;
use std::alloc::Global;

/// What the run in order shows, also over caches.
#[derive(Drop)]
pub struct RunOverCaches {
    /// What it shows by bytes.
    pub run: RunInOrder,
    /// In what two epochs conflict over caches, also past the loop's exit or fault, if in anything.
    pub conflict: Option<CacheConflict>,
}

/// What `shown_in_order` tells, and what `conflict_over_caches` does, by one run of the loop.
///
/// `NoMemory`: there was none for what these two take.
pub fn shown_over_caches(
    alloc: Global,
    image: &Image,
    cores: u32,
) -> Result<RunOverCaches, NoMemory>
    ensures { IfOk result (IsShownOverCaches image.now cores) }
{
    let mut memory = Vec::from_slice(alloc, image.bytes())?;
    let mut lengths = Vec::with_capacity(alloc, image.epochs() as usize)?;
    let mut both = both_notes(alloc, image, cores)?;
    let conflict = run_over_caches(
        alloc,
        image,
        cores,
        memory.as_mut_slice(),
        &mut both,
        &mut lengths,
    )?;
    let run = shown_by(image, both.first, lengths)?;
    Ok(RunOverCaches { run, conflict })
}

/// Both notes before the first epoch.
fn both_notes(
    alloc: Global,
    image: &Image,
    cores: u32,
) -> Result<Both<Flow<PairSums>, Watch>, NoMemory>
    ensures flow { IfOk result (λ both. IsFlowKept ArePairSums image.now 0 both.first) }
    ensures watch { IfOk result (λ both. IsWatchKept image.now cores both.second 0) }
{
    let sums = PairSums::new(alloc)?;
    let first = Flow::none(alloc, image, sums)?;
    let second = Watch::none(alloc, image, cores)?;
    Ok(Both { first, second })
}

/// Runs the loop, with both notes: all its epochs, and where these don't conflict those past its end.
///
/// `NoMemory`: there was none for a dependence, a length, or for two copies of the image's bytes.
fn run_over_caches<F: Found>(
    alloc: Global,
    image: &Image,
    cores: u32,
    memory: &mut [u8],
    both: &mut Both<Flow<F>, Watch>,
    lengths: &mut Vec<u64>,
) -> Result<Option<CacheConflict>, NoMemory>
    requires memory { memory.old ≡ image.now.bytes }
    requires size { length memory.old ≡ image.now.size }
    requires flow { IsRunKept F.keeps image.now 0 both.old.first lengths.old.items }
    requires watch { IsWatchKept image.now cores both.old.second 0 }
    ensures run { IfOk result (λ found. HaveAllRun F.keeps image.now both.new.first lengths.new.items) }
    ensures found { IfOk result (λ found. spec.IsFound image.now cores found) }
    ensures none { IfOk result (λ found. found ≡ None → spec.IsNever image.now cores) }
{
    let ran = run_both(image, cores, memory, both, lengths)?;
    run_all(
        image,
        ran.epochs,
        ran.goes_on,
        memory,
        &mut both.first,
        lengths,
    )?;
    conflict_of_all(alloc, image, cores, ran, &mut both.second)
}

/// What came of the run of both notes: the first conflict; how many epochs have run; and whether the next one runs.
#[derive(Clone, Copy)]
struct RanBoth {
    found: Option<CacheConflict>,
    epochs: u32,
    goes_on: bool,
}

/// Runs the epochs in order, with both notes, up to the first that conflicts with one before it.
fn run_both<F: Found>(
    image: &Image,
    cores: u32,
    memory: &mut [u8],
    both: &mut Both<Flow<F>, Watch>,
    lengths: &mut Vec<u64>,
) -> Result<RanBoth, NoMemory>
    requires memory { memory.old ≡ image.now.bytes }
    requires flow { IsRunKept F.keeps image.now 0 both.old.first lengths.old.items }
    requires watch { IsWatchKept image.now cores both.old.second 0 }
    ensures most { IfOk result (λ ran. ran.epochs ≤ image.now.epochs) }
    ensures left { IfOk result (λ ran. IsLeft image.now ran.epochs memory.new ran.goes_on) }
    ensures flow { IfOk result (λ ran. IsRunKept F.keeps image.now ran.epochs both.new.first lengths.new.items) }
    ensures found { IfOk result (λ ran. spec.IsFound image.now cores ran.found) }
    ensures all { IfOk result (λ ran. ran.found ≡ None → AreAll image.now ran.epochs) }
    ensures clear { IfOk result (λ ran. ran.found ≡ None → spec.AreClear image.now cores ran.epochs) }
    ensures watch { IfOk result (λ ran. ran.found ≡ None → IsWatchKept image.now cores both.new.second ran.epochs) }
{
    for epoch in 0..image.epochs() {
        let looked = follow_both(image, cores, epoch, memory, both, lengths)?;
        if looked.found.is_some() {
            return Ok(RanBoth {
                found: looked.found,
                epochs: epoch + 1,
                goes_on: looked.goes_on,
            });
        }
        if !looked.goes_on {
            return Ok(RanBoth {
                found: None,
                epochs: epoch + 1,
                goes_on: false,
            });
        }
    }
    Ok(RanBoth {
        found: None,
        epochs: image.epochs(),
        goes_on: false,
    })
}

/// Runs one epoch over memory, and notes its dependences, its length, and the lines that it touches.
fn follow_both<F: Found>(
    image: &Image,
    cores: u32,
    epoch: u32,
    memory: &mut [u8],
    both: &mut Both<Flow<F>, Watch>,
    lengths: &mut Vec<u64>,
) -> Result<Looked, NoMemory>
    requires run { CanRun image.now epoch memory.old }
    requires before { first_epochs image.now epoch ≡ record { end = Done epoch; bytes = memory.old } }
    requires flow { IsRunKept F.keeps image.now epoch both.old.first lengths.old.items }
    requires watch { IsWatchKept image.now cores both.old.second epoch }
    ensures next { IfOk result (λ looked. IsNext image.now (epoch + 1) memory.new looked.goes_on) }
    ensures flow { IfOk result (λ looked. IsRunKept F.keeps image.now (epoch + 1) both.new.first lengths.new.items) }
    ensures found { IfOk result (λ looked. spec.IsFound image.now cores looked.found) }
    ensures none { IfOk result (λ looked. looked.found ≡ None → MeetsNone image.now cores epoch) }
    ensures watch { IfOk result (λ looked. looked.found ≡ None → IsWatchKept image.now cores both.new.second (epoch + 1)) }
{
    both.first.epoch = Epoch::of(epoch);
    both.second.begin(epoch);
    let mut hart = start(image, epoch);
    let at = hart.run_to_end(image, memory, both);
    if both.first.is_full {
        return Err(NoMemory);
    }
    add(lengths, hart.done())?;
    Ok(Looked {
        found: both.second.found(),
        goes_on: next_runs(image, &hart, at),
    })
}

/// The conflict that the run has found; or one past its end, where it has found none.
fn conflict_of_all(
    alloc: Global,
    image: &Image,
    cores: u32,
    ran: RanBoth,
    watch: &mut Watch,
) -> Result<Option<CacheConflict>, NoMemory>
    requires found { spec.IsFound image.now cores ran.found }
    requires all { ran.found ≡ None → AreAll image.now ran.epochs }
    requires clear { ran.found ≡ None → spec.AreClear image.now cores ran.epochs }
    requires watch { ran.found ≡ None → IsWatchKept image.now cores watch.old ran.epochs }
    ensures found { IfOk result (λ found. spec.IsFound image.now cores found) }
    ensures none { IfOk result (λ found. found ≡ None → spec.IsNever image.now cores) }
{
    if ran.found.is_some() {
        return Ok(ran.found);
    }
    conflict_past_end(alloc, image, cores, ran.epochs, watch)
}
