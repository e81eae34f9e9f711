ghost use Rattle.std.specs.Prelude.{◌≡◌, ◌<◌, ◌≤◌, ℕ, IfOk, IfSome, None, true, false, length, slice_index};
ghost use Rattle.rv32_image.specs.Image.{IsImage};
ghost use Rattle.epoch_paths.specs.InOrder.{AreAll};
ghost use Rattle.dependences.specs.Conflict.{Conflict, ConflictInOrder};
ghost use Rattle.dependences.specs.Kept as spec;
ghost use Rattle.dependences.specs.Laws.{NeverOverBytes};
ghost use Rattle.dependences.specs.Nearest.{IsNearest};

use crate::alone::{meets_writer, run_between};
use crate::nearest::run_all;
use rv32_exec::NoMemory;
use rv32_image::Image;
use std::alloc::Global;

/// Whether two epochs that so many cores can run beside each other conflict over bytes: the earlier one stores a byte that the
/// later one reads from outside, which can be past the loop's exit or fault. Where none do, nor do any two paths.
///
/// It runs the loop in order. Where that ends early it runs it once more, and each epoch past the end that the cores can reach
/// over a copy of memory.
///
/// `NoMemory`: there was none for three copies of the image's bytes, and two words beside each.
pub fn conflicts_over_bytes(alloc: Global, image: &Image, cores: u32) -> Result<bool, NoMemory>
    ensures found { IfOk result (λ found. found ≡ true → ConflictInOrder image.now cores) }
    ensures none { IfOk result (λ found. found ≡ false → ConflictInOrder image.now cores → ⊥) }
    ensures paths { IfOk result (λ found. found ≡ false → Conflict image.now cores → ⊥) }
    ensures never { IfOk result (λ found. found ≡ false → (fewer : ℕ) → fewer ≤ cores → NeverOverBytes image.now fewer) }
{
    let size = image.size() as usize;
    if cores < 2 {
        return Ok(false);
    }
    let mut memory = Vec::from_slice(alloc, image.bytes())?;
    let mut writers = vec![in alloc; 0; size]?;
    let ran = run_all(image, memory.as_mut_slice(), writers.as_mut_slice());
    if is_near(cores, ran.nearest) {
        return Ok(true);
    }
    if ran.epochs == image.epochs() {
        return Ok(false);
    }
    conflicts_past_end(alloc, image, cores, ran.epochs, writers.as_slice())
}

/// The least number of cores, up to these, on which two epochs conflict over bytes, of a loop of which all epochs run in order,
/// and the nearest that depend on each other are so far apart. None: on none of these cores any do, and no schedule has a violation.
pub fn least_conflict_over_bytes(image: &Image, nearest: Option<u32>, cores: u32) -> Option<u32>
    requires limits { IsImage image.now }
    requires all { AreAll image.now image.now.epochs }
    requires nearest { IsNearest image.now nearest }
    ensures found { IfSome result (λ least. (2 ≤ least) × (least ≤ cores) × ConflictInOrder image.now least) }
    ensures fewer { IfSome result (λ least. (fewer : ℕ) → fewer < least → NeverOverBytes image.now fewer) }
    ensures none { result ≡ None → (fewer : ℕ) → fewer ≤ cores → NeverOverBytes image.now fewer }
{
    match nearest {
        Some(distance) if distance < cores => Some(distance + 1),
        _ => None,
    }
}

/// Whether two epochs that depend on each other are nearer than there are cores.
pub fn is_near(cores: u32, nearest: Option<u32>) -> bool
    ensures { result ≡ spec.is_near cores nearest }
{
    match nearest {
        Some(distance) => distance < cores,
        None => false,
    }
}

/// Whether an epoch past those that run in order, of which there are so many, conflicts with one of them.
fn conflicts_past_end(
    alloc: Global,
    image: &Image,
    cores: u32,
    ran: u32,
    writers: &[u32],
) -> Result<bool, NoMemory>
    requires all { AreAll image.now ran }
    requires long { length writers.now ≡ image.now.size }
    requires writer { (a : ℕ) → spec.IsLastWriter image.now ran a (slice_index writers.now a) }
    requires before { spec.ConflictsBefore image.now cores ran → ⊥ }
    ensures found { IfOk result (λ found. found ≡ true → ConflictInOrder image.now cores) }
    ensures none { IfOk result (λ found. found ≡ false → ConflictInOrder image.now cores → ⊥) }
{
    let mut memory = Vec::from_slice(alloc, image.bytes())?;
    let mut alone = Vec::from_slice(alloc, image.bytes())?;
    let mut marks = Vec::from_slice(alloc, writers)?;
    let memory = memory.as_mut_slice();
    Ok(search(
        image,
        cores,
        ran,
        writers,
        memory,
        alone.as_mut_slice(),
        marks.as_mut_slice(),
    ))
}

/// Runs each epoch past the end over a copy of memory as the epochs before the first one beside it leave it.
fn search(
    image: &Image,
    cores: u32,
    ran: u32,
    writers: &[u32],
    memory: &mut [u8],
    alone: &mut [u8],
    marks: &mut [u32],
) -> bool
    requires all { AreAll image.now ran }
    requires long { length writers.now ≡ image.now.size }
    requires writer { (a : ℕ) → spec.IsLastWriter image.now ran a (slice_index writers.now a) }
    requires before { spec.ConflictsBefore image.now cores ran → ⊥ }
    requires memory { memory.old ≡ image.now.bytes }
    requires alone { length alone.old ≡ image.now.size }
    requires marks { length marks.old ≡ image.now.size }
    ensures found { result ≡ true → ConflictInOrder image.now cores }
    ensures none { result ≡ false → ConflictInOrder image.now cores → ⊥ }
{
    let mut done = 0;
    for later in ran..image.epochs() {
        let first = later.saturating_sub(cores.saturating_sub(1));
        if first >= ran {
            return false;
        }
        run_between(image, done, first, memory);
        done = first;
        alone.copy_from_slice(memory);
        marks.copy_from_slice(writers);
        if meets_writer(image, later, first, alone, marks) {
            return true;
        }
    }
    false
}
