ghost use Rattle.std.specs.Prelude.{◌≡◌, ℕ, ◌+◌, ◌<◌, ◌≤◌, ◌^◌, IfOk, true, false, length, slice_index};
ghost use Rattle.rv32_exec.specs.declared.sequential.End.TheVariants.{Done};
ghost use Rattle.rv32_exec.specs.Sequential.{first_epochs};
ghost use Rattle.epoch_paths.specs.InOrder.{IsInOrder};
ghost use Rattle.epoch_paths.specs.Kept.{IsMarked, CanRun};
ghost use Rattle.dependences.specs.Nearest.{IsNearest};
ghost use Rattle.dependences.specs.Kept as spec;

use epoch_paths::Epoch;
use memory_bytes::{read_number, write_number};
use rv32_exec::{NoMemory, Stop, advance, loaded, start, stored};
use rv32_image::Image;
use std::alloc::Global;

/// The least distance at which an epoch depends on an earlier one, of all epochs that run in order: it reads a byte from outside
/// that the earlier one stores. None where no epoch does.
///
/// `NoMemory`: there was none for a copy of the image's bytes, and a word beside each.
pub fn nearest_dependence(alloc: Global, image: &Image) -> Result<Option<u32>, NoMemory>
    ensures { IfOk result (λ nearest. IsNearest image.now nearest) }
{
    let mut memory = Vec::from_slice(alloc, image.bytes())?;
    let size = image.size() as usize;
    let mut writers = vec![in alloc; 0; size]?;
    let ran = run_all(image, memory.as_mut_slice(), writers.as_mut_slice());
    Ok(ran.nearest)
}

/// What came of the run in order: how many epochs it has, and how near they depend on each other.
#[derive(Clone, Copy)]
pub(crate) struct Ran {
    pub(crate) epochs: u32,
    pub(crate) nearest: Option<u32>,
}

/// Runs the epochs over memory, in order. No byte has a writer before.
pub(crate) fn run_all(image: &Image, memory: &mut [u8], writers: &mut [u32]) -> Ran
    requires memory { memory.old ≡ image.now.bytes }
    requires long { length writers.old ≡ image.now.size }
    requires none { (a : ℕ) → slice_index writers.old a ≡ 0 }
    ensures { spec.HaveRun image.now result.epochs writers.new result.nearest }
{
    let mut nearest = None;
    for epoch in 0..image.epochs() {
        let followed = follow(image, epoch, memory, writers, nearest);
        nearest = followed.nearest;
        if !followed.goes_on {
            return Ran {
                epochs: epoch + 1,
                nearest,
            };
        }
    }
    Ran {
        epochs: image.epochs(),
        nearest,
    }
}

/// What came of an epoch: whether the next one runs, and how near epochs depend on each other so far.
#[derive(Clone, Copy)]
struct Followed {
    goes_on: bool,
    nearest: Option<u32>,
}

/// Runs one epoch over memory, and keeps who wrote each byte last.
fn follow(
    image: &Image,
    epoch: u32,
    memory: &mut [u8],
    writers: &mut [u32],
    nearest: Option<u32>,
) -> Followed
    requires run { CanRun image.now epoch memory.old }
    requires before { first_epochs image.now epoch ≡ record { end = Done epoch; bytes = memory.old } }
    requires kept { spec.AreKept image.now epoch writers.old nearest }
    ensures kept { spec.AreKept image.now (epoch + 1) writers.new result.nearest }
    ensures goes_on { result.goes_on ≡ true → first_epochs image.now (epoch + 1) ≡ record { end = Done (epoch + 1); bytes = memory.new } }
    ensures ends { result.goes_on ≡ false → IsInOrder image.now (epoch + 1) → ⊥ }
{
    let at = Epoch::of(epoch);
    let mut hart = start(image, epoch);
    let mut nearest = nearest;
    'accesses: loop {
        let arrived = advance(image, hart);
        match arrived.at() {
            Stop::Load { addr, width, .. } => {
                nearest = nearer_of(writers, at, addr, width, nearest);
                hart = loaded(&arrived, read_number(memory, addr as usize, width));
            }
            Stop::Store { addr, width, value } => {
                write_number(memory, addr as usize, width, value);
                mark(writers, addr, width, at.note());
                hart = stored(&arrived);
            }
            Stop::Ended => {
                let goes_on = !arrived.now().exits(image);
                return Followed { goes_on, nearest };
            }
            Stop::Fault { .. } => {
                return Followed {
                    goes_on: false,
                    nearest,
                };
            }
        }
    }
}

/// The nearest of what was found, and of the epochs that last wrote the bytes of a load.
pub(crate) fn nearer_of(
    writers: &[u32],
    epoch: Epoch,
    addr: u32,
    width: u32,
    nearest: Option<u32>,
) -> Option<u32>
    requires small { length writers.now < 2 ^ 32 }
    requires within { addr + width ≤ length writers.now }
    requires earlier { (a : ℕ) → slice_index writers.now a ≤ epoch + 1 }
    ensures { result ≡ spec.load_behind writers.now epoch addr width nearest }
{
    let mut nearest = nearest;
    for i in 0..width {
        nearest = nearer(nearest, behind(epoch, writers[(addr + i) as usize]));
    }
    nearest
}

/// How far an epoch is behind the last writer of a byte: none where there is none, or it is the epoch itself.
fn behind(epoch: Epoch, writer: u32) -> Option<u32>
    requires earlier { writer ≤ epoch + 1 }
    ensures { result ≡ spec.behind epoch writer }
{
    let own = epoch.note();
    if writer == 0 || writer == own {
        None
    } else {
        Some(own - writer)
    }
}

/// The nearer of the two, if any.
pub(crate) fn nearer(first: Option<u32>, second: Option<u32>) -> Option<u32>
    ensures { result ≡ spec.nearer first second }
{
    match (first, second) {
        (Some(one), Some(other)) => Some(if one < other { one } else { other }),
        (Some(one), None) => Some(one),
        (None, other) => other,
    }
}

/// Notes who wrote the bytes of a store.
#[inline(always)]
pub(crate) fn mark(writers: &mut [u32], addr: u32, width: u32, writer: u32)
    requires small { length writers.old < 2 ^ 32 }
    requires within { addr + width ≤ length writers.old }
    ensures long { length writers.new ≡ length writers.old }
    ensures marked { IsMarked writers.old writers.new addr width writer }
{
    // With a width that it knows LLVM writes a word's numbers at once.
    match width {
        4 => mark_each(writers, addr, 4, writer),
        _ => mark_each(writers, addr, width, writer),
    }
}

/// The same, byte by byte.
#[inline(always)]
fn mark_each(writers: &mut [u32], addr: u32, width: u32, writer: u32)
    requires small { length writers.old < 2 ^ 32 }
    requires within { addr + width ≤ length writers.old }
    ensures long { length writers.new ≡ length writers.old }
    ensures marked { IsMarked writers.old writers.new addr width writer }
{
    // Beside a place that is no sum of two numbers of 32 bits LLVM knows that the numbers of a word follow one another.
    let from = addr as usize;
    for i in 0..width as usize {
        writers[from + i] = writer;
    }
}
