ghost use Rattle.std.specs.Prelude.{◌≡◌, ℕ, ◌+◌, ◌<◌, ◌≤◌, ◌^◌, true, false, length, slice_index};
ghost use Rattle.rv32_image.specs.Image.{IsImage};
ghost use Rattle.rv32_exec.specs.declared.sequential.End.TheVariants.{Done};
ghost use Rattle.rv32_exec.specs.Sequential.{first_epochs};
ghost use Rattle.epoch_paths.specs.InOrder.{IsInOrder};
ghost use Rattle.epoch_paths.specs.Kept.{CanRun};
ghost use Rattle.dependences.specs.Kept as spec;

use crate::nearest::mark;
use memory_bytes::{read_number, write_number};
use rv32_exec::{Stop, advance, loaded, start, stored};
use rv32_image::Image;

/// Runs the epochs from this one on, and before that one, over memory, in order.
pub(crate) fn run_between(image: &Image, from: u32, to: u32, memory: &mut [u8])
    requires limits { IsImage image.now }
    requires size { length memory.old ≡ image.now.size }
    requires upward { from ≤ to }
    requires within { to ≤ image.now.epochs }
    requires before { first_epochs image.now from ≡ record { end = Done from; bytes = memory.old } }
    requires order { IsInOrder image.now to }
    ensures size { length memory.new ≡ image.now.size }
    ensures done { first_epochs image.now to ≡ record { end = Done to; bytes = memory.new } }
{
    for epoch in from..to {
        run_one(image, epoch, memory);
    }
}

/// Runs one epoch over memory, which neither faults nor exits.
fn run_one(image: &Image, epoch: u32, memory: &mut [u8])
    requires run { CanRun image.now epoch memory.old }
    requires before { first_epochs image.now epoch ≡ record { end = Done epoch; bytes = memory.old } }
    requires order { IsInOrder image.now (epoch + 1) }
    ensures size { length memory.new ≡ image.now.size }
    ensures done { first_epochs image.now (epoch + 1) ≡ record { end = Done (epoch + 1); bytes = memory.new } }
{
    let mut hart = start(image, epoch);
    'accesses: loop {
        let arrived = advance(image, hart);
        match arrived.at() {
            Stop::Load { addr, width, .. } => {
                hart = loaded(&arrived, read_number(memory, addr as usize, width));
            }
            Stop::Store { addr, width, value } => {
                write_number(memory, addr as usize, width, value);
                hart = stored(&arrived);
            }
            Stop::Ended | Stop::Fault { .. } => return,
        }
    }
}

/// Whether an epoch alone over this memory reads a byte from outside whose last writer is this epoch or a later one. What it
/// stores itself has no writer from then on.
pub(crate) fn meets_writer(
    image: &Image,
    epoch: u32,
    first: u32,
    memory: &mut [u8],
    writers: &mut [u32],
) -> bool
    requires run { CanRun image.now epoch memory.old }
    requires long { length writers.old ≡ image.now.size }
    ensures found { result ≡ true → spec.MeetsWriter image.now epoch memory.old writers.old first }
    ensures none { result ≡ false → spec.MeetsWriter image.now epoch memory.old writers.old first → ⊥ }
{
    let mut hart = start(image, epoch);
    'accesses: loop {
        let arrived = advance(image, hart);
        match arrived.at() {
            Stop::Load { addr, width, .. } => {
                if is_written(writers, first, addr, width) {
                    return true;
                }
                hart = loaded(&arrived, read_number(memory, addr as usize, width));
            }
            Stop::Store { addr, width, value } => {
                write_number(memory, addr as usize, width, value);
                mark(writers, addr, width, 0);
                hart = stored(&arrived);
            }
            Stop::Ended | Stop::Fault { .. } => return false,
        }
    }
}

/// Whether the last writer of a byte of these is this epoch or a later one.
fn is_written(writers: &[u32], first: u32, addr: u32, width: u32) -> bool
    requires small { length writers.now < 2 ^ 32 }
    requires within { addr + width ≤ length writers.now }
    ensures found { result ≡ true → (i : ℕ) × (i < width) × (first < slice_index writers.now (addr + i)) }
    ensures none { result ≡ false → (i : ℕ) → i < width → slice_index writers.now (addr + i) ≤ first }
{
    for i in 0..width {
        if writers[(addr + i) as usize] > first {
            return true;
        }
    }
    false
}
