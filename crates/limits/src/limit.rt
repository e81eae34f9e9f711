ghost use Rattle.std.specs.Prelude.{◌≡◌, ℕ, ◌+◌, ◌<◌, ◌≤◌, IfOk, OnOk, true, false, [], length, slice_index};
ghost use Rattle.rv32_image.specs.Image.{IsImage};
ghost use Rattle.rv32_exec.specs.declared.sequential.End.TheVariants.{Done};
ghost use Rattle.rv32_exec.specs.Sequential.{first_epochs};
ghost use Rattle.epoch_paths.specs.InOrder.{IsInOrder};
ghost use Rattle.limits.specs.Kept as spec;
ghost use Rattle.limits.specs.Limits.{IsLimit};

use crate::laws::forward_is_within_commit;
use crate::times::Times;
use memory_bytes::{read_number, write_number};
use rv32_exec::{NoMemory, Stop, advance, loaded, start, stored};
use rv32_image::Image;
use std::alloc::Global;

/// In how few steps so many cores can run a loop.
#[derive(Clone, Copy)]
pub struct Limits {
    /// Where a load that depends on an earlier epoch waits for the store.
    pub forward: u64,
    /// Where it waits for the commit of that epoch.
    pub commit: u64,
}

/// What a load that depends on an earlier epoch waits for.
#[derive(Clone, Copy)]
pub enum Waits {
    /// The last store of the byte.
    Store,
    /// The commit of the epoch that stores it last.
    Commit,
}

/// The limits that the dependences of the run in order set to so many cores, at least 1: the least steps, from the beginning of the
/// first epoch to the commit of the last, of all timings in which no load comes before what it waits for. 1 where no epoch runs.
///
/// `NoMemory`: there was none for a copy of the image's bytes, two words beside each, and one for each epoch.
pub fn limits_in_order(alloc: Global, image: &Image, cores: u32) -> Result<Limits, NoMemory>
    requires { 1 ≤ cores }
    ensures forward { IfOk result (λ limits. IsLimit image.now Waits.Store cores limits.forward) }
    ensures commit { IfOk result (λ limits. IsLimit image.now Waits.Commit cores limits.commit) }
    ensures within { IfOk result (λ limits. limits.forward ≤ limits.commit) }
{
    forward_is_within_commit();
    let forward = limit(alloc, image, cores, Waits::Store)?;
    let commit = limit(alloc, image, cores, Waits::Commit)?;
    Ok(Limits { forward, commit })
}

/// One of the limits.
fn limit(alloc: Global, image: &Image, cores: u32, waits: Waits) -> Result<u64, NoMemory>
    requires { 1 ≤ cores }
    ensures { IfOk result (λ steps. IsLimit image.now waits cores steps) }
{
    let mut memory = Vec::from_slice(alloc, image.bytes())?;
    let mut times = Times::none(alloc, image.size() as usize, waits)?;
    run_all(image, cores, memory.as_mut_slice(), &mut times)?;
    Ok(times.last_commit() + 1)
}

/// Runs the epochs over memory, in order, each step as early as it can be. Nothing has been kept before.
fn run_all(image: &Image, cores: u32, memory: &mut [u8], times: &mut Times) -> Result<(), NoMemory>
    requires cores { 1 ≤ cores }
    requires memory { memory.old ≡ image.now.bytes }
    requires long { spec.AreLong times.old image.now.size }
    requires commits { times.old.commits ≡ [] }
    requires writers { (a : ℕ) → slice_index times.old.writers a ≡ 0 }
    ensures { IfOk result (λ done. spec.HaveRun image.now cores times.old.waits times.new) }
{
    for epoch in 0..image.epochs() {
        if !follow(image, cores, epoch, memory, times)? {
            return Ok(());
        }
    }
    Ok(())
}

/// Runs one epoch over memory, each step as early as it can be, and keeps when it stores and commits. Answers whether the next one
/// runs.
fn follow(
    image: &Image,
    cores: u32,
    epoch: u32,
    memory: &mut [u8],
    times: &mut Times,
) -> Result<bool, NoMemory>
    requires limits { IsImage image.now }
    requires cores { 1 ≤ cores }
    requires size { length memory.old ≡ image.now.size }
    requires epoch { epoch < image.now.epochs }
    requires before { first_epochs image.now epoch ≡ record { end = Done epoch; bytes = memory.old } }
    requires kept { spec.AreKept image.now cores epoch times.old }
    ensures kept { IfOk result (λ goes_on. spec.AreKept image.now cores (epoch + 1) times.new) }
    ensures waits { OnOk result (times.new.waits ≡ times.old.waits) }
    ensures goes_on { IfOk result (λ goes_on. goes_on ≡ true → first_epochs image.now (epoch + 1) ≡ record { end = Done (epoch + 1); bytes = memory.new }) }
    ensures ends { IfOk result (λ goes_on. goes_on ≡ false → IsInOrder image.now (epoch + 1) → ⊥) }
{
    let mut hart = start(image, epoch);
    // The instruction at each place comes so many steps after this one as the place says.
    let mut base = times.begin(cores, epoch) + 1;
    'accesses: loop {
        let arrived = advance(image, hart);
        let now = arrived.now();
        let step = base + now.done();
        match arrived.at() {
            Stop::Load { addr, width, .. } => {
                base += times.ready(epoch, addr, width).saturating_sub(step);
                hart = loaded(&arrived, read_number(memory, addr as usize, width));
            }
            Stop::Store { addr, width, value } => {
                write_number(memory, addr as usize, width, value);
                times.mark(addr, width, epoch + 1, step);
                hart = stored(&arrived);
            }
            Stop::Ended => {
                times.commit(step)?;
                return Ok(!now.exits(image));
            }
            Stop::Fault { .. } => {
                times.commit(step)?;
                return Ok(false);
            }
        }
    }
}
