ghost use Rattle.std.specs.Prelude.{◌≡◌, ◌<◌, ◌^◌, IfOk, length};
ghost use Rattle.rv32_exec.specs.Sequential as spec;
ghost use Rattle.rv32_image.specs.Image.{IsImage};

use crate::hart::{Hart, start};
use crate::notes::NoNotes;
use crate::stop::Stop;
use rv32_image::{Image, NoMemory};
use std::alloc::Global;
use std::marker::Model;

/// How a run of the loop ended.
#[derive(Clone, Copy, PartialEq, Eq)]
pub enum End {
    /// All of its epochs are done; there are so many.
    Done(u32),
    /// This epoch ended with x10 other than 0, and the image lets an epoch exit: it was the last.
    Exit(u32),
    /// This epoch faulted, with this cause and pc.
    Fault { epoch: u32, cause: u32, pc: u32 },
}

/// How the loop ended, and its memory then. Contracts see these two.
#[derive(Drop)]
pub struct SeqEnd {
    end: End,
    bytes: Vec<u8>,
}

impl Model for SeqEnd {
    ghost use Rattle.rv32_exec.specs.Sequential.{SequentialResult};

    ghost Value = { SequentialResult };

    ghost view = { λ s. record { end = s.end; bytes = s.bytes.items } };
}

impl SeqEnd {
    /// How the loop ended.
    pub fn end(&self) -> End
        ensures { result ≡ self.now.end }
    {
        self.end
    }

    /// Memory at the end, from address 0 on.
    pub fn bytes(&self) -> &[u8]
        ensures { result.now ≡ self.now.bytes }
    {
        self.bytes.as_slice()
    }
}

/// Runs the loop's epochs in order, each over the memory that the one before it left, up to the first that faults or exits.
///
/// `NoMemory`: there was no memory for a copy of the image's bytes.
pub fn run_in_order(alloc: Global, image: &Image) -> Result<SeqEnd, NoMemory>
    ensures ended { IfOk result (λ r. r ≡ spec.sequential_result image.now) }
    ensures size { IfOk result (λ r. length r.bytes ≡ image.now.size) }
{
    let mut bytes = Vec::from_slice(alloc, image.bytes())?;
    let end = run_epochs(image, bytes.as_mut_slice());
    Ok(SeqEnd { end, bytes })
}

/// Runs the epochs over memory, in order, up to the first that faults or exits.
fn run_epochs(image: &Image, bytes: &mut [u8]) -> End
    requires { bytes.old ≡ image.now.bytes }
    ensures end { result ≡ (spec.sequential_result image.now).end }
    ensures bytes { bytes.new ≡ (spec.sequential_result image.now).bytes }
{
    for epoch in 0..image.epochs() {
        match run_epoch(image, epoch, bytes) {
            End::Done(_) => (),
            end => return end,
        }
    }
    End::Done(image.epochs())
}

/// Runs one epoch over memory, and answers how the loop ends if this is its last.
fn run_epoch(image: &Image, epoch: u32, bytes: &mut [u8]) -> End
    requires limits { IsImage image.now }
    requires size { length bytes.old ≡ image.now.size }
    requires epoch { epoch < image.now.epochs }
    ensures { spec.result_of image.now epoch (spec.epoch_outcome image.now epoch bytes.old) ≡ record { end = result; bytes = bytes.new } }
{
    let mut hart = start(image, epoch);
    let mut at = Stop::Ended;
    hart.run(image, bytes, &mut at, &mut NoNotes);
    match at {
        Stop::Ended => end_of(image, epoch, &hart),
        Stop::Fault { cause, pc } => End::Fault { epoch, cause, pc },
        Stop::Load { .. } | Stop::Store { .. } => unreachable!(),
    }
}

/// How the loop ends where the epoch that ended with this hart was its last.
fn end_of(image: &Image, epoch: u32, hart: &Hart) -> End
    requires { epoch < 2 ^ 16 }
    ensures { result ≡ spec.end_of image.now epoch hart.now }
{
    if hart.exits(image) {
        End::Exit(epoch)
    } else {
        End::Done(epoch + 1)
    }
}
