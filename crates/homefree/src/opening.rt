//! What a book begins with.
ghost use Rattle.std.specs.Prelude.{◌≡◌, ℕ, length, IfOk, None};
ghost use Rattle.rv32_image.specs.Image.{IsImage};
ghost use Rattle.spec_history.specs.FlatState as flat;
ghost use Rattle.homefree.specs.Kept.{running_at};

use crate::register::Running;
use rv32_exec::{End, Image, NoMemory};
use std::alloc::Global;

/// So many cores that run nothing.
pub(crate) fn idle_cores(alloc: Global, cores: u32) -> Result<Vec<Option<Running>>, NoMemory>
    ensures count { IfOk result (λ running. length running.items ≡ cores) }
    ensures idle { IfOk result (λ running. (k : ℕ) → running_at running.items k ≡ None) }
{
    let mut running = Vec::new(alloc);
    for _ in 0..cores {
        if running.push(None).is_err() {
            return Err(NoMemory);
        }
    }
    Ok(running)
}

/// How the loop ended, where it has no epochs.
pub(crate) fn end_at_first(image: &Image) -> Option<End>
    ensures end { result ≡ flat.end_at image.now 0 }
    ensures limits { IsImage image.now }
{
    if image.epochs() == 0 {
        Some(End::Done(0))
    } else {
        None
    }
}
