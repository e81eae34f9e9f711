//! The lines of the limits.
ghost use Rattle.std.specs.Prelude.{◌≡◌, ◌≤◌, ◌∷◌, ◌++◌, All, IfOk, OnOk};
ghost use Rattle.gain.specs.Lines.{more_counts};
ghost use Rattle.gain.specs.Limits as spec;

use crate::lines::more_counts;
use crate::text::push_number;
use limits::{Limits, limits_in_order};
use replay_command::CoreCount;
use rv32_exec::Image;
use std::alloc::{AllocError, Global};

/// Adds a line of what the dependences allow for each of 1, 2, 4 and 8 cores that are fewer than these, and one for these.
///
/// `AllocError`: memory ran out.
pub fn push_limits(
    alloc: Global,
    text: &mut Vec<u8>,
    image: &Image,
    cores: CoreCount,
) -> Result<(), AllocError>
    ensures { OnOk result (spec.AddLimits image.now (1 ∷ more_counts cores) text.old.items text.new.items) }
{
    push_limit(alloc, text, image, 1)?;
    let more = more_counts(alloc, cores.count())?;
    push_each(alloc, text, image, more.as_slice())
}

/// Adds a line for each of these numbers of cores.
fn push_each(
    alloc: Global,
    text: &mut Vec<u8>,
    image: &Image,
    counts: &[u32],
) -> Result<(), AllocError>
    requires { All (λ cores. 1 ≤ cores) counts.now }
    ensures { OnOk result (spec.AddLimits image.now counts.now text.old.items text.new.items) }
{
    for cores in counts {
        push_limit(alloc, text, image, *cores)?;
    }
    Ok(())
}

/// Adds the line of so many cores.
fn push_limit(
    alloc: Global,
    text: &mut Vec<u8>,
    image: &Image,
    cores: u32,
) -> Result<(), AllocError>
    requires { 1 ≤ cores }
    ensures { OnOk result (spec.AddLimit image.now cores text.old.items text.new.items) }
{
    let Ok(limits) = limits_in_order(alloc, image, cores) else {
        return Err(AllocError);
    };
    push_line(text, cores, &limits)
}

#[tactic(auto, unfolding(crate::specs::Limits::limit_line))]
fn push_line(text: &mut Vec<u8>, cores: u32, limits: &Limits) -> Result<(), AllocError>
    ensures { OnOk result (text.new.items ≡ text.old.items ++ spec.limit_line cores limits.now) }
{
    push_number(text, b"limit cores ", cores as u64)?;
    push_number(text, b" forward ", limits.forward)?;
    push_number(text, b" commit ", limits.commit)?;
    text.extend_from_slice(b"\n")
}
