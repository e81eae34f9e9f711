//! The ownership required buffer.
ghost use Rattle.std.specs.Prelude.{◌≡◌, ◌++◌, IfOk, OnOk};
ghost use Rattle.turn_steps.specs.Places as spec;

use crate::changed::push_changed;
use std::alloc::{AllocError, Global};
use trace_text::{push_hex, push_number};

/// Adds a line of text for a core's buffer, where it isn't as it was. Before it had the old lines; now it has the new ones.
///
/// `AllocError`: memory ran out. Some of the text may be there.
pub fn push_orb_change(
    alloc: Global,
    text: &mut Vec<u8>,
    core: u32,
    old: &[u32],
    now: &[u32],
) -> Result<(), AllocError>
    ensures { OnOk result (text.new.items ≡ text.old.items ++ spec.changed (spec.orb_line core old.now) (spec.orb_line core now.now)) }
{
    let before = orb_line(alloc, core, old)?;
    let after = orb_line(alloc, core, now)?;
    push_changed(text, before.as_slice(), after.as_slice())
}

/// The line of text of a buffer.
#[tactic(auto, unfolding(crate::specs::Places::orb_line))]
fn orb_line(alloc: Global, core: u32, lines: &[u32]) -> Result<Vec<u8>, AllocError>
    ensures { IfOk result (λ text. text.items ≡ spec.orb_line core lines.now) }
{
    let mut text = Vec::from_slice(alloc, b"orb ")?;
    push_number(&mut text, core)?;
    push_lines(&mut text, lines)?;
    text.extend_from_slice(b"\n")?;
    Ok(text)
}

/// Adds the addresses of lines.
fn push_lines(text: &mut Vec<u8>, lines: &[u32]) -> Result<(), AllocError>
    ensures { OnOk result (text.new.items ≡ text.old.items ++ spec.lines_text lines.now) }
{
    for addr in lines {
        push_line(text, *addr)?;
    }
    Ok(())
}

fn push_line(text: &mut Vec<u8>, addr: u32) -> Result<(), AllocError>
    ensures { OnOk result (text.new.items ≡ text.old.items ++ spec.line_text addr) }
{
    text.extend_from_slice(b" ")?;
    push_hex(text, &addr.to_be_bytes())
}
