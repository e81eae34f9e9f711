//! What a core runs, and the hart that it has in hand.
ghost use Rattle.std.specs.Prelude.{◌≡◌, ◌++◌, ◌≤◌, IfOk, OnOk};
ghost use Rattle.turn_steps.specs.Places.{changed};
ghost use Rattle.turn_steps.specs.Stepped.{attempt_changes, attempt_in};
ghost use Rattle.turn_steps.specs.Turns as spec;

use crate::changed::push_changed;
use itoa::Buffer;
use rv32_exec::Hart;
use std::alloc::{AllocError, Global};
use trace_text::{push_hex, push_number};
use violations::{Attempt, MAX_CORES};

/// Adds the line of what a core runs, where it isn't as it was.
///
/// `AllocError`: memory ran out. Some of the text may be there.
pub fn push_attempt_change(
    alloc: Global,
    text: &mut Vec<u8>,
    core: u32,
    old: Option<Attempt>,
    now: Option<Attempt>,
) -> Result<(), AllocError>
    ensures { OnOk result (text.new.items ≡ text.old.items ++ changed (spec.attempt_line core old) (spec.attempt_line core now)) }
{
    let before = attempt_line(alloc, core, old)?;
    let after = attempt_line(alloc, core, now)?;
    push_changed(text, before.as_slice(), after.as_slice())
}

/// Adds the line of what each of so many cores runs, where it isn't as it was, by its place in the lists.
///
/// `AllocError`: memory ran out. Some of the text may be there.
pub fn push_attempt_changes(
    alloc: Global,
    text: &mut Vec<u8>,
    cores: u32,
    old: &[Option<Attempt>; MAX_CORES],
    now: &[Option<Attempt>; MAX_CORES],
) -> Result<(), AllocError>
    requires { cores ≤ 16 }
    ensures { OnOk result (text.new.items ≡ text.old.items ++ attempt_changes (attempt_in old.now) (attempt_in now.now) cores) }
{
    for core in 0..cores {
        let place = core as usize;
        push_attempt_change(alloc, text, core, old[place], now[place])?;
    }
    Ok(())
}

/// The line of what a core runs.
#[tactic(auto, unfolding(crate::specs::Turns::attempt_line))]
fn attempt_line(alloc: Global, core: u32, attempt: Option<Attempt>) -> Result<Vec<u8>, AllocError>
    ensures { IfOk result (λ text. text.items ≡ spec.attempt_line core attempt) }
{
    let mut text = Vec::from_slice(alloc, b"attempt ")?;
    push_number(&mut text, core)?;
    text.extend_from_slice(b" ")?;
    push_attempt(&mut text, attempt)?;
    text.extend_from_slice(b"\n")?;
    Ok(text)
}

fn push_attempt(text: &mut Vec<u8>, attempt: Option<Attempt>) -> Result<(), AllocError>
    ensures { OnOk result (text.new.items ≡ text.old.items ++ spec.attempt_text attempt) }
{
    let Some(attempt) = attempt else {
        return text.extend_from_slice(b"-");
    };
    push_number(text, attempt.epoch)?;
    text.extend_from_slice(b" ")?;
    text.extend_from_slice(mode_name(attempt.straight).as_bytes())
}

/// The name of what an attempt is, which has published or not.
fn mode_name(straight: bool) -> &'static str
    ensures { result.now ≡ spec.mode_name straight }
{
    if straight { "straight" } else { "speculative" }
}

/// Adds the line of the hart that a core has in hand, where it isn't as it was.
///
/// `AllocError`: memory ran out. Some of the text may be there.
pub fn push_hart_change(
    alloc: Global,
    text: &mut Vec<u8>,
    core: u32,
    old: Option<Hart>,
    now: Option<Hart>,
) -> Result<(), AllocError>
    ensures { OnOk result (text.new.items ≡ text.old.items ++ changed (spec.hart_line core old) (spec.hart_line core now)) }
{
    let before = hart_line(alloc, core, old)?;
    let after = hart_line(alloc, core, now)?;
    push_changed(text, before.as_slice(), after.as_slice())
}

/// The line of a hart.
#[tactic(auto, unfolding(crate::specs::Turns::hart_line))]
fn hart_line(alloc: Global, core: u32, hart: Option<Hart>) -> Result<Vec<u8>, AllocError>
    ensures { IfOk result (λ text. text.items ≡ spec.hart_line core hart) }
{
    let mut text = Vec::from_slice(alloc, b"hart ")?;
    push_number(&mut text, core)?;
    text.extend_from_slice(b" ")?;
    push_hart(&mut text, hart)?;
    text.extend_from_slice(b"\n")?;
    Ok(text)
}

fn push_hart(text: &mut Vec<u8>, hart: Option<Hart>) -> Result<(), AllocError>
    ensures { OnOk result (text.new.items ≡ text.old.items ++ spec.hart_text hart) }
{
    let Some(hart) = hart else {
        return text.extend_from_slice(b"-");
    };
    push_hex(text, &hart.pc().to_be_bytes())?;
    text.extend_from_slice(b" ")?;
    text.extend_from_slice(Buffer::new().format(hart.done()).as_bytes())
}
