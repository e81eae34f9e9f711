//! The lines that tell of one violation.
ghost use Rattle.std.specs.Prelude.{◌≡◌, ◌++◌, OnOk};
ghost use Rattle.conflict_text.specs.Lines as spec;

use crate::accesses::{push_access, push_bytes, push_met};
use crate::further::push_further;
use crate::words::{
    cause_name, kind_name, push_count, push_named, push_place, push_text, push_word, undoing_name,
};
use conflict_findings::{Finding, FurtherRun};
use std::alloc::AllocError;

/// Who was violated, and in which run of its epoch.
#[tactic(auto, using(crate::proofs::Joining::joined), unfolding(crate::specs::Lines::victim_text))]
fn push_victim(text: &mut Vec<u8>, found: &Finding) -> Result<(), AllocError>
    ensures { OnOk result (text.new.items ≡ text.old.items ++ spec.victim_text found.now) }
{
    push_named(text, b" epoch ", found.victim.epoch as u128)?;
    push_named(text, b" try ", found.attempt as u128)?;
    push_named(text, b" core ", found.victim.core as u128)
}

/// What it cost.
#[tactic(auto, using(crate::proofs::Joining::joined), unfolding(crate::specs::Lines::cost_text))]
fn push_cost(text: &mut Vec<u8>, found: &Finding) -> Result<(), AllocError>
    ensures { OnOk result (text.new.items ≡ text.old.items ++ spec.cost_text found.now) }
{
    push_named(text, b" lost ", found.lost as u128)?;
    push_named(text, b" entered ", found.entered as u128)?;
    push_count(text, b" since ", found.since)
}

/// Who made it, and for what.
#[tactic(auto, using(crate::proofs::Joining::joined), unfolding(crate::specs::Lines::causer_text))]
fn push_causer(text: &mut Vec<u8>, found: &Finding) -> Result<(), AllocError>
    ensures { OnOk result (text.new.items ≡ text.old.items ++ spec.causer_text found.now) }
{
    push_named(text, b" by ", found.causer.epoch as u128)?;
    push_named(text, b" core ", found.causer.core as u128)?;
    push_place(text, b" cause ", found.cause)?;
    push_word(text, b" ", cause_name(found.act).as_bytes())
}

/// The line of a violation.
#[tactic(auto, using(crate::proofs::Joining::joined), unfolding(crate::specs::Lines::hurt_line))]
fn push_hurt(text: &mut Vec<u8>, found: &Finding) -> Result<(), AllocError>
    ensures { OnOk result (text.new.items ≡ text.old.items ++ spec.hurt_line found.now) }
{
    push_named(text, b"hurt ", found.place as u128)?;
    push_word(text, b" ", kind_name(found.kind).as_bytes())?;
    push_victim(text, found)?;
    push_cost(text, found)?;
    push_causer(text, found)?;
    push_met(text, found)?;
    push_bytes(text, found.bytes)?;
    push_text(text, b"\n")
}

/// The line that says where false sharing came true, if it did.
#[tactic(auto, using(crate::proofs::Joining::joined), unfolding(crate::specs::Lines::later_line))]
fn push_later(text: &mut Vec<u8>, found: &Finding) -> Result<(), AllocError>
    ensures { OnOk result (text.new.items ≡ text.old.items ++ spec.later_line found.now) }
{
    let Some(store) = found.later else {
        return Ok(());
    };
    push_named(text, b"later ", found.place as u128)?;
    push_access(text, b" store ", Some(store))?;
    push_text(text, b"\n")
}

/// The line that says that the causer's attempt was itself undone, if it was.
#[tactic(auto, using(crate::proofs::Joining::joined), unfolding(crate::specs::Lines::vain_line))]
fn push_vain(text: &mut Vec<u8>, found: &Finding) -> Result<(), AllocError>
    ensures { OnOk result (text.new.items ≡ text.old.items ++ spec.vain_line found.now) }
{
    let Some(what) = found.undoing else {
        return Ok(());
    };
    push_named(text, b"vain ", found.place as u128)?;
    push_word(text, b" ", undoing_name(what).as_bytes())?;
    push_text(text, b"\n")
}

/// The line that says that the victim's epoch was cancelled before its core began it again, if it was.
#[tactic(auto, using(crate::proofs::Joining::joined), unfolding(crate::specs::Lines::moot_line))]
fn push_moot(text: &mut Vec<u8>, found: &Finding) -> Result<(), AllocError>
    ensures { OnOk result (text.new.items ≡ text.old.items ++ spec.moot_line found.now) }
{
    if !found.moot {
        return Ok(());
    }
    push_named(text, b"moot ", found.place as u128)?;
    push_text(text, b"\n")
}

/// All that is told of one violation, with its further runs, at the end of a text.
#[tactic(auto, using(crate::proofs::Joining::joined), unfolding(crate::specs::Lines::violation_lines))]
pub(crate) fn push_violation(
    text: &mut Vec<u8>,
    found: &Finding,
    further: &[FurtherRun],
) -> Result<(), AllocError>
    ensures { OnOk result (text.new.items ≡ text.old.items ++ spec.violation_lines found.now further.now) }
{
    push_hurt(text, found)?;
    push_further(text, found.place, further)?;
    push_later(text, found)?;
    push_vain(text, found)?;
    push_moot(text, found)
}
