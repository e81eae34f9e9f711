//! What is printed of a survey.
ghost use Rattle.std.specs.Prelude.{◌≡◌, ◌<◌, ◌++◌, IfOk, IfSome, OnOk, length};
ghost use Rattle.all_schedules.specs.Schedules.{lists_of};
ghost use Rattle.replay_command.specs.SurveyText as spec;

use crate::survey::{Extreme, Survey};
use itoa::Buffer;
use rv32_exec::{Image, run_in_order};
use std::alloc::{AllocError, Global};
use trace_commands::print_report;

/// The text of a survey of these schedules: how many there are, how many of them are over, and how many different histories they
/// make; the fewest and the most restarts of those that are over, each with a schedule; and the report of the sequential loop.
///
/// `AllocError`: memory ran out.
#[tactic(auto, unfolding(crate::specs::SurveyText::survey_text))]
pub fn print_survey(
    alloc: Global,
    image: &Image,
    schedules: &[Vec<u32>],
    survey: &Survey,
) -> Result<Vec<u8>, AllocError>
    requires least { IfSome survey.now.least (λ e. e.place < length schedules.now) }
    requires most { IfSome survey.now.most (λ e. e.place < length schedules.now) }
    ensures { IfOk result (λ text. text.items ≡ spec.survey_text image.now (lists_of schedules.now) survey.now) }
{
    let mut text = Vec::new(alloc);
    push_counts(&mut text, schedules.len(), survey)?;
    push_extreme(&mut text, b"least ", schedules, survey.least)?;
    push_extreme(&mut text, b"most ", schedules, survey.most)?;
    push_end(alloc, &mut text, image, survey.least)?;
    Ok(text)
}

/// How many schedules there are, how many are over, and how many histories they make.
fn push_counts(text: &mut Vec<u8>, schedules: usize, survey: &Survey) -> Result<(), AllocError>
    ensures { OnOk result (text.new.items ≡ text.old.items ++ spec.counts_lines schedules survey.now) }
{
    push_line(text, b"schedules ", schedules as u64)?;
    push_line(text, b"over ", survey.over as u64)?;
    push_line(text, b"histories ", survey.traces.len() as u64)
}

/// A name, which ends with a space, and a number in decimal digits.
fn push_line(text: &mut Vec<u8>, name: &[u8], n: u64) -> Result<(), AllocError>
    ensures { OnOk result (text.new.items ≡ text.old.items ++ spec.number_line name.now n) }
{
    text.extend_from_slice(name)?;
    text.extend_from_slice(Buffer::new().format(n).as_bytes())?;
    text.extend_from_slice(b"\n")
}

/// How many restarts, and a schedule with so many.
fn push_extreme(
    text: &mut Vec<u8>,
    name: &[u8],
    schedules: &[Vec<u32>],
    extreme: Option<Extreme>,
) -> Result<(), AllocError>
    requires { IfSome extreme (λ e. e.place < length schedules.now) }
    ensures { OnOk result (text.new.items ≡ text.old.items ++ spec.extreme_lines name.now (lists_of schedules.now) extreme) }
{
    let Some(extreme) = extreme else {
        return Ok(());
    };
    push_line(text, name, extreme.restarts)?;
    push_turns(text, schedules[extreme.place].as_slice())
}

/// Adds a line of turns.
///
/// `AllocError`: memory ran out.
pub fn push_turns(text: &mut Vec<u8>, schedule: &[u32]) -> Result<(), AllocError>
    ensures { OnOk result (text.new.items ≡ text.old.items ++ spec.turns_line schedule.now) }
{
    text.extend_from_slice(b"turns")?;
    push_cores(text, schedule)?;
    text.extend_from_slice(b"\n")
}

fn push_cores(text: &mut Vec<u8>, schedule: &[u32]) -> Result<(), AllocError>
    ensures { OnOk result (text.new.items ≡ text.old.items ++ spec.cores_text schedule.now) }
{
    for core in schedule {
        push_core(text, *core)?;
    }
    Ok(())
}

fn push_core(text: &mut Vec<u8>, core: u32) -> Result<(), AllocError>
    ensures { OnOk result (text.new.items ≡ text.old.items ++ spec.core_text core) }
{
    text.extend_from_slice(b" ")?;
    text.extend_from_slice(Buffer::new().format(core).as_bytes())
}

/// The report of the sequential loop, where a schedule is over.
fn push_end(
    alloc: Global,
    text: &mut Vec<u8>,
    image: &Image,
    least: Option<Extreme>,
) -> Result<(), AllocError>
    ensures { OnOk result (text.new.items ≡ text.old.items ++ spec.end_lines image.now least) }
{
    if least.is_none() {
        return Ok(());
    }
    let Ok(ran) = run_in_order(alloc, image) else {
        return Err(AllocError);
    };
    let report = print_report(alloc, image, ran.end(), ran.bytes())?;
    text.extend_from_slice(report.as_slice())
}
