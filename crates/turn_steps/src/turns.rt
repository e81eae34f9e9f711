//! The head of a turn.
ghost use Rattle.std.specs.Prelude.{◌≡◌, ◌++◌, OnOk};
ghost use Rattle.turn_steps.specs.Stepped.{entries_text, step_entry};
ghost use Rattle.turn_steps.specs.Turns as spec;

use homefree::{Answer, Cause};
use itoa::Buffer;
use rv32_exec::End;
use spec_history::Entry;
use std::alloc::AllocError;
use trace_text::{push_entry, push_hex, push_number};

/// Adds the line of a turn: its number, its core, and what it was answered.
///
/// `AllocError`: memory ran out. Some of the text may be there.
#[tactic(auto, unfolding(crate::specs::Turns::turn_line))]
pub fn push_turn(
    text: &mut Vec<u8>,
    number: usize,
    core: u32,
    answer: &Answer,
) -> Result<(), AllocError>
    ensures { OnOk result (text.new.items ≡ text.old.items ++ spec.turn_line number core answer.now) }
{
    text.extend_from_slice(b"turn ")?;
    text.extend_from_slice(Buffer::new().format(number).as_bytes())?;
    text.extend_from_slice(b" ")?;
    push_number(text, core)?;
    text.extend_from_slice(b" ")?;
    push_answer(text, answer)?;
    text.extend_from_slice(b"\n")
}

/// Adds what a turn was answered.
fn push_answer(text: &mut Vec<u8>, answer: &Answer) -> Result<(), AllocError>
    ensures { OnOk result (text.new.items ≡ text.old.items ++ spec.answer_text answer.now) }
{
    match answer {
        Answer::Go(_) => text.extend_from_slice(b"go"),
        Answer::Again(cause) => {
            text.extend_from_slice(b"again ")?;
            text.extend_from_slice(cause_name(*cause).as_bytes())
        }
        Answer::Left => text.extend_from_slice(b"left"),
        Answer::Over(end) => {
            text.extend_from_slice(b"over ")?;
            push_end(text, *end)
        }
        Answer::Stopped(_) => text.extend_from_slice(b"stopped"),
    }
}

/// Why a core has to come again: the name of the variant.
fn cause_name(cause: Cause) -> &'static str
    ensures { result.now ≡ spec.cause_name cause }
{
    match cause {
        Cause::NoEpoch => "NoEpoch",
        Cause::NotHomefree => "NotHomefree",
        Cause::NoWay => "NoWay",
        Cause::OrbFull => "OrbFull",
        Cause::OrbBusy => "OrbBusy",
    }
}

/// Adds the end of a loop.
fn push_end(text: &mut Vec<u8>, end: End) -> Result<(), AllocError>
    ensures { OnOk result (text.new.items ≡ text.old.items ++ spec.end_text end) }
{
    match end {
        End::Done(epochs) => {
            text.extend_from_slice(b"done ")?;
            push_number(text, epochs)
        }
        End::Exit(epoch) => {
            text.extend_from_slice(b"exit ")?;
            push_number(text, epoch)
        }
        End::Fault { epoch, cause, pc } => {
            text.extend_from_slice(b"fault ")?;
            push_number(text, epoch)?;
            text.extend_from_slice(b" ")?;
            push_number(text, cause)?;
            text.extend_from_slice(b" ")?;
            push_hex(text, &pc.to_be_bytes())
        }
    }
}

/// Adds a line for each entry of a turn.
///
/// `AllocError`: memory ran out. Some of the text may be there.
pub fn push_entries(text: &mut Vec<u8>, entries: &[Entry]) -> Result<(), AllocError>
    ensures { OnOk result (text.new.items ≡ text.old.items ++ entries_text entries.now) }
{
    for entry in entries {
        push_step_entry(text, *entry)?;
    }
    Ok(())
}

fn push_step_entry(text: &mut Vec<u8>, entry: Entry) -> Result<(), AllocError>
    ensures { OnOk result (text.new.items ≡ text.old.items ++ step_entry entry) }
{
    text.extend_from_slice(b"entry ")?;
    push_entry(text, entry)
}
