ghost use Rattle.std.specs.Prelude.{◌≡◌, ◌<◌, ◌^◌, ◌++◌, IfOk, OnOk, decimal};
ghost use Rattle.trace_text.specs.Laws.{AreEntries, IsWhat};
ghost use Rattle.trace_text.specs.Printing as spec;

use crate::digits::{push_hex, push_number};
use rv32_image::NoMemory;
use spec_history::{Entry, What};
use std::alloc::{AllocError, Global};

/// The text of a trace: the head `trace CORES`, and a line for each entry of the history, in order.
///
/// `NoMemory`: memory ran out, and nothing was made.
pub fn print_trace(alloc: Global, cores: u32, entries: &[Entry]) -> Result<Vec<u8>, NoMemory>
    ensures text { IfOk result (λ text. text.items ≡ spec.printed_trace cores entries.now) }
    ensures numbers { OnOk result (AreEntries entries.now) }
{
    trace_lines(alloc, cores, entries).map_err(|_| NoMemory)
}

#[tactic(auto, unfolding(crate::specs::Printing::printed_trace, crate::specs::Printing::head_line))]
fn trace_lines(alloc: Global, cores: u32, entries: &[Entry]) -> Result<Vec<u8>, AllocError>
    ensures text { IfOk result (λ text. text.items ≡ spec.printed_trace cores entries.now) }
    ensures numbers { OnOk result (AreEntries entries.now) }
{
    let mut text = Vec::from_slice(alloc, b"trace ")?;
    push_number(&mut text, cores)?;
    text.extend_from_slice(b"\n")?;
    for entry in entries {
        push_entry(&mut text, *entry)?;
    }
    Ok(text)
}

/// Adds the line of an entry: its core, and what it says.
///
/// `AllocError`: memory ran out. Some of the line may be there.
#[tactic(auto, unfolding(crate::specs::Printing::entry_line))]
pub fn push_entry(text: &mut Vec<u8>, entry: Entry) -> Result<(), AllocError>
    ensures text { OnOk result (text.new.items ≡ text.old.items ++ spec.entry_line entry) }
    ensures numbers { (entry.by < 2 ^ 32) × IsWhat entry.what }
{
    push_number(text, entry.by)?;
    text.extend_from_slice(b" ")?;
    push_what(text, entry.what)?;
    text.extend_from_slice(b"\n")
}

/// What an entry says.
fn push_what(text: &mut Vec<u8>, what: What) -> Result<(), AllocError>
    ensures text { OnOk result (text.new.items ≡ text.old.items ++ spec.what_text what) }
    ensures numbers { IsWhat what }
{
    match what {
        What::Start(epoch) => push_named(text, b"start ", epoch),
        What::Load { addr, width, value } => push_access(text, b"load ", addr, width, value),
        What::Store { addr, width, value } => push_access(text, b"store ", addr, width, value),
        What::Hurt(epoch) => push_named(text, b"hurt ", epoch),
        What::Cancel(epoch) => push_named(text, b"cancel ", epoch),
        What::Restart => text.extend_from_slice(b"restart"),
        What::Publish => text.extend_from_slice(b"publish"),
        What::Commit => text.extend_from_slice(b"commit"),
        What::Fault { cause, pc } => {
            push_named(text, b"fault ", cause)?;
            text.extend_from_slice(b" ")?;
            push_hex(text, &pc.to_be_bytes())
        }
    }
}

/// A word and a number.
fn push_named(text: &mut Vec<u8>, word: &[u8], n: u32) -> Result<(), AllocError>
    ensures { OnOk result (text.new.items ≡ text.old.items ++ (word.now ++ decimal n)) }
{
    text.extend_from_slice(word)?;
    push_number(text, n)
}

/// A word and the parts of an access.
fn push_access(
    text: &mut Vec<u8>,
    word: &[u8],
    address: u32,
    width: u32,
    value: u32,
) -> Result<(), AllocError>
    ensures { OnOk result (text.new.items ≡ text.old.items ++ (word.now ++ spec.access_text address width value)) }
{
    text.extend_from_slice(word)?;
    push_hex(text, &address.to_be_bytes())?;
    text.extend_from_slice(b" ")?;
    push_number(text, width)?;
    text.extend_from_slice(b" ")?;
    push_hex(text, &value.to_be_bytes())
}
