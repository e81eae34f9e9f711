ghost use Rattle.std.specs.Prelude.{◌≡◌, ◌<◌, ◌+◌, ◌^◌, IfOk, length, Ok};
ghost use Rattle.rv32_image.specs.ImageText.{is_remark, pieces};
ghost use Rattle.rv32_image.specs.Cutting.{pieces_after};
ghost use Rattle.trace_text.specs.TraceText as spec;
ghost use Rattle.trace_text.specs.Front.{below, first_line};
ghost use Rattle.trace_text.specs.Reading.{Answers};

use crate::entry::{entry_at, number};
use crate::fault::{LONGEST_TRACE_TEXT, TraceFault, TraceFaultKind};
use rv32_image::{NumberedLines, Version, Words, cut, parts_of, words_of};
use spec_history::Entry;
use std::alloc::Global;

/// The image of a text: all before the first line that begins with `trace` and a space, and without such a line the whole text.
#[tactic(auto, unfolding(crate::specs::TraceText::image_part))]
pub fn image_part(text: &[u8]) -> &[u8]
    ensures { result.now ≡ spec.image_part text.now }
{
    parts_of(text, b"trace ").image
}

/// The trace below an image of this version: how many cores, and the entries. Lines are counted over the whole text.
///
/// The fault is the first one in line order: `Head` where no line begins with `trace` and a space (line 0), or where the
/// first that does has another form than `trace CORES`, with 1 to 8 cores, in version 2 to 16; `Line` where a line below it
/// is no entry. A text of more than 33,554,432 bytes is `TooLong`, on line 0. `NoMemory`, on line 0, ends the reading where
/// memory was refused. It never answers `Read`.
#[tactic(auto, unfolding(crate::specs::TraceText::trace_text))]
pub fn read_trace(
    alloc: Global,
    text: &[u8],
    version: Version,
) -> Result<(u32, Vec<Entry>), TraceFault>
    ensures { Answers (λ read. record { cores = read.0; entries = read.1.items }) result (spec.trace_text version text.now) }
{
    if text.len() > LONGEST_TRACE_TEXT {
        return Err(TraceFault {
            line: 0,
            kind: TraceFaultKind::TooLong,
        });
    }
    let mut lines = parts_of(text, b"trace ").below;
    let Some((number, head)) = lines.next() else {
        return Err(TraceFault {
            line: 0,
            kind: TraceFaultKind::Head,
        });
    };
    let Some(cores) = cores_in(version, head) else {
        return Err(TraceFault {
            line: number as u32,
            kind: TraceFaultKind::Head,
        });
    };
    let entries = read_lines(alloc, lines)?;
    Ok((cores, entries))
}

/// How many cores a head gives, which the version allows.
#[tactic(auto, unfolding(crate::specs::TraceText::cores_in))]
fn cores_in(version: Version, head: &[u8]) -> Option<u32>
    ensures { result ≡ spec.cores_in version (pieces 32 head.now) }
{
    let Words::Two(_, word) = words_of(head) else {
        return None;
    };
    let cores = number(word)?;
    if 1 <= cores && cores <= version.limits().most_cores {
        Some(cores)
    } else {
        None
    }
}

/// The entries of the lines that are left.
#[inline(never)]
fn read_lines(alloc: Global, mut lines: NumberedLines) -> Result<Vec<Entry>, TraceFault>
    requires { lines.number + length (pieces_after 10 lines.rest) < 2 ^ 32 }
    ensures { Answers (λ entries. entries.items) result (spec.lines_read lines.entry.number (pieces_after 10 lines.entry.rest)) }
{
    let mut entries = Vec::new(alloc);
    while let Some((number, text)) = lines.ahead() {
        let rest = push_line(&mut entries, number as u32, text)?;
        lines.pass(rest);
    }
    Ok(entries)
}

/// Adds the entry of the first line of a text, where it is no remark. The text below that line, if there is one.
#[tactic(auto, unfolding(crate::specs::TraceText::line_read, crate::specs::Front::words_in))]
fn push_line<'a>(
    entries: &mut Vec<Entry>,
    number: u32,
    text: &'a [u8],
) -> Result<Option<&'a [u8]>, TraceFault>
    ensures reads { Answers (λ _. entries.new.items) result (spec.joined (Ok entries.old.items) (spec.line_read number (first_line text.now))) }
    ensures below { IfOk result (λ rest. pieces_after 10 rest ≡ below text.now) }
{
    if is_remark_at(text) {
        return Ok(cut(text, b'\n').1);
    }
    let Some((entry, rest)) = entry_at(text) else {
        return Err(TraceFault {
            line: number,
            kind: TraceFaultKind::Line,
        });
    };
    match entries.push(entry) {
        Ok(()) => Ok(rest),
        Err(_) => Err(TraceFault {
            line: 0,
            kind: TraceFaultKind::NoMemory,
        }),
    }
}

/// Whether the first line of a text is a remark.
fn is_remark_at(text: &[u8]) -> bool
    ensures { result ≡ is_remark (first_line text.now) }
{
    if text.is_empty() {
        return true;
    }
    text[0] == b'\n' || text[0] == b'#'
}
