//! An image with a trace below it, as the commands read them that take both.
ghost use Rattle.std.specs.Prelude.{◌≤◌, ◌+◌, MatchResult, length};
ghost use Rattle.rv32_image.specs.Input.{TakesAtMost};
ghost use Rattle.rv32_image.specs.Reading.{ForText};
ghost use Rattle.trace_text.specs.TraceText.{longest_trace_text};
ghost use Rattle.trace_commands.specs.Audit as spec;

use crate::outcome::Outcome;
use rv32_exec::{Image, image_of, read_input};
use spec_history::Entry;
use std::alloc::Global;
use std::io::Read;
use trace_text::{LONGEST_TRACE_TEXT, TraceFault, image_part, read_trace};

/// An image, and the trace of a run of it.
#[derive(Drop)]
pub struct Traced {
    /// The image.
    pub image: Image,
    /// How many cores ran it.
    pub cores: u32,
    /// The history of the run.
    pub entries: Vec<Entry>,
}

/// Reads an image and the trace below it.
///
/// An Err is what a command comes to that needs them: the input is too long or a read failed, or the image or the trace is
/// refused, or memory ran out. At most one byte past the limit is read.
pub fn read_traced<R: Read>(alloc: Global, reader: &mut R) -> Result<Traced, Outcome>
    ensures said { ForText (R.remaining reader.old) (λ text.
        MatchResult result (λ t. spec.IsTracedBy text t.image t.cores t.entries.items) (spec.IsNoVerdict text)) }
    ensures taken { TakesAtMost (R.remaining reader.old) (R.remaining reader.new) (longest_trace_text + 1) }
{
    match read_input(alloc, reader, LONGEST_TRACE_TEXT) {
        Ok(text) => traced_in(alloc, text.as_slice()),
        Err(fault) => Err(Outcome::of_trace_fault(TraceFault::from(fault))),
    }
}

/// The image and the trace of an input.
///
/// An Err is what a command comes to that needs them: the image or the trace is refused, or memory ran out.
pub fn traced_in(alloc: Global, text: &[u8]) -> Result<Traced, Outcome>
    requires { length text.now ≤ longest_trace_text }
    ensures { MatchResult result (λ t. spec.IsTracedBy text.now t.image t.cores t.entries.items) (spec.IsNoVerdict text.now) }
{
    let image = match image_of(alloc, image_part(text)) {
        Ok(image) => image,
        Err(fault) => return Err(Outcome::of_fault(fault)),
    };
    let (cores, entries) = match read_trace(alloc, text, image.version()) {
        Ok(trace) => trace,
        Err(fault) => return Err(Outcome::of_trace_fault(fault)),
    };
    Ok(Traced {
        image,
        cores,
        entries,
    })
}
