ghost use Rattle.std.specs.Prelude.{◌≡◌, ◌++◌, IfOk, OnOk, decimal};
ghost use Rattle.rv32_exec.specs.Sequential.{sequential_result};
ghost use Rattle.homefree.specs.Driven.{IsInOrder};
ghost use Rattle.homefree.specs.Missed.{IsOfCaches};
ghost use Rattle.core_threads.specs.Sentence.{Explains, Finishes};
ghost use Rattle.trace_text.specs.Laws.{AreEntries};
ghost use Rattle.trace_text.specs.Printing.{printed_trace};
ghost use Rattle.trace_commands.specs.Report as report_spec;
ghost use Rattle.run_command.specs.Run as spec;

use crate::options::RunOptions;
use core_threads::Finished;
use itoa::Buffer;
use run_ledger::Counts;
use rv32_exec::Image;
use spec_history::Entry;
use std::alloc::{AllocError, Global};
use trace_commands::print_report;
use trace_text::print_trace;
use violations::EpochStore;

/// All that is printed of a run whose loop is over: the report, and with a trace below it the counts and the history.
///
/// `AllocError`: memory ran out, and nothing was made.
pub(crate) fn printed<S: EpochStore>(
    alloc: Global,
    image: &Image,
    options: RunOptions,
    run: &Finished<S>,
) -> Result<Vec<u8>, AllocError>
    requires finishes { Finishes S.view (spec.loop_asked image.now options) run.now.book run.now.end run.now.totals run.now.counted }
    requires explained { Explains S.view run.now.book }
    ensures { IfOk result (λ text. spec.IsPrinted (IsOfCaches S.view) image.now (spec.loop_asked image.now options) options.trace text.items) }
{
    let report = report_of(alloc, image, run)?;
    if !options.trace {
        return Ok(report);
    }
    with_history(
        alloc,
        report,
        options.cores,
        run.counted,
        run.book.history(),
    )
}

/// The report of a run, with committed memory as the memory at its end.
fn report_of<S: EpochStore>(
    alloc: Global,
    image: &Image,
    run: &Finished<S>,
) -> Result<Vec<u8>, AllocError>
    requires image { run.now.book.image ≡ image.now }
    requires in_order { IsInOrder image.now run.now.end (S.view run.now.book.store).committed }
    ensures { IfOk result (λ text. text.items ≡ report_spec.report_of image.now (sequential_result image.now)) }
{
    let bytes = run.book.committed_memory(alloc)?;
    print_report(alloc, image, run.end, bytes.as_slice())
}

/// A report, with the line `counts LOADS STORES RESTARTS COMMITS` and the trace of a history below it.
///
/// `AllocError`: memory ran out.
pub fn with_history(
    alloc: Global,
    report: Vec<u8>,
    cores: u32,
    counts: Counts,
    history: &[Entry],
) -> Result<Vec<u8>, AllocError>
    ensures text { IfOk result (λ text. text.items ≡ report.items ++ spec.counts_line counts ++ printed_trace cores history.now) }
    ensures numbers { OnOk result (AreEntries history.now) }
{
    let trace = trace_of(alloc, cores, history)?;
    with_trace(report, counts, trace.as_slice())
}

/// The text of a history's trace.
fn trace_of(alloc: Global, cores: u32, history: &[Entry]) -> Result<Vec<u8>, AllocError>
    ensures text { IfOk result (λ text. text.items ≡ printed_trace cores history.now) }
    ensures numbers { OnOk result (AreEntries history.now) }
{
    print_trace(alloc, cores, history).map_err(|_| AllocError)
}

/// A report, with the counts and a trace below it.
fn with_trace(report: Vec<u8>, counts: Counts, trace: &[u8]) -> Result<Vec<u8>, AllocError>
    ensures { IfOk result (λ text. text.items ≡ report.items ++ spec.counts_line counts ++ trace.now) }
{
    let mut text = report;
    push_counts(&mut text, counts)?;
    text.extend_from_slice(trace)?;
    Ok(text)
}

/// The line of the counts.
fn push_counts(text: &mut Vec<u8>, counts: Counts) -> Result<(), AllocError>
    ensures { OnOk result (text.new.items ≡ text.old.items ++ spec.counts_line counts) }
{
    text.extend_from_slice(b"counts")?;
    push_count(text, counts.loads)?;
    push_count(text, counts.stores)?;
    push_count(text, counts.restarts)?;
    push_count(text, counts.commits)?;
    text.extend_from_slice(b"\n")
}

/// A space and a number, in decimal digits.
fn push_count(text: &mut Vec<u8>, n: u64) -> Result<(), AllocError>
    ensures { OnOk result (text.new.items ≡ text.old.items ++ spec.counted n) }
{
    text.extend_from_slice(b" ")?;
    text.extend_from_slice(Buffer::new().format(n).as_bytes())
}
