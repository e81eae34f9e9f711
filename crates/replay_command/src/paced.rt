//! Runs whose turns the program takes by its own pace, over any store, reader and writers.
ghost use Rattle.std.specs.Prelude.{◌≡◌, ◌≤◌, ◌+◌, ◌++◌, ℕ, List, MatchResult, IfOk};
ghost use Rattle.rv32_image.specs.Input.{TakesAtMost};
ghost use Rattle.rv32_image.specs.ImageText.{longest_image_text};
ghost use Rattle.rv32_image.specs.Reading.{ForText};
ghost use Rattle.trace_commands.specs.Outcome.{Conclusion};
ghost use Rattle.homefree.specs.LockView.{loop_of};
ghost use Rattle.even_speed.specs.Even.{pacing_of};
ghost use Rattle.all_schedules.specs.Made.{the_loop};
ghost use Rattle.replay_command.specs.Settings.{loop_with};
ghost use Rattle.replay_command.specs.SurveyText.{turns_line};
ghost use Rattle.replay_command.specs.Shown.{IsShown};
ghost use Rattle.replay_command.specs.Paced as spec;

use crate::core_count::CoreCount;
use crate::print::print_book;
use crate::settings::Settings;
use crate::text::push_turns;
use all_schedules::{LoopOn, holds_at, holds_in_order, run_evenly, run_seeded};
use epoch_paths::Pieces;
use even_speed::Terms;
use homefree::{Book, TurnFault};
use run_command::runnable;
use rv32_image::{Image, read_image};
use std::alloc::{AllocError, Global};
use std::io::{Read, Write};
use trace_commands::{CommandStop, Outcome, write_whole};
use turn_costs::{Costs, PricedStore};
use violations::EpochStore;

/// What says whose turn is next.
#[derive(Clone, Copy)]
pub enum Pace {
    /// Even speed, where turns cost this, or nothing.
    Even(Option<Costs>),
    /// The same, where loads wait for what earlier epochs store in these pieces of memory in order.
    Held(Pieces, Option<Costs>),
    /// What SplitMix64 draws from this seed.
    Seeded(u64),
}

/// What a run by its own pace is asked for.
#[derive(Clone, Copy)]
pub struct PaceAsked {
    pub pace: Pace,
    pub cores: CoreCount,
    pub settings: Settings,
}

/// Runs the image that the reader gives by this pace, at even speed with loads at these addresses of code that wait, over a fresh store, and
/// writes the line of its turns, and below it what `do_replay` writes of them.
///
/// The status is 0 where the loop is done or exited, or the most turns were drawn before; 1 where an epoch faulted; 2 where the image,
/// the machine or the number of cores is refused; 3 where the history is full, memory ran out or a write failed. With 2 and 3 one line on the error
/// stream says which. All that is written was made before the first byte: after a failed write a prefix of it was written.
pub fn do_paced<S: PricedStore, R: Read, W: Write, E: Write>(
    alloc: Global,
    addresses: &[u32],
    asked: PaceAsked,
    reader: &mut R,
    writer: &mut W,
    errors: &mut E,
) -> u8
    ensures outcome { ForText (R.remaining reader.old) (λ text.
        Conclusion (spec.IsPacedOutcome S.starts S.makes S.view S.waits S.prices S.keeps addresses.now asked.pace asked.cores asked.settings text (W.contents writer.old) (W.contents writer.new)) (E.contents errors.old) (E.contents errors.new) result) }
    ensures taken { TakesAtMost (R.remaining reader.old) (R.remaining reader.new) (longest_image_text + 1) }
{
    paced_input::<S, R, W>(alloc, addresses, asked, reader, writer).conclude(errors)
}

/// Runs an input, all but its line on the error stream.
fn paced_input<S: PricedStore, R: Read, W: Write>(
    alloc: Global,
    addresses: &[u32],
    asked: PaceAsked,
    reader: &mut R,
    writer: &mut W,
) -> Outcome
    ensures outcome { ForText (R.remaining reader.old) (λ text.
        spec.IsPacedOutcome S.starts S.makes S.view S.waits S.prices S.keeps addresses.now asked.pace asked.cores asked.settings text (W.contents writer.old) (W.contents writer.new) result) }
    ensures taken { TakesAtMost (R.remaining reader.old) (R.remaining reader.new) (longest_image_text + 1) }
{
    let PaceAsked {
        pace,
        cores,
        settings,
    } = asked;
    match read_image(alloc, reader) {
        Ok(image) => paced_image::<S, W>(alloc, addresses, pace, image, cores, settings, writer),
        Err(fault) => Outcome::of_fault(fault),
    }
}

fn paced_image<S: PricedStore, W: Write>(
    alloc: Global,
    addresses: &[u32],
    pace: Pace,
    image: Image,
    cores: CoreCount,
    settings: Settings,
    writer: &mut W,
) -> Outcome
    ensures { spec.IsPacedOf S.starts S.makes S.view S.waits S.prices S.keeps addresses.now pace (loop_with image cores settings) (W.contents writer.old) (W.contents writer.new) result }
{
    let count = cores.count();
    let Some(image) = runnable(image, settings.asked, count) else {
        return Outcome::Usage;
    };
    let on = LoopOn {
        image: &image,
        cores: count,
        room: settings.room,
    };
    let (outcome, printed) = match show_paced::<S>(alloc, addresses, pace, &on) {
        Ok(shown) => shown,
        Err(cause) => return Outcome::Stopped(cause),
    };
    if write_whole(writer, printed.as_slice()) {
        outcome
    } else {
        Outcome::Stopped(CommandStop::Write)
    }
}

/// Runs by this pace, and shows what the turns made.
fn show_paced<S: PricedStore>(
    alloc: Global,
    addresses: &[u32],
    pace: Pace,
    on: &LoopOn<'_>,
) -> Result<(Outcome, Vec<u8>), CommandStop>
    ensures { MatchResult result (λ shown. spec.IsPacedText S.starts S.makes S.view S.waits S.prices S.keeps addresses.now pace (the_loop on.now) shown.0 shown.1.items)
        (spec.IsPacedStop S.starts S.makes S.view S.waits S.prices S.keeps addresses.now pace (the_loop on.now)) }
{
    match pace {
        Pace::Even(costs) => show_even::<S>(alloc, addresses, costs, on),
        Pace::Held(pieces, costs) => show_held::<S>(alloc, pieces, costs, on),
        Pace::Seeded(seed) => show_seeded::<S>(alloc, seed, on),
    }
}

/// Runs at even speed, and shows what the turns made.
fn show_even<S: PricedStore>(
    alloc: Global,
    addresses: &[u32],
    costs: Option<Costs>,
    on: &LoopOn<'_>,
) -> Result<(Outcome, Vec<u8>), CommandStop>
    ensures { MatchResult result (λ shown. spec.IsPacedText S.starts S.makes S.view S.waits S.prices S.keeps addresses.now (Pace.Even costs) (the_loop on.now) shown.0 shown.1.items)
        (spec.IsPacedStop S.starts S.makes S.view S.waits S.prices S.keeps addresses.now (Pace.Even costs) (the_loop on.now)) }
{
    let Ok(holds) = holds_at(alloc, addresses) else {
        return Err(CommandStop::NoMemory);
    };
    let terms = Terms {
        holds,
        queues: addresses.is_empty(),
        costs,
    };
    show_run::<S>(alloc, &terms, on)
}

/// Runs at even speed, where loads wait for what earlier epochs store in order, and shows what the turns made.
fn show_held<S: PricedStore>(
    alloc: Global,
    pieces: Pieces,
    costs: Option<Costs>,
    on: &LoopOn<'_>,
) -> Result<(Outcome, Vec<u8>), CommandStop>
    ensures { (addresses : List ℕ) → MatchResult result (λ shown. spec.IsPacedText S.starts S.makes S.view S.waits S.prices S.keeps addresses (Pace.Held pieces costs) (the_loop on.now) shown.0 shown.1.items)
        (spec.IsPacedStop S.starts S.makes S.view S.waits S.prices S.keeps addresses (Pace.Held pieces costs) (the_loop on.now)) }
{
    let Ok(holds) = holds_in_order(alloc, on.image, pieces) else {
        return Err(CommandStop::NoMemory);
    };
    let terms = Terms {
        holds,
        queues: false,
        costs,
    };
    show_run::<S>(alloc, &terms, on)
}

/// Runs at even speed, on these terms, and shows what the turns made.
fn show_run<S: PricedStore>(
    alloc: Global,
    terms: &Terms,
    on: &LoopOn<'_>,
) -> Result<(Outcome, Vec<u8>), CommandStop>
    ensures { MatchResult result (λ shown. spec.IsEvenText S.starts S.makes S.view S.waits S.keeps (pacing_of S.prices terms.now) (the_loop on.now) shown.0 shown.1.items)
        (spec.IsEvenStop S.starts S.makes S.view S.waits S.keeps (pacing_of S.prices terms.now) (the_loop on.now)) }
{
    match run_evenly::<S>(alloc, on, terms) {
        Ok(made) => match print_turns(alloc, on, made.schedule.as_slice(), &made.book) {
            Ok(shown) => Ok(shown),
            Err(AllocError) => Err(CommandStop::NoMemory),
        },
        Err(TurnFault::HistoryFull) => Err(CommandStop::HistoryFull),
        Err(TurnFault::NoMemory) => Err(CommandStop::NoMemory),
    }
}

/// Takes the turns that the seed draws, and shows what the turns made.
fn show_seeded<S: PricedStore>(
    alloc: Global,
    seed: u64,
    on: &LoopOn<'_>,
) -> Result<(Outcome, Vec<u8>), CommandStop>
    ensures { (addresses : List ℕ) → MatchResult result (λ shown. spec.IsPacedText S.starts S.makes S.view S.waits S.prices S.keeps addresses (Pace.Seeded seed) (the_loop on.now) shown.0 shown.1.items)
        (spec.IsPacedStop S.starts S.makes S.view S.waits S.prices S.keeps addresses (Pace.Seeded seed) (the_loop on.now)) }
{
    match run_seeded::<S>(alloc, on, seed) {
        Ok(made) => match print_turns(alloc, on, made.schedule.as_slice(), &made.book) {
            Ok(shown) => Ok(shown),
            Err(AllocError) => Err(CommandStop::NoMemory),
        },
        Err(TurnFault::HistoryFull) => Err(CommandStop::HistoryFull),
        Err(TurnFault::NoMemory) => Err(CommandStop::NoMemory),
    }
}

/// The line of these turns, and below it what is printed of the book.
fn print_turns<S: EpochStore>(
    alloc: Global,
    on: &LoopOn<'_>,
    schedule: &[u32],
    book: &Book<S>,
) -> Result<(Outcome, Vec<u8>), AllocError>
    requires same { loop_of book.now ≡ the_loop on.now }
    ensures { IfOk result (λ shown. (below : List ℕ) × IsShown on.now.image.now on.now.cores book.now.history shown.0 below
        × (shown.1.items ≡ turns_line schedule.now ++ below)) }
{
    let shown = print_book(alloc, on, book)?;
    let mut text = Vec::new(alloc);
    push_turns(&mut text, schedule)?;
    text.extend_from_slice(shown.1.as_slice())?;
    Ok((shown.0, text))
}
