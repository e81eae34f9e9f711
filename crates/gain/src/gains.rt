//! What the loop of an image gains, over any reader and writers.
ghost use Rattle.std.specs.Prelude.{◌≡◌, ◌≤◌, ◌+◌, IfOk, MatchResult, map};
ghost use Rattle.rv32_image.specs.Input.{TakesAtMost};
ghost use Rattle.rv32_image.specs.ImageText.{longest_image_text};
ghost use Rattle.rv32_image.specs.Reading.{ForText};
ghost use Rattle.replay_command.specs.Stores.{RunsOnAll};
ghost use Rattle.gain.specs.Gains as spec;

use crate::limit_lines::push_limits;
use crate::stores::push_stores;
use all_schedules::Room;
use replay_command::{CoreCount, StoreWords, check_stores};
use rv32_image::{Image, read_image};
use std::alloc::{AllocError, Global};
use std::convert::AsStr;
use std::io::{Read, Write};
use trace_commands::{CommandStop, Outcome, write_whole};
use turn_costs::Costs;

/// What is asked about a loop.
#[derive(Drop)]
pub struct Study {
    /// The most cores that it runs on.
    pub cores: CoreCount,
    /// How many entries the history of a run may have.
    pub room: Room,
    /// Whether runs in which loads wait for what earlier epochs store are asked too.
    pub held: bool,
    /// Whether what its dependences allow is asked too.
    pub limits: bool,
    /// What turns cost. None: nothing.
    pub costs: Option<Costs>,
    /// Whether it is asked too up to which costs it gains.
    pub even: bool,
}

/// Runs the image that the reader gives at even speed on 1, 2, 4, 8 cores, as far as these are fewer than the cores, and on the cores, over
/// each of these stores, where loads at these addresses of code wait and turns cost what is asked. It writes a line for each run, and one for
/// that in which loads wait for what earlier epochs store, where those are asked for; below them a line of the limits for each number of cores,
/// where they are asked for.
///
/// The status is 0 where that was written; 2 where the image, a machine or the number of cores is refused; 3 where memory ran out or a
/// write failed. With 2 and 3 one line on the error stream says which. All that is written was made before the first byte: after a
/// failed write a prefix of it was written.
pub fn do_gain<S: AsStr, R: Read, W: Write, E: Write>(
    alloc: Global,
    study: &Study,
    addresses: &[u32],
    stores: &StoreWords<'_, S>,
    reader: &mut R,
    writer: &mut W,
    errors: &mut E,
) -> u8
    ensures outcome { ForText (R.remaining reader.old) (λ text. spec.GainAnswers study.now addresses.now (map S.text stores.now.words.now) text
        (record { old = W.contents writer.old; new = W.contents writer.new }) (record { old = E.contents errors.old; new = E.contents errors.new }) result) }
    ensures taken { TakesAtMost (R.remaining reader.old) (R.remaining reader.new) (longest_image_text + 1) }
{
    match gains_of_input(alloc, study, addresses, stores, reader, writer) {
        Ok(()) => 0,
        Err(outcome) => outcome.conclude(errors),
    }
}

/// All but the line on the error stream.
fn gains_of_input<S: AsStr, R: Read, W: Write>(
    alloc: Global,
    study: &Study,
    addresses: &[u32],
    stores: &StoreWords<'_, S>,
    reader: &mut R,
    writer: &mut W,
) -> Result<(), Outcome>
    ensures outcome { ForText (R.remaining reader.old) (λ text. MatchResult result
        (λ _. spec.IsWritten study.now addresses.now (map S.text stores.now.words.now) text (W.contents writer.old) (W.contents writer.new))
        (spec.IsUnwritten study.now addresses.now (map S.text stores.now.words.now) text (W.contents writer.old) (W.contents writer.new))) }
    ensures taken { TakesAtMost (R.remaining reader.old) (R.remaining reader.new) (longest_image_text + 1) }
{
    match read_image(alloc, reader) {
        Ok(image) => gains_of_image(alloc, &image, study, addresses, stores, writer),
        Err(fault) => Err(Outcome::of_fault(fault)),
    }
}

fn gains_of_image<S: AsStr, W: Write>(
    alloc: Global,
    image: &Image,
    study: &Study,
    addresses: &[u32],
    stores: &StoreWords<'_, S>,
    writer: &mut W,
) -> Result<(), Outcome>
    ensures { MatchResult result (λ _. spec.IsWrittenOf image.now study.now addresses.now (map S.text stores.now.words.now) (W.contents writer.old) (W.contents writer.new))
        (spec.IsUnwrittenOf image.now study.now addresses.now (map S.text stores.now.words.now) (W.contents writer.old) (W.contents writer.new)) }
{
    check_stores(image, study.cores, stores.words)?;
    let Ok(text) = text_of(alloc, image, study, addresses, stores.words) else {
        return Err(Outcome::Stopped(CommandStop::NoMemory));
    };
    if write_whole(writer, text.as_slice()) {
        Ok(())
    } else {
        Err(Outcome::Stopped(CommandStop::Write))
    }
}

/// The lines of these stores, and those of the limits, where they are asked for.
fn text_of<S: AsStr>(
    alloc: Global,
    image: &Image,
    study: &Study,
    addresses: &[u32],
    stores: &[S],
) -> Result<Vec<u8>, AllocError>
    requires stores { RunsOnAll image.now study.now.cores (map S.text stores.now) }
    ensures { IfOk result (λ text. spec.IsText image.now study.now addresses.now (map S.text stores.now) text.items) }
{
    let mut text = Vec::new(alloc);
    push_stores(alloc, &mut text, image, study, addresses, stores)?;
    if study.limits {
        push_limits(alloc, &mut text, image, study.cores)?;
    }
    Ok(text)
}
