//! Every schedule of so many turns, over any store, reader and writers.
ghost use Rattle.std.specs.Prelude.{◌≡◌, ◌≤◌, ◌+◌, MatchResult};
ghost use Rattle.rv32_image.specs.Input.{TakesAtMost};
ghost use Rattle.rv32_image.specs.ImageText.{longest_image_text};
ghost use Rattle.rv32_image.specs.Reading.{ForText};
ghost use Rattle.all_schedules.specs.Made.{the_loop};
ghost use Rattle.replay_command.specs.Settings.{loop_with};
ghost use Rattle.replay_command.specs.AllSchedules as spec;

use crate::core_count::CoreCount;
use crate::replay::cause_of;
use crate::settings::Settings;
use crate::survey::survey_schedules;
use crate::text::print_survey;
use all_schedules::{LoopOn, every_schedule};
use run_command::runnable;
use rv32_image::{Image, read_image};
use std::alloc::{AllocError, Global};
use std::io::{Read, Write};
use trace_commands::{CommandStop, Outcome, write_whole};
use violations::EpochStore;

/// Drives every schedule of so many turns of the image that the reader gives, and writes what they come to together. The cores are at
/// least 1.
///
/// The status is 0 where that was written; 2 where the image, the machine or the number of cores is refused; 3 where
/// the history of a schedule is full, memory ran out or a write failed. With 2 and 3 one line on the error stream says which. All
/// that is written was made before the first byte: after a failed write a prefix of it was written.
pub fn do_all<S: EpochStore, R: Read, W: Write, E: Write>(
    alloc: Global,
    cores: CoreCount,
    settings: Settings,
    turns: u32,
    reader: &mut R,
    writer: &mut W,
    errors: &mut E,
) -> u8
    ensures outcome { ForText (R.remaining reader.old) (λ text. spec.AllAnswers S.starts S.makes S.view S.waits cores settings turns text
        (record { old = W.contents writer.old; new = W.contents writer.new }) (record { old = E.contents errors.old; new = E.contents errors.new }) result) }
    ensures taken { TakesAtMost (R.remaining reader.old) (R.remaining reader.new) (longest_image_text + 1) }
{
    match all_of_input::<S, R, W>(alloc, cores, settings, turns, reader, writer) {
        Ok(()) => 0,
        Err(outcome) => outcome.conclude(errors),
    }
}

/// All but the line on the error stream.
fn all_of_input<S: EpochStore, R: Read, W: Write>(
    alloc: Global,
    cores: CoreCount,
    settings: Settings,
    turns: u32,
    reader: &mut R,
    writer: &mut W,
) -> Result<(), Outcome>
    ensures outcome { ForText (R.remaining reader.old) (λ text. MatchResult result
        (λ _. spec.IsWritten S.starts S.makes S.view S.waits cores settings turns text (W.contents writer.old) (W.contents writer.new))
        (spec.IsUnwritten S.starts S.makes S.view S.waits cores settings turns text (W.contents writer.old) (W.contents writer.new))) }
    ensures taken { TakesAtMost (R.remaining reader.old) (R.remaining reader.new) (longest_image_text + 1) }
{
    match read_image(alloc, reader) {
        Ok(image) => all_of_image::<S, W>(alloc, image, cores, settings, turns, writer),
        Err(fault) => Err(Outcome::of_fault(fault)),
    }
}

fn all_of_image<S: EpochStore, W: Write>(
    alloc: Global,
    image: Image,
    cores: CoreCount,
    settings: Settings,
    turns: u32,
    writer: &mut W,
) -> Result<(), Outcome>
    ensures { MatchResult result
        (λ _. spec.IsWrittenOf S.starts S.makes S.view S.waits (loop_with image cores settings) turns (W.contents writer.old) (W.contents writer.new))
        (spec.IsUnwrittenOf S.starts S.makes S.view S.waits (loop_with image cores settings) turns (W.contents writer.old) (W.contents writer.new)) }
{
    let count = cores.count();
    let Some(image) = runnable(image, settings.asked, count) else {
        return Err(Outcome::Usage);
    };
    let on = LoopOn {
        image: &image,
        cores: count,
        room: settings.room,
    };
    let printed = match print_all::<S>(alloc, &on, turns) {
        Ok(printed) => printed,
        Err(cause) => return Err(Outcome::Stopped(cause)),
    };
    if write_whole(writer, printed.as_slice()) {
        Ok(())
    } else {
        Err(Outcome::Stopped(CommandStop::Write))
    }
}

/// The text of the survey of every schedule.
fn print_all<S: EpochStore>(
    alloc: Global,
    on: &LoopOn<'_>,
    turns: u32,
) -> Result<Vec<u8>, CommandStop>
    ensures { MatchResult result (λ text. spec.IsAll S.starts S.makes S.view S.waits (the_loop on.now) turns text.items)
        (spec.IsAllStop S.starts S.makes S.view S.waits (the_loop on.now) turns) }
{
    let Ok(all) = every_schedule(alloc, on.cores, turns) else {
        return Err(CommandStop::NoMemory);
    };
    match survey_schedules::<S>(alloc, on, all.as_slice()) {
        Ok(survey) => match print_survey(alloc, on.image, all.as_slice(), &survey) {
            Ok(text) => Ok(text),
            Err(AllocError) => Err(CommandStop::NoMemory),
        },
        Err(fault) => Err(cause_of(fault)),
    }
}
