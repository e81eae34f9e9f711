//! What the loop of an image can roll back through, over any reader and writers.
ghost use Rattle.std.specs.Prelude.{◌≡◌, ◌≤◌, ◌+◌, MatchResult, map};
ghost use Rattle.rv32_image.specs.Input.{TakesAtMost};
ghost use Rattle.rv32_image.specs.ImageText.{longest_image_text};
ghost use Rattle.rv32_image.specs.Reading.{ForText};
ghost use Rattle.depends.specs.Answers as spec;

use crate::lines::print_lines;
use all_schedules::Room;
use replay_command::{CoreCount, StoreWords, check_stores};
use rv32_image::{Image, read_image};
use std::alloc::Global;
use std::convert::AsStr;
use std::io::{Read, Write};
use trace_commands::{CommandStop, Outcome, write_whole};

/// Looks through what the loop of the image that the reader gives can roll back on up to so many cores, and writes a line for each pair
/// of instructions that a dependence joins, and those of each store that the words name.
///
/// The status is 0 where that was written; 2 where the image, the machine of a store or the number of cores is refused; 3 where memory
/// ran out or a write failed. With 2 and 3 one line on the error stream says which. All that is written was made before the first
/// byte: after a failed write a prefix of it was written.
pub fn do_depends<S: AsStr, R: Read, W: Write, E: Write>(
    alloc: Global,
    cores: CoreCount,
    stores: &StoreWords<'_, S>,
    room: Room,
    reader: &mut R,
    writer: &mut W,
    errors: &mut E,
) -> u8
    ensures outcome { ForText (R.remaining reader.old) (λ text. spec.DependsAnswers cores (map S.text stores.now.words.now) room text
        (record { old = W.contents writer.old; new = W.contents writer.new }) (record { old = E.contents errors.old; new = E.contents errors.new }) result) }
    ensures taken { TakesAtMost (R.remaining reader.old) (R.remaining reader.new) (longest_image_text + 1) }
{
    match answer_input(alloc, cores, stores, room, reader, writer) {
        Ok(()) => 0,
        Err(outcome) => outcome.conclude(errors),
    }
}

/// All but the line on the error stream.
fn answer_input<S: AsStr, R: Read, W: Write>(
    alloc: Global,
    cores: CoreCount,
    stores: &StoreWords<'_, S>,
    room: Room,
    reader: &mut R,
    writer: &mut W,
) -> Result<(), Outcome>
    ensures outcome { ForText (R.remaining reader.old) (λ text. MatchResult result
        (λ _. spec.IsWritten cores (map S.text stores.now.words.now) room text (W.contents writer.old) (W.contents writer.new))
        (spec.IsUnwritten cores (map S.text stores.now.words.now) room text (W.contents writer.old) (W.contents writer.new))) }
    ensures taken { TakesAtMost (R.remaining reader.old) (R.remaining reader.new) (longest_image_text + 1) }
{
    match read_image(alloc, reader) {
        Ok(image) => answer_image(alloc, &image, cores, stores, room, writer),
        Err(fault) => Err(Outcome::of_fault(fault)),
    }
}

fn answer_image<S: AsStr, W: Write>(
    alloc: Global,
    image: &Image,
    cores: CoreCount,
    stores: &StoreWords<'_, S>,
    room: Room,
    writer: &mut W,
) -> Result<(), Outcome>
    ensures { MatchResult result (λ _. spec.IsWrittenOf image.now cores (map S.text stores.now.words.now) room (W.contents writer.old) (W.contents writer.new))
        (spec.IsUnwrittenOf image.now cores (map S.text stores.now.words.now) room (W.contents writer.old) (W.contents writer.new)) }
{
    check_stores(image, cores, stores.words)?;
    let Ok(text) = print_lines(alloc, image, cores, stores.words, room) else {
        return Err(Outcome::Stopped(CommandStop::NoMemory));
    };
    if write_whole(writer, text.as_slice()) {
        Ok(())
    } else {
        Err(Outcome::Stopped(CommandStop::Write))
    }
}
