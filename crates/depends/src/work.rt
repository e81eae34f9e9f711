ghost use Rattle.std.specs.Prelude.{◌≡◌, ◌+◌, map};
ghost use Rattle.rv32_image.specs.ImageText.{longest_image_text};
ghost use Rattle.rv32_image.specs.Input.{TakesAtMost};
ghost use Rattle.rv32_image.specs.Reading.{ForText};
ghost use Rattle.depends.specs.Answers.{DependsAnswers};
ghost use Rattle.trace_commands.specs.Program.{IsUpTo16};
ghost use Rattle.trace_commands.specs.Stores.{or_both};
ghost use Rattle.depends.specs.Work as spec;

use crate::answer::do_depends;
use all_schedules::Room;
use replay_command::{CoreCount, StoreWords};
use std::alloc::Global;
use std::convert::AsStr;
use std::io::{Read, Write};
use trace_commands::{Outcome, first_word, stores_asked};

/// The whole program: what the loop can roll back through on up to as many cores as the words ask for, 1 to 16, over each of the stores
/// that they name, `depends CORES STORE ..`; over caches and the plain store, where they name none. The first word is the program's name.
///
/// Any other words are refused as `usage`, with status 2, and nothing is read or written.
pub fn work<S: AsStr, R: Read, W: Write, E: Write>(
    alloc: Global,
    words: &[S],
    room: Room,
    reader: &mut R,
    writer: &mut W,
    errors: &mut E,
) -> u8
    ensures { ForText (R.remaining reader.old) (λ text. spec.WorkAnswers (map S.text words.now) room text
        (record { old = R.remaining reader.old; new = R.remaining reader.new })
        (record { old = W.contents writer.old; new = W.contents writer.new })
        (record { old = E.contents errors.old; new = E.contents errors.new }) result) }
{
    match stores_asked(words) {
        Some((cores, stores)) => {
            let stores = StoreWords { words: stores };
            do_asked(alloc, cores, &stores, room, reader, writer, errors)
        }
        None => Outcome::Usage.conclude(errors),
    }
}

/// All but the words: the answer over each of these stores, over caches and the plain store where there are none.
#[tactic(auto, unfolding(trace_commands::specs::Stores::store_named))]
fn do_asked<S: AsStr, R: Read, W: Write, E: Write>(
    alloc: Global,
    cores: u32,
    stores: &StoreWords<'_, S>,
    room: Room,
    reader: &mut R,
    writer: &mut W,
    errors: &mut E,
) -> u8
    requires cores { IsUpTo16 cores }
    ensures outcome { ForText (R.remaining reader.old) (λ text. DependsAnswers cores (or_both (map S.text stores.now.words.now)) room text
        (record { old = W.contents writer.old; new = W.contents writer.new }) (record { old = E.contents errors.old; new = E.contents errors.new }) result) }
    ensures taken { TakesAtMost (R.remaining reader.old) (R.remaining reader.new) (longest_image_text + 1) }
{
    let cores = CoreCount::new(cores);
    match first_word(stores.words) {
        None => {
            let both = ["caches", "plain"];
            let both = StoreWords {
                words: both.as_slice(),
            };
            do_depends(alloc, cores, &both, room, reader, writer, errors)
        }
        Some(_) => do_depends(alloc, cores, stores, room, reader, writer, errors),
    }
}
