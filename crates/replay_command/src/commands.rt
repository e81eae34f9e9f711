ghost use Rattle.std.specs.Prelude.{◌≤◌, ◌+◌, map};
ghost use Rattle.rv32_image.specs.ImageText.{longest_image_text};
ghost use Rattle.rv32_image.specs.Input.{TakesAtMost};
ghost use Rattle.rv32_image.specs.Reading.{ForText};
ghost use Rattle.trace_commands.specs.Outcome.{Conclusion};
ghost use Rattle.replay_command.specs.Addresses.{addresses_of};
ghost use Rattle.replay_command.specs.Paced.{IsPacedOutcome};
ghost use Rattle.replay_command.specs.Work as spec;

use crate::addresses::addresses_of;
use crate::all::do_all;
use crate::invocation::Invocation;
use crate::paced::{PaceAsked, do_paced};
use crate::replay::do_replay;
use crate::settings::Settings;
use crate::words::{Turns, asked_of};
use core_threads::Gate;
use run_command::{RunAsked, RunOptions, do_threads};
use spec_bus::CachedBus;
use std::alloc::{AllocError, Global};
use std::convert::AsStr;
use std::io::{Read, Write};
use std::sync::Wait;
use std::thread::Threads;
use trace_commands::{CommandStop, MachineAsked, Outcome, Store};
use turn_costs::PricedStore;
use turn_steps::ShownStore;
use violations::PlainStore;

/// The whole program: replays over the store that the words ask for, the first of which is the program's name, or
/// drives every schedule of so many turns, or runs by a pace or on threads, whose turns pass this gate, and answers its status: what
/// `asked_in` of `specs/Asked.antt` says.
///
/// Any other words are refused as `usage`, with status 2, and nothing is read or written. The room is at most 1,048,576 entries.
pub fn work<S: AsStr, G: Gate, T: Threads + Wait + Sync, R: Read, W: Write, E: Write>(
    rt: &T,
    alloc: Global,
    called: Invocation<'_, S>,
    gate: &G,
    reader: &mut R,
    writer: &mut W,
    errors: &mut E,
) -> u8
    requires { called.room ≤ 1048576 }
    ensures { ForText (R.remaining reader.old) (λ text. spec.WorkAnswers (map S.text called.entry.words.now) called.entry.room text
        (record { old = R.remaining reader.old; new = R.remaining reader.new })
        (record { old = W.contents writer.old; new = W.contents writer.new })
        (record { old = E.contents errors.old; new = E.contents errors.new }) result) }
{
    let Invocation { words, room } = called;
    match asked_of(words) {
        Some((request, waits)) => match request.store {
            Store::Caches(machine) => {
                let asked = TurnsAsked {
                    waits,
                    turns: request.turns,
                    settings: Settings {
                        asked: machine,
                        room,
                    },
                };
                answer::<CachedBus, S, G, T, R, W, E>(
                    rt, alloc, &asked, gate, reader, writer, errors,
                )
            }
            Store::Plain => {
                let settings = Settings {
                    asked: MachineAsked::NOTHING,
                    room,
                };
                let asked = TurnsAsked {
                    waits,
                    turns: request.turns,
                    settings,
                };
                answer::<PlainStore, S, G, T, R, W, E>(
                    rt, alloc, &asked, gate, reader, writer, errors,
                )
            }
        },
        None => Outcome::Usage.conclude(errors),
    }
}

/// Which turns are asked for.
#[derive(Drop)]
struct TurnsAsked<'a, A> {
    /// The words that write the addresses at which loads wait.
    waits: &'a [A],
    turns: Turns,
    settings: Settings,
}

/// Takes these turns over this store.
fn answer<
    S: ShownStore + PricedStore,
    A: AsStr,
    G: Gate,
    T: Threads + Wait + Sync,
    R: Read,
    W: Write,
    E: Write,
>(
    rt: &T,
    alloc: Global,
    asked: &TurnsAsked<'_, A>,
    gate: &G,
    reader: &mut R,
    writer: &mut W,
    errors: &mut E,
) -> u8
    requires { asked.now.settings.room ≤ 1048576 }
    ensures { ForText (R.remaining reader.old) (λ text. spec.TurnsAnswer S.starts S.makes S.view S.waits S.prices S.keeps S.changes (addresses_of (map A.text asked.now.waits.now)) asked.now.settings asked.now.turns text
        (record { old = R.remaining reader.old; new = R.remaining reader.new })
        (record { old = W.contents writer.old; new = W.contents writer.new })
        (record { old = E.contents errors.old; new = E.contents errors.new }) result) }
{
    let settings = asked.settings;
    match asked.turns {
        Turns::Given { detail, cores } => {
            do_replay::<S, R, W, E>(alloc, detail, cores, settings, reader, writer, errors)
        }
        Turns::Every { cores, turns } => {
            do_all::<S, R, W, E>(alloc, cores, settings, turns, reader, writer, errors)
        }
        Turns::Paced { pace, cores } => {
            let paced = PaceAsked {
                pace,
                cores,
                settings,
            };
            pace_waiting::<S, A, R, W, E>(alloc, asked.waits, paced, reader, writer, errors)
        }
        Turns::Threaded { cores } => {
            let options = RunOptions {
                cores: cores.count(),
                room: settings.room.entries(),
                trace: true,
            };
            let run = RunAsked {
                machine: settings.asked,
                options,
            };
            do_threads::<S, G, T, R, W, E>(rt, alloc, run, gate, reader, writer, errors)
        }
    }
}

/// What `do_paced` does where loads wait at the addresses that these words write.
fn pace_waiting<S: PricedStore, A: AsStr, R: Read, W: Write, E: Write>(
    alloc: Global,
    waits: &[A],
    asked: PaceAsked,
    reader: &mut R,
    writer: &mut W,
    errors: &mut E,
) -> u8
    ensures outcome { ForText (R.remaining reader.old) (λ text.
        Conclusion (IsPacedOutcome S.starts S.makes S.view S.waits S.prices S.keeps (addresses_of (map A.text waits.now)) asked.pace asked.cores asked.settings text (W.contents writer.old) (W.contents writer.new)) (E.contents errors.old) (E.contents errors.new) result) }
    ensures taken { TakesAtMost (R.remaining reader.old) (R.remaining reader.new) (longest_image_text + 1) }
{
    match addresses_of(alloc, waits) {
        Ok(addresses) => do_paced::<S, R, W, E>(
            alloc,
            addresses.as_slice(),
            asked,
            reader,
            writer,
            errors,
        ),
        Err(AllocError) => Outcome::Stopped(CommandStop::NoMemory).conclude(errors),
    }
}
