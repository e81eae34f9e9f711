ghost use Rattle.std.specs.Prelude.{◌≡◌, ◌≤◌, ◌+◌, Bool, true, false, Some, None, IfNone, IfSome, map};
ghost use Rattle.std.specs.List.{list_all};
ghost use Rattle.rv32_image.specs.Input.{TakesAtMost};
ghost use Rattle.rv32_image.specs.ImageText.{longest_image_text};
ghost use Rattle.rv32_image.specs.Reading.{ForText};
ghost use Rattle.trace_commands.specs.Stores.{names_store, or_both};
ghost use Rattle.replay_command.specs.Addresses.{addresses_of};
ghost use Rattle.gain.specs.Asked.{asked_before_limits, asks_even, asks_held, asks_limits, gain_asked_in, without_even, without_held, without_limits};
ghost use Rattle.gain.specs.Gains.{GainAnswers};
ghost use Rattle.gain.specs.Work as spec;

use crate::gains::{Study, do_gain};
use all_schedules::Room;
use replay_command::{
    CoreCount, StoreWords, addresses_of, costs_behind, stores_asked, wait_place, wait_words,
};
use std::alloc::{AllocError, Global};
use std::convert::AsStr;
use std::io::{Read, Write};
use trace_commands::{CommandStop, Outcome, first_word};

/// The whole program: what the loop gains on as many cores as the words ask for, 1 to 16, over each of the stores that they name,
/// `gain CORES STORE ..`; over caches and the plain store, where they name none. Behind these, with `--held`, also of held runs, and with
/// `--wait PC ..` where the loads at these addresses of code wait. With `--limits` behind that, also what its dependences allow. Behind all of
/// them may stand what turns cost, as `replay_command::costs_behind` reads it, and last `--even-at`, which asks up to which costs it gains. The
/// first word is the program's name.
///
/// Any other words are refused as `usage`, with status 2, and nothing is read or written.
pub fn work<S: AsStr, R: Read, W: Write, E: Write>(
    alloc: Global,
    words: &[S],
    room: Room,
    reader: &mut R,
    writer: &mut W,
    errors: &mut E,
) -> u8
    ensures { ForText (R.remaining reader.old) (λ text. spec.WorkAnswers (map S.text words.now) room text
        (record { old = R.remaining reader.old; new = R.remaining reader.new })
        (record { old = W.contents writer.old; new = W.contents writer.new })
        (record { old = E.contents errors.old; new = E.contents errors.new }) result) }
{
    match study_asked(words, room) {
        Some((study, waits, stores)) => {
            let stores = StoreWords { words: stores };
            gain_over(alloc, &study, waits, &stores, reader, writer, errors)
        }
        None => Outcome::Usage.conclude(errors),
    }
}

/// What the words ask for, and the words of addresses and of stores among them. None: they ask for nothing.
#[tactic(auto, unfolding(crate::specs::Asked::gain_asked_in))]
fn study_asked<S: AsStr>(words: &[S], room: Room) -> Option<(Study, &[S], &[S])>
    ensures asked { IfSome result (λ found. gain_asked_in (map S.text words.now)
        ≡ Some (record { cores = found.0.cores; stores = or_both (map S.text found.2.now); held = found.0.held; addresses = addresses_of (map S.text found.1.now); limits = found.0.limits; costs = found.0.costs; even = found.0.even })) }
    ensures room { IfSome result (λ found. found.0.room ≡ room) }
    ensures stores { IfSome result (λ found. list_all names_store (map S.text found.2.now) ≡ true) }
    ensures none { IfNone result (gain_asked_in (map S.text words.now) ≡ None) }
{
    let (even, words) = cut_even(words);
    let Some((costs, words)) = costs_behind(words) else {
        return None;
    };
    let (limits, words) = cut_limits(words);
    let Some((cores, held, waits, stores)) = waits_asked(words) else {
        return None;
    };
    let study = Study {
        cores,
        room,
        held,
        limits,
        costs,
        even,
    };
    Some((study, waits, stores))
}

/// How many cores the words ask for, whether held runs, and the words of addresses and of stores among them, `--limits` aside. None: they ask for
/// nothing.
#[tactic(auto, using(crate::proofs::Waiting::are_asked, crate::proofs::Waiting::no_waits, crate::proofs::Waiting::no_stores))]
fn waits_asked<S: AsStr>(words: &[S]) -> Option<(CoreCount, bool, &[S], &[S])>
    ensures asked { IfSome result (λ found. (limits : Bool) → asked_before_limits limits (map S.text words.now)
        ≡ Some (record { cores = found.0; stores = or_both (map S.text found.3.now); held = found.1; addresses = addresses_of (map S.text found.2.now); limits = limits; costs = None; even = false })) }
    ensures stores { IfSome result (λ found. list_all names_store (map S.text found.3.now) ≡ true) }
    ensures none { IfNone result ((limits : Bool) → asked_before_limits limits (map S.text words.now) ≡ None) }
{
    let (before, behind) = words.split_at(wait_place(words));
    let waits = wait_words(behind)?;
    let (held, rest) = cut_held(before);
    let Some((cores, stores)) = stores_asked(rest) else {
        return None;
    };
    Some((cores, held, waits, stores))
}

/// Whether the last word is `--even-at`, and the words without it.
fn cut_even<S: AsStr>(words: &[S]) -> (bool, &[S])
    ensures even { result.0 ≡ asks_even (map S.text words.now) }
    ensures words { map S.text result.1.now ≡ without_even (map S.text words.now) }
{
    let Some((last, before)) = words.split_last() else {
        return (false, words);
    };
    if last.as_str() == "--even-at" {
        (true, before)
    } else {
        (false, words)
    }
}

/// Whether the last word is `--limits`, and the words without it.
fn cut_limits<S: AsStr>(words: &[S]) -> (bool, &[S])
    ensures limits { result.0 ≡ asks_limits (map S.text words.now) }
    ensures words { map S.text result.1.now ≡ without_limits (map S.text words.now) }
{
    let Some((last, before)) = words.split_last() else {
        return (false, words);
    };
    if last.as_str() == "--limits" {
        (true, before)
    } else {
        (false, words)
    }
}

/// Whether the last word is `--held`, and the words without it.
fn cut_held<S: AsStr>(words: &[S]) -> (bool, &[S])
    ensures held { result.0 ≡ asks_held (map S.text words.now) }
    ensures words { map S.text result.1.now ≡ without_held (map S.text words.now) }
{
    let Some((last, before)) = words.split_last() else {
        return (false, words);
    };
    if last.as_str() == "--held" {
        (true, before)
    } else {
        (false, words)
    }
}

/// What `do_gain` does over the stores that these words name, where loads wait at the addresses that those write; over caches and the plain
/// store, where no word names a store.
fn gain_over<S: AsStr, R: Read, W: Write, E: Write>(
    alloc: Global,
    study: &Study,
    waits: &[S],
    stores: &StoreWords<'_, S>,
    reader: &mut R,
    writer: &mut W,
    errors: &mut E,
) -> u8
    ensures outcome { ForText (R.remaining reader.old) (λ text. GainAnswers study.now (addresses_of (map S.text waits.now)) (or_both (map S.text stores.now.words.now)) text
        (record { old = W.contents writer.old; new = W.contents writer.new }) (record { old = E.contents errors.old; new = E.contents errors.new }) result) }
    ensures taken { TakesAtMost (R.remaining reader.old) (R.remaining reader.new) (longest_image_text + 1) }
{
    match addresses_of(alloc, waits) {
        Ok(addresses) => gain_waiting(
            alloc,
            study,
            addresses.as_slice(),
            stores,
            reader,
            writer,
            errors,
        ),
        Err(AllocError) => Outcome::Stopped(CommandStop::NoMemory).conclude(errors),
    }
}

/// What `do_gain` does over the stores that these words name, where loads at these addresses wait; over caches and the plain store, where there are none.
#[tactic(auto, unfolding(trace_commands::specs::Stores::store_named))]
fn gain_waiting<S: AsStr, R: Read, W: Write, E: Write>(
    alloc: Global,
    study: &Study,
    addresses: &[u32],
    stores: &StoreWords<'_, S>,
    reader: &mut R,
    writer: &mut W,
    errors: &mut E,
) -> u8
    ensures outcome { ForText (R.remaining reader.old) (λ text. GainAnswers study.now addresses.now (or_both (map S.text stores.now.words.now)) text
        (record { old = W.contents writer.old; new = W.contents writer.new }) (record { old = E.contents errors.old; new = E.contents errors.new }) result) }
    ensures taken { TakesAtMost (R.remaining reader.old) (R.remaining reader.new) (longest_image_text + 1) }
{
    match first_word(stores.words) {
        Some(_) => do_gain(alloc, study, addresses, stores, reader, writer, errors),
        None => {
            let both = ["caches", "plain"];
            let both = StoreWords {
                words: both.as_slice(),
            };
            do_gain(alloc, study, addresses, &both, reader, writer, errors)
        }
    }
}
