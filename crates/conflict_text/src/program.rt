ghost use Rattle.std.specs.Prelude.{◌≡◌, [], ◌∷◌, map};
ghost use Rattle.rv32_image.specs.Reading.{ForText};
ghost use Rattle.conflict_text.specs.Asked as asked;
ghost use Rattle.conflict_text.specs.Work as spec;

use crate::command::{WhyAsked, do_why};
use std::alloc::Global;
use std::convert::AsStr;
use std::io::{Read, Write};
use trace_commands::{MachineAsked, Outcome, first_word, store_named};

/// The machine of the image's version, and no lines of attempts.
const NOTHING: WhyAsked = WhyAsked {
    machine: MachineAsked::NOTHING,
    attempts: false,
};

/// The whole program `why`: `do_why` on the machine of the store that the words name, or of the image's version, with a line for each
/// attempt where the last word is `--attempts`; the first word is the program's name.
///
/// Other words are refused as `usage`, with status 2, and nothing is read or written.
pub fn work<S: AsStr, R: Read, W: Write, E: Write>(
    alloc: Global,
    words: &[S],
    reader: &mut R,
    writer: &mut W,
    errors: &mut E,
) -> u8
    ensures { ForText (R.remaining reader.old) (λ text. spec.WorkAnswers (map S.text words.now) text
        (record { old = R.remaining reader.old; new = R.remaining reader.new })
        (record { old = W.contents writer.old; new = W.contents writer.new })
        (record { old = E.contents errors.old; new = E.contents errors.new }) result) }
{
    match asked_in(words) {
        Some(asked) => do_why(alloc, asked, reader, writer, errors),
        None => Outcome::Usage.conclude(errors),
    }
}

/// What these words ask for. None: other words.
fn asked_in<S: AsStr>(words: &[S]) -> Option<WhyAsked>
    ensures { result ≡ asked.asked_in (map S.text words.now) }
{
    match first_word(words) {
        None => Some(NOTHING),
        Some((_program, words)) => asked_behind(words),
    }
}

/// What the words behind the program's name ask for.
fn asked_behind<S: AsStr>(words: &[S]) -> Option<WhyAsked>
    ensures { result ≡ asked.asked_in ([] ∷ map S.text words.now) }
{
    match first_word(words) {
        None => Some(NOTHING),
        Some((word, words)) => match first_word(words) {
            None => asked_by_one(word),
            Some((last, words)) => match first_word(words) {
                None => asked_by_two(word, last),
                Some(_) => None,
            },
        },
    }
}

/// What one word asks for: a store, or `--attempts`.
fn asked_by_one(word: &str) -> Option<WhyAsked>
    ensures { result ≡ asked.asked_by_one word.now }
{
    if word == "--attempts" {
        return Some(WhyAsked {
            attempts: true,
            ..NOTHING
        });
    }
    over_store(word, false)
}

/// What two words ask for: a store, and `--attempts`.
fn asked_by_two(word: &str, last: &str) -> Option<WhyAsked>
    ensures { result ≡ asked.asked_by_two word.now last.now }
{
    if last == "--attempts" {
        over_store(word, true)
    } else {
        None
    }
}

/// The machine of the store that a word names.
fn over_store(word: &str, attempts: bool) -> Option<WhyAsked>
    ensures { result ≡ asked.over_store word.now attempts }
{
    let machine = store_named(word)?.asked();
    Some(WhyAsked { machine, attempts })
}
