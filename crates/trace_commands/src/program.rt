//! What the programs have in common at their edge.
ghost use Rattle.std.specs.Prelude.{◌≡◌, [], ◌∷◌, IfErr, IfSome, MatchOption, map};
ghost use Rattle.trace_commands.specs.Outcome as spec;
ghost use Rattle.trace_commands.specs.Program as program;

use crate::apart::spelled;
use crate::outcome::{CommandStop, Outcome};
use rv32_image::number_in;
use std::alloc::Global;
use std::convert::AsStr;
use std::env::Env;
use std::{env, io};

/// How many entries the history of a run may have.
pub const ROOM: u32 = 1_048_576;

/// The words of the command line, the program's name first.
///
/// `Usage`: one is no UTF-8, and so no word of a program. `Stopped`: memory ran out.
pub fn words_given<R: Env + Alloc>(rt: &R) -> Result<Vec<String<R::A>, R::A>, Outcome>
    ensures { IfErr result spec.IsNoWords }
{
    let args = env::args(rt).map_err(|error| match error.kind() {
        io::ErrorKind::OutOfMemory => Outcome::Stopped(CommandStop::NoMemory),
        _ => Outcome::Usage,
    })?;
    let mut words = Vec::new(rt.alloc());
    for word in args {
        words
            .push(word)
            .map_err(|_| Outcome::Stopped(CommandStop::NoMemory))?;
    }
    Ok(words)
}

/// The same words with `--apart ADDR:LENGTH:PIECE` spelled out, as `spelled` does it.
///
/// `Usage`: one is no UTF-8, and so no word of a program. `Stopped`: memory ran out.
pub fn spelled_words_given<R: Env + Alloc<A = Global>>(rt: &R) -> Result<Vec<String>, Outcome>
    ensures { IfErr result spec.IsNoWords }
{
    let words = words_given(rt)?;
    spelled(rt.alloc(), words.as_slice()).map_err(|_| Outcome::Stopped(CommandStop::NoMemory))
}

/// The number of cores or of turns that a word writes, 1 to 16. None: another word.
pub fn number_up_to_16(word: &str) -> Option<u32>
    ensures number { result ≡ program.number_up_to_16 word.now }
    ensures few { IfSome result program.IsUpTo16 }
{
    match number_in(word.as_bytes()) {
        Ok(n) if 1 <= n && n <= 16 => Some(n as u32),
        _ => None,
    }
}

/// The first of some words, and the others. None: there are none.
#[tactic(auto, using(crate::proofs::Programs::no_words))]
pub fn first_word<S: AsStr>(words: &[S]) -> Option<(&str, &[S])>
    ensures { MatchOption result (map S.text words.now ≡ []) (λ cut. map S.text words.now ≡ cut.0.now ∷ map S.text cut.1.now) }
{
    match words.split_first() {
        Some((first, others)) => Some((first.as_str(), others)),
        None => None,
    }
}

/// The number of cores or of turns that the only one of some words writes, 1 to 16. None: another word, none, or more.
pub fn only_number<S: AsStr>(words: &[S]) -> Option<u32>
    ensures number { result ≡ program.only_up_to_16 (map S.text words.now) }
    ensures few { IfSome result program.IsUpTo16 }
{
    let (word, others) = first_word(words)?;
    match first_word(others) {
        None => number_up_to_16(word),
        Some(_) => None,
    }
}
