ghost use Rattle.std.specs.Prelude.{◌≡◌, ◌==◌, ◌||◌, true, None, Some, IfNone, IfSome, length, map};
ghost use Rattle.std.specs.List.{list_all};
ghost use Rattle.std.specs.Char.{is_ascii_digit};
ghost use Rattle.replay_command.specs.Addresses.{addresses_of};
ghost use Rattle.replay_command.specs.Asked as spec;

use crate::addresses::{wait_place, wait_words};
use crate::core_count::{CoreCount, cores_in, only_cores};
use crate::costs::costs_behind;
use crate::detail::Detail;
use crate::paced::Pace;
use crate::stores::pieces_of;
use std::convert::AsStr;
use trace_commands::{Store, first_word, only_number, store_named};
use turn_costs::Costs;

/// Whose turns are taken, on 1 to 16 cores.
#[derive(Clone, Copy)]
pub enum Turns {
    /// Those of the input, on so many cores. None: as many as its trace has.
    Given {
        detail: Detail,
        cores: Option<CoreCount>,
    },
    /// Those of every schedule of so many turns.
    Every {
        cores: CoreCount,
        turns: u32,
    },
    /// Those of the run by this pace.
    Paced {
        pace: Pace,
        cores: CoreCount,
    },
    /// Those of threads, one for each core, as they come.
    Threaded {
        cores: CoreCount,
    },
}

/// What the words of a command line ask for.
#[derive(Clone, Copy)]
pub struct Request {
    pub store: Store,
    pub turns: Turns,
}

/// What these words ask for, and the words of addresses at which loads wait; the first is the program's name. None: they are no command of
/// the program.
#[tactic(auto, unfolding(crate::specs::Asked::asked_in))]
pub fn asked_of<S: AsStr>(words: &[S]) -> Option<(Request, &[S])>
    ensures asked { IfSome result (λ found. spec.asked_in (map S.text words.now)
        ≡ Some (record { request = found.0; addresses = addresses_of (map S.text found.1.now) })) }
    ensures none { IfNone result (spec.asked_in (map S.text words.now) ≡ None) }
{
    let Some((costs, words)) = costs_behind(words) else {
        return None;
    };
    let Some((request, waits)) = asked_before_costs(words) else {
        return None;
    };
    let store = request.store;
    let turns = with_costs(costs, request.turns)?;
    Some((Request { store, turns }, waits))
}

/// These turns, where they cost this. None: only at even speed does a turn cost something.
fn with_costs(costs: Option<Costs>, turns: Turns) -> Option<Turns>
    ensures { result ≡ spec.with_costs costs turns }
{
    let Some(costs) = costs else {
        return Some(turns);
    };
    match turns {
        Turns::Paced { pace, cores } => {
            let pace = paced_with(costs, pace)?;
            Some(Turns::Paced { pace, cores })
        }
        Turns::Given { .. } | Turns::Every { .. } | Turns::Threaded { .. } => None,
    }
}

/// This pace, where turns cost this.
fn paced_with(costs: Costs, pace: Pace) -> Option<Pace>
    ensures { result ≡ spec.paced_with costs pace }
{
    let costs = Some(costs);
    match pace {
        Pace::Even(_) => Some(Pace::Even(costs)),
        Pace::Held(pieces, _) => Some(Pace::Held(pieces, costs)),
        Pace::Seeded(_) => None,
    }
}

/// What these words ask for that say nothing of costs, and the words of addresses at which loads wait. None: they are no command of the program.
fn asked_before_costs<S: AsStr>(words: &[S]) -> Option<(Request, &[S])>
    ensures asked { IfSome result (λ found. spec.asked_before_costs (map S.text words.now)
        ≡ Some (record { request = found.0; addresses = addresses_of (map S.text found.1.now) })) }
    ensures none { IfNone result (spec.asked_before_costs (map S.text words.now) ≡ None) }
{
    let (before, behind) = words.split_at(wait_place(words));
    let waits = wait_words(behind)?;
    let request = request_of(before)?;
    if may_wait(waits, request.turns) {
        Some((request, waits))
    } else {
        None
    }
}

/// Whether the loads at these addresses may wait in a run by these turns: where there are any, in that at even speed alone.
fn may_wait<S: AsStr>(waits: &[S], turns: Turns) -> bool
    ensures { result ≡ (length waits.now == 0 || spec.is_even turns) }
{
    waits.is_empty() || is_even(turns)
}

/// Whether these are the turns of the run at even speed.
fn is_even(turns: Turns) -> bool
    ensures { result ≡ spec.is_even turns }
{
    match turns {
        Turns::Paced { pace, cores: _ } => match pace {
            Pace::Even(_) => true,
            Pace::Held(_, _) | Pace::Seeded(_) => false,
        },
        Turns::Given { .. } | Turns::Every { .. } | Turns::Threaded { .. } => false,
    }
}

/// What these words ask for; the first is the program's name. None: they are no command of the program.
#[tactic(auto, unfolding(crate::specs::Asked::request_in))]
fn request_of<S: AsStr>(words: &[S]) -> Option<Request>
    ensures { result ≡ spec.request_in (map S.text words.now) }
{
    let (_program, words) = first_word(words)?;
    let (word, words) = first_word(words)?;
    command(word, words)
}

/// A command by its first word.
#[tactic(auto, unfolding(crate::specs::Asked::command))]
fn command<S: AsStr>(word: &str, words: &[S]) -> Option<Request>
    ensures { result ≡ spec.command word.now (map S.text words.now) }
{
    if word == "steps" {
        steps(words)
    } else if word == "even" {
        paced(Pace::Even(None), words)
    } else if word == "held" {
        held(words)
    } else if word == "seeded" {
        seeded(words)
    } else if word == "all" {
        every(words)
    } else if word == "threads" {
        threaded(words)
    } else {
        given(Detail::Whole, word, words)
    }
}

/// `steps STORE`, `steps STORE CORES`.
#[tactic(auto, unfolding(crate::specs::Asked::steps))]
fn steps<S: AsStr>(words: &[S]) -> Option<Request>
    ensures { result ≡ spec.steps (map S.text words.now) }
{
    let (store, words) = first_word(words)?;
    given(Detail::Steps, store, words)
}

/// `STORE`, `STORE CORES`.
#[tactic(auto, unfolding(crate::specs::Asked::given))]
fn given<S: AsStr>(detail: Detail, store: &str, words: &[S]) -> Option<Request>
    ensures { result ≡ spec.given detail store.now (map S.text words.now) }
{
    match first_word(words) {
        None => {
            let cores = None;
            over(store, Turns::Given { detail, cores })
        }
        Some(_) => {
            let cores = Some(only_cores(words)?);
            over(store, Turns::Given { detail, cores })
        }
    }
}

/// `even STORE CORES`, or by another pace.
#[tactic(auto, unfolding(crate::specs::Asked::paced))]
fn paced<S: AsStr>(pace: Pace, words: &[S]) -> Option<Request>
    ensures { result ≡ spec.paced pace (map S.text words.now) }
{
    let (store, words) = first_word(words)?;
    let cores = only_cores(words)?;
    over(store, Turns::Paced { pace, cores })
}

/// `held STORE CORES`.
#[tactic(auto, unfolding(crate::specs::Asked::held))]
fn held<S: AsStr>(words: &[S]) -> Option<Request>
    ensures { result ≡ spec.held (map S.text words.now) }
{
    let (name, words) = first_word(words)?;
    let cores = only_cores(words)?;
    let pace = Pace::Held(pieces_of(store_named(name)?), None);
    over(name, Turns::Paced { pace, cores })
}

/// `threads STORE CORES`.
#[tactic(auto, unfolding(crate::specs::Asked::threaded))]
fn threaded<S: AsStr>(words: &[S]) -> Option<Request>
    ensures { result ≡ spec.threaded (map S.text words.now) }
{
    let (store, words) = first_word(words)?;
    let cores = only_cores(words)?;
    over(store, Turns::Threaded { cores })
}

/// `seeded SEED STORE CORES`.
#[tactic(auto, unfolding(crate::specs::Asked::seeded))]
fn seeded<S: AsStr>(words: &[S]) -> Option<Request>
    ensures { result ≡ spec.seeded (map S.text words.now) }
{
    let (word, words) = first_word(words)?;
    let seed = seed_in(word)?;
    paced(Pace::Seeded(seed), words)
}

/// `all STORE CORES TURNS`.
#[tactic(auto, using(std::proofs::lemmas::Bool::Decides::nat_tests), unfolding(crate::specs::Asked::every))]
fn every<S: AsStr>(words: &[S]) -> Option<Request>
    ensures { result ≡ spec.every (map S.text words.now) }
{
    let (store, words) = first_word(words)?;
    let (word, words) = first_word(words)?;
    let cores = cores_in(word)?;
    let turns = only_number(words)?;
    if !is_small(cores, turns) {
        return None;
    }
    over(store, Turns::Every { cores, turns })
}

/// The request of these turns over the store that a word names.
#[tactic(auto, unfolding(crate::specs::Asked::over))]
fn over(store: &str, turns: Turns) -> Option<Request>
    ensures { result ≡ spec.over store.now turns }
{
    let store = store_named(store)?;
    Some(Request { store, turns })
}

/// Whether there are at most 65,536 schedules of so many turns.
#[tactic(auto, using(std::proofs::lemmas::Bool::Decides::nat_tests))]
fn is_small(cores: CoreCount, turns: u32) -> bool
    ensures { result ≡ spec.is_small cores turns }
{
    match cores.count().checked_pow(turns) {
        Some(count) => count <= 65_536,
        None => false,
    }
}

/// A seed of 64 bits, in decimal digits without a sign or a leading 0.
#[tactic(auto, unfolding(crate::specs::Asked::seed_in))]
fn seed_in(word: &str) -> Option<u64>
    ensures { result ≡ spec.seed_in word.now }
{
    if !is_decimal(word.as_bytes()) {
        return None;
    }
    number_of_64_bits(word)
}

/// The number that digits write, where it is of 64 bits.
fn number_of_64_bits(digits: &str) -> Option<u64>
    requires { spec.is_decimal digits.now ≡ true }
    ensures { result ≡ spec.number_of_64_bits digits.now }
{
    match digits.parse::<u64>() {
        Ok(number) => Some(number),
        Err(_) => None,
    }
}

fn is_decimal(word: &[u8]) -> bool
    ensures { result ≡ spec.is_decimal word.now }
{
    !word.is_empty() && are_digits(word) && (word.len() == 1 || word[0] != b'0')
}

fn are_digits(word: &[u8]) -> bool
    ensures { result ≡ list_all is_ascii_digit word.now }
{
    word.iter().all(|b| b.is_ascii_digit())
}
