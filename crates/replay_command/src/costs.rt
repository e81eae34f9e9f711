//! What turns cost, as words of a command line say it.
ghost use Rattle.std.specs.Prelude.{◌≡◌, ◌≤◌, IfSome, IfNone, Some, None, length, map, unwrap_or};
ghost use Rattle.rv32_image.specs.ImageText.{number_in, pieces};
ghost use Rattle.replay_command.specs.CostWords as spec;

use rv32_image::{cut, number_in};
use std::convert::AsStr;
use trace_commands::first_word;
use turn_costs::{Cost, Costs};

/// What is asked of the costs. None: nothing, so that it costs nothing.
#[derive(Clone, Copy)]
pub struct CostsAsked {
    pub miss: Option<Cost>,
    pub upgrade: Option<Cost>,
    pub begin: Option<Cost>,
    pub restart: Option<Cost>,
    pub commit: Option<Cost>,
    pub line: Option<Cost>,
}

/// Nothing is asked.
const NONE_ASKED: CostsAsked = CostsAsked {
    miss: None,
    upgrade: None,
    begin: None,
    restart: None,
    commit: None,
    line: None,
};

/// What turns cost, behind all other words: `--costs KEY=N,..` with the keys `miss`, `upgrade`, `begin`, `restart`, `commit` and `line`, each
/// at most once, or `bus` for all of them; `--hold N`; or both, in this order. Also the words before these. None: other words stand there, or
/// a number is above `turn_costs::MOST_COST`.
pub fn costs_behind<S: AsStr>(words: &[S]) -> Option<(Option<Costs>, &[S])>
    ensures some { IfSome result (λ found. spec.costs_behind (map S.text words.now) ≡ Some (record { costs = found.0; words = map S.text found.1.now })) }
    ensures none { IfNone result (spec.costs_behind (map S.text words.now) ≡ None) }
{
    let (before, behind) = words.split_at(costs_place(words));
    let costs = costs_read(behind)?;
    Some((costs, before))
}

/// How many words stand before the first `--costs` or `--hold`.
fn costs_place<S: AsStr>(words: &[S]) -> usize
    ensures place { result ≡ spec.costs_place (map S.text words.now) }
    ensures within { result ≤ length words.now }
{
    let mut place = 0;
    for word in words {
        let word = word.as_str();
        if word == "--costs" || word == "--hold" {
            return place;
        }
        place += 1;
    }
    place
}

/// What these words say that turns cost. None: they say nothing of that.
fn costs_read<S: AsStr>(words: &[S]) -> Option<Option<Costs>>
    ensures { result ≡ spec.costs_read (map S.text words.now) }
{
    let Some((name, words)) = first_word(words) else {
        return Some(None);
    };
    let (word, words) = first_word(words)?;
    match first_word(words) {
        None => either_read(name, word),
        Some((hold, words)) => {
            let (number, words) = first_word(words)?;
            match first_word(words) {
                None => both_read(name, word, hold, number),
                Some(_) => None,
            }
        }
    }
}

/// `--costs WORD` or `--hold NUMBER`.
fn either_read(name: &str, word: &str) -> Option<Option<Costs>>
    ensures { result ≡ spec.either_read (spec.asked_read name.now word.now) (spec.hold_read name.now word.now) }
{
    match asked_read(name, word) {
        Some(asked) => Some(Some(asked.costs_with(nothing()))),
        None => Some(Some(NONE_ASKED.costs_with(hold_read(name, word)?))),
    }
}

/// `--costs WORD --hold NUMBER`.
fn both_read(name: &str, word: &str, hold: &str, number: &str) -> Option<Option<Costs>>
    ensures { result ≡ spec.both_read (spec.asked_read name.now word.now) (spec.hold_read hold.now number.now) }
{
    let asked = asked_read(name, word)?;
    let hold = hold_read(hold, number)?;
    Some(Some(asked.costs_with(hold)))
}

/// What the word behind `--costs` asks for.
fn asked_read(name: &str, word: &str) -> Option<CostsAsked>
    ensures { result ≡ spec.asked_read name.now word.now }
{
    if name == "--costs" {
        keys_read(NONE_ASKED, word.as_bytes())
    } else {
        None
    }
}

/// The number behind `--hold`.
fn hold_read(name: &str, word: &str) -> Option<Cost>
    ensures { result ≡ spec.hold_read name.now word.now }
{
    if name == "--hold" {
        cost_in(word.as_bytes())
    } else {
        None
    }
}

/// The cost that a word writes.
fn cost_in(word: &[u8]) -> Option<Cost>
    ensures { result ≡ spec.cost_in (number_in word.now) }
{
    match number_in(word) {
        Ok(number) if number <= 1_000_000 => Cost::new(number as u32),
        _ => None,
    }
}

/// What these keys ask for beside what was asked.
#[tactic(auto, unfolding(crate::specs::CostWords::keys_read))]
fn keys_read(asked: CostsAsked, keys: &[u8]) -> Option<CostsAsked>
    ensures { result ≡ spec.keys_read asked (pieces 44 keys.now) }
{
    let (key, rest) = cut(keys, b',');
    let next = key_read(asked, key)?;
    match rest {
        Some(rest) => keys_read(next, rest),
        None => Some(next),
    }
}

/// What a key with its number asks for beside what was asked.
fn key_read(asked: CostsAsked, text: &[u8]) -> Option<CostsAsked>
    ensures { result ≡ spec.key_read asked (pieces 61 text.now) }
{
    let (key, rest) = cut(text, b'=');
    let (word, more) = cut(rest?, b'=');
    match more {
        None => with_key(asked, key, cost_in(word)?),
        Some(more) => {
            let _third = cut(more, b'=');
            None
        }
    }
}

/// What is asked for with the cost of a key, where it has none yet.
fn with_key(asked: CostsAsked, key: &[u8], cost: Cost) -> Option<CostsAsked>
    ensures { result ≡ spec.with_key asked key.now cost }
{
    let some = Some(cost);
    if key == b"miss".as_slice() {
        unless_asked(
            asked.miss,
            CostsAsked {
                miss: some,
                ..asked
            },
        )
    } else if key == b"upgrade".as_slice() {
        let upgrade = some;
        unless_asked(asked.upgrade, CostsAsked { upgrade, ..asked })
    } else if key == b"begin".as_slice() {
        let begin = some;
        unless_asked(asked.begin, CostsAsked { begin, ..asked })
    } else if key == b"restart".as_slice() {
        let restart = some;
        unless_asked(asked.restart, CostsAsked { restart, ..asked })
    } else if key == b"commit".as_slice() {
        let commit = some;
        unless_asked(asked.commit, CostsAsked { commit, ..asked })
    } else if key == b"line".as_slice() {
        unless_asked(
            asked.line,
            CostsAsked {
                line: some,
                ..asked
            },
        )
    } else if key == b"bus".as_slice() {
        each_of(asked, cost)
    } else {
        None
    }
}

fn unless_asked(before: Option<Cost>, asked: CostsAsked) -> Option<CostsAsked>
    ensures { result ≡ spec.unless_asked before asked }
{
    match before {
        None => Some(asked),
        Some(_) => None,
    }
}

/// Each costs as much, where none was asked for.
fn each_of(asked: CostsAsked, cost: Cost) -> Option<CostsAsked>
    ensures { result ≡ spec.each_of asked cost }
{
    if !asked.is_none() {
        return None;
    }
    Some(CostsAsked {
        miss: Some(cost),
        upgrade: Some(cost),
        begin: Some(cost),
        restart: Some(cost),
        commit: Some(cost),
        line: Some(cost),
    })
}

impl CostsAsked {
    /// Whether nothing is asked.
    fn is_none(&self) -> bool
        ensures { result ≡ spec.asks_none self.now }
    {
        !(self.miss.is_some()
            || self.upgrade.is_some()
            || self.begin.is_some()
            || self.restart.is_some()
            || self.commit.is_some()
            || self.line.is_some())
    }

    /// The costs, where each message holds the bus so long.
    fn costs_with(&self, hold: Cost) -> Costs
        ensures { result ≡ spec.costs_with self.now hold }
    {
        Costs {
            miss: or_none(self.miss),
            upgrade: or_none(self.upgrade),
            begin: or_none(self.begin),
            restart: or_none(self.restart),
            commit: or_none(self.commit),
            line: or_none(self.line),
            hold,
        }
    }
}

fn or_none(cost: Option<Cost>) -> Cost
    ensures { result ≡ unwrap_or cost 0 }
{
    match cost {
        Some(cost) => cost,
        None => nothing(),
    }
}

/// The cost of what costs nothing.
fn nothing() -> Cost
    ensures { result ≡ 0 }
{
    match Cost::new(0) {
        Some(cost) => cost,
        None => unreachable!(),
    }
}
