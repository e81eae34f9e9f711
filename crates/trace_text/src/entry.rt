ghost use Rattle.std.specs.Prelude.{◌≡◌, ◌<◌, IfSome, MatchOption, None, codes};
ghost use Rattle.hex.specs.Hex.{hex_digit_value};
ghost use Rattle.trace_text.specs.TraceText as spec;
ghost use Rattle.trace_text.specs.Front.{Says, below, words_in};
ghost use Rattle.trace_text.specs.Accesses.{BeginsAccess, BeginsNoAccess, keyword_of, said};
ghost use Rattle.trace_text.specs.Keywords as keywords;
ghost use Rattle.trace_text.specs.Keywords.{IsOther};

use crate::front::{digits_at, next_word, number_at, only_at, word_at};
use spec_history::{Entry, What};

/// A load or a store.
#[derive(Clone, Copy)]
pub(crate) enum Access {
    Load,
    Store,
}

/// The entry that the first line of a text says, and the text below that line, if there is one.
pub(crate) fn entry_at(text: &[u8]) -> Option<(Entry, Option<&[u8]>)>
    ensures { MatchOption result (spec.entry_in (words_in text.now) ≡ None) (λ r. Says (spec.entry_in (words_in text.now)) (below text.now) r.0 r.1) }
{
    let (by, left) = number_at(text)?;
    let words = next_word(left)?;
    let (what, rest) = what_at(words)?;
    Some((Entry { by, what }, rest))
}

/// What an entry says that goes on with its keyword here, and the text below its line.
fn what_at(text: &[u8]) -> Option<(What, Option<&[u8]>)>
    ensures { MatchOption result (said text.now ≡ None) (λ r. Says (said text.now) (below text.now) r.0 r.1) }
{
    match access_in(text) {
        Some((access, parts)) => access_at(access, parts),
        None => other_at(text),
    }
}

/// Whether a text begins with the keyword of an access and a space, and what follows these.
fn access_in(text: &[u8]) -> Option<(Access, &[u8])>
    ensures { MatchOption result (BeginsNoAccess text.now) (λ r. BeginsAccess text.now r.0 r.1.now) }
{
    if text.starts_with(b"load ") {
        Some((Access::Load, &text[5..]))
    } else if text.starts_with(b"store ") {
        Some((Access::Store, &text[6..]))
    } else {
        None
    }
}

/// An access: its address, its width and its value.
fn access_at(access: Access, text: &[u8]) -> Option<(What, Option<&[u8]>)>
    ensures { MatchOption result (spec.what_in (keyword_of access) (words_in text.now) ≡ None)
        (λ r. Says (spec.what_in (keyword_of access) (words_in text.now)) (below text.now) r.0 r.1) }
{
    let (addr, left) = digits_at(text)?;
    let second = next_word(left)?;
    let (width, left) = number_at(second)?;
    let third = next_word(left)?;
    let (value, left) = digits_at(third)?;
    only_at(access_of(access, addr, width, value), left)
}

fn access_of(access: Access, addr: u32, width: u32, value: u32) -> What
    ensures { spec.access (keyword_of access) addr width value ≡ Some result }
{
    match access {
        Access::Load => What::Load { addr, width, value },
        Access::Store => What::Store { addr, width, value },
    }
}

/// What an entry says that is no access.
#[inline(never)]
fn other_at(text: &[u8]) -> Option<(What, Option<&[u8]>)>
    requires { BeginsNoAccess text.now }
    ensures { MatchOption result (said text.now ≡ None) (λ r. Says (said text.now) (below text.now) r.0 r.1) }
{
    let (keyword, left) = word_at(text);
    let Some(words) = next_word(left) else {
        let what = one_word(keyword)?;
        return only_at(what, left);
    };
    if keyword == b"fault".as_slice() {
        fault_at(words)
    } else {
        epoch_at(keyword, words)
    }
}

/// A fault: its cause and its program counter.
fn fault_at(text: &[u8]) -> Option<(What, Option<&[u8]>)>
    ensures { MatchOption result (spec.what_in (codes "fault") (words_in text.now) ≡ None) (λ r. Says (spec.what_in (codes "fault") (words_in text.now)) (below text.now) r.0 r.1) }
{
    let (cause, left) = number_at(text)?;
    let second = next_word(left)?;
    let (pc, left) = digits_at(second)?;
    only_at(What::Fault { cause, pc }, left)
}

/// What is said of an epoch.
fn epoch_at<'a>(keyword: &[u8], text: &'a [u8]) -> Option<(What, Option<&'a [u8]>)>
    requires { IsOther keyword.now }
    ensures { MatchOption result (spec.what_in keyword.now (words_in text.now) ≡ None) (λ r. Says (spec.what_in keyword.now (words_in text.now)) (below text.now) r.0 r.1) }
{
    let (epoch, left) = number_at(text)?;
    let what = of_epoch(keyword, epoch)?;
    only_at(what, left)
}

#[tactic(auto, unfolding(crate::specs::TraceText::one_word))]
fn one_word(keyword: &[u8]) -> Option<What>
    ensures { result ≡ spec.one_word keyword.now }
{
    if keyword == b"restart".as_slice() {
        Some(What::Restart)
    } else if keyword == b"publish".as_slice() {
        Some(What::Publish)
    } else if keyword == b"commit".as_slice() {
        Some(What::Commit)
    } else {
        None
    }
}

fn of_epoch(keyword: &[u8], epoch: u32) -> Option<What>
    ensures { result ≡ spec.of_epoch keyword.now epoch }
{
    if keyword == b"start".as_slice() {
        Some(What::Start(epoch))
    } else if keyword == b"hurt".as_slice() {
        Some(What::Hurt(epoch))
    } else if keyword == b"cancel".as_slice() {
        Some(What::Cancel(epoch))
    } else {
        None
    }
}

/// A decimal number of 32 bits.
pub(crate) fn number(word: &[u8]) -> Option<u32>
    ensures { result ≡ spec.number word.now }
{
    if !is_spelled(word) {
        return None;
    }
    let mut number = 0;
    for digit in word {
        if !digit.is_ascii_digit() {
            return None;
        }
        number = number * 10 + u64::from(*digit - b'0');
    }
    if number < 1 << 32 {
        Some(number as u32)
    } else {
        None
    }
}

/// Whether a word is as long as a number, with no leading 0 but 0 itself.
fn is_spelled(word: &[u8]) -> bool
    ensures { result ≡ keywords.is_spelled word.now }
{
    !word.is_empty() && word.len() <= 10 && (word.len() == 1 || word[0] != b'0')
}

/// Eight hexadecimal digits, of either case.
pub(crate) fn digits(word: &[u8]) -> Option<u32>
    ensures { result ≡ spec.digits word.now }
{
    if word.len() != 8 {
        return None;
    }
    let mut n = 0;
    for digit in word {
        n = n * 16 + digit_value(*digit)?;
    }
    Some(n)
}

fn digit_value(digit: u8) -> Option<u32>
    ensures value { result ≡ hex_digit_value digit }
    ensures small { IfSome result (λ v. v < 16) }
{
    // most digits of a trace are decimal ones
    if b'0' <= digit && digit <= b'9' {
        return Some(u32::from(digit - b'0'));
    }
    match digit {
        b'a'..=b'f' => Some(u32::from(digit - b'a') + 10),
        b'A'..=b'F' => Some(u32::from(digit - b'A') + 10),
        _ => None,
    }
}
