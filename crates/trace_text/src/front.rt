ghost use Rattle.std.specs.Prelude.{◌≡◌, [], MatchOption, None};
ghost use Rattle.trace_text.specs.TraceText as spec;
ghost use Rattle.trace_text.specs.Front as front;
ghost use Rattle.trace_text.specs.Front.{HasNext, IsFront, IsRead, Says, below, first_word, only, words_after};

use crate::entry::{digits, number};
use rv32_image::cut;
use spec_history::What;

/// The first word of a text, and what follows it.
pub(crate) fn word_at(text: &[u8]) -> (&[u8], &[u8])
    ensures { IsFront text.now result.0.now result.1.now }
{
    for at in 0..text.len() {
        if ends_word(text[at]) {
            return (&text[..at], &text[at..]);
        }
    }
    (text, &[])
}

fn ends_word(b: u8) -> bool
    ensures { result ≡ front.ends_word b }
{
    b == b' ' || b == b'\n'
}

/// The decimal number of 32 bits that the first word of a text writes, and what follows it.
pub(crate) fn number_at(text: &[u8]) -> Option<(u32, &[u8])>
    ensures { MatchOption result (spec.number (first_word text.now) ≡ None) (λ r. IsRead spec.number text.now r.0 r.1.now) }
{
    // most numbers of a trace have one digit
    if is_one_digit(text) {
        return Some((u32::from(text[0] - b'0'), &text[1..]));
    }
    any_number_at(text)
}

/// Whether the first word of a text is one decimal digit, and something follows it.
fn is_one_digit(text: &[u8]) -> bool
    ensures { result ≡ front.is_one_digit text.now }
{
    text.len() > 1 && text[0].is_ascii_digit() && ends_word(text[1])
}

/// The decimal number of 32 bits that the first word of a text writes, however many digits it has, and what follows it.
#[inline(never)]
fn any_number_at(text: &[u8]) -> Option<(u32, &[u8])>
    ensures { MatchOption result (spec.number (first_word text.now) ≡ None) (λ r. IsRead spec.number text.now r.0 r.1.now) }
{
    let (word, left) = word_at(text);
    Some((number(word)?, left))
}

/// The number that the first word of a text writes in eight hexadecimal digits, and what follows it.
#[inline(always)]
pub(crate) fn digits_at(text: &[u8]) -> Option<(u32, &[u8])>
    ensures { MatchOption result (spec.digits (first_word text.now) ≡ None) (λ r. IsRead spec.digits text.now r.0 r.1.now) }
{
    if text.len() < 8 {
        return None;
    }
    let n = digits(&text[..8])?;
    let left = &text[8..];
    if is_end(left) { Some((n, left)) } else { None }
}

/// Whether a word that this follows ends there.
fn is_end(left: &[u8]) -> bool
    ensures { result ≡ front.is_end left.now }
{
    if left.is_empty() {
        return true;
    }
    ends_word(left[0])
}

/// The text from the next word of the line on, where a space follows the word before.
pub(crate) fn next_word(left: &[u8]) -> Option<&[u8]>
    ensures { MatchOption result (words_after left.now ≡ []) (λ text. HasNext left.now text.now) }
{
    if left.is_empty() {
        return None;
    }
    if left[0] == b' ' {
        Some(&left[1..])
    } else {
        None
    }
}

/// What a line says that ends here, and the text below it, if there is one.
pub(crate) fn only_at(what: What, left: &[u8]) -> Option<(What, Option<&[u8]>)>
    ensures { MatchOption result (only what (words_after left.now) ≡ None) (λ r. Says (only what (words_after left.now)) (below left.now) r.0 r.1) }
{
    match next_word(left) {
        Some(_) => None,
        None => Some((what, cut(left, b'\n').1)),
    }
}
