ghost use Rattle.std.specs.Prelude.{◌≡◌, ◌∷◌, ◌<◌, ◌==◌, IfSome, List, length, position};
ghost use Rattle.std.specs.List.{list_all};
ghost use Rattle.std.specs.Char.{is_ascii_digit};
ghost use Rattle.rv32_image.specs.ImageText as spec;
ghost use Rattle.rv32_image.specs.Reading.{Gives};
ghost use Rattle.rv32_image.specs.Cutting.{pieces_after};
ghost use Rattle.rv32_image.specs.WordsOf.{AreWords};

use crate::fault::ImageFaultKind;
use std::alloc::Global;

/// The text up to the first separator, and what follows that, if there is one.
pub fn cut(text: &[u8], separator: u8) -> (&[u8], Option<&[u8]>)
    ensures { spec.pieces separator text.now ≡ result.0.now ∷ pieces_after separator result.1 }
{
    match position_of(text, separator) {
        Some(at) => (&text[..at], Some(&text[at + 1..])),
        None => (text, None),
    }
}

/// The words of a line, where it has one, two or three.
#[derive(Clone, Copy)]
pub enum Words<'a> {
    /// The whole line.
    One(&'a [u8]),
    /// Two words.
    Two(&'a [u8], &'a [u8]),
    /// Three words.
    Three(&'a [u8], &'a [u8], &'a [u8]),
    /// More than three words.
    Other,
}

/// The words of a line, which are parted by one space.
pub fn words_of(line: &[u8]) -> Words<'_>
    ensures { AreWords result (spec.pieces 32 line.now) }
{
    let (first, rest) = cut(line, b' ');
    let Some(rest) = rest else {
        return Words::One(first);
    };
    let (second, rest) = cut(rest, b' ');
    let Some(rest) = rest else {
        return Words::Two(first, second);
    };
    let (third, rest) = cut(rest, b' ');
    match rest {
        None => Words::Three(first, second, third),
        Some(_) => Words::Other,
    }
}

fn position_of(text: &[u8], separator: u8) -> Option<usize>
    ensures position { result ≡ position (λ b. b == separator) text.now }
    ensures within { IfSome result (λ at. at < length text.now) }
{
    text.iter().position(|b| *b == separator)
}

/// The number that a word of one to ten decimal digits writes, with no leading 0 except 0 itself. `Line`: the word is no such
/// number.
pub fn number_in(word: &[u8]) -> Result<u64, ImageFaultKind>
    ensures { result ≡ spec.number_in word.now }
{
    if !is_number(word) {
        return Err(ImageFaultKind::Line);
    }
    let mut number = 0;
    for digit in word {
        number = number * 10 + u64::from(*digit - b'0');
    }
    Ok(number)
}

fn is_number(word: &[u8]) -> bool
    ensures { result ≡ spec.is_number word.now }
{
    !word.is_empty() && word.len() <= 10 && are_digits(word) && (word.len() == 1 || word[0] != b'0')
}

fn are_digits(word: &[u8]) -> bool
    ensures { result ≡ list_all is_ascii_digit word.now }
{
    word.iter().all(|b| b.is_ascii_digit())
}

/// The bytes that hexadecimal digits give, two digits each.
pub fn bytes_in(alloc: Global, word: &[u8]) -> Result<Vec<u8>, ImageFaultKind>
    ensures { Gives (λ v. v.items) result (spec.bytes_in word.now) }
{
    match hex::decode(alloc, word) {
        Ok(bytes) => Ok(bytes),
        Err(hex::FromHexError::OutOfMemory) => Err(ImageFaultKind::NoMemory),
        Err(_) => Err(ImageFaultKind::Hex),
    }
}

/// The number that just eight hexadecimal digits write, of either case, the most significant first. `Hex`: the word is no
/// such number.
pub fn word_in(digits: &[u8]) -> Result<u32, ImageFaultKind>
    ensures { result ≡ spec.word_in digits.now }
{
    let mut bytes = [0; 4];
    match hex::decode_to_slice(digits, &mut bytes) {
        Ok(()) => Ok(u32::from_be_bytes(bytes)),
        Err(_) => Err(ImageFaultKind::Hex),
    }
}
