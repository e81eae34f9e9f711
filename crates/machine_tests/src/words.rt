//! The words of a row: cells between bars, numbers, and the entries of a history.

use rv32_exec::End;
use spec_history::{Entry, What};
use std::alloc::Global;
use std::test::Fail;

/// A line that is empty or a remark is no row.
pub fn is_row(line: &str) -> bool {
    !line.is_empty() && !line.starts_with('#')
}

/// The cell at a place of a line, counted from 0; without spaces around it. Empty where there is none.
pub fn cell<'a>(line: &'a str, place: usize) -> &'a str {
    line.split('|').nth(place).unwrap_or("").trim()
}

/// The word at a place of a text, counted from 0; empty where there is none.
pub fn word<'a>(text: &'a str, place: usize) -> &'a str {
    text.split_whitespace().nth(place).unwrap_or("")
}

/// The number at a place of a text. Where there is none, one that no row has.
pub fn number(text: &str, place: usize) -> u32 {
    word(text, place).parse().ok().unwrap_or(u32::MAX)
}

/// The number at a place of a text, in hexadecimal. None: there is none.
pub fn hex(text: &str, place: usize) -> Option<u32> {
    u32::from_str_radix(word(text, place), 16).ok()
}

/// How the loop has ended, as the words from this place on say: `done`, `exit` or `fault` with its numbers, or another word where it
/// isn't over.
pub fn end_of(text: &str, place: usize) -> Option<End> {
    let first = number(text, place.saturating_add(1));
    let second = number(text, place.saturating_add(2));
    let third = number(text, place.saturating_add(3));
    let fault = End::Fault {
        epoch: first,
        cause: second,
        pc: third,
    };
    for (name, end) in [
        ("done", End::Done(first)),
        ("exit", End::Exit(first)),
        ("fault", fault),
    ] {
        if name == word(text, place) {
            return Some(end);
        }
    }
    None
}

/// The entries of a history.
pub fn entries_of(alloc: Global, text: &str) -> Result<Vec<Entry>, Fail> {
    let mut entries = Vec::new(alloc);
    for words in text.split(';') {
        if !words.trim().is_empty() {
            entries.push(entry_of(words).ok_or("no entry")?)?;
        }
    }
    Ok(entries)
}

/// The entry that these words say: a core, what it did, and numbers.
pub fn entry_of(words: &str) -> Option<Entry> {
    let by = number(words, 0);
    for (name, what) in entries_with(number(words, 2), number(words, 3), number(words, 4)) {
        if name == word(words, 1) {
            return Some(Entry { by, what });
        }
    }
    None
}

/// What an entry says by each word, with these numbers.
fn entries_with(first: u32, second: u32, third: u32) -> [(&'static str, What); 9] {
    let load = What::Load {
        addr: first,
        width: second,
        value: third,
    };
    let store = What::Store {
        addr: first,
        width: second,
        value: third,
    };
    let fault = What::Fault {
        cause: first,
        pc: second,
    };
    [
        ("start", What::Start(first)),
        ("load", load),
        ("store", store),
        ("hurt", What::Hurt(first)),
        ("cancel", What::Cancel(first)),
        ("restart", What::Restart),
        ("publish", What::Publish),
        ("commit", What::Commit),
        ("fault", fault),
    ]
}
