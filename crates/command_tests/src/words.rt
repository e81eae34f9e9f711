//! The words of a row: cells between bars, and numbers.

use rv32_exec::End;
use std::alloc::{AllocError, Global};
use std::fmt::Display;

/// A line that is empty or a remark is no row.
pub fn is_row(line: &str) -> bool {
    !line.is_empty() && !line.starts_with('#')
}

/// The cell at a place of a line, counted from 0; without spaces around it. Empty where there is none.
pub fn cell<'a>(line: &'a str, place: usize) -> &'a str {
    line.split('|').nth(place).unwrap_or("").trim()
}

/// The word at a place of a text, counted from 0; empty where there is none.
pub fn word<'a>(text: &'a str, place: usize) -> &'a str {
    text.split_whitespace().nth(place).unwrap_or("")
}

/// The number at a place of a text. Where there is none, one that no row has.
pub fn number(text: &str, place: usize) -> u32 {
    word(text, place).parse().ok().unwrap_or(u32::MAX)
}

/// How the loop has ended, as the words say: `done`, `exit` or `fault` with its numbers.
pub fn end_of(text: &str) -> End {
    let name = word(text, 0);
    if name == "done" {
        End::Done(number(text, 1))
    } else if name == "exit" {
        End::Exit(number(text, 1))
    } else {
        End::Fault {
            epoch: number(text, 1),
            cause: number(text, 2),
            pc: number(text, 3),
        }
    }
}

/// Whether an error prints this text.
pub fn prints(alloc: Global, error: impl Display + Drop, text: &str) -> Result<bool, AllocError> {
    Ok(format!(in alloc; "{error}")?.as_str() == text)
}
