//! The words of a row: numbers in cells, and images whose lines stand between semicolons.

use crate::words::{cell, word};
use rv32_exec::{Image, image_of};
use std::alloc::Global;
use std::test::Fail;

/// The number in a cell of a row. None: it has none.
pub fn number_in(row: &str, place: usize) -> Option<u32> {
    cell(row, place).parse().ok()
}

/// The same. Where there is none, one that no row has.
pub fn number(row: &str, place: usize) -> u32 {
    number_in(row, place).unwrap_or(u32::MAX)
}

/// The number at a place of a text, in hexadecimal. None: there is none.
pub fn hex(text: &str, place: usize) -> Option<u32> {
    u32::from_str_radix(word(text, place), 16).ok()
}

/// The image whose lines stand between semicolons.
pub fn image_in(alloc: Global, lines: &str) -> Result<Image, Fail> {
    let mut text = String::new(alloc);
    for line in lines.split(';') {
        text.push_str(line.trim())?;
        text.push_str("\n")?;
    }
    Ok(image_of(alloc, text.as_bytes())?)
}

/// The image of a loop of 16 epochs with this code.
pub fn image_with(alloc: Global, code: &str) -> Result<Image, Fail> {
    let text = format!(in alloc; "size 256\nepochs 16\nlimit 100\ncode {code}\n")?;
    Ok(image_of(alloc, text.as_bytes())?)
}
