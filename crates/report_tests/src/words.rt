//! The words of a row, and those that name places and counts.

/// The word at a place of a text, counted from 0; empty where there is none.
pub fn word<'a>(text: &'a str, place: usize) -> &'a str {
    text.split_whitespace().nth(place).unwrap_or("")
}

/// The number at a place of a text. Where there is none, one that no row has.
pub fn number(text: &str, place: usize) -> u32 {
    word(text, place).parse().ok().unwrap_or(u32::MAX)
}

/// The same as a place in a history or a count.
pub fn index(row: &str, place: usize) -> usize {
    word(row, place).parse().unwrap_or(usize::MAX)
}

/// The place in the history that a row names, if it names one.
pub fn place_in(row: &str, place: usize) -> Option<usize> {
    word(row, place).parse().ok()
}

/// How many rows a table has.
pub fn count_of(rows: &str) -> usize {
    let mut count = 0usize;
    for row in rows.split('\n') {
        if !row.is_empty() {
            count = count.wrapping_add(1);
        }
    }
    count
}
