//! The texts of lines. Where memory runs out some of their bytes may be there.
ghost use Rattle.std.specs.Prelude.{◌≡◌, ◌++◌, OnOk, slice_index};
ghost use Rattle.std.specs.List.{flat_map};
ghost use Rattle.trace_text.specs.Printing.{hex_word};
ghost use Rattle.depends.specs.Text as spec;

use crate::rows::Row;
use dependences::{Dependence, PairSum};
use itoa::Buffer;
use std::alloc::AllocError;
use trace_text::push_hex;

/// A label, and a word.
#[tactic(auto, using(crate::proofs::Joining::joined), unfolding(crate::specs::Text::labelled))]
pub fn push_word(text: &mut Vec<u8>, label: &[u8], word: &[u8]) -> Result<(), AllocError>
    ensures { OnOk result (text.new.items ≡ text.old.items ++ spec.labelled label.now word.now) }
{
    text.extend_from_slice(label)?;
    text.extend_from_slice(word)
}

/// A label, and a number in decimal digits.
pub fn push_named(text: &mut Vec<u8>, label: &[u8], n: u64) -> Result<(), AllocError>
    ensures { OnOk result (text.new.items ≡ text.old.items ++ spec.named label.now n) }
{
    push_word(text, label, Buffer::new().format(n).as_bytes())
}

/// A label, and an address of eight hexadecimal digits.
#[tactic(auto, using(crate::proofs::Joining::joined), unfolding(crate::specs::Text::labelled))]
pub fn push_address(text: &mut Vec<u8>, label: &[u8], address: u32) -> Result<(), AllocError>
    ensures { OnOk result (text.new.items ≡ text.old.items ++ spec.labelled label.now (hex_word address)) }
{
    text.extend_from_slice(label)?;
    push_hex(text, &address.to_be_bytes())
}

/// A line for each row, where the epochs execute so many instructions.
pub fn push_rows(text: &mut Vec<u8>, lengths: &[u64], rows: &[Row]) -> Result<(), AllocError>
    ensures { OnOk result (text.new.items ≡ text.old.items ++ flat_map (spec.row_text lengths.now) rows.now) }
{
    for row in rows {
        push_row(text, lengths, row)?;
    }
    Ok(())
}

/// The line of a row.
#[tactic(auto, using(crate::proofs::Joining::joined), unfolding(crate::specs::Text::row_text))]
fn push_row(text: &mut Vec<u8>, lengths: &[u64], row: &Row) -> Result<(), AllocError>
    ensures { OnOk result (text.new.items ≡ text.old.items ++ spec.row_text lengths.now row.now) }
{
    push_pair(text, row.0)?;
    push_sum(text, &row.1)?;
    push_first(text, lengths, &row.1.first)?;
    text.extend_from_slice(b"\n")
}

/// The two instructions.
#[tactic(auto, using(crate::proofs::Joining::joined), unfolding(crate::specs::Text::pair_text))]
fn push_pair(text: &mut Vec<u8>, pair: (u32, u32)) -> Result<(), AllocError>
    ensures { OnOk result (text.new.items ≡ text.old.items ++ spec.pair_text pair) }
{
    push_address(text, b"dep store ", pair.0)?;
    push_address(text, b" load ", pair.1)
}

/// How many dependences, their distances, and their bytes.
#[tactic(auto, using(crate::proofs::Joining::joined), unfolding(crate::specs::Text::sum_text))]
fn push_sum(text: &mut Vec<u8>, sum: &PairSum) -> Result<(), AllocError>
    ensures { OnOk result (text.new.items ≡ text.old.items ++ spec.sum_text sum.now) }
{
    push_named(text, b" times ", sum.times)?;
    push_named(text, b" distance ", sum.least as u64)?;
    push_named(text, b" ", sum.most as u64)?;
    push_address(text, b" at ", sum.lowest)?;
    push_named(
        text,
        b" ",
        sum.highest.saturating_sub(sum.lowest) as u64 + 1,
    )
}

/// The first dependence: its epochs, and how late in them its store and its load come.
#[tactic(auto, using(crate::proofs::Joining::joined), unfolding(crate::specs::Text::first_text))]
fn push_first(text: &mut Vec<u8>, lengths: &[u64], first: &Dependence) -> Result<(), AllocError>
    ensures { OnOk result (text.new.items ≡ text.old.items ++ spec.first_text lengths.now first.now) }
{
    push_named(text, b" first ", first.earlier as u64)?;
    push_named(text, b" ", first.later as u64)?;
    push_done(
        text,
        b" stored ",
        first.stored,
        length_at(lengths, first.earlier),
    )?;
    push_done(
        text,
        b" loaded ",
        first.loaded,
        length_at(lengths, first.later),
    )
}

/// How many instructions are done, of how many.
#[tactic(auto, using(crate::proofs::Joining::joined), unfolding(crate::specs::Text::done_text))]
fn push_done(text: &mut Vec<u8>, label: &[u8], done: u32, of: u64) -> Result<(), AllocError>
    ensures { OnOk result (text.new.items ≡ text.old.items ++ spec.done_text label.now done of) }
{
    push_named(text, label, done as u64)?;
    push_named(text, b" of ", of)
}

/// How many instructions an epoch executes: 0 where it doesn't run.
fn length_at(lengths: &[u64], epoch: u32) -> u64
    ensures { result ≡ slice_index lengths.now epoch }
{
    match lengths.get(epoch as usize) {
        Some(length) => *length,
        None => 0,
    }
}
