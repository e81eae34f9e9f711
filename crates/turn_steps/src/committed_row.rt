//! The committed bytes of a row of memory.
ghost use Rattle.std.specs.Prelude.{◌≡◌, ◌++◌, ◌+◌, ◌*◌, ◌<◌, ◌≤◌, ◌^◌, IfOk, OnOk, length, slice_index, true};
ghost use Rattle.turn_steps.specs.Places.{changed};
ghost use Rattle.turn_steps.specs.Rows as spec;

use crate::changed::push_changed;
use crate::rows::Row;
use std::alloc::{AllocError, Global};
use trace_text::push_hex;
use violations::EpochStore;

/// The 16 bytes from an address on.
pub(crate) fn row_in(bytes: &[u8], addr: u32) -> [u8; 16]
    requires small { length bytes.now < 2 ^ 32 }
    requires within { addr + 16 ≤ length bytes.now }
    ensures { result ≡ spec.bytes_from (λ a. slice_index bytes.now a) addr 16 }
{
    let mut row = [0; 16];
    for i in 0..16 {
        row[i as usize] = bytes[(addr + i) as usize];
    }
    row
}

/// The 16 committed bytes of a row.
pub(crate) fn committed_row<S: EpochStore>(store: &S, row: Row) -> [u8; 16]
    requires { 16 * row + 16 ≤ (S.view store.now).shape.size }
    ensures { result ≡ spec.bytes_from (S.view store.now).committed (16 * row) 16 }
{
    let mut bytes = [0; 16];
    for i in 0..16 {
        bytes[i as usize] = store.committed_byte(row.address(i));
    }
    bytes
}

/// Adds the line of the committed bytes of a row, where they aren't as they were.
pub(crate) fn push_at_change(
    alloc: Global,
    text: &mut Vec<u8>,
    row: Row,
    old: &[u8; 16],
    now: &[u8; 16],
) -> Result<(), AllocError>
    ensures { OnOk result (text.new.items ≡ text.old.items ++ changed (spec.at_text row old.now) (spec.at_text row now.now)) }
{
    if is_same(old, now) {
        return Ok(());
    }
    let before = at_line(alloc, row, old)?;
    let after = at_line(alloc, row, now)?;
    push_changed(text, before.as_slice(), after.as_slice())
}

fn is_same(old: &[u8; 16], now: &[u8; 16]) -> bool
    ensures { result ≡ true → old.now ≡ now.now }
{
    *old == *now
}

/// The line of the committed bytes of a row.
#[tactic(auto, unfolding(crate::specs::Rows::at_text))]
fn at_line(alloc: Global, row: Row, bytes: &[u8; 16]) -> Result<Vec<u8>, AllocError>
    ensures { IfOk result (λ text. text.items ≡ spec.at_text row bytes.now) }
{
    let mut text = Vec::from_slice(alloc, b"at ")?;
    push_hex(&mut text, &row.address(0).to_be_bytes())?;
    text.extend_from_slice(b" ")?;
    push_hex(&mut text, bytes)?;
    text.extend_from_slice(b"\n")?;
    Ok(text)
}
