//! What a core of a plain store keeps of a row of memory.
ghost use Rattle.std.specs.Prelude.{◌≡◌, ◌++◌, ◌+◌, ◌*◌, ◌<◌, ◌≤◌, ◌^◌, IfOk, OnOk, true, if◌then◌else◌};
ghost use Rattle.violations.specs.Plain.{store_view};
ghost use Rattle.turn_steps.specs.Places.{changed};
ghost use Rattle.turn_steps.specs.Rows as spec;
ghost use Rattle.turn_steps.specs.KeptRow as kept;

use crate::changed::push_changed;
use crate::rows::Row;
use std::alloc::{AllocError, Global};
use trace_text::{push_hex, push_number};
use violations::PlainStore;

/// What a core keeps of the 16 bytes of a row. Bit i of a mask is the byte at address i of the row.
#[derive(Clone, Copy, PartialEq, Eq)]
pub(crate) struct KeptRow {
    /// The bytes that it guards.
    pub read: u16,
    /// The bytes that it has stored.
    pub own: u16,
    /// The stored bytes, and 0 elsewhere.
    pub bytes: [u8; 16],
}

impl KeptRow {
    /// Nothing.
    pub fn nothing() -> KeptRow
        ensures { result ≡ kept.nothing }
    {
        KeptRow {
            read: 0,
            own: 0,
            bytes: [0; 16],
        }
    }

    /// What a core keeps of a row.
    pub fn of(store: &PlainStore, core: u32, row: Row) -> KeptRow
        ensures { result ≡ kept.kept_of (store_view store.now) core row }
    {
        KeptRow {
            read: guarded_mask(store, core, row),
            own: own_mask(store, core, row),
            bytes: own_bytes(store, core, row),
        }
    }
}

/// Puts a bit into a mask of the lower ones.
fn with_bit(mask: u16, bit: u32, is_set: bool) -> u16
    requires small { bit < 16 }
    requires below { mask < 2 ^ bit }
    ensures more { result ≡ mask + (if is_set then 2 ^ bit else 0) }
    ensures below { result < 2 ^ (bit + 1) }
{
    if is_set { mask + (1 << bit) } else { mask }
}

/// Which of the 16 bytes of a row a core guards.
fn guarded_mask(store: &PlainStore, core: u32, row: Row) -> u16
    ensures { result ≡ spec.mask_from ((store_view store.now).guarded core) (16 * row) 16 }
{
    let mut mask = 0;
    for i in 0..16 {
        mask = with_bit(mask, i, store.guards(core, row.address(i)));
    }
    mask
}

/// Which of the 16 bytes of a row a core has stored.
fn own_mask(store: &PlainStore, core: u32, row: Row) -> u16
    ensures { result ≡ spec.mask_from ((store_view store.now).own core) (16 * row) 16 }
{
    let mut mask = 0;
    for i in 0..16 {
        mask = with_bit(mask, i, store.own_byte(core, row.address(i)).is_some());
    }
    mask
}

/// The bytes that a core has stored of the 16 of a row, and 0 elsewhere.
fn own_bytes(store: &PlainStore, core: u32, row: Row) -> [u8; 16]
    ensures { result ≡ spec.bytes_from (spec.own_byte (store_view store.now) core) (16 * row) 16 }
{
    let mut bytes = [0; 16];
    for i in 0..16 {
        bytes[i as usize] = own_or_zero(store, core, row.address(i));
    }
    bytes
}

fn own_or_zero(store: &PlainStore, core: u32, addr: u32) -> u8
    ensures { result ≡ spec.own_byte (store_view store.now) core addr }
{
    store.own_byte(core, addr).unwrap_or(0)
}

/// Adds the line of what a core keeps of a row, where it isn't as it was.
pub(crate) fn push_kept_change(
    alloc: Global,
    text: &mut Vec<u8>,
    core: u32,
    row: Row,
    old: &KeptRow,
    now: &KeptRow,
) -> Result<(), AllocError>
    ensures { OnOk result (text.new.items ≡ text.old.items ++ changed (kept.kept_row_text core row old.now) (kept.kept_row_text core row now.now)) }
{
    if is_same(old, now) {
        return Ok(());
    }
    let before = kept_line(alloc, core, row, old)?;
    let after = kept_line(alloc, core, row, now)?;
    push_changed(text, before.as_slice(), after.as_slice())
}

fn is_same(old: &KeptRow, now: &KeptRow) -> bool
    ensures { result ≡ true → old.now ≡ now.now }
{
    *old == *now
}

/// The line of what a core keeps of a row.
#[tactic(auto, unfolding(crate::specs::Rows::kept_text))]
fn kept_line(alloc: Global, core: u32, row: Row, keeps: &KeptRow) -> Result<Vec<u8>, AllocError>
    ensures { IfOk result (λ text. text.items ≡ kept.kept_row_text core row keeps.now) }
{
    let mut text = Vec::from_slice(alloc, b"kept ")?;
    push_number(&mut text, core)?;
    text.extend_from_slice(b" ")?;
    push_hex(&mut text, &row.address(0).to_be_bytes())?;
    text.extend_from_slice(b" ")?;
    push_hex(&mut text, &keeps.read.to_be_bytes())?;
    text.extend_from_slice(b" ")?;
    push_hex(&mut text, &keeps.own.to_be_bytes())?;
    text.extend_from_slice(b" ")?;
    push_hex(&mut text, &keeps.bytes)?;
    text.extend_from_slice(b"\n")?;
    Ok(text)
}
