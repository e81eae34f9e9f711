//! What the entries of a turn touch.
ghost use Rattle.std.specs.Prelude.{◌≡◌, ◌==◌, ◌/◌, ◌<◌, ◌^◌, OnOk};
ghost use Rattle.std.specs.List.{list_any};
ghost use Rattle.turn_steps.specs.Laws as spec;

use crate::rows::Row;
use spec_history::{Entry, What};
use std::alloc::AllocError;
use std::collections::BTreeSet;

/// One of the entries commits what its core has stored.
pub fn has_commit(entries: &[Entry]) -> bool
    ensures { result ≡ list_any spec.commits entries.now }
{
    entries.iter().any(|entry| is_commit(entry.what))
}

/// It commits what its core has stored.
fn is_commit(what: What) -> bool
    ensures { result ≡ spec.is_commit what }
{
    match what {
        What::Publish | What::Commit | What::Fault { .. } => true,
        _ => false,
    }
}

/// Adds the rows that the entries touch: of each load and store that of its address, with the four before it and the four behind it.
///
/// `AllocError`: memory ran out. Some of the rows may be there.
pub fn add_touched_rows(entries: &[Entry], rows: &mut BTreeSet<u32>) -> Result<(), AllocError>
    ensures { OnOk result (spec.Adds rows.old rows.new (λ row. list_any (spec.touches row) entries.now)) }
{
    for entry in entries {
        add_touched(entry.what, rows)?;
    }
    Ok(())
}

/// Adds the rows that an entry touches.
fn add_touched(what: What, rows: &mut BTreeSet<u32>) -> Result<(), AllocError>
    ensures { OnOk result (spec.Adds rows.old rows.new (λ row. spec.touches_in row what)) }
{
    match what {
        What::Load { addr, .. } | What::Store { addr, .. } => add_near(Row::of(addr), rows),
        _ => Ok(()),
    }
}

/// Adds the rows near this one.
fn add_near(row: Row, rows: &mut BTreeSet<u32>) -> Result<(), AllocError>
    ensures { OnOk result (spec.Adds rows.old rows.new (λ other. spec.is_near row other)) }
{
    let number = row.number();
    for near in number.saturating_sub(4)..number + 5 {
        add_row(near, rows)?;
    }
    Ok(())
}

/// Adds the rows in which the entries store.
///
/// `AllocError`: memory ran out. Some of the rows may be there.
pub fn add_stored_rows(entries: &[Entry], rows: &mut BTreeSet<u32>) -> Result<(), AllocError>
    ensures { OnOk result (spec.Adds rows.old rows.new (λ row. list_any (spec.stores_in row) entries.now)) }
{
    for entry in entries {
        add_stored(entry.what, rows)?;
    }
    Ok(())
}

/// Adds the row in which an entry stores.
fn add_stored(what: What, rows: &mut BTreeSet<u32>) -> Result<(), AllocError>
    ensures { OnOk result (spec.Adds rows.old rows.new (λ row. spec.writes_in row what)) }
{
    match what {
        What::Store { addr, .. } => add_row(addr / 16, rows),
        _ => Ok(()),
    }
}

/// Adds a row.
fn add_row(added: u32, rows: &mut BTreeSet<u32>) -> Result<(), AllocError>
    ensures { OnOk result (spec.Adds rows.old rows.new (λ row. added == row)) }
{
    match rows.insert(added) {
        Ok(_) => Ok(()),
        Err(_) => Err(AllocError),
    }
}
