//! The cache and the buffer of a core on the bus.
ghost use Rattle.std.specs.Prelude.{◌≡◌, ◌+◌, ◌*◌, ◌/◌, ◌^◌, ◌++◌, ◌<◌, ◌≤◌, ℕ, length, IfOk, OnOk};
ghost use Rattle.std.specs.List.{slice_index_or};
ghost use Rattle.spec_bus.specs.Cached.{bus};
ghost use Rattle.spec_bus.specs.Laws.{IsPlacedCore};
ghost use Rattle.turn_steps.specs.Caches as spec;
ghost use Rattle.turn_steps.specs.Caches.{no_line};
ghost use Rattle.turn_steps.specs.Laws.{Adds};

use crate::machine::{KnownMachine, Layout, PlacedCaches};
use crate::orbs::push_orb_change;
use crate::ways::push_way_changes;
use cache_lines::Line;
use orb::Orb;
use rv32_image::Apart;
use std::alloc::{AllocError, Global};
use std::collections::BTreeSet;
use std::marker::Model;

/// What a core's cache and its buffer were shown to hold.
#[derive(Drop)]
pub struct ShownCore {
    ways: Vec<Line>,
    orb: Vec<u32>,
}

impl Model for ShownCore {
    ghost use Rattle.turn_steps.specs.Caches.{Held};

    ghost Value = { Held };

    ghost view = { λ shown. record { ways = shown.ways.items; orb = shown.orb.items } };
}

impl ShownCore {
    /// What a core's cache, one of this machine, and its buffer hold: that counts as shown.
    ///
    /// `AllocError`: memory ran out.
    pub fn of(alloc: Global, placed: &PlacedCaches, core: u32) -> Result<ShownCore, AllocError>
        requires { core < (bus placed.now.caches.now).shape.cores }
        ensures held { IfOk result (λ shown. shown ≡ spec.held placed.now.machine placed.now.caches.now core) }
        ensures placed { IsPlacedCore placed.now.caches.now.cores core }
    {
        placed.caches.look_cache(core);
        let orb = lines_of(alloc, placed.caches.orb_at(core))?;
        let ways = ways_of(alloc, placed, core)?;
        Ok(ShownCore { ways, orb })
    }

    /// Adds the text of each way of a core's cache and of its buffer that isn't as it was shown: now they hold this. The cache is one of
    /// this machine.
    ///
    /// `AllocError`: memory ran out. Some of the text may be there.
    pub fn push_changes(
        &self,
        alloc: Global,
        text: &mut Vec<u8>,
        machine: KnownMachine,
        core: u32,
        now: &ShownCore,
    ) -> Result<(), AllocError>
        requires old { spec.place_count machine ≤ length self.now.ways }
        requires now { spec.place_count machine ≤ length now.now.ways }
        ensures { OnOk result (text.new.items ≡ text.old.items ++ spec.changes machine core self.now now.now) }
    {
        push_way_changes(
            alloc,
            text,
            machine,
            core,
            self.ways.as_slice(),
            now.ways.as_slice(),
        )?;
        push_orb_change(alloc, text, core, self.orb.as_slice(), now.orb.as_slice())
    }

    /// Puts into a set the rows of 16 bytes, counted from 0, of the bytes that the core has stored, of a memory of so many bytes on this
    /// machine; others may be with them.
    ///
    /// `AllocError`: memory ran out. Some of the rows may be there.
    pub fn push_own_rows(&self, layout: Layout, rows: &mut BTreeSet<u32>) -> Result<(), AllocError>
        ensures kept { OnOk result (spec.HasRowsOf rows.old rows.new) }
        ensures own { OnOk result ((place : ℕ) → place < length self.now.ways
            → spec.HasOwnRows layout.machine layout.size (slice_index_or self.now.ways place no_line) rows.new) }
    {
        for line in self.ways.as_slice() {
            push_own_rows_of(layout, line, rows)?;
        }
        Ok(())
    }
}

/// Puts the rows of a line in which bytes of it were stored into a set.
fn push_own_rows_of(layout: Layout, line: &Line, rows: &mut BTreeSet<u32>) -> Result<(), AllocError>
    ensures kept { OnOk result (spec.HasRowsOf rows.old rows.new) }
    ensures own { OnOk result (spec.HasOwnRows layout.machine layout.size line.now rows.new) }
{
    if line.marks.bytes == 0 {
        return Ok(());
    }
    push_five_rows(first_row(layout, line.addr), rows)
}

/// The row of the first byte that lies in the line at this place.
fn first_row(layout: Layout, line: u32) -> u32
    ensures row { result ≡ spec.first_row layout.machine.apart layout.size layout.machine.line_length line }
    ensures few { result < 2 ^ 31 }
{
    match layout.machine.apart {
        None => line / 16,
        Some(apart) => {
            if layout.size <= line {
                first_row_apart(apart, (line - layout.size) / layout.machine.line_length)
            } else {
                line / 16
            }
        }
    }
}

/// The row of the first byte of a piece of bytes that lie apart.
fn first_row_apart(apart: Apart, number: u32) -> u32
    requires few { number < 2 ^ 28 }
    requires short { apart.piece ≤ 64 }
    ensures few { result < 2 ^ 31 }
    ensures row { result ≡ (apart.first + number * apart.piece) / 16 }
{
    let first = u64::from(apart.first) + u64::from(number) * u64::from(apart.piece);
    (first / 16) as u32
}

/// Puts this row and the four behind it into a set.
fn push_five_rows(first: u32, rows: &mut BTreeSet<u32>) -> Result<(), AllocError>
    requires { first < 2 ^ 31 }
    ensures { OnOk result (Adds rows.old rows.new (λ row. spec.is_of_five first row)) }
{
    for i in 0..5 {
        rows.insert(first + i)?;
    }
    Ok(())
}

/// The lines in the ways of a core's cache, one of this machine.
///
/// `AllocError`: memory ran out.
fn ways_of(alloc: Global, placed: &PlacedCaches, core: u32) -> Result<Vec<Line>, AllocError>
    requires { core < (bus placed.now.caches.now).shape.cores }
    ensures { IfOk result (λ lines. lines.items ≡ spec.lines_below placed.now.machine placed.now.caches.now core (spec.place_count placed.now.machine)) }
{
    let machine = placed.machine.sizes();
    let mut lines = Vec::new(alloc);
    for place in 0..placed.machine.place_count() {
        let set = place as u32 / machine.ways;
        let way = place % machine.ways as usize;
        lines.push(*placed.caches.line_in(core, set * machine.line_length, way))?;
    }
    Ok(lines)
}

/// The lines of a buffer, in its order.
#[tactic(auto, using(crate::proofs::Held::next_taken))]
fn lines_of(alloc: Global, orb: &Orb) -> Result<Vec<u32>, AllocError>
    ensures { IfOk result (λ lines. lines.items ≡ orb.now.lines) }
{
    let mut lines = Vec::new(alloc);
    for place in 0..orb.len() {
        lines.push(orb.at(place).unwrap_or(0))?;
    }
    Ok(lines)
}
