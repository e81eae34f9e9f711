//! The ways of a cache.
ghost use Rattle.std.specs.Prelude.{◌≡◌, ◌*◌, ◌++◌, ◌≤◌, true, length, IfOk, OnOk, IsTrue};
ghost use Rattle.rv32_image.specs.Machine.{is_line_length};
ghost use Rattle.cache_lines.specs.Cells.{cell_of};
ghost use Rattle.cache_lines.specs.Protocol.{copy_of_line};
ghost use Rattle.turn_steps.specs.Caches.{place_count, standing, standing_at};
ghost use Rattle.turn_steps.specs.Places as spec;

use crate::changed::push_changed;
use crate::machine::KnownMachine;
use crate::names::{loaded_word, state_name};
use cache_lines::Line;
use spec_states::LONGEST_LINE;
use std::alloc::{AllocError, Global};
use trace_text::{push_hex, push_number};

/// Adds a line of text for each way of a core's cache whose text isn't as it was, set by set, and in a set way by way. Before there
/// were the old lines, of a machine; now there are the new ones.
///
/// `AllocError`: memory ran out. Some of the text may be there.
pub fn push_way_changes(
    alloc: Global,
    text: &mut Vec<u8>,
    machine: KnownMachine,
    core: u32,
    old: &[Line],
    now: &[Line],
) -> Result<(), AllocError>
    requires old { place_count machine ≤ length old.now }
    requires now { place_count machine ≤ length now.now }
    ensures { OnOk result (text.new.items ≡ text.old.items ++ spec.way_changes machine core (standing_at old.now) (standing_at now.now) (place_count machine)) }
{
    for place in 0..machine.place_count() {
        push_way_change(
            alloc,
            text,
            machine,
            core,
            place as u32,
            &old[place],
            &now[place],
        )?;
    }
    Ok(())
}

/// Adds the text of a way, where it isn't as it was.
fn push_way_change(
    alloc: Global,
    text: &mut Vec<u8>,
    machine: KnownMachine,
    core: u32,
    place: u32,
    old: &Line,
    now: &Line,
) -> Result<(), AllocError>
    ensures { OnOk result (text.new.items
        ≡ text.old.items ++ spec.changed (spec.way_line machine core place (standing old.now)) (spec.way_line machine core place (standing now.now))) }
{
    if is_same(old, now) {
        return Ok(());
    }
    let before = way_line(alloc, machine, core, place, old)?;
    let after = way_line(alloc, machine, core, place, now)?;
    push_changed(text, before.as_slice(), after.as_slice())
}

fn is_same(old: &Line, now: &Line) -> bool
    ensures { result ≡ true → old.now ≡ now.now }
{
    *old == *now
}

/// The line of text of a way.
#[tactic(auto, unfolding(crate::specs::Places::way_line))]
fn way_line(
    alloc: Global,
    machine: KnownMachine,
    core: u32,
    place: u32,
    line: &Line,
) -> Result<Vec<u8>, AllocError>
    ensures { IfOk result (λ text. text.items ≡ spec.way_line machine core place (standing line.now)) }
{
    let sizes = machine.sizes();
    let mut text = Vec::from_slice(alloc, b"line ")?;
    push_place(&mut text, sizes.ways, core, place)?;
    if line.state.is_valid() {
        push_copy(&mut text, sizes.line_length, line)?;
    } else {
        text.extend_from_slice(b"-")?;
    }
    text.extend_from_slice(b"\n")?;
    Ok(text)
}

/// Adds the core, the set and the way of a place, in a cache of sets of so many ways.
fn push_place(text: &mut Vec<u8>, ways: u32, core: u32, place: u32) -> Result<(), AllocError>
    requires { 1 ≤ ways }
    ensures { OnOk result (text.new.items ≡ text.old.items ++ spec.place_text ways core place) }
{
    push_number(text, core)?;
    text.extend_from_slice(b" ")?;
    push_number(text, place / ways)?;
    text.extend_from_slice(b" ")?;
    push_number(text, place % ways)?;
    text.extend_from_slice(b" ")
}

/// Adds a copy: its address, its state, its marks and its bytes.
fn push_copy(text: &mut Vec<u8>, size: u32, line: &Line) -> Result<(), AllocError>
    requires size { IsTrue (is_line_length size) }
    ensures { OnOk result (text.new.items ≡ text.old.items ++ spec.copy_text size (record { addr = line.now.addr; copy = copy_of_line line.now })) }
{
    push_hex(text, &line.addr.to_be_bytes())?;
    text.extend_from_slice(b" ")?;
    text.extend_from_slice(state_name(line.state).as_bytes())?;
    text.extend_from_slice(b" ")?;
    text.extend_from_slice(loaded_word(line.marks.loaded).as_bytes())?;
    text.extend_from_slice(b" ")?;
    push_mask(text, size, line.marks.bytes)?;
    text.extend_from_slice(b" ")?;
    push_bytes(text, size, line)
}

/// Adds the mask of a line of so many bytes.
fn push_mask(text: &mut Vec<u8>, size: u32, mask: u64) -> Result<(), AllocError>
    ensures { OnOk result (text.new.items ≡ text.old.items ++ spec.mask_text size mask) }
{
    if size <= 32 {
        push_hex(text, &((mask % 0x1_0000_0000) as u32).to_be_bytes())
    } else {
        push_hex(text, &mask.to_be_bytes())
    }
}

/// Adds the bytes of a line.
#[tactic(auto, using(crate::proofs::Places::first_cells))]
fn push_bytes(text: &mut Vec<u8>, size: u32, line: &Line) -> Result<(), AllocError>
    requires size { IsTrue (is_line_length size) }
    ensures { OnOk result (text.new.items ≡ text.old.items ++ spec.bytes_text size (cell_of line.now)) }
{
    let mut digits = [0; 2 * LONGEST_LINE];
    let digits = &mut digits[..2 * size as usize];
    hex::encode_to_slice(&line.cells[..size as usize], digits).unwrap();
    text.extend_from_slice(digits)
}
