ghost use Rattle.std.specs.Prelude.{◌≡◌, ℕ, ◌+◌, ◌<◌, ◌≤◌, IfOk, OnOk, true, false, ◌++◌, ◌∷◌, [], length, slice_index};
ghost use Rattle.rv32_image.specs.Image.{IsImage};
ghost use Rattle.rv32_exec.specs.declared.sequential.End.TheVariants.{Done};
ghost use Rattle.rv32_exec.specs.Sequential.{first_epochs};
ghost use Rattle.epoch_paths.specs.InOrder.{IsInOrder};
ghost use Rattle.epoch_paths.specs.Kept.{CanRun};
ghost use Rattle.epoch_paths.specs.KeptPieces as spec;
ghost use Rattle.epoch_paths.specs.Stored.{AreStores, piece_in};

use crate::epoch::Epoch;
use crate::pieces::Pieces;
use memory_bytes::{read_number, write_number};
use rv32_exec::{NoMemory, Stop, advance, loaded, start, stored};
use rv32_image::Image;
use std::alloc::Global;

/// The pieces of memory in which epochs store in order: each with each epoch that stores there.
///
/// `NoMemory`: there was none for a copy of the image's bytes, a word for each piece, and the list.
pub fn stores_in_order(
    alloc: Global,
    image: &Image,
    pieces: Pieces,
) -> Result<Vec<(u32, u32)>, NoMemory>
    ensures { IfOk result (λ stores. AreStores image.now (piece_in pieces image.now) stores.items) }
{
    let mut memory = Vec::from_slice(alloc, image.bytes())?;
    let mut noted = none(alloc, pieces.of(image, image.size()) as usize)?;
    run_all(image, pieces, memory.as_mut_slice(), &mut noted)?;
    Ok(noted.list)
}

/// The pieces so far, and of each piece the last epoch that stores there and 1, or 0 for none.
#[derive(Drop)]
struct Noted {
    list: Vec<(u32, u32)>,
    last: Vec<u32>,
}

/// None, of so many pieces.
fn none(alloc: Global, pieces: usize) -> Result<Noted, NoMemory>
    ensures list { IfOk result (λ noted. noted.list.items ≡ []) }
    ensures long { IfOk result (λ noted. length noted.last.items ≡ pieces) }
    ensures none { IfOk result (λ noted. (a : ℕ) → slice_index noted.last.items a ≡ 0) }
{
    let last = vec![in alloc; 0; pieces]?;
    Ok(Noted {
        list: Vec::new(alloc),
        last,
    })
}

/// Runs the epochs over memory, in order, and notes where they store. Nothing has been noted before.
fn run_all(
    image: &Image,
    pieces: Pieces,
    memory: &mut [u8],
    noted: &mut Noted,
) -> Result<(), NoMemory>
    requires memory { memory.old ≡ image.now.bytes }
    requires long { length noted.old.last.items ≡ piece_in pieces image.now image.now.size }
    requires list { noted.old.list.items ≡ [] }
    requires none { (a : ℕ) → slice_index noted.old.last.items a ≡ 0 }
    ensures { IfOk result (λ done. AreStores image.now (piece_in pieces image.now) noted.new.list.items) }
{
    for epoch in 0..image.epochs() {
        if !follow(image, pieces, epoch, memory, noted)? {
            return Ok(());
        }
    }
    Ok(())
}

/// Runs one epoch over memory, and notes where it stores. Answers whether the next one runs.
fn follow(
    image: &Image,
    pieces: Pieces,
    epoch: u32,
    memory: &mut [u8],
    noted: &mut Noted,
) -> Result<bool, NoMemory>
    requires run { CanRun image.now epoch memory.old }
    requires long { length noted.old.last.items ≡ piece_in pieces image.now image.now.size }
    requires before { first_epochs image.now epoch ≡ record { end = Done epoch; bytes = memory.old } }
    requires kept { spec.AreBefore image.now (piece_in pieces image.now) epoch noted.old.list.items }
    requires fresh { (a : ℕ) → slice_index noted.old.last.items a ≤ epoch }
    ensures long { length noted.new.last.items ≡ length noted.old.last.items }
    ensures kept { IfOk result (λ goes_on. spec.AreBefore image.now (piece_in pieces image.now) (epoch + 1) noted.new.list.items) }
    ensures fresh { (a : ℕ) → slice_index noted.new.last.items a ≤ epoch + 1 }
    ensures goes_on { IfOk result (λ goes_on. goes_on ≡ true → first_epochs image.now (epoch + 1) ≡ record { end = Done (epoch + 1); bytes = memory.new }) }
    ensures ends { IfOk result (λ goes_on. goes_on ≡ false → IsInOrder image.now (epoch + 1) → ⊥) }
{
    let at = Epoch::of(epoch);
    let mut hart = start(image, epoch);
    'accesses: loop {
        let arrived = advance(image, hart);
        match arrived.at() {
            Stop::Load { addr, width, .. } => {
                hart = loaded(&arrived, read_number(memory, addr as usize, width));
            }
            Stop::Store { addr, width, value } => {
                write_number(memory, addr as usize, width, value);
                note(noted, image, pieces, at, addr, width)?;
                hart = stored(&arrived);
            }
            Stop::Ended => return Ok(!arrived.now().exits(image)),
            Stop::Fault { .. } => return Ok(false),
        }
    }
}

/// Notes a store of these bytes.
fn note(
    noted: &mut Noted,
    image: &Image,
    pieces: Pieces,
    epoch: Epoch,
    addr: u32,
    width: u32,
) -> Result<(), NoMemory>
    requires limits { IsImage image.now }
    requires within { addr + width ≤ image.now.size }
    requires long { length noted.old.last.items ≡ piece_in pieces image.now image.now.size }
    requires noted { spec.AreNoted epoch noted.old.last.items noted.old.list.items }
    requires fresh { (a : ℕ) → slice_index noted.old.last.items a ≤ epoch + 1 }
    ensures long { length noted.new.last.items ≡ length noted.old.last.items }
    ensures fresh { (a : ℕ) → slice_index noted.new.last.items a ≤ epoch + 1 }
    ensures noted { OnOk result (spec.AreNoted epoch noted.new.last.items noted.new.list.items) }
    ensures more { OnOk result (spec.AreMore epoch (spec.IsPieceOf (piece_in pieces image.now) addr width) noted.old.list.items noted.new.list.items) }
{
    for i in 0..width {
        note_piece(noted, epoch, pieces.of(image, addr + i))?;
    }
    Ok(())
}

/// Notes that the epoch stores in this piece.
fn note_piece(noted: &mut Noted, epoch: Epoch, piece: u32) -> Result<(), NoMemory>
    requires within { piece < length noted.old.last.items }
    requires noted { spec.AreNoted epoch noted.old.last.items noted.old.list.items }
    requires fresh { (a : ℕ) → slice_index noted.old.last.items a ≤ epoch + 1 }
    ensures long { length noted.new.last.items ≡ length noted.old.last.items }
    ensures fresh { (a : ℕ) → slice_index noted.new.last.items a ≤ epoch + 1 }
    ensures noted { OnOk result (spec.AreNoted epoch noted.new.last.items noted.new.list.items) }
    ensures more { OnOk result (spec.AreMore epoch (λ p. p ≡ piece) noted.old.list.items noted.new.list.items) }
{
    if noted.last[piece as usize] == epoch.note() {
        return Ok(());
    }
    noted.last[piece as usize] = epoch.note();
    add(&mut noted.list, piece, epoch.number())
}

/// Adds a piece with an epoch.
fn add(list: &mut Vec<(u32, u32)>, piece: u32, epoch: u32) -> Result<(), NoMemory>
    ensures { OnOk result (list.new.items ≡ list.old.items ++ (piece, epoch) ∷ []) }
{
    list.push((piece, epoch)).map_err(|_| NoMemory)
}
