ghost use Rattle.std.specs.Prelude.{◌≡◌, ◌<◌, ◌≤◌, ◌+◌, ◌-◌, ◌^◌, ℕ, [], OnOk, Some, None, vec_len, vec_capacity, length, slice_index, slice_set};
ghost use Rattle.memory_bytes.specs.Bytes.{number_at};
ghost use Rattle.memory_bytes.specs.Bytes.{IsWidth};
ghost use Rattle.memory_bytes.specs.Maps.{joined, over, read_outside, stored};
ghost use Rattle.memory_bytes.specs.Shadow as spec;

use std::alloc::{AllocError, Global};
use std::marker::Model;

/// Some of memory's bytes, kept beside it: a byte or none at each address.
///
/// It takes no memory before the first `reserve`, and then room for a cell for each address up to the highest that was
/// reserved. The cells are made up to the highest address at which a byte is set, when it is. Else reading and setting a
/// byte take the same time whatever is kept, and clearing takes time for what was set. Contracts see the bytes by address,
/// and for how many more there is room.
#[derive(Drop)]
pub struct ShadowBytes {
    cells: Vec<Option<u8>>,
    size: u32,
    touched: Vec<u32>,
}

impl Model for ShadowBytes {
    ghost use Rattle.std.specs.Prelude.{◌-◌, vec_len, vec_capacity};
    ghost use Rattle.memory_bytes.specs.Shadow.{ShadowView, IsShadow, padded};

    ghost Value = { ShadowView };

    ghost view = { λ s. record { cells = padded s.cells.items s.size; room = vec_capacity s.touched - vec_len s.touched } };

    ghost invariant = { λ s. IsShadow s.cells.items s.size (vec_capacity s.cells) s.touched.items };
}

impl ShadowBytes {
    /// No bytes.
    pub fn new(alloc: Global) -> ShadowBytes
        ensures { result.cells ≡ [] }
    {
        ShadowBytes {
            cells: Vec::new(alloc),
            size: 0,
            touched: Vec::new(alloc),
        }
    }

    /// The byte at an address, if there is one.
    pub fn get(&self, addr: u32) -> Option<u8>
        ensures { result ≡ spec.byte_in self.now.cells addr }
    {
        match self.cells.get(addr as usize) {
            Some(cell) => *cell,
            None => None,
        }
    }

    /// The addresses at which there is a byte, each once.
    pub fn touched(&self) -> &[u32]
        ensures { spec.Covers self.now.cells result.now }
    {
        self.touched.as_slice()
    }

    /// Makes room for the bytes of an access to `width` bytes from `addr` on.
    pub fn reserve(&mut self, addr: u32, width: u32) -> Result<(), AllocError>
        requires { addr + width < 2 ^ 32 }
        ensures bytes { (a : ℕ) → spec.byte_in self.new.cells a ≡ spec.byte_in self.old.cells a }
        ensures within { (size : ℕ) → length self.old.cells ≤ size → addr + width ≤ size → length self.new.cells ≤ size }
        ensures cells { OnOk result (addr + width ≤ length self.new.cells) }
        ensures room { OnOk result (width ≤ self.new.room) }
    {
        let end = addr + width;
        self.touched.reserve(width as usize)?;
        if end <= self.size {
            return Ok(());
        }
        self.cells.reserve(end as usize - self.cells.len())?;
        self.size = end;
        Ok(())
    }

    /// Sets the byte at an address.
    #[inline]
    pub fn set(&mut self, addr: u32, byte: u8)
        requires within { addr < length self.old.cells }
        requires room { 0 < self.old.room }
        ensures cells { self.new.cells ≡ slice_set self.old.cells addr (Some byte) }
        ensures room { self.old.room ≤ self.new.room + 1 }
    {
        reach(&mut self.cells, addr as usize);
        put(&mut self.cells, &mut self.touched, addr, byte);
    }

    /// The byte of memory with these bytes over it.
    pub fn seen(&self, memory: &[u8], addr: u32) -> u8
        requires { addr < length memory.now }
        ensures { result ≡ over (spec.byte_in self.now.cells) (λ a. slice_index memory.now a) addr }
    {
        self.get(addr).unwrap_or(memory[addr as usize])
    }

    /// The number in `width` bytes of memory with these bytes over it, little endian.
    #[tactic(auto, unfolding(crate::specs::Bytes::number_at))]
    pub fn number(&self, memory: &[u8], addr: u32, width: u32) -> u32
        requires width { IsWidth width }
        requires small { addr + width < 2 ^ 32 }
        requires memory { addr + width ≤ length memory.now }
        ensures number { result ≡ number_at (over (spec.byte_in self.now.cells) (λ a. slice_index memory.now a)) addr width }
        ensures below { result < 256 ^ width }
    {
        match width {
            1 => u32::from(self.seen(memory, addr)),
            2 => u32::from(u16::from_le_bytes([
                self.seen(memory, addr),
                self.seen(memory, addr + 1),
            ])),
            _ => u32::from_le_bytes([
                self.seen(memory, addr),
                self.seen(memory, addr + 1),
                self.seen(memory, addr + 2),
                self.seen(memory, addr + 3),
            ]),
        }
    }

    /// Notes the bytes that a load reads from outside `own`: those of memory at its addresses that `own` hasn't.
    pub fn note(&mut self, own: &ShadowBytes, memory: &[u8], addr: u32, width: u32)
        requires small { addr + width < 2 ^ 32 }
        requires within { addr + width ≤ length self.old.cells }
        requires memory { addr + width ≤ length memory.now }
        requires room { width ≤ self.old.room }
        ensures long { length self.new.cells ≡ length self.old.cells }
        ensures read { (a : ℕ) → spec.byte_in self.new.cells a ≡
            joined (read_outside addr width (spec.byte_in own.now.cells) (λ b. slice_index memory.now b)) (spec.byte_in self.old.cells) a }
        ensures room { self.old.room ≤ self.new.room + width }
    {
        for i in 0..width {
            if own.get(addr + i).is_none() {
                self.set(addr + i, memory[(addr + i) as usize]);
            }
        }
    }

    /// Keeps the bytes of a store: the low `width` bytes of the value, little endian.
    pub fn keep(&mut self, addr: u32, width: u32, value: u32)
        requires small { addr + width < 2 ^ 32 }
        requires within { addr + width ≤ length self.old.cells }
        requires room { width ≤ self.old.room }
        ensures long { length self.new.cells ≡ length self.old.cells }
        ensures kept { (a : ℕ) → spec.byte_in self.new.cells a ≡ joined (stored addr width value) (spec.byte_in self.old.cells) a }
        ensures room { self.old.room ≤ self.new.room + width }
    {
        let mut rest = value;
        for i in 0..width {
            self.set(addr + i, (rest % 256) as u8);
            rest /= 256;
        }
    }

    /// Puts the bytes into memory.
    pub fn commit(&self, memory: &mut Vec<u8>)
        requires { length self.now.cells ≤ length memory.old.items }
        ensures long { length memory.new.items ≡ length memory.old.items }
        ensures bytes { (a : ℕ) → slice_index memory.new.items a ≡ over (spec.byte_in self.now.cells) (λ b. slice_index memory.old.items b) a }
    {
        for addr in &self.touched {
            if let Some(byte) = self.get(*addr) {
                memory[*addr as usize] = byte;
            }
        }
    }

    /// Takes all bytes out.
    pub fn clear(&mut self)
        ensures long { length self.new.cells ≡ length self.old.cells }
        ensures none { (a : ℕ) → spec.byte_in self.new.cells a ≡ None }
        ensures room { self.old.room ≤ self.new.room }
    {
        empty(&mut self.cells, &mut self.touched);
    }
}

/// Sets the byte at an address that has a cell, and notes the address, where there was none.
#[inline]
#[tactic(auto, using(crate::proofs::Shadows::noted_again, crate::proofs::Shadows::noted_more))]
fn put(cells: &mut Vec<Option<u8>>, touched: &mut Vec<u32>, addr: u32, byte: u8)
    requires there { addr < length cells.old.items }
    requires room { vec_len touched.old < vec_capacity touched.old }
    ensures cells { cells.new.items ≡ slice_set cells.old.items addr (Some byte) }
    ensures list { touched.new.items ≡ spec.noted cells.old.items touched.old.items addr }
    ensures capacity { vec_capacity cells.new ≡ vec_capacity cells.old }
    ensures room { vec_capacity touched.old - vec_len touched.old ≤ vec_capacity touched.new - vec_len touched.new + 1 }
{
    if cells[addr as usize].is_some() {
        cells[addr as usize] = Some(byte);
        return;
    }
    cells[addr as usize] = Some(byte);
    touched.push_reserved(addr);
}

/// Takes the bytes at these addresses out, which are all that there are, and empties the list.
fn empty(cells: &mut Vec<Option<u8>>, touched: &mut Vec<u32>)
    requires within { (place : ℕ) → place < length touched.old.items → slice_index touched.old.items place < length cells.old.items }
    requires each { (a byte : ℕ) → spec.byte_in cells.old.items a ≡ Some byte → spec.IsAmong a touched.old.items }
    ensures long { length cells.new.items ≡ length cells.old.items }
    ensures none { (a : ℕ) → spec.byte_in cells.new.items a ≡ None }
    ensures capacity { vec_capacity cells.new ≡ vec_capacity cells.old }
    ensures list { touched.new.items ≡ [] }
    ensures room { vec_capacity touched.old ≤ vec_capacity touched.new }
{
    for addr in &*touched {
        cells[*addr as usize] = None;
    }
    touched.clear();
}

/// Makes cells without a byte up to this address, for which there is room.
#[inline]
fn reach(cells: &mut Vec<Option<u8>>, addr: usize)
    requires { addr < vec_capacity cells.old }
    ensures there { addr < length cells.new.items }
    ensures within { (size : ℕ) → addr < size → length cells.old.items ≤ size → length cells.new.items ≤ size }
    ensures same { (size : ℕ) → addr < size → length cells.old.items ≤ size → spec.padded cells.new.items size ≡ spec.padded cells.old.items size }
    ensures capacity { vec_capacity cells.old ≤ vec_capacity cells.new }
{
    if addr < cells.len() {
        return;
    }
    lengthen(cells, addr);
}

/// Makes cells without a byte up to this address, which has none.
#[inline(never)]
fn lengthen(cells: &mut Vec<Option<u8>>, addr: usize)
    requires past { length cells.old.items ≤ addr }
    requires room { addr < vec_capacity cells.old }
    ensures there { length cells.new.items ≡ addr + 1 }
    ensures same { (size : ℕ) → addr < size → length cells.old.items ≤ size → spec.padded cells.new.items size ≡ spec.padded cells.old.items size }
    ensures capacity { vec_capacity cells.old ≤ vec_capacity cells.new }
{
    cells.resize(addr + 1, None).unwrap();
}
