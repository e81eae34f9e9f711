ghost use Rattle.std.specs.Prelude.{◌≡◌, ℕ, ◌+◌, ◌-◌, ◌++◌, ◌<◌, ◌≤◌, IfOk, OnOk, Some, length, replicate, slice_index, slice_set, true, if◌then◌else◌};
ghost use Rattle.spec_states.specs.declared.line.TheConstants.{LONGEST_LINE};
ghost use Rattle.bus_states.specs.Bus as spec;
ghost use Rattle.bus_states.specs.Messages as message_spec;
ghost use Rattle.rv32_image.specs.Image.{IsImage};
ghost use Rattle.rv32_image.specs.Places.{place};
ghost use Rattle.spec_bus.specs.Fresh.{by_places, laid};

use bus_states::Notice;
use cache_lines::Line;
use rv32_image::{Apart, Image, NoMemory};
use spec_states::LONGEST_LINE;
use std::alloc::Global;

/// The memory of an image, by places.
pub(crate) fn placed_memory(alloc: Global, image: &Image) -> Result<Vec<u8>, NoMemory>
    ensures { IfOk result (λ memory. memory.items ≡ (by_places image.now).bytes) }
{
    let mut memory = Vec::from_slice(alloc, image.bytes())?;
    if let Some(apart) = image.machine().apart {
        add_lines(&mut memory, image)?;
        lay(&mut memory, image, apart);
    }
    Ok(memory)
}

/// Adds the lines behind memory.
fn add_lines(memory: &mut Vec<u8>, image: &Image) -> Result<(), NoMemory>
    requires { memory.old.items ≡ image.now.bytes }
    ensures { OnOk result (memory.new.items ≡ image.now.bytes
        ++ replicate (place image.now.machine image.now.size image.now.size - image.now.size) 0) }
{
    let size = image.size();
    let places = image.place(size);
    for _ in size..places {
        if memory.push(0).is_err() {
            return Err(NoMemory);
        }
    }
    Ok(())
}

/// Puts the bytes that lie apart into their places.
fn lay(memory: &mut Vec<u8>, image: &Image, apart: Apart)
    requires limits { IsImage image.now }
    requires apart { image.now.machine.apart ≡ Some apart }
    requires lines { memory.old.items ≡ image.now.bytes
        ++ replicate (place image.now.machine image.now.size image.now.size - image.now.size) 0 }
    ensures { memory.new.items ≡ laid image.now apart.first apart.length }
{
    for n in 0..apart.length {
        put(memory, image, apart.first + n);
    }
}

/// Puts a byte of memory into its place.
fn put(memory: &mut Vec<u8>, image: &Image, addr: u32)
    requires within { addr < image.now.size }
    requires long { length memory.old.items ≡ place image.now.machine image.now.size image.now.size }
    ensures { memory.new.items ≡ slice_set memory.old.items (place image.now.machine image.now.size addr) (slice_index image.now.bytes addr) }
{
    let place = image.place(addr);
    memory[place as usize] = image.bytes()[addr as usize];
}

/// The line of memory at `addr`, of so many bytes.
pub(crate) fn memory_line(memory: &[u8], addr: usize, line_length: usize) -> [u8; LONGEST_LINE]
    requires inside { addr + line_length ≤ length memory.now }
    requires short { line_length ≤ LONGEST_LINE }
    ensures { (x : ℕ) → slice_index result x ≡ spec.memory_line line_length (slice_index memory.now) addr x }
{
    let mut line = [0; LONGEST_LINE];
    for x in 0..line_length {
        line[x] = memory[addr + x];
    }
    line
}

/// Puts the line at `addr` into memory.
pub(crate) fn write_line(
    memory: &mut [u8],
    addr: usize,
    line_length: usize,
    line: &[u8; LONGEST_LINE],
)
    requires inside { addr + line_length ≤ length memory.old }
    requires short { line_length ≤ LONGEST_LINE }
    ensures { slice_index memory.new ≡ message_spec.with_line line_length addr (slice_index line.now) (slice_index memory.old) }
{
    for x in 0..line_length {
        memory[addr + x] = line[x];
    }
}

/// Puts the line at `addr` into memory, where the test holds.
pub(crate) fn write_line_if(
    test: bool,
    memory: &mut [u8],
    addr: usize,
    line_length: usize,
    line: &[u8; LONGEST_LINE],
)
    requires inside { test ≡ true → addr + line_length ≤ length memory.old }
    requires short { line_length ≤ LONGEST_LINE }
    ensures { slice_index memory.new ≡ (if test then
        message_spec.with_line line_length addr (slice_index line.now) (slice_index memory.old) else slice_index memory.old) }
{
    if test {
        write_line(memory, addr, line_length, line);
    }
}

/// The bytes that a copy with this mask has after a notice of another core, for which the line has these bytes.
pub(crate) fn bytes_after(
    notice: Notice,
    copy: &Line,
    line: &[u8; LONGEST_LINE],
) -> [u8; LONGEST_LINE]
    ensures { (x : ℕ) → slice_index result x
        ≡ message_spec.bytes_after notice copy.now.marks.bytes (slice_index copy.now.cells) (slice_index line.now) x }
{
    match notice {
        Notice::Load | Notice::Store => copy.cells,
        Notice::Publish => copy.refreshed(line).cells,
    }
}
