//! Committed memory: the bus's memory, and over it the lines that are M in a cache.
ghost use Rattle.std.specs.Prelude.{◌≡◌, ℕ, ◌+◌, ◌<◌, ◌≤◌, ◌*◌, true, if◌then◌else◌, length, slice_index, IfOk};
ghost use Rattle.spec_states.specs.States.{is_modified};
ghost use Rattle.cache_lines.specs.Protocol.{copy_at};
ghost use Rattle.violations.specs.View.{IsCommitted};
ghost use Rattle.bus_states.specs.Bus.{line_of, offset_of};
ghost use Rattle.bus_states.specs.Coherent.{IsCoherent};
ghost use Rattle.bus_states.specs.Views.{view_of};
ghost use Rattle.spec_bus.specs.CoreStates.{is_modified_in, FitsMemory};
ghost use Rattle.spec_bus.specs.Parts.{bus_in};

use crate::bus_core::Core;
use crate::messages::write_back;
use crate::parts::Parts;
use std::alloc::{AllocError, Global};

impl Core {
    /// Puts the line in a place of the cache into memory, where it is M. The places are counted set by set, and in a set way by way.
    fn write_place(&self, place: usize, memory: &mut [u8])
        requires place { place < self.now.cache.geometry.sets * self.now.cache.geometry.ways }
        requires fits { FitsMemory self.now.cache (length memory.old) }
        ensures { (p : ℕ) → slice_index memory.new p
            ≡ (if is_modified_in self.now.cache (line_of self.now.cache.line_length p) place then
            (copy_at self.now.cache (line_of self.now.cache.line_length p)).cell (offset_of self.now.cache.line_length p)
            else slice_index memory.old p) }
    {
        let line_length = self.cache.line_length();
        let ways = self.cache.ways();
        let first = (place / ways * line_length) as u32;
        let line = *self.cache.line(first, place % ways);
        write_back(memory, line_length, line);
    }

    /// Puts every line of the cache that is M into memory.
    fn write_lines(&self, memory: &mut [u8])
        requires { FitsMemory self.now.cache (length memory.old) }
        ensures { (p : ℕ) → slice_index memory.new p
            ≡ (if is_modified (copy_at self.now.cache (line_of self.now.cache.line_length p)).state then
            (copy_at self.now.cache (line_of self.now.cache.line_length p)).cell (offset_of self.now.cache.line_length p)
            else slice_index memory.old p) }
    {
        let places = self.cache.sets() * self.cache.ways();
        for place in 0..places {
            self.write_place(place, memory);
        }
    }
}

impl Parts {
    /// Committed memory, byte for byte from address 0 on.
    ///
    /// `AllocError`: memory ran out.
    pub(crate) fn committed_memory(&self, alloc: Global) -> Result<Vec<u8>, AllocError>
        requires { IsCoherent (bus_in self.now) }
        ensures { IfOk result (λ bytes. IsCommitted (view_of (bus_in self.now)) bytes.items) }
    {
        let mut memory = Vec::from_slice(alloc, self.memory.as_slice())?;
        for k in 0..self.cores.len() {
            self.core(k).write_lines(memory.as_mut_slice());
        }
        Ok(memory)
    }
}
