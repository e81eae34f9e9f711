//! The states of all cores of a store.
ghost use Rattle.std.specs.Prelude.{◌≡◌, ◌<◌, ◌≤◌, ◌+◌, ◌*◌, ◌^◌, ℕ, IfOk, OnOk, length, slice_index};
ghost use Rattle.memory_bytes.specs.Bytes.{IsWidth};
ghost use Rattle.memory_bytes.specs.Maps.{over, stored};
ghost use Rattle.violations.specs.CoreState as spec;
ghost use Rattle.violations.specs.CoreSet.{is_in};
ghost use Rattle.violations.specs.View.{is_accessed};

use crate::core_set::CoreSet;
use crate::core_state::CoreState;
use memory_bytes::{ShadowBytes, write_number};
use rv32_image::NoMemory;
use std::alloc::Global;

/// So many cores without an attempt.
pub fn idle_states(alloc: Global, cores: u32) -> Result<Vec<CoreState>, NoMemory>
    ensures count { IfOk result (λ states. length states.items ≡ cores) }
    ensures idle { IfOk result (λ states. (size : ℕ) → spec.AreIdle size states.items) }
{
    let mut states = Vec::new(alloc);
    for _ in 0..cores {
        if states.push(CoreState::new(alloc)).is_err() {
            return Err(NoMemory);
        }
    }
    Ok(states)
}

/// Makes room for so many accesses of each core to so many bytes of memory.
pub fn reserve(states: &mut Vec<CoreState>, size: u32, accesses: u32) -> Result<(), NoMemory>
    requires least { 4 * accesses ≤ size }
    requires within { spec.AreWithin size states.old.items }
    ensures same { spec.AreSame states.old.items states.new.items }
    ensures within { spec.AreWithin size states.new.items }
    ensures room { OnOk result (spec.HaveRoom size accesses states.new.items) }
{
    for k in 0..states.len() {
        let state = &mut states[k];
        state.reserve(size, accesses)?;
    }
    Ok(())
}

/// The other cores than this one that guard some of these bytes.
pub fn readers_of(states: &[CoreState], core: u32, bytes: &ShadowBytes) -> CoreSet
    requires few { length states.now ≤ 16 }
    ensures { spec.AreReaders core (spec.bytes_in bytes.now.cells) states.now (is_in result) }
{
    let mut hurt = CoreSet::none();
    for (k, state) in states.iter().enumerate() {
        if k != core as usize && state.guards_any(bytes) {
            hurt.insert(k as u32);
        }
    }
    hurt
}

/// The other cores than this one that guard some of so many bytes from an address on.
pub fn readers_from(states: &[CoreState], core: u32, addr: u32, width: u32) -> CoreSet
    requires few { length states.now ≤ 16 }
    requires small { addr + width < 2 ^ 32 }
    ensures { spec.AreReaders core (is_accessed addr width) states.now (is_in result) }
{
    let mut hurt = CoreSet::none();
    for (k, state) in states.iter().enumerate() {
        if k != core as usize && state.guards_from(addr, width) {
            hurt.insert(k as u32);
        }
    }
    hurt
}

/// Ends the attempts of these cores.
pub fn drop_attempts(states: &mut Vec<CoreState>, hurt: CoreSet)
    requires few { length states.old.items ≤ 16 }
    ensures { spec.AreDropped (is_in hurt) states.old.items states.new.items }
{
    for k in 0..states.len() {
        if hurt.has(k as u32) {
            let state = &mut states[k];
            state.drop_attempt();
        }
    }
}

/// Puts the low `width` bytes of a value into committed memory.
pub fn commit_number(committed: &mut Vec<u8>, addr: u32, width: u32, value: u32)
    requires width { IsWidth width }
    requires within { addr + width ≤ length committed.old.items }
    ensures long { length committed.new.items ≡ length committed.old.items }
    ensures bytes { (a : ℕ) → slice_index committed.new.items a ≡ over (stored addr width value) (λ b. slice_index committed.old.items b) a }
{
    write_number(committed, addr as usize, width, value);
}
