//! The bytes that the attempts of cores have stored, as the entries of the history tell them.
ghost use Rattle.std.specs.Prelude.{◌≡◌, ◌<◌, ◌==◌, ◌+◌, ◌^◌, ℕ, All, IfOk, length};
ghost use Rattle.memory_bytes.specs.Maps.{nothing};
ghost use Rattle.memory_bytes.specs.Shadow.{byte_in};
ghost use Rattle.even_speed.specs.Owns as spec;

use memory_bytes::ShadowBytes;
use rv32_exec::NoMemory;
use spec_history::{Entry, What};
use std::alloc::Global;

/// What an attempt has stored.
#[derive(Drop)]
pub(crate) struct Own {
    /// The bytes that aren't committed.
    pub bytes: ShadowBytes,
    /// It has published, so that what it stores is committed at once.
    pub straight: bool,
}

/// Of so many cores, that none has stored anything.
pub(crate) fn first_owns(alloc: Global, cores: u32) -> Result<Vec<Own>, NoMemory>
    ensures count { IfOk result (λ owns. length owns.items ≡ cores) }
    ensures none { IfOk result (λ owns. (k : ℕ) → spec.own_at owns.items k ≡ spec.none_own k) }
{
    let mut owns = Vec::new(alloc);
    for _ in 0..cores {
        let own = Own {
            bytes: ShadowBytes::new(alloc),
            straight: false,
        };
        if owns.push(own).is_err() {
            return Err(NoMemory);
        }
    }
    Ok(owns)
}

/// The bytes that a core has stored and not committed.
pub(crate) fn bytes_of(owns: &[Own], core: u32) -> &ShadowBytes
    requires { core < length owns.now }
    ensures { byte_in result.now.cells ≡ (spec.own_at owns.now core).bytes }
{
    &owns[core as usize].bytes
}

/// Notes what these entries made of what the cores have stored.
pub(crate) fn keep_all(owns: &mut Vec<Own>, entries: &[Entry]) -> Result<(), NoMemory>
    requires { All (spec.IsNotable (length owns.old.items)) entries.now }
    ensures { spec.HaveStored result owns.old.items owns.new.items (spec.owns_after (spec.own_at owns.old.items) entries.now) }
{
    for entry in entries {
        keep(owns, *entry)?;
    }
    Ok(())
}

/// Notes what an entry made of what the cores have stored.
fn keep(owns: &mut Vec<Own>, entry: Entry) -> Result<(), NoMemory>
    requires { spec.IsNotable (length owns.old.items) entry }
    ensures { spec.HaveStored result owns.old.items owns.new.items (spec.owned_by (spec.own_at owns.old.items) entry.by entry.what) }
{
    match entry.what {
        What::Start(_) | What::Restart => own_nothing(owns, entry.by, false),
        What::Publish => own_nothing(owns, entry.by, true),
        What::Store { addr, width, value } => return store(owns, entry.by, addr, width, value),
        What::Load { .. } | What::Hurt(_) | What::Cancel(_) => (),
        What::Commit | What::Fault { .. } => (),
    }
    Ok(())
}

/// A core owns no bytes from now on: it begins an attempt, or publishes, and is straight then.
fn own_nothing(owns: &mut Vec<Own>, core: u32, straight: bool)
    requires { core < length owns.old.items }
    ensures len { length owns.new.items ≡ length owns.old.items }
    ensures kept { (k : ℕ) → spec.own_at owns.new.items k
        ≡ spec.with_own (spec.own_at owns.old.items) core (record { bytes = nothing; straight = straight }) k }
{
    let own = &mut owns[core as usize];
    own.bytes.clear();
    own.straight = straight;
}

/// A core stores the low bytes of a value.
fn store(owns: &mut Vec<Own>, core: u32, addr: u32, width: u32, value: u32) -> Result<(), NoMemory>
    requires core { core < length owns.old.items }
    requires small { addr + width < 2 ^ 32 }
    ensures { spec.HaveStored result owns.old.items owns.new.items
        (spec.with_own (spec.own_at owns.old.items) core (spec.with_store addr width value (spec.own_at owns.old.items core))) }
{
    let own = &mut owns[core as usize];
    if own.straight {
        return Ok(());
    }
    if own.bytes.reserve(addr, width).is_err() {
        return Err(NoMemory);
    }
    own.bytes.keep(addr, width, value);
    Ok(())
}
