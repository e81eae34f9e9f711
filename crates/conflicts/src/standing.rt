//! Which instruction each access to data is of.

ghost use Rattle.std.specs.Prelude.{◌≡◌, ◌++◌, ◌∷◌, [], IfOk, MatchResult, OnOk, is_some, length, true};
ghost use Rattle.spec_history.specs.Replay.{replay};
ghost use Rattle.spec_history.specs.View.{IsAuditFault, state_in};
ghost use Rattle.conflicts.specs.Sites as spec;

use rv32_exec::{Image, Stop};
use spec_history::{Entry, Flat, Illegal};
use std::alloc::{AllocError, Global};

/// Where a core stands before the load or store that is its next event.
#[derive(Clone, Copy)]
pub struct Site {
    /// The address of the instruction.
    pub pc: u32,
    /// How many instructions of the attempt came before it, fewer than 1,000,000: what a checkpoint there would save.
    pub done: u32,
}

/// For each entry of a history, in order, where its core stood before it, if a load or a store came next; else nothing.
///
/// An Err is that of an audit: the place, counted from 0, of the first entry that is refused, and its refusal. `NoMemory` has
/// the place at which memory was refused, and the number of entries where there was none for the machine itself or for the
/// sites.
pub fn sites(
    alloc: Global,
    image: &Image,
    cores: u32,
    entries: &[Entry],
) -> Result<Vec<Option<Site>>, (usize, Illegal)>
    ensures each { IfOk result (λ found. found.items ≡ spec.sites_before image.now cores entries.now (length entries.now)) }
    ensures legal { MatchResult result (λ _. is_some (replay image.now cores entries.now) ≡ true)
        (λ fault. IsAuditFault image.now cores entries.now fault.0 fault.1) }
{
    let Ok(mut flat) = Flat::new(alloc, image, cores) else {
        return Err((entries.len(), Illegal::NoMemory));
    };
    let mut sites = Vec::new(alloc);
    for (place, entry) in entries.iter().enumerate() {
        let site = site_of(&flat, entry.by);
        if let Err(illegal) = flat.apply(*entry) {
            return Err((place, illegal));
        }
        if keep_site(&mut sites, site).is_err() {
            return Err((entries.len(), Illegal::NoMemory));
        }
    }
    Ok(sites)
}

/// The list with a site at its end.
pub(crate) fn keep_site(sites: &mut Vec<Option<Site>>, site: Option<Site>) -> Result<(), AllocError>
    ensures { OnOk result (sites.new.items ≡ sites.old.items ++ site ∷ []) }
{
    sites.push(site)?;
    Ok(())
}

/// Where a core stands before its next event, if that is a load or a store.
pub fn site_of(flat: &Flat, core: u32) -> Option<Site>
    ensures { result ≡ spec.site_in flat.now.image ((state_in flat.now).cores core) }
{
    let next = flat.next_event(core)?;
    let hart = next.now();
    match next.at() {
        Stop::Load { .. } | Stop::Store { .. } => Some(Site {
            pc: hart.pc(),
            done: hart.done() as u32,
        }),
        Stop::Ended | Stop::Fault { .. } => None,
    }
}
