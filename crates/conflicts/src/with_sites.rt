//! The explanations of a history, with the places at which its cores stood.
ghost use Rattle.std.specs.Prelude.{◌≡◌, All, IfOk, MatchResult, is_some, length, true};
ghost use Rattle.spec_history.specs.Replay.{replay};
ghost use Rattle.spec_history.specs.View.{IsAuditFault};
ghost use Rattle.conflicts.specs.Explained.{IsExplained, places_of, violations_before};
ghost use Rattle.conflicts.specs.Sites as spec;

use crate::explanation::Explanation;
use crate::history::{explanation_at, keep};
use crate::known::Known;
use crate::standing::{Site, keep_site, site_of};
use rv32_exec::Image;
use spec_history::{Entry, Flat, Illegal};
use std::alloc::{AllocError, Global};

/// The explanations of a history, and for each of its entries, in order, where its core stood before it, if a load or a store came
/// next; else nothing. One replay shows both.
///
/// An Err is that of `explain`, where `NoMemory` may be for the sites too.
pub fn explain_with_sites(
    alloc: Global,
    image: &Image,
    cores: u32,
    entries: &[Entry],
) -> Result<(Vec<Explanation>, Vec<Option<Site>>), (usize, Illegal)>
    ensures each_once { IfOk result (λ found. places_of found.0.items ≡ violations_before entries.now (length entries.now)) }
    ensures explained { IfOk result (λ found. All (IsExplained image.now cores entries.now) found.0.items) }
    ensures each_site { IfOk result (λ found. found.1.items ≡ spec.sites_before image.now cores entries.now (length entries.now)) }
    ensures legal { MatchResult result (λ _. is_some (replay image.now cores entries.now) ≡ true)
        (λ fault. IsAuditFault image.now cores entries.now fault.0 fault.1) }
{
    let Ok(mut flat) = Flat::new(alloc, image, cores) else {
        return Err((entries.len(), Illegal::NoMemory));
    };
    let mut explanations = Vec::new(alloc);
    let mut sites = Vec::new(alloc);
    let mut known = Known::new(alloc);
    for (place, entry) in entries.iter().enumerate() {
        let Ok(found) = explanation_at(alloc, cores, &flat, entries, &mut known, place) else {
            return Err((entries.len(), Illegal::NoMemory));
        };
        let site = site_of(&flat, entry.by);
        if let Err(illegal) = flat.apply(*entry) {
            return Err((place, illegal));
        }
        if keep(&mut explanations, found).is_err() {
            return Err((entries.len(), Illegal::NoMemory));
        }
        if keep_site(&mut sites, site).is_err() {
            return Err((entries.len(), Illegal::NoMemory));
        }
    }
    Ok((explanations, sites))
}
