//! False sharing that came true.

ghost use Rattle.std.specs.Prelude.{◌≡◌, ◌<◌, ◌≤◌, ◌+◌, ℕ, IfOk, IfSome, List, length};
ghost use Rattle.spec_history.specs.declared.entry.Entry.{Entry};
ghost use Rattle.spec_history.specs.View.{state_in};
ghost use Rattle.spec_history.specs.Conflict.{entry_is};
ghost use Rattle.spec_history.specs.Searches.{IsNext};
ghost use Rattle.conflicts.specs.Ahead.{AreAhead, IsAhead};
ghost use Rattle.conflicts.specs.Later as spec;

use crate::ahead::{Ahead, Stores};
use crate::scene::Scene;
use spec_history::{Flat, Kind};
use std::alloc::{AllocError, Global};

/// The place of the first of the stores after a place that is one to a byte that the victim has read; where the attempt ends, if there
/// is none.
fn first_sign(flat: &Flat, stores: &Stores, after: usize, victim: u32) -> usize
    requires { after < stores.now.end }
    ensures most { result ≤ stores.now.end }
    ensures next { (entries : List Entry) (core : ℕ) → AreAhead flat.now.image.size entries core stores.now → stores.now.after ≤ after
        → IsNext (λ j. entry_is entries j (spec.stores_to flat.now.image.size core (spec.was_read (state_in flat.now) victim))) (after + 1) stores.now.end result }
{
    let mut first = stores.end;
    for addr in flat.read_addresses(victim) {
        if flat.outside(victim, *addr).is_some() {
            first = first.min(stores.next(*addr, after));
        }
    }
    first
}

/// That place, if there is one.
fn sign_of(flat: &Flat, stores: &Stores, after: usize, victim: u32) -> Option<usize>
    requires { after < stores.now.end }
    ensures came { (entries : List Entry) (core : ℕ) → AreAhead flat.now.image.size entries core stores.now → stores.now.after ≤ after
        → result ≡ spec.came_true_at flat.now.image.size entries after core (spec.was_read (state_in flat.now) victim) }
    ensures within { IfSome result (λ place. place < stores.now.end) }
{
    let place = first_sign(flat, stores, after, victim);
    if place < stores.end {
        Some(place)
    } else {
        None
    }
}

/// The place of the store by which false sharing came true, after its cause.
fn came_true_at(
    alloc: Global,
    scene: &Scene<'_>,
    ahead: &mut Ahead,
    cause: usize,
    causer: u32,
    victim: u32,
) -> Result<Option<usize>, AllocError>
    requires within { cause < length scene.now.entries.now }
    requires known { IsAhead scene.now.flat.now.image.size scene.now.entries.now ahead.old }
    ensures came { IfOk result (λ place. place ≡ spec.came_true_at scene.now.flat.now.image.size scene.now.entries.now cause causer (spec.was_read (state_in scene.now.flat.now) victim)) }
    ensures known { IsAhead scene.now.flat.now.image.size scene.now.entries.now ahead.new }
{
    ahead.look(alloc, scene.flat.image(), scene.entries, causer, cause)?;
    match ahead.found.get(&causer) {
        Some(stores) => Ok(sign_of(scene.flat, stores, cause, victim)),
        None => Ok(None),
    }
}

/// The place of the store by which a violation came true, if it is false sharing.
pub(crate) fn later_of(
    alloc: Global,
    scene: &Scene<'_>,
    ahead: &mut Ahead,
    causer: u32,
    victim: u32,
    kind: Kind,
    cause: Option<usize>,
) -> Result<Option<usize>, AllocError>
    requires within { IfSome cause (λ j. j < length scene.now.entries.now) }
    requires known { IsAhead scene.now.flat.now.image.size scene.now.entries.now ahead.old }
    ensures later { IfOk result (λ later. later ≡ spec.later_by scene.now.flat.now.image (state_in scene.now.flat.now) scene.now.entries.now causer victim kind cause) }
    ensures known { IsAhead scene.now.flat.now.image.size scene.now.entries.now ahead.new }
{
    let Some(cause) = cause else {
        return Ok(None);
    };
    match kind {
        Kind::FalseSharing => { came_true_at(alloc, scene, ahead, cause, causer, victim) }
        Kind::TrueSharing | Kind::SilentStore | Kind::FullBuffer | Kind::Unexplained => Ok(None),
    }
}
