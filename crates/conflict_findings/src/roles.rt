//! Violations with their two instructions in either role.

ghost use Rattle.std.specs.Prelude.{◌≡◌, ◌++◌, ◌∷◌, [], List, OnOk};
ghost use Rattle.conflict_findings.specs.declared.keys.Key.TheVariants.{Load};
ghost use Rattle.conflict_findings.specs.declared.rollback.Rollback.{Rollback};
ghost use Rattle.conflict_findings.specs.Keys.{AreSumsBy};
ghost use Rattle.conflict_findings.specs.Roles as spec;
ghost use Rattle.conflict_findings.specs.Sums.{HasRoom};

use crate::keys::{Key, add_by};
use crate::rollback::{Pair, Rollback};
use crate::sum::Sum;
use std::alloc::AllocError;
use std::collections::BTreeMap;

/// The violation with its two instructions in each other's role.
fn swapped(rollback: Rollback) -> Rollback
    ensures { result ≡ spec.swapped rollback }
{
    let pair = match rollback.pair {
        Some(pair) => Some(Pair {
            store: pair.load,
            load: pair.store,
        }),
        None => None,
    };
    Rollback { pair, ..rollback }
}

/// Adds a violation to what those of each instruction cost, in which it was the load or the store.
pub(crate) fn add_in_roles(
    sums: &mut BTreeMap<u32, Sum>,
    rollback: &Rollback,
) -> Result<(), AllocError>
    requires { (rollbacks : List Rollback) × AreSumsBy Load (spec.in_both_roles rollbacks) sums.old
        × HasRoom (spec.in_both_roles rollbacks ++ rollback.now ∷ []) rollback.now.lost }
    ensures { OnOk result ((rollbacks : List Rollback) → AreSumsBy Load (spec.in_both_roles rollbacks) sums.old
        → AreSumsBy Load (spec.in_both_roles (rollbacks ++ rollback.now ∷ [])) sums.new) }
{
    add_by(sums, Key::Load, rollback)?;
    add_by(sums, Key::Load, &swapped(*rollback))?;
    Ok(())
}
