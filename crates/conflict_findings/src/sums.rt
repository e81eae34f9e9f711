//! All sums over the violations of a history.

ghost use Rattle.std.specs.Prelude.{◌≡◌, ◌++◌, ◌∷◌, [], List, OnOk};
ghost use Rattle.conflict_findings.specs.declared.rollback.Rollback.{Rollback};
ghost use Rattle.conflict_findings.specs.AllSums as spec;

use crate::keys::{Key, add_by};
use crate::kinds::{LinesByKind, SumsByKind};
use crate::pairs::SumsByPair;
use crate::roles::add_in_roles;
use crate::rollback::Rollback;
use crate::sum::Sum;
use std::alloc::{AllocError, Global};
use std::collections::BTreeMap;

/// What the violations of a history cost. Violations are added one by one and not kept: the sums grow with the epochs, the lines, the
/// instructions and the pairs that violations have.
#[derive(Drop)]
pub struct Sums {
    /// What all of them cost.
    pub whole: Sum,
    /// Those of each kind.
    pub kinds: SumsByKind,
    /// Those of each epoch that was violated.
    pub epochs: BTreeMap<u32, Sum>,
    /// Those in each line of the caches, by its number.
    pub lines: BTreeMap<u32, Sum>,
    /// The same for each kind.
    pub kind_lines: LinesByKind,
    /// Those in which an instruction was the load, by its address.
    pub loads: BTreeMap<u32, Sum>,
    /// Those in which it was the store.
    pub stores: BTreeMap<u32, Sum>,
    /// Those in which it was either.
    pub instructions: BTreeMap<u32, Sum>,
    /// Those of each pair of instructions.
    pub pairs: SumsByPair,
}

impl Sums {
    /// Of no violation.
    pub fn new(alloc: Global) -> Sums
        ensures { spec.AreAllSums [] result }
    {
        Sums {
            whole: Sum::none(),
            kinds: SumsByKind::none(),
            epochs: BTreeMap::new(alloc),
            lines: BTreeMap::new(alloc),
            kind_lines: LinesByKind::new(alloc),
            loads: BTreeMap::new(alloc),
            stores: BTreeMap::new(alloc),
            instructions: BTreeMap::new(alloc),
            pairs: SumsByPair::new(alloc),
        }
    }

    /// Adds a violation to each sum that it belongs to.
    ///
    /// An Err says that memory was refused, or that 2,147,483,647 violations are summed, or what lost 2^126 instructions. The sums are
    /// of no use after it: some have the violation, and others have not.
    pub fn add(&mut self, rollback: &Rollback) -> Result<(), AllocError>
        requires { (rollbacks : List Rollback) × spec.AreAllSums rollbacks self.old }
        ensures { OnOk result ((rollbacks : List Rollback) → spec.AreAllSums rollbacks self.old
            → spec.AreAllSums (rollbacks ++ rollback.now ∷ []) self.new) }
    {
        if self.whole.is_full() {
            return Err(AllocError);
        }
        self.whole = self.whole.more(rollback.lost);
        self.kinds = self.kinds.more(rollback);
        add_by(&mut self.epochs, Key::Epoch, rollback)?;
        add_by(&mut self.lines, Key::Line, rollback)?;
        self.kind_lines.add(rollback)?;
        add_by(&mut self.loads, Key::Load, rollback)?;
        add_by(&mut self.stores, Key::Store, rollback)?;
        add_in_roles(&mut self.instructions, rollback)?;
        self.pairs.add(rollback)?;
        Ok(())
    }
}
