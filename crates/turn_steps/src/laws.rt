//! The law of the text of turns: the function does nothing of its own, and its contract is the law.
ghost use Rattle.turn_steps.specs.Fixed.{StepsAreFixed};

use crate::store::ShownStore;
use homefree::turn_is_fixed;

/// From two books that have the same history, and whose stores hold the same, the same turns of cores, one after another, come to the same
/// and have one text, with all that they changed of the stores.
pub fn steps_are_fixed<S: ShownStore>()
    ensures { StepsAreFixed S.makes S.alike S.view S.waits S.changes }
{
    S::calls_are_fixed();
    S::changes_are_fixed();
    turn_is_fixed::<S>();
}
