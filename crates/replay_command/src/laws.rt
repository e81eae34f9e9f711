//! The law of texts: the function does nothing of its own, and its contract is the law.
ghost use Rattle.replay_command.specs.Fixed.{TextIsFixed};

use turn_steps::{ShownStore, steps_are_fixed};
use violations::EpochStore;

/// What `replay steps` tells of each turn of a schedule over a fresh store, with all that it changed of the store, is the same each time.
pub fn text_is_fixed<S: ShownStore>()
    ensures { TextIsFixed S.starts S.makes S.view S.waits S.changes }
{
    S::calls_are_fixed();
    steps_are_fixed::<S>();
}
