ghost use Rattle.std.specs.Prelude.{◌≡◌, ◌++◌, OnOk};
ghost use Rattle.turn_steps.specs.Places as spec;

use std::alloc::AllocError;

/// Adds the text of a place, where it isn't as it was.
pub(crate) fn push_changed(text: &mut Vec<u8>, old: &[u8], now: &[u8]) -> Result<(), AllocError>
    ensures { OnOk result (text.new.items ≡ text.old.items ++ spec.changed old.now now.now) }
{
    if old == now {
        return Ok(());
    }
    text.extend_from_slice(now)
}
