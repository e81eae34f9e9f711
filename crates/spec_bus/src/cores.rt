//! The cores of a new bus.
ghost use Rattle.std.specs.Prelude.{◌≡◌, length, IfOk};
ghost use Rattle.rv32_image.specs.Machine.{IsMachine};
ghost use Rattle.spec_bus.specs.Fresh.{AreIdle};

use crate::bus_core::Core;
use rv32_image::{Machine, NoMemory};
use std::alloc::Global;

/// So many idle cores of this machine.
///
/// `NoMemory`: there was no memory for them.
pub(crate) fn idle_cores(alloc: Global, count: u32, machine: Machine) -> Result<Vec<Core>, NoMemory>
    requires { IsMachine machine }
    ensures count { IfOk result (λ cores. length cores.items ≡ count) }
    ensures idle { IfOk result (λ cores. AreIdle machine cores.items) }
{
    let mut cores = Vec::new(alloc);
    for _ in 0..count {
        let Ok(core) = Core::idle(alloc, machine) else {
            return Err(NoMemory);
        };
        if cores.push(core).is_err() {
            return Err(NoMemory);
        }
    }
    Ok(cores)
}
