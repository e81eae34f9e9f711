//! The machine and the cores that a run is asked for.
ghost use Rattle.std.specs.Prelude.{◌≡◌, ◌≤◌, IfSome, IfNone};
ghost use Rattle.trace_commands.specs.Stores.{on_machine};
ghost use Rattle.run_command.specs.Runnable as spec;

use rv32_image::Image;
use trace_commands::MachineAsked;

/// The loop on the machine that is asked for, where it can be run there on so many cores.
///
/// None: the image's version doesn't allow so many cores, or a machine is asked for, and there is none such, or memory isn't a whole
/// number of its lines.
pub fn runnable(image: Image, asked: MachineAsked, cores: u32) -> Option<Image>
    requires { 1 ≤ cores }
    ensures is { IfSome result (λ on. on ≡ on_machine asked image) }
    ensures can { IfSome result (λ on. spec.IsRunnable on cores) }
    ensures cannot { IfNone result (spec.IsRunnable (on_machine asked image) cores → ⊥) }
    ensures why { IfNone result (spec.IsUnrunnable asked image cores) }
{
    if image.version().limits().most_cores < cores {
        return None;
    }
    asked.on(image)
}
