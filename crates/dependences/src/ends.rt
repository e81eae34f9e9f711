ghost use Rattle.std.specs.Prelude.{◌≡◌};
ghost use Rattle.epoch_paths.specs.Kept.{next_runs};
ghost use Rattle.dependences.specs.Kept as spec;

use rv32_exec::{Hart, Stop};
use rv32_image::Image;

/// Whether the next epoch runs, where one has come to this stop in order with this hart.
pub(crate) fn next_runs(image: &Image, hart: &Hart, at: Stop) -> bool
    ensures { result ≡ next_runs image.now hart.now at }
{
    match at {
        Stop::Ended => !hart.exits(image),
        Stop::Load { .. } | Stop::Store { .. } | Stop::Fault { .. } => false,
    }
}
