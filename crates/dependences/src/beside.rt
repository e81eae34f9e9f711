ghost use Rattle.std.specs.Prelude.{◌≡◌};
ghost use Rattle.dependences.specs.Conflict as spec;

/// The first of the epochs that so many cores can run beside this one.
pub(crate) fn first_beside(cores: u32, epoch: u32) -> u32
    ensures { result ≡ spec.first_beside cores epoch }
{
    epoch.saturating_sub(cores.saturating_sub(1))
}
