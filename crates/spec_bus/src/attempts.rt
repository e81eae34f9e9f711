//! Attempts: how they begin and end.
ghost use Rattle.std.specs.Prelude.{◌≡◌, ◌<◌, length};
ghost use Rattle.spec_bus.specs.Parts.{bus_in};
ghost use Rattle.bus_states.specs.Attempts.{after_begin, after_leave, after_cancel};

use crate::parts::Parts;
use violations::Attempt;

impl Parts {
    /// This core begins an attempt of an epoch.
    pub(crate) fn begin(&mut self, core: usize, epoch: u32)
        requires { core < length self.old.cores.items }
        ensures { bus_in self.new ≡ after_begin (bus_in self.old) core epoch }
    {
        self.cores[core].attempt = Some(Attempt {
            epoch,
            straight: false,
        });
    }

    /// This core's straight attempt ends.
    pub(crate) fn leave(&mut self, core: usize)
        requires { core < length self.old.cores.items }
        ensures { bus_in self.new ≡ after_leave (bus_in self.old) core }
    {
        self.cores[core].attempt = None;
    }

    /// This core gives its attempt up.
    pub(crate) fn cancel(&mut self, core: usize)
        requires { core < length self.old.cores.items }
        ensures { bus_in self.new ≡ after_cancel (bus_in self.old) core }
    {
        self.cores[core].drop_attempt();
    }
}
