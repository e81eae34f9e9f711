//! On which terms a run goes.
ghost use Rattle.std.specs.Prelude.{◌≡◌, None, false};
ghost use Rattle.even_speed.specs.Even.{queues_of};

use crate::holds::Holds;
use turn_costs::Costs;

/// The terms of a run at even speed.
#[derive(Drop)]
pub struct Terms {
    /// Which loads wait.
    pub holds: Holds,
    /// Whether a core that is late is in a queue, where turns cost something. Otherwise it is held.
    pub queues: bool,
    /// What turns cost beside the step that each takes. None: nothing.
    pub costs: Option<Costs>,
}

impl Terms {
    /// These loads wait, and turns cost nothing.
    pub fn free(holds: Holds) -> Terms
        ensures { result ≡ record { holds = holds; queues = false; costs = None } }
    {
        Terms {
            holds,
            queues: false,
            costs: None,
        }
    }

    /// Whether a core that is late is in a queue.
    pub(crate) fn is_queue(&self) -> bool
        ensures { result ≡ queues_of self.now }
    {
        self.costs.is_some() && self.queues
    }
}
