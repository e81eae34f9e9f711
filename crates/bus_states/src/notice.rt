ghost use Rattle.std.specs.Prelude.{◌≡◌, true};
ghost use Rattle.spec_states.specs.Copies.{IsMarked};
ghost use Rattle.spec_states.specs.States.{is_speculative};
ghost use Rattle.spec_states.specs.Rows.{GivesWay};
ghost use Rattle.bus_states.specs.Messages.{reply_to, order};

use spec_states::{
    LineState, Marks, Next, Order, after_other_load, after_other_store, after_publish,
};

/// What a core tells the others of a line.
#[derive(Clone, Copy)]
pub enum Notice {
    /// It loads the line, speculatively or straight.
    Load,
    /// It stores to the line speculatively.
    Store,
    /// It publishes the line, or stores to it straight.
    Publish,
}

/// What a notice makes of a copy. `later` says that the copy's owner runs a later epoch than the core that gives notice.
pub fn answer(notice: Notice, state: LineState, marks: Marks, later: bool) -> Next
    requires { is_speculative state ≡ true → IsMarked marks }
    ensures reply { result ≡ reply_to notice state marks (order later) }
    ensures gives_way { GivesWay state marks result }
{
    match notice {
        Notice::Load => after_other_load(state, marks),
        Notice::Store => {
            let owner = if later { Order::Later } else { Order::Earlier };
            after_other_store(state, marks, owner)
        }
        Notice::Publish => after_publish(state, marks),
    }
}
