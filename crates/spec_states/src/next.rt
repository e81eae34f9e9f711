ghost use Rattle.std.specs.Prelude.{◌≡◌, true};
ghost use Rattle.spec_states.specs.Tables.{next, no_marks};
ghost use Rattle.spec_states.specs.Tables.{to as change_to, to_violation};

use crate::line::{LineState, Marks};

/// Whether the owner of a copy runs an earlier or a later epoch than the core whose message reaches it.
#[derive(Clone, Copy)]
pub enum Order {
    Earlier,
    Later,
}

/// What an event makes of a copy, and what else the event asks for.
#[derive(Clone, Copy)]
pub struct Next {
    /// The state afterwards.
    pub state: LineState,
    /// The marks afterwards.
    pub marks: Marks,
    /// The line is written to memory.
    pub write_back: bool,
    /// The line enters its owner's ownership required buffer.
    pub enters: bool,
    /// The owner's epoch is violated.
    pub violated: bool,
}

impl Next {
    /// The copy goes to `state`, with these marks where that state carries any.
    pub(crate) fn to(state: LineState, marks: Marks) -> Next
        ensures { result ≡ next (change_to state) marks }
    {
        Next {
            state,
            marks: if state.is_speculative() {
                marks
            } else {
                Marks::NONE
            },
            write_back: false,
            enters: false,
            violated: false,
        }
    }

    /// The owner's epoch is violated, and the copy goes.
    pub(crate) fn violated() -> Next
        ensures { result ≡ next to_violation no_marks }
    {
        Next {
            violated: true,
            ..Next::to(LineState::I, Marks::NONE)
        }
    }

    /// The same, and the line is written to memory.
    pub(crate) fn written_back(self) -> Next
        ensures { result ≡ record self { write_back = true } }
    {
        Next {
            write_back: true,
            ..self
        }
    }

    /// The same, and the line enters its owner's buffer.
    pub(crate) fn entering(self) -> Next
        ensures { result ≡ record self { enters = true } }
    {
        Next {
            enters: true,
            ..self
        }
    }
}
