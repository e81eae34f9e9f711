ghost use Rattle.std.specs.Prelude.{◌≡◌, ◌&&◌, true, false};
ghost use Rattle.spec_states.specs.States.{is_speculative};
ghost use Rattle.spec_states.specs.Copies.{IsMarked, KeepsUpToDate, FollowsPublish};
ghost use Rattle.spec_states.specs.Rows.{is_later, was_loaded, GivesWay};
ghost use Rattle.spec_states.specs.Tables.{other_load, other_store, other_publish};

use crate::line::{LineState, Marks};
use crate::next::{Next, Order};

/// What a load of another core makes of a copy, speculative or straight.
pub fn after_other_load(state: LineState, marks: Marks) -> Next
    requires { is_speculative state ≡ true → IsMarked marks }
    ensures table { result ≡ other_load state marks }
    ensures up_to_date { KeepsUpToDate state marks result }
    ensures violates_none { result.violated ≡ false }
    ensures gives_way { GivesWay state marks result }
{
    match state {
        LineState::I => Next::to(LineState::I, marks),
        LineState::S | LineState::E => Next::to(LineState::S, marks),
        LineState::M => Next::to(LineState::S, marks).written_back(),
        LineState::SpE if marks.bytes != 0 => Next::to(LineState::SpS, marks).entering(),
        LineState::SpS | LineState::SpE => Next::to(LineState::SpS, marks),
    }
}

/// What a speculative store of another core makes of a copy whose owner runs an earlier or a later epoch.
pub fn after_other_store(state: LineState, marks: Marks, owner: Order) -> Next
    requires { is_speculative state ≡ true → IsMarked marks }
    ensures table { result ≡ other_store state marks owner }
    ensures up_to_date { KeepsUpToDate state marks result }
    ensures violates { result.violated ≡ (is_later owner && was_loaded state marks) }
    ensures gives_way { GivesWay state marks result }
{
    match state {
        LineState::I | LineState::S | LineState::E => Next::to(LineState::I, marks),
        LineState::M => Next::to(LineState::I, marks).written_back(),
        LineState::SpS | LineState::SpE => match owner {
            Order::Earlier => after_other_load(state, marks),
            Order::Later => after_publish(state, marks),
        },
    }
}

/// What a publish of another core, or its straight store, makes of a copy.
pub fn after_publish(state: LineState, marks: Marks) -> Next
    requires { is_speculative state ≡ true → IsMarked marks }
    ensures table { result ≡ other_publish state marks }
    ensures up_to_date { FollowsPublish state marks result }
    ensures violates { result.violated ≡ was_loaded state marks }
    ensures gives_way { GivesWay state marks result }
{
    match state {
        LineState::I | LineState::S | LineState::E => Next::to(LineState::I, marks),
        LineState::M => Next::to(LineState::I, marks).written_back(),
        LineState::SpS | LineState::SpE if marks.loaded => Next::violated(),
        LineState::SpS => Next::to(LineState::SpS, marks),
        LineState::SpE => Next::to(LineState::SpS, marks).entering(),
    }
}
