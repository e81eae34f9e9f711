//! The attempts of the cores that an exit cancels.
ghost use Rattle.std.specs.Prelude.{◌≡◌, ◌≢◌, ◌≤◌, ◌∷◌, [], ℕ, length, is_some, if◌then◌else◌};
ghost use Rattle.homefree.specs.Arms.{HasAttempt, EndsAttempt};
ghost use Rattle.homefree.specs.Kept.{running_at};
ghost use Rattle.homefree.specs.Turned.{CancelsOthers};
ghost use Rattle.homefree.specs.Moves.{cancel_calls};
ghost use Rattle.violations.specs.Calls.{Leads};
ghost use Rattle.violations.specs.Calls as call;

use crate::register::Running;
use violations::EpochStore;

/// All attempts end but this core's.
pub(crate) fn cancel_attempts<S: EpochStore>(store: &mut S, running: &Vec<Option<Running>>, by: u32)
    requires few { length running.now.items ≤ 16 }
    requires runs { (k : ℕ) → k ≢ by → HasAttempt (S.view store.old) k (running_at running.now.items k) }
    ensures cancels { CancelsOthers (S.view store.old) (S.view store.new) by }
    ensures moves { Leads S.makes (cancel_calls (length running.now.items) by (S.view store.old)) store.old store.new }
    ensures budget { S.budget store.new ≡ S.budget store.old }
{
    let count = running.len() as u32;
    for k in 0..count {
        if k != by {
            end_attempt(store, k, running[k as usize]);
        }
    }
}

/// The core's attempt ends, where it has one: where it runs an epoch, and isn't hurt.
fn end_attempt<S: EpochStore>(store: &mut S, core: u32, now: Option<Running>)
    requires { HasAttempt (S.view store.old) core now }
    ensures ends { EndsAttempt (S.view store.old) (S.view store.new) core }
    ensures moves { Leads S.makes (if is_some ((S.view store.old).attempt core) then call.Cancel core ∷ [] else []) store.old store.new }
    ensures budget { S.budget store.new ≡ S.budget store.old }
{
    if let Some(now) = now {
        if !now.hurt {
            store.cancel(core);
        }
    }
}
