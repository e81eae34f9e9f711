//! What schedules of a loop make, over any store: given ones, every one of so many turns, the one of the run at even speed, and the one
//! that a seed draws; and that it is fixed.
#![tactic(auto)]

mod drawing;
mod driving;
mod even;
mod holds;
mod laws;
mod loop_on;
mod room;
mod schedules;
mod seeded;
mod shown_turns;

pub use driving::drive_schedule;
pub use even::{EvenRun, run_evenly};
pub use holds::{holds_at, holds_in_order};
pub use laws::{
    drawn_history_is_fixed, even_history_is_fixed, history_is_fixed, trace_is_made_again,
};
pub use loop_on::LoopOn;
pub use room::Room;
pub use schedules::every_schedule;
pub use seeded::{SeededRun, run_seeded};
pub use shown_turns::turns_of;
