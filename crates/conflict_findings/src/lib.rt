//! What is found of each violation and of each attempt of a history: the further bytes at which two epochs met; how each attempt ended,
//! and what it had executed then; and what violations cost, summed over those that have something in common.
#![tactic(auto)]

mod attempts;
mod bytes;
pub mod end_laws;
mod ended;
mod ending;
mod finding;
mod followed;
mod history;
mod keys;
mod kinds;
mod known_ends;
mod lines;
mod numbers;
mod order;
mod pair_sums;
mod pairs;
mod part;
mod roles;
mod rollback;
mod run;
mod running;
mod sum;
pub mod sum_laws;
mod sums;
mod tally;
mod violated;

pub use attempts::{Attempt, AttemptEnd, Fate, attempts_in_order};
pub use ended::{Ended, Ending, Ends, Running};
pub use ending::ended_by;
pub use finding::{Access, Finding, FurtherRun, finding_of};
pub use followed::Followed;
pub use history::further_runs;
pub use keys::Key;
pub use kinds::{CountsByKind, LinesByKind, SumsByKind};
pub use known_ends::{KnownEnd, KnownEnds};
pub use numbers::Numbers;
pub use order::{heaviest, pairs_by_weight};
pub use pair_sums::{Bounds, Fates, PairSum};
pub use pairs::SumsByPair;
pub use part::Part;
pub use rollback::{Pair, Rollback};
pub use running::running_in;
pub use sum::Sum;
pub use sums::Sums;
pub use tally::{Tally, tally_as, tally_running};
