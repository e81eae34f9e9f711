//! Which conflicts rolled back: an explanation of each violation of a history.
#![tactic(auto)]

mod accesses;
mod addresses;
mod ahead;
mod alike;
mod behind;
mod blame;
mod causes;
mod explanation;
mod fates;
mod held;
mod history;
mod known;
mod later;
pub mod laws;
mod meeting;
mod scene;
mod standing;
mod victim;
mod with_sites;

pub use accesses::{attempt_number, attempt_place, begins, reads_outside};
pub use addresses::{line_bytes, line_number};
pub use alike::BlamedByte;
pub use behind::Behind;
pub use blame::Violated;
pub use causes::core_at;
pub use explanation::{Blame, ByteRange, Explanation, Runner};
pub use held::{accessed_bytes, accessed_line};
pub use history::{explain, explanation_at};
pub use known::Known;
pub use meeting::{LineTest, Parties};
pub use scene::Scene;
pub use spec_history::Kind;
pub use standing::{Site, site_of, sites};
pub use with_sites::explain_with_sites;
