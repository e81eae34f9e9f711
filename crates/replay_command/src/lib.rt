//! The commands of `replay`, over any reader and writers: given turns and traces, every schedule of so many turns, runs by a pace and on
//! threads; and the words that ask for them, of stores, of costs and of loads that wait.
#![tactic(auto)]

mod addresses;
mod all;
mod commands;
mod core_count;
mod costs;
mod detail;
mod invocation;
mod laws;
mod paced;
mod print;
mod replay;
mod settings;
mod store_words;
mod stores;
mod survey;
mod text;
mod told;
mod traced;
mod turns;
mod words;

pub use addresses::{addresses_of, wait_place, wait_words};
pub use all::do_all;
pub use commands::work;
pub use core_count::{CoreCount, stores_asked};
pub use costs::{CostsAsked, costs_behind};
pub use detail::Detail;
pub use invocation::Invocation;
pub use laws::text_is_fixed;
pub use paced::do_paced;
pub use replay::do_replay;
pub use settings::Settings;
pub use store_words::StoreWords;
pub use stores::{check_stores, pieces_of, store_on};
pub use survey::{Extreme, Survey, survey_schedules};
pub use text::{print_survey, push_turns};
