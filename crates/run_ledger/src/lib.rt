//! How often a run loads, stores, restarts and commits, kept twice: as totals that lie beside the history, and as
//! shares that travel with the threads which made the entries. Where all shares are gathered, `agree` compares the two.
#![tactic(auto)]

mod counts;
mod ledger;

pub use counts::Counts;
pub use ledger::{
    Shares, Totals, Unequal, agree, count_commit, count_load, count_restart, count_store, gather,
    open,
};
