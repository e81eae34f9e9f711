//! The commands of the program over any reader and writers, and the texts that they print.
#![tactic(auto)]

mod address;
mod apart;
mod audit;
pub mod laws;
mod outcome;
mod program;
mod report;
mod seq;
mod store;
mod stores;
mod traced;
mod write;

pub use address::address_in;
pub use apart::spelled;
pub use audit::{do_audit, verdict_line, verdict_of};
pub use outcome::{CommandStop, Outcome, Verdict};
pub use program::{
    ROOM, first_word, number_up_to_16, only_number, spelled_words_given, words_given,
};
pub use report::{print_open_report, print_report};
pub use seq::do_seq;
pub use store::{MachineAsked, Store, store_named};
pub use stores::stores_asked;
pub use traced::{Traced, read_traced, traced_in};
pub use write::{write_bytes, write_whole};
