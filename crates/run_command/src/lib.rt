//! Runs on core threads over any store, reader and writers, the command `run` among them: the loop, and what is printed of it.
#![tactic(auto)]

pub mod laws;
mod machine;
mod options;
mod run;
mod text;

pub use machine::runnable;
pub use options::{RunAsked, RunOptions};
pub use run::{do_run, do_threads};
pub use text::with_history;
