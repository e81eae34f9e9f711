//! One thread for each core of a machine of speculative epochs: their turns under one lock, and the run of a whole loop.
#![tactic(auto)]

mod cores;
mod fault;
mod gate;
mod run;
mod turns;

pub use fault::RunFault;
pub use gate::{Gate, Open, Shut};
pub use run::{Finished, Halted, history_is_explained, run_cores};
pub use turns::{LoopEnd, core_loop};
