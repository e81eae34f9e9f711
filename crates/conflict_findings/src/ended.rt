//! How an attempt ended, or that it has not.

use conflicts::Runner;

/// What ended an attempt.
#[derive(Clone, Copy)]
pub enum Ending {
    /// Its core committed it, or it faulted, which commits what it had stored too: it counts.
    Committed,
    /// It was violated.
    Violated,
    /// It was cancelled, and had not been violated before.
    Cancelled,
}

/// An attempt that has ended.
#[derive(Clone, Copy)]
pub struct Ended {
    /// The place in the history, counted from 0, of the entry that ended it.
    pub place: usize,
    /// What that entry did to it.
    pub ending: Ending,
    /// Whose entry it is, with the epoch that this core ran.
    pub by: Runner,
    /// Whose attempt it was, and at which epoch.
    pub runner: Runner,
    /// Which run of its epoch it was, counted from 1.
    pub attempt: usize,
    /// How many instructions it had executed when it learnt of its end: up to its next event.
    pub done: u64,
}

/// An attempt that goes on after the last entry of the history.
#[derive(Clone, Copy)]
pub struct Running {
    /// Whose attempt it is, and at which epoch.
    pub runner: Runner,
    /// Which run of its epoch it is, counted from 1.
    pub attempt: usize,
    /// How many instructions it has executed, up to its next event.
    pub done: u64,
}

/// The attempts of a history.
#[derive(Drop)]
pub struct Ends {
    /// Those that have ended, in the order in which they did.
    pub ended: Vec<Ended>,
    /// Those that have not, in the order of the cores.
    pub running: Vec<Running>,
}
