//! The four quantities that a run counts.

/// How many loads, stores, restarts and commits were made.
#[derive(Clone, Copy, PartialEq, Eq)]
pub struct Counts {
    pub loads: u64,
    pub stores: u64,
    pub restarts: u64,
    pub commits: u64,
}
