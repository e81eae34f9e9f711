use crate::core_set::CoreSet;

/// Why a speculative access has to wait. A store that keeps no lines never waits.
#[derive(Clone, Copy, PartialEq, Eq)]
pub enum WaitCause {
    /// All ways of the line's set hold marked lines.
    NoWay,
    /// The caller's ownership required buffer is full.
    OrbFull,
    /// The ownership required buffer of an earlier epoch's core is full.
    OrbBusy,
}

/// What a store answers to a speculative access.
#[derive(Clone, Copy)]
pub enum Step {
    /// It was done, gave this value (0 for a store), and violated these cores.
    Done { value: u32, hurt: CoreSet },
    /// It waits, and nothing has changed.
    Wait(WaitCause),
}
