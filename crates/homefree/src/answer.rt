use rv32_exec::{End, Hart};

/// What a turn came to.
#[derive(Clone, Copy, PartialEq, Eq)]
pub enum Answer {
    /// The core goes on from this hart.
    Go(Hart),
    /// The core has to come again with what it has.
    Again(Cause),
    /// The core's epoch has committed, and the core is idle.
    Left,
    /// The loop is over.
    Over(End),
    /// The book was stopped.
    Stopped(StopCause),
}

/// What a turn at the book's parts came to. It has no hart, which is large: the register has it.
#[derive(Clone, Copy)]
pub(crate) enum Came {
    /// The core goes on from the hart that the register has of it.
    Goes,
    /// The core has to come again with what it has.
    Again(Cause),
    /// The core's epoch has committed, and the core is idle.
    Left,
    /// The loop is over.
    Over(End),
}

/// Why a core has to come again.
#[derive(Clone, Copy, PartialEq, Eq)]
pub enum Cause {
    /// No epoch is left to be started.
    NoEpoch,
    /// Its epoch has ended or faulted, and is not the homefree one.
    NotHomefree,
    /// All ways of the line's set hold marked lines.
    NoWay,
    /// Its own ownership required buffer is full.
    OrbFull,
    /// The ownership required buffer of an earlier epoch's core is full.
    OrbBusy,
}

/// Why a book takes no more turns, although its loop isn't over.
#[derive(Clone, Copy, PartialEq, Eq)]
pub enum StopCause {
    /// The history has no room for another turn.
    HistoryFull,
    /// Memory was refused.
    NoMemory,
    /// The thread of a core was refused.
    NoThread,
    /// A gate was shut.
    Shut,
}
