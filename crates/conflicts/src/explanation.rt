use spec_history::Kind;

/// A core, and the epoch that it runs.
#[derive(Clone, Copy, PartialEq, Eq)]
pub struct Runner {
    /// The core's number.
    pub core: u32,
    /// The epoch's.
    pub epoch: u32,
}

/// Neighbouring bytes of memory.
#[derive(Clone, Copy, PartialEq, Eq)]
pub struct ByteRange {
    /// The address of the first.
    pub first: u32,
    /// How many they are.
    pub length: u32,
}

/// Which load and which store a violation is blamed on, by their places in the history, and the bytes at which they met.
#[derive(Clone, Copy, PartialEq, Eq)]
pub struct Blame {
    /// The first load of the victim's attempt that read one of the bytes that count for the kind.
    pub load: usize,
    /// The cause, if it is a store. Else the last store of the causer's attempt to the byte; for false sharing, to the lowest
    /// byte of its line that the cause writes.
    pub store: usize,
    /// The lowest of these bytes that the load read.
    pub byte: u32,
    /// The neighbours around it that met at the same two accesses, itself among them: the cause writes them, the load was the
    /// first to read them, and the store gave them their value; for false sharing, the load was the first to read them.
    pub bytes: ByteRange,
}

/// Why an epoch was violated, and what that cost.
#[derive(Clone, Copy, PartialEq, Eq)]
pub struct Explanation {
    /// The place of the violation in the history, counted from 0.
    pub place: usize,
    /// Who made it.
    pub causer: Runner,
    /// Who was violated.
    pub victim: Runner,
    /// The place of the entry that it was made for, if there is one.
    pub cause: Option<usize>,
    /// What it was.
    pub kind: Kind,
    /// Whom to blame, for true and false sharing and silent stores.
    pub blame: Option<Blame>,
    /// For false sharing that came true: the place of the first store after the cause, by the same attempt of the causer, to a
    /// byte that the victim had read. The line only told sooner, and lines of their own would not have spared the victim.
    pub later: Option<usize>,
    /// How many instructions the violated attempt had executed when it learnt of it: up to its next event.
    pub lost: u64,
    /// How many of these it had executed up to its last entry.
    pub entered: u64,
}
