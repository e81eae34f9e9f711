/// One entry of a history: what the turn of one core did.
#[derive(Clone, Copy, PartialEq, Eq)]
pub struct Entry {
    /// The core whose turn made the entry.
    pub by: u32,
    /// What it did.
    pub what: What,
}

/// What an entry says.
///
/// Epochs, homefree and violation are those of Steffan, Colohan, Zhai and Mowry, "A Scalable Approach to
/// Thread-Level Speculation", ISCA 2000.
#[derive(Clone, Copy, PartialEq, Eq)]
pub enum What {
    /// The core, which was idle, begins this epoch.
    Start(u32),
    /// The core's epoch loads `width` bytes (1, 2 or 4): those of `value`, little endian, whose upper bytes are 0.
    Load { addr: u32, width: u32, value: u32 },
    /// The core's epoch stores `width` bytes (1, 2 or 4): those of `value`, little endian, whose upper bytes are 0.
    Store { addr: u32, width: u32, value: u32 },
    /// The core's turn violates this epoch, which is later than its own.
    Hurt(u32),
    /// The core's epoch, which is homefree, is about to end the loop: this later epoch is dropped.
    Cancel(u32),
    /// The core, whose epoch was violated, begins it again.
    Restart,
    /// The core's epoch, which is homefree, commits the bytes that it has stored so far, and is straight from then on.
    Publish,
    /// The core's epoch, which is homefree, has ended: it commits its bytes, and the next epoch is homefree. Where the epoch
    /// exits, the loop is over.
    Commit,
    /// The core's epoch, which is homefree, has faulted: it commits its bytes, and the loop is over.
    Fault { cause: u32, pc: u32 },
}
