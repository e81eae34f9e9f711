/// One run of an epoch on a core, from its begin until it is violated or left.
#[derive(Clone, Copy, PartialEq, Eq)]
pub struct Attempt {
    /// The epoch's number.
    pub epoch: u32,
    /// It has published: its stores are committed at once.
    pub straight: bool,
}
