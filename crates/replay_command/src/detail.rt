/// What is printed of the turns of an input.
#[derive(Clone, Copy)]
pub enum Detail {
    /// What they make together.
    Whole,
    /// Each of them, a line `end`, and then that.
    Steps,
}
