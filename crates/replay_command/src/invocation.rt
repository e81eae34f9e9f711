//! What a program is called with.
use all_schedules::Room;

/// The words of a command line, the first of which is the program's name, and the room of the histories that the program may make.
pub struct Invocation<'a, S> {
    /// The words.
    pub words: &'a [S],
    /// How many entries a history may have.
    pub room: Room,
}
