//! How long a history may get.
ghost use Rattle.std.specs.Prelude.{◌≡◌, ◌≤◌};
ghost use Rattle.homefree.specs.Room.{most_room};

use std::marker::Model;

/// How many entries the history of a run may have, 16 to `homefree::MOST_ROOM`. Contracts see it as that number.
#[derive(Clone, Copy)]
pub struct Room {
    entries: u32,
}

impl Model for Room {
    ghost use Rattle.std.specs.Prelude.{ℕ, ◌≤◌};
    ghost use Rattle.homefree.specs.Room.{most_room};

    ghost Value = { ℕ };

    ghost view = { λ r. r.entries };

    ghost invariant = { λ r. (16 ≤ r.entries) × (r.entries ≤ most_room) };

    ghost inverse = { λ n. record { entries = n } };
}

impl Room {
    /// Room for so many entries, 16 to `homefree::MOST_ROOM`.
    pub fn new(entries: u32) -> Room
        requires least { 16 ≤ entries }
        requires most { entries ≤ most_room }
        ensures { result ≡ entries }
    {
        Room { entries }
    }

    /// So many entries.
    pub fn entries(self) -> u32
        ensures value { result ≡ self }
        ensures least { 16 ≤ result }
        ensures most { result ≤ most_room }
    {
        self.entries
    }
}
