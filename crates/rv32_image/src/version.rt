ghost use Rattle.std.specs.Prelude.{◌≡◌};
ghost use Rattle.rv32_image.specs.Version.{limits_of, machine_of};

use crate::machine::Machine;

/// The version of an image. It fixes the limits of the image, and the machine that runs it where no other is asked for.
#[derive(Clone, Copy)]
pub enum Version {
    /// Also the version of an image that names none.
    One,
    /// Longer lines, more cores and a larger memory.
    Two,
}

/// What a version allows. All crates read these numbers here.
#[derive(Clone, Copy)]
pub struct Limits {
    /// The fewest bytes that memory may have.
    pub least_size: u32,
    /// The most bytes that memory may have.
    pub most_size: u32,
    /// The most cores.
    pub most_cores: u32,
    /// Entries of the history that a turn has to find free.
    pub free_entries: u32,
}

impl Version {
    /// What the version allows.
    pub fn limits(self) -> Limits
        ensures { result ≡ limits_of self }
    {
        match self {
            Version::One => Limits {
                least_size: 16,
                most_size: 65_536,
                most_cores: 8,
                free_entries: 16,
            },
            Version::Two => Limits {
                least_size: 32,
                most_size: 1_048_576,
                most_cores: 16,
                free_entries: 32,
            },
        }
    }

    /// The machine of the version: its caches have 4 sets of 2 ways.
    pub fn machine(self) -> Machine
        ensures { result ≡ machine_of self }
    {
        match self {
            Version::One => Machine {
                line_length: 16,
                sets: 4,
                ways: 2,
                buffer_lines: 4,
                apart: None,
            },
            Version::Two => Machine {
                line_length: 32,
                sets: 4,
                ways: 2,
                buffer_lines: 8,
                apart: None,
            },
        }
    }
}
