//! The pieces of memory by which loads wait.
ghost use Rattle.std.specs.Prelude.{◌≡◌, ◌≤◌, ◌/◌};
ghost use Rattle.rv32_image.specs.Machine.{IsMachineFor};
ghost use Rattle.rv32_image.specs.Places.{place};
ghost use Rattle.even_speed.specs.Grain.{HasPieces, piece_by};

use rv32_image::Machine;

/// What the pieces of memory are.
#[derive(Clone, Copy)]
pub enum Grain {
    /// Bytes.
    Bytes,
    /// Lines of the caches of a machine: those in which the places of bytes lie.
    Lines {
        /// The machine.
        machine: Machine,
        /// Bytes of its memory.
        size: u32,
    },
}

impl Grain {
    /// The piece in which the byte at an address lies.
    pub(crate) fn piece(self, addr: u32) -> u32
        requires { HasPieces self }
        ensures { result ≡ piece_by self addr }
    {
        match self {
            Grain::Bytes => addr,
            Grain::Lines { machine, size } => line_of(machine, size, addr),
        }
    }
}

/// The line in which the place of a byte lies. The byte may lie past the end of memory.
fn line_of(machine: Machine, size: u32, addr: u32) -> u32
    requires fits { IsMachineFor size machine }
    requires small { size ≤ 1048576 }
    ensures { result ≡ place machine size addr / machine.line_length }
{
    let inside = addr.min(size);
    let place = u64::from(machine.place(size, inside)) + u64::from(addr - inside);
    (place / u64::from(machine.line_length)) as u32
}
