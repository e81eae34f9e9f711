ghost use Rattle.std.specs.Prelude.{◌≡◌, ◌<◌, ◌≤◌};
ghost use Rattle.epoch_paths.specs.Stored.{piece_in};

use crate::lines::line_of;
use rv32_image::Image;

/// Pieces of memory.
#[derive(Clone, Copy)]
pub enum Pieces {
    /// Bytes.
    Bytes,
    /// Lines of the caches of the image's machine.
    Lines,
}

impl Pieces {
    /// The piece in which a byte lies. Those of the bytes of memory lie below that of its end.
    pub(crate) fn of(self, image: &Image, addr: u32) -> u32
        requires { addr ≤ image.now.size }
        ensures piece { result ≡ piece_in self image.now addr }
        ensures inside { addr < image.now.size → result < piece_in self image.now image.now.size }
    {
        match self {
            Pieces::Bytes => addr,
            Pieces::Lines => line_of(image, addr),
        }
    }
}
