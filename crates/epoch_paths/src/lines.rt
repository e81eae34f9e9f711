ghost use Rattle.std.specs.Prelude.{◌≡◌, ◌/◌, ◌<◌, ◌≤◌, ◌^◌, true};
ghost use Rattle.rv32_image.specs.Image.{IsImage};
ghost use Rattle.rv32_image.specs.Machine.{is_line_length};
ghost use Rattle.spec_history.specs.Conflict.{line_number, line_count};

use rv32_image::Image;

/// The number of the line of the caches in which a byte lies.
#[inline(always)]
pub fn line_of(image: &Image, addr: u32) -> u32
    requires { addr ≤ image.now.size }
    ensures line { result ≡ line_number image.now addr }
    ensures inside { addr < image.now.size → result < line_count image.now }
    ensures small { result < 2 ^ 28 }
    ensures limits { IsImage image.now }
{
    line_at(image.place(addr), image.machine().line_length)
}

/// The number of the line of this length, that of a machine, in which a place lies.
#[inline(always)]
fn line_at(place: u32, length: u32) -> u32
    requires { is_line_length length ≡ true }
    ensures line { result ≡ place / length }
    ensures small { result < 2 ^ 28 }
{
    // By a number that it knows LLVM divides by a shift, and chooses of three without a branch.
    if length == 16 {
        place / 16
    } else if length == 32 {
        place / 32
    } else {
        place / 64
    }
}
