//! Where the bytes of a line of the caches are.

ghost use Rattle.std.specs.Prelude.{◌≡◌, ◌≤◌, ◌<◌, ◌+◌, ◌*◌, ◌^◌, ℕ, Some};
ghost use Rattle.rv32_image.specs.Image.{IsImage};
ghost use Rattle.spec_history.specs.Conflict as conflict;
ghost use Rattle.conflicts.specs.Blame as blame;

use crate::explanation::ByteRange;
use rv32_exec::Image;
use rv32_image::Apart;

/// The number of the line of the caches in which a byte lies, in memory or not.
pub fn line_number(image: &Image, addr: u32) -> u32
    ensures line { result ≡ conflict.line_number image.now addr }
    ensures inside { addr < image.now.size → result < conflict.line_count image.now }
    ensures limits { IsImage image.now }
{
    if addr < image.size() {
        number_inside(image, addr)
    } else {
        number_past(image, addr)
    }
}

/// The number of the line of a byte of memory.
fn number_inside(image: &Image, addr: u32) -> u32
    requires { addr < image.now.size }
    ensures line { result ≡ conflict.line_number image.now addr }
    ensures inside { result < conflict.line_count image.now }
{
    image.place(addr) / image.machine().line_length
}

/// The number of the line of a byte past memory.
fn number_past(image: &Image, addr: u32) -> u32
    requires { image.now.size ≤ addr }
    ensures { result ≡ conflict.line_number image.now addr }
{
    let size = image.size();
    let long = image.machine().line_length;
    addr / long + (image.place(size) - size) / long
}

/// How many lines of the caches memory has.
pub(crate) fn lines_of(image: &Image) -> u32
    ensures lines { result ≡ conflict.line_count image.now }
    ensures limits { IsImage image.now }
{
    line_number(image, image.size())
}

/// The bytes of a piece that has a line of its own.
fn piece_bytes(apart: Apart, piece: u32) -> ByteRange
    requires inside { piece * apart.piece < apart.length }
    requires small { apart.first + apart.length < 2 ^ 32 }
    ensures { result ≡ blame.piece_bytes (Some apart) piece }
{
    let before = piece * apart.piece;
    ByteRange {
        first: apart.first + before,
        length: apart.piece.min(apart.length - before),
    }
}

/// Where the bytes of a line of the caches are. Those of a line of memory are at its addresses, but for those there that lie apart. A
/// line behind memory has the bytes of a piece. There are none of a line that memory doesn't have.
pub fn line_bytes(image: &Image, line: u32) -> ByteRange
    ensures bytes { line < conflict.line_count image.now → result ≡ blame.line_bytes image.now line }
    ensures within { result.first + result.length ≤ image.now.size }
    ensures all { (a : ℕ) → a < image.now.size → conflict.line_number image.now a ≡ line
        → (result.first ≤ a) × (a < result.first + result.length) }
    ensures limits { IsImage image.now }
{
    if line < lines_of(image) {
        bytes_of(image, line)
    } else {
        ByteRange {
            first: 0,
            length: 0,
        }
    }
}

/// Where the bytes of a line are that memory has.
fn bytes_of(image: &Image, line: u32) -> ByteRange
    requires { line < conflict.line_count image.now }
    ensures bytes { result ≡ blame.line_bytes image.now line }
    ensures within { result.first + result.length ≤ image.now.size }
    ensures all { (a : ℕ) → a < image.now.size → conflict.line_number image.now a ≡ line
        → (result.first ≤ a) × (a < result.first + result.length) }
{
    let long = image.machine().line_length;
    let lines = image.size() / long;
    if line < lines {
        return ByteRange {
            first: line * long,
            length: long,
        };
    }
    match image.machine().apart {
        Some(apart) => piece_bytes(apart, line - lines),
        None => ByteRange {
            first: 0,
            length: 0,
        },
    }
}

/// Where the bytes of the line of a byte are. Past memory they are at their addresses.
pub(crate) fn line_around(image: &Image, addr: u32) -> ByteRange
    ensures { result ≡ blame.line_around image.now addr }
{
    if addr < image.size() {
        return line_bytes(image, line_number(image, addr));
    }
    let long = image.machine().line_length;
    ByteRange {
        first: addr / long * long,
        length: long,
    }
}
