ghost use Rattle.std.specs.Prelude.{◌≡◌, ◌++◌, ◌+◌, ◌*◌, ◌≤◌, ◌^◌, ◌<◌, IfOk, OnOk, length, slice_range};
ghost use Rattle.trace_commands.specs.Report as spec;

use rv32_exec::{End, Image};
use std::alloc::{AllocError, Global};
use trace_text::{push_hex, push_number};

/// The report of a run of the loop: its end, and each 16 bytes of memory that are not as they were loaded. The bytes are those of
/// memory at the end, from address 0 on.
///
/// `AllocError`: memory ran out, and nothing was made.
#[tactic(auto, unfolding(crate::specs::Report::report_of))]
pub fn print_report(
    alloc: Global,
    image: &Image,
    end: End,
    bytes: &[u8],
) -> Result<Vec<u8>, AllocError>
    requires { length bytes.now ≡ image.now.size }
    ensures { IfOk result (λ text. text.items ≡ spec.report_of image.now (record { end = end; bytes = bytes.now })) }
{
    let mut text = end_line(alloc, end)?;
    push_rows(&mut text, image.bytes(), bytes, image.size() / 16)?;
    Ok(text)
}

/// The report of a loop that isn't over: its homefree epoch, and each 16 bytes of committed memory that are not as they were
/// loaded. The bytes are those of committed memory, from address 0 on.
///
/// `AllocError`: memory ran out, and nothing was made.
#[tactic(auto, unfolding(crate::specs::Report::open_report))]
pub fn print_open_report(
    alloc: Global,
    image: &Image,
    homefree: u32,
    bytes: &[u8],
) -> Result<Vec<u8>, AllocError>
    requires { length bytes.now ≡ image.now.size }
    ensures { IfOk result (λ text. text.items ≡ spec.open_report image.now homefree bytes.now) }
{
    let mut text = Vec::from_slice(alloc, b"open ")?;
    push_number(&mut text, homefree)?;
    text.extend_from_slice(b"\n")?;
    let rows = image.size() / 16;
    push_rows(&mut text, image.bytes(), bytes, rows)?;
    Ok(text)
}

/// The line that says how the loop ended.
fn end_line(alloc: Global, end: End) -> Result<Vec<u8>, AllocError>
    ensures { IfOk result (λ line. line.items ≡ spec.end_line end) }
{
    match end {
        End::Done(epochs) => {
            let mut line = Vec::from_slice(alloc, b"end done ")?;
            push_number(&mut line, epochs)?;
            line.extend_from_slice(b"\n")?;
            Ok(line)
        }
        End::Exit(epoch) => {
            let mut line = Vec::from_slice(alloc, b"end exit ")?;
            push_number(&mut line, epoch)?;
            line.extend_from_slice(b"\n")?;
            Ok(line)
        }
        End::Fault { epoch, cause, pc } => {
            let mut line = Vec::from_slice(alloc, b"end fault ")?;
            push_number(&mut line, epoch)?;
            line.extend_from_slice(b" ")?;
            push_number(&mut line, cause)?;
            line.extend_from_slice(b" ")?;
            push_hex(&mut line, &pc.to_be_bytes())?;
            line.extend_from_slice(b"\n")?;
            Ok(line)
        }
    }
}

/// The lines of the first rows of memory, where they are not as they were loaded.
fn push_rows(text: &mut Vec<u8>, loaded: &[u8], bytes: &[u8], rows: u32) -> Result<(), AllocError>
    requires loaded { 16 * rows ≤ length loaded.now }
    requires bytes { 16 * rows ≤ length bytes.now }
    requires few { 16 * rows < 2 ^ 32 }
    ensures { OnOk result (text.new.items ≡ text.old.items ++ spec.row_lines loaded.now bytes.now rows) }
{
    for row in 0..rows {
        push_row(text, loaded, bytes, 16 * row)?;
    }
    Ok(())
}

fn push_row(text: &mut Vec<u8>, loaded: &[u8], bytes: &[u8], address: u32) -> Result<(), AllocError>
    requires loaded { address + 16 ≤ length loaded.now }
    requires bytes { address + 16 ≤ length bytes.now }
    ensures { OnOk result (text.new.items ≡ text.old.items ++ spec.row_line loaded.now bytes.now address) }
{
    let row = row_at(bytes, address);
    if row_at(loaded, address) == row {
        return Ok(());
    }
    text.extend_from_slice(b"at ")?;
    push_hex(text, &address.to_be_bytes())?;
    text.extend_from_slice(b" ")?;
    push_hex(text, row)?;
    text.extend_from_slice(b"\n")?;
    Ok(())
}

/// The 16 bytes from an address on.
fn row_at(bytes: &[u8], address: u32) -> &[u8]
    requires { address + 16 ≤ length bytes.now }
    ensures row { result.now ≡ slice_range bytes.now address (address + 16) }
    ensures size { length result.now ≡ 16 }
{
    let at = address as usize;
    &bytes[at..at + 16]
}
