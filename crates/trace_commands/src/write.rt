ghost use Rattle.std.specs.Bool.{OnTrue};
ghost use Rattle.std.specs.Io.KnownBytes.{Appends};
ghost use Rattle.trace_commands.specs.Outcome.{AppendsPrefix};

use std::io::Write;

/// Writes all of the bytes. Where a write errs, is interrupted or takes no byte, it says so, and some of the first bytes were written.
pub fn write_bytes<W: Write>(writer: &mut W, bytes: &[u8]) -> bool
    ensures whole { OnTrue result (Appends (W.contents writer.old) (W.contents writer.new) bytes.now) }
    ensures prefix { AppendsPrefix (W.contents writer.old) (W.contents writer.new) bytes.now }
{
    let mut done = 0;
    while done < bytes.len() {
        match writer.write(&bytes[done..]) {
            Ok(0) | Err(_) => return false,
            Ok(count) => done += count,
        }
    }
    true
}

/// Writes all of the bytes, and flushes. Where that fails, it says so, and some of the first bytes were written.
pub fn write_whole<W: Write>(writer: &mut W, bytes: &[u8]) -> bool
    ensures whole { OnTrue result (Appends (W.contents writer.old) (W.contents writer.new) bytes.now) }
    ensures prefix { AppendsPrefix (W.contents writer.old) (W.contents writer.new) bytes.now }
{
    if !write_bytes(writer, bytes) {
        return false;
    }
    writer.flush().is_ok()
}
