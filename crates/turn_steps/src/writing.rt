//! A text that is written as it grows.
ghost use Rattle.std.specs.Prelude.{◌<◌, ◌++◌, List, Option, ℕ, vec_len};
ghost use Rattle.turn_steps.specs.Writing as spec;

use std::io::Write;
use trace_commands::write_bytes;

/// Writes a text that has grown long, where all before it was written, notes whether this was too, and keeps none of it. Fewer than
/// 65,536 bytes of a text are kept, however long that is.
pub fn write_long<W: Write>(writer: &mut W, whole: &mut bool, text: &mut Vec<u8>)
    ensures written { (first : Option (List ℕ)) (told : List ℕ) → spec.IsWrittenBut text.old.items whole.old first (W.contents writer.old) told
        → spec.IsWrittenBut text.new.items whole.new first (W.contents writer.new) told }
    ensures kept { vec_len text.new < 65536 }
{
    const MOST_KEPT: usize = 65_536;
    if text.len() < MOST_KEPT {
        return;
    }
    write_more(writer, whole, text.as_slice());
    text.clear();
}

/// Writes more of a text, where all before it was written, and notes whether this was too.
fn write_more<W: Write>(writer: &mut W, whole: &mut bool, bytes: &[u8])
    ensures { (first : Option (List ℕ)) (text : List ℕ) → spec.IsWrittenSo whole.old first (W.contents writer.old) text
        → spec.IsWrittenSo whole.new first (W.contents writer.new) (text ++ bytes.now) }
{
    if !*whole {
        return;
    }
    *whole = write_bytes(writer, bytes);
}
