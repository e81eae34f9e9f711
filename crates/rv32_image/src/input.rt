ghost use Rattle.std.specs.Prelude.{◌≡◌, ◌<◌, ◌≤◌, ◌+◌, ◌^◌, IfOk, IfSome, Err, length, vec_len};
ghost use Rattle.rv32_image.specs.Input.{name_of, TakesAtMost};
ghost use Rattle.rv32_image.specs.declared.input.InputFault.TheVariants as fault;

use std::alloc::Global;
use std::io::Read;
use thiserror::Error;

/// Why an input could not be read whole.
#[derive(Clone, Copy, Debug, PartialEq, Eq, Error)]
pub enum InputFault {
    /// It is longer than it may be.
    #[error("TooLong")]
    TooLong,
    /// A read failed, or was interrupted.
    #[error("Read")]
    Read,
    /// Memory ran out.
    #[error("NoMemory")]
    NoMemory,
}

impl InputFault {
    /// The printed name, which is the variant's.
    pub fn name(self) -> &'static str
        ensures { result.now ≡ name_of self }
    {
        match self {
            InputFault::TooLong => "TooLong",
            InputFault::Read => "Read",
            InputFault::NoMemory => "NoMemory",
        }
    }
}

/// Reads an input to its end, which is at most `limit` bytes away. It takes at most one byte more than these, and
/// the first read that fails, or is interrupted, ends it.
///
/// `TooLong`: the input has more than `limit` bytes. `Read`: a read failed. `NoMemory`: memory ran out.
pub fn read_input<R: Read>(
    alloc: Global,
    reader: &mut R,
    limit: usize,
) -> Result<Vec<u8>, InputFault>
    requires { limit < 2 ^ 32 }
    ensures whole { IfOk result (λ text. IfSome (R.remaining reader.old) (λ input. text.items ≡ input)) }
    ensures short { IfOk result (λ text. vec_len text ≤ limit) }
    ensures long { result ≡ Err fault.TooLong → IfSome (R.remaining reader.old) (λ input. limit < length input) }
    ensures taken { TakesAtMost (R.remaining reader.old) (R.remaining reader.new) (limit + 1) }
{
    let mut text = Vec::new(alloc);
    let mut chunk = [0; 4096];
    while text.len() <= limit {
        let room = chunk.len().min(limit + 1 - text.len());
        let Ok(count) = reader.read(&mut chunk[..room]) else {
            return Err(InputFault::Read);
        };
        if count == 0 {
            return Ok(text);
        }
        if text.extend_from_slice(&chunk[..count]).is_err() {
            return Err(InputFault::NoMemory);
        }
    }
    Err(InputFault::TooLong)
}
