ghost use Rattle.std.specs.Prelude.{◌≡◌, ◌<◌, ◌^◌};
ghost use Rattle.memory_bytes.specs.Bytes.{IsWidth};
ghost use Rattle.rv32_exec.specs.Execute.{extended};

use crate::stop::Stop;

/// A fault with this cause, at this pc.
pub(crate) fn fault(cause: u32, pc: u32) -> Stop
    ensures { result ≡ Stop.Fault cause pc }
{
    Stop::Fault { cause, pc }
}

/// The value that a load of this number writes.
#[inline]
pub(crate) fn extend(width: u32, signed: bool, number: u32) -> u32
    requires wide { IsWidth width }
    requires number { number < 256 ^ width }
    ensures { result ≡ extended width signed number }
{
    match width {
        1 if signed => i32::from((number as u8).cast_signed()).cast_unsigned(),
        2 if signed => i32::from((number as u16).cast_signed()).cast_unsigned(),
        _ => number,
    }
}
