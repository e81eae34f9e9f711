use rv32_decode::Register;

/// The address that ends an epoch: x1 holds it at the start, and a jump there is the epoch's return.
pub const EPOCH_END: u32 = 0xffff_fffc;

/// Fault: the word is no instruction of RV32I.
pub const ILLEGAL_WORD: u32 = 1;
/// Fault: the word is ECALL or EBREAK.
pub const SYSTEM_INSTRUCTION: u32 = 2;
/// Fault: the pc is outside the code.
pub const FETCH_OUTSIDE_CODE: u32 = 3;
/// Fault: the target of a jump or of a taken branch is no multiple of 4.
pub const MISALIGNED_TARGET: u32 = 4;
/// Fault: the address of a load or a store is no multiple of its width.
pub const MISALIGNED_DATA: u32 = 5;
/// Fault: a load outside memory.
pub const LOAD_OUTSIDE_MEMORY: u32 = 6;
/// Fault: a store outside memory or into the code.
pub const STORE_OUTSIDE_DATA: u32 = 7;
/// Fault: the epoch has executed as many instructions as its limit allows.
pub const INSTRUCTION_LIMIT: u32 = 8;

/// Where a hart needs more than itself: an access to data, the end of its epoch, or a fault.
#[derive(Clone, Copy, PartialEq, Eq)]
pub enum Stop {
    /// A load of `width` bytes (1, 2 or 4) into `rd`, with sign extension where `signed` (never at width 4).
    Load {
        addr: u32,
        width: u32,
        signed: bool,
        rd: Register,
    },
    /// A store of `width` bytes (1, 2 or 4): those of `value`, whose upper bytes are 0.
    Store {
        addr: u32,
        width: u32,
        value: u32,
    },
    /// The pc is `EPOCH_END`.
    Ended,
    /// A fault: its cause, 1 to 8, and the pc of the instruction, for causes 3 and 8 of the one not fetched.
    Fault {
        cause: u32,
        pc: u32,
    },
}
