//! The decoder of RV32I: a 32-bit word to an instruction, or to the reason why it is refused.
//!
//! Source: The RISC-V Instruction Set Manual, Volume I: Unprivileged ISA, chapter "RV32I Base Integer
//! Instruction Set", and the opcode tables of the chapter "RV32/64G Instruction Set Listings".
#![tactic(auto)]

mod decoder;
mod fields;
mod instr;
pub mod laws;
mod refused;

pub use decoder::decode;
pub use fields::{Destination, Offset, Register, ShiftAmount};
pub use instr::Instr;
pub use refused::Refused;
