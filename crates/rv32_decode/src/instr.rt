use crate::fields::{Destination, Offset, Register, ShiftAmount};

/// An instruction of RV32I. Immediates are sign-extended to 32 bits, and a branch's or a jump's `offset` is
/// in bytes from the instruction's own address.
///
/// Source: RISC-V Unprivileged ISA, chapter "RV32I Base Integer Instruction Set".
#[derive(Clone, Copy)]
pub enum Instr {
    /// Load upper immediate: `rd` becomes `imm`, whose low 12 bits are 0.
    Lui {
        rd: Destination,
        imm: u32,
    },
    /// Add upper immediate to pc.
    Auipc {
        rd: Destination,
        imm: u32,
    },
    /// Jump and link.
    Jal {
        rd: Destination,
        offset: Offset,
    },
    /// Jump and link register.
    Jalr {
        rd: Destination,
        rs1: Register,
        imm: u32,
    },
    /// Branch if equal.
    Beq {
        rs1: Register,
        rs2: Register,
        offset: Offset,
    },
    /// Branch if not equal.
    Bne {
        rs1: Register,
        rs2: Register,
        offset: Offset,
    },
    /// Branch if less, signed.
    Blt {
        rs1: Register,
        rs2: Register,
        offset: Offset,
    },
    /// Branch if greater or equal, signed.
    Bge {
        rs1: Register,
        rs2: Register,
        offset: Offset,
    },
    /// Branch if less, unsigned.
    Bltu {
        rs1: Register,
        rs2: Register,
        offset: Offset,
    },
    /// Branch if greater or equal, unsigned.
    Bgeu {
        rs1: Register,
        rs2: Register,
        offset: Offset,
    },
    /// Load byte, with its sign.
    Lb {
        rd: Destination,
        rs1: Register,
        imm: u32,
    },
    /// Load halfword, with its sign.
    Lh {
        rd: Destination,
        rs1: Register,
        imm: u32,
    },
    /// Load word.
    Lw {
        rd: Destination,
        rs1: Register,
        imm: u32,
    },
    /// Load byte, filled with 0.
    Lbu {
        rd: Destination,
        rs1: Register,
        imm: u32,
    },
    /// Load halfword, filled with 0.
    Lhu {
        rd: Destination,
        rs1: Register,
        imm: u32,
    },
    /// Store byte.
    Sb {
        rs1: Register,
        rs2: Register,
        imm: u32,
    },
    /// Store halfword.
    Sh {
        rs1: Register,
        rs2: Register,
        imm: u32,
    },
    /// Store word.
    Sw {
        rs1: Register,
        rs2: Register,
        imm: u32,
    },
    /// Add immediate.
    Addi {
        rd: Destination,
        rs1: Register,
        imm: u32,
    },
    /// Set if less than immediate, signed.
    Slti {
        rd: Destination,
        rs1: Register,
        imm: u32,
    },
    /// Set if less than immediate, unsigned; the immediate is sign-extended first.
    Sltiu {
        rd: Destination,
        rs1: Register,
        imm: u32,
    },
    /// Exclusive or with immediate.
    Xori {
        rd: Destination,
        rs1: Register,
        imm: u32,
    },
    /// Or with immediate.
    Ori {
        rd: Destination,
        rs1: Register,
        imm: u32,
    },
    /// And with immediate.
    Andi {
        rd: Destination,
        rs1: Register,
        imm: u32,
    },
    /// Shift left logical by immediate.
    Slli {
        rd: Destination,
        rs1: Register,
        amount: ShiftAmount,
    },
    /// Shift right logical by immediate.
    Srli {
        rd: Destination,
        rs1: Register,
        amount: ShiftAmount,
    },
    /// Shift right arithmetic by immediate.
    Srai {
        rd: Destination,
        rs1: Register,
        amount: ShiftAmount,
    },
    /// Add.
    Add {
        rd: Destination,
        rs1: Register,
        rs2: Register,
    },
    /// Subtract.
    Sub {
        rd: Destination,
        rs1: Register,
        rs2: Register,
    },
    /// Shift left logical.
    Sll {
        rd: Destination,
        rs1: Register,
        rs2: Register,
    },
    /// Set if less than, signed.
    Slt {
        rd: Destination,
        rs1: Register,
        rs2: Register,
    },
    /// Set if less than, unsigned.
    Sltu {
        rd: Destination,
        rs1: Register,
        rs2: Register,
    },
    /// Exclusive or.
    Xor {
        rd: Destination,
        rs1: Register,
        rs2: Register,
    },
    /// Shift right logical.
    Srl {
        rd: Destination,
        rs1: Register,
        rs2: Register,
    },
    /// Shift right arithmetic.
    Sra {
        rd: Destination,
        rs1: Register,
        rs2: Register,
    },
    /// Or.
    Or {
        rd: Destination,
        rs1: Register,
        rs2: Register,
    },
    /// And.
    And {
        rd: Destination,
        rs1: Register,
        rs2: Register,
    },
    /// Order memory accesses: with one hart that sees its own accesses in order, it does nothing.
    Fence,
}
