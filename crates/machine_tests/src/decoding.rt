//! Each kind of word, by its fields. Words that are refused, and what each instruction does, are rows of `tests/vectors`, which the whole
//! program runs.

mod rows;

use crate::words::{hex, word};
use rows::{IMMEDIATES, JUMPS_AND_UPPER_IMMEDIATES, LOADS_AND_STORES, REGISTERS};
use rv32_decode::{Destination, Instr, Refused, Register, decode};
use std::process::Abort;

/// The number of a register.
fn x(register: Register) -> u32 {
    u32::from(register.number())
}

/// The number of a destination.
fn d(destination: Destination) -> u32 {
    x(destination.register())
}

/// The name of an instruction, and its fields in order, with 0 in the place of those that it lacks. FENCE, which has no row, has no name.
#[rattlefmt::skip]
fn shown(instr: Instr) -> (&'static str, [u32; 3]) {
    match instr {
        Instr::Lui { rd, imm } => ("lui", [d(rd), imm, 0]),
        Instr::Auipc { rd, imm } => ("auipc", [d(rd), imm, 0]),
        Instr::Jal { rd, offset } => ("jal", [d(rd), offset.bytes(), 0]),
        Instr::Jalr { rd, rs1, imm } => ("jalr", [d(rd), x(rs1), imm]),
        Instr::Beq { rs1, rs2, offset } => ("beq", [x(rs1), x(rs2), offset.bytes()]),
        Instr::Bne { rs1, rs2, offset } => ("bne", [x(rs1), x(rs2), offset.bytes()]),
        Instr::Blt { rs1, rs2, offset } => ("blt", [x(rs1), x(rs2), offset.bytes()]),
        Instr::Bge { rs1, rs2, offset } => ("bge", [x(rs1), x(rs2), offset.bytes()]),
        Instr::Bltu { rs1, rs2, offset } => ("bltu", [x(rs1), x(rs2), offset.bytes()]),
        Instr::Bgeu { rs1, rs2, offset } => ("bgeu", [x(rs1), x(rs2), offset.bytes()]),
        Instr::Lb { rd, rs1, imm } => ("lb", [d(rd), x(rs1), imm]),
        Instr::Lh { rd, rs1, imm } => ("lh", [d(rd), x(rs1), imm]),
        Instr::Lw { rd, rs1, imm } => ("lw", [d(rd), x(rs1), imm]),
        Instr::Lbu { rd, rs1, imm } => ("lbu", [d(rd), x(rs1), imm]),
        Instr::Lhu { rd, rs1, imm } => ("lhu", [d(rd), x(rs1), imm]),
        Instr::Sb { rs1, rs2, imm } => ("sb", [x(rs1), x(rs2), imm]),
        Instr::Sh { rs1, rs2, imm } => ("sh", [x(rs1), x(rs2), imm]),
        Instr::Sw { rs1, rs2, imm } => ("sw", [x(rs1), x(rs2), imm]),
        Instr::Addi { rd, rs1, imm } => ("addi", [d(rd), x(rs1), imm]),
        Instr::Slti { rd, rs1, imm } => ("slti", [d(rd), x(rs1), imm]),
        Instr::Sltiu { rd, rs1, imm } => ("sltiu", [d(rd), x(rs1), imm]),
        Instr::Xori { rd, rs1, imm } => ("xori", [d(rd), x(rs1), imm]),
        Instr::Ori { rd, rs1, imm } => ("ori", [d(rd), x(rs1), imm]),
        Instr::Andi { rd, rs1, imm } => ("andi", [d(rd), x(rs1), imm]),
        Instr::Slli { rd, rs1, amount } => ("slli", [d(rd), x(rs1), amount.bits() as u32]),
        Instr::Srli { rd, rs1, amount } => ("srli", [d(rd), x(rs1), amount.bits() as u32]),
        Instr::Srai { rd, rs1, amount } => ("srai", [d(rd), x(rs1), amount.bits() as u32]),
        Instr::Add { rd, rs1, rs2 } => ("add", [d(rd), x(rs1), x(rs2)]),
        Instr::Sub { rd, rs1, rs2 } => ("sub", [d(rd), x(rs1), x(rs2)]),
        Instr::Sll { rd, rs1, rs2 } => ("sll", [d(rd), x(rs1), x(rs2)]),
        Instr::Slt { rd, rs1, rs2 } => ("slt", [d(rd), x(rs1), x(rs2)]),
        Instr::Sltu { rd, rs1, rs2 } => ("sltu", [d(rd), x(rs1), x(rs2)]),
        Instr::Xor { rd, rs1, rs2 } => ("xor", [d(rd), x(rs1), x(rs2)]),
        Instr::Srl { rd, rs1, rs2 } => ("srl", [d(rd), x(rs1), x(rs2)]),
        Instr::Sra { rd, rs1, rs2 } => ("sra", [d(rd), x(rs1), x(rs2)]),
        Instr::Or { rd, rs1, rs2 } => ("or", [d(rd), x(rs1), x(rs2)]),
        Instr::And { rd, rs1, rs2 } => ("and", [d(rd), x(rs1), x(rs2)]),
        _ => ("", [0, 0, 0]),
    }
}

/// Whether a row's word is that instruction, with those fields.
fn is_decoded(row: &str) -> Option<bool> {
    let decoded = decode(hex(row, 0)?).ok()?;
    let (name, fields) = shown(decoded);
    let third = hex(row, 4).unwrap_or(0);
    Some(name == word(row, 1) && fields == [hex(row, 2)?, hex(row, 3)?, third])
}

/// Each row's word is that instruction.
fn are_decoded(rt: &impl Abort, rows: &str) {
    for row in rows.split('\n') {
        assert!(rt; row.is_empty() || is_decoded(row) == Some(true), "{row}");
    }
}

#[test]
fn decodes_registers(rt: HostRuntime) {
    are_decoded(&rt, REGISTERS);
}

#[test]
fn decodes_immediates(rt: HostRuntime) {
    are_decoded(&rt, IMMEDIATES);
}

#[test]
fn decodes_loads_and_stores(rt: HostRuntime) {
    are_decoded(&rt, LOADS_AND_STORES);
}

#[test]
fn decodes_jumps_and_upper_immediates(rt: HostRuntime) {
    are_decoded(&rt, JUMPS_AND_UPPER_IMMEDIATES);
}

#[test]
fn refuses_words(rt: HostRuntime) {
    assert!(rt; matches!(decode(0), Err(Refused::Illegal)));
    assert!(rt; matches!(decode(0x0010_0073), Err(Refused::System)));
}

#[test]
fn decodes_a_fence(rt: HostRuntime) {
    assert!(rt; matches!(decode(0x0ff0_000f), Ok(Instr::Fence)));
}
