ghost use Rattle.std.specs.Prelude.{◌≡◌, ◌<◌, ◌^◌};
ghost use Rattle.rv32_decode.specs.Word as field;
ghost use Rattle.rv32_decode.specs.Table.{meaning_of};

use crate::fields::{Destination, Offset, Register, ShiftAmount};
use crate::instr::Instr;
use crate::refused::Refused;

// The opcodes, by their names in the manual's opcode map.
const LOAD: u32 = 0b000_0011;

const MISC_MEM: u32 = 0b000_1111;

const OP_IMM: u32 = 0b001_0011;

const AUIPC: u32 = 0b001_0111;

const STORE: u32 = 0b010_0011;

const OP: u32 = 0b011_0011;

const LUI: u32 = 0b011_0111;

const BRANCH: u32 = 0b110_0011;

const JALR: u32 = 0b110_0111;

const JAL: u32 = 0b110_1111;

const SYSTEM: u32 = 0b111_0011;

const ECALL: u32 = 0x0000_0073;

const EBREAK: u32 = 0x0010_0073;

/// The instruction that a word of 32 bits encodes.
///
/// `Illegal`: the word has the fixed bits of no instruction of RV32I. `System`: it is ECALL or EBREAK.
///
/// Source: RISC-V Unprivileged ISA, chapter "RV32/64G Instruction Set Listings", table "RV32I Base
/// Instruction Set".
#[tactic(auto, unfolding(crate::specs::Table::meaning_of))]
pub fn decode(word: u32) -> Result<Instr, Refused>
    ensures { result ≡ meaning_of word }
{
    match opcode(word) {
        LUI => Ok(Instr::Lui {
            rd: rd(word),
            imm: u_immediate(word),
        }),
        AUIPC => Ok(Instr::Auipc {
            rd: rd(word),
            imm: u_immediate(word),
        }),
        JAL => Ok(Instr::Jal {
            rd: rd(word),
            offset: Offset::new(j_immediate(word)),
        }),
        JALR => jump_register(word),
        BRANCH => branch(word),
        LOAD => load(word),
        STORE => store(word),
        OP_IMM => register_immediate(word),
        OP => register_register(word),
        MISC_MEM => misc_mem(word),
        SYSTEM => system(word),
        _ => Err(Refused::Illegal),
    }
}

#[tactic(auto, unfolding(crate::specs::Table::meaning_of))]
fn jump_register(word: u32) -> Result<Instr, Refused>
    requires { field.opcode word ≡ JALR }
    ensures { result ≡ meaning_of word }
{
    let (rd, rs1, imm) = i_fields(word);
    match funct3(word) {
        0b000 => Ok(Instr::Jalr { rd, rs1, imm }),
        _ => Err(Refused::Illegal),
    }
}

#[tactic(auto, unfolding(crate::specs::Table::meaning_of))]
fn branch(word: u32) -> Result<Instr, Refused>
    requires { field.opcode word ≡ BRANCH }
    ensures { result ≡ meaning_of word }
{
    let (rs1, rs2, offset) = (rs1(word), rs2(word), Offset::new(b_immediate(word)));
    match funct3(word) {
        0b000 => Ok(Instr::Beq { rs1, rs2, offset }),
        0b001 => Ok(Instr::Bne { rs1, rs2, offset }),
        0b100 => Ok(Instr::Blt { rs1, rs2, offset }),
        0b101 => Ok(Instr::Bge { rs1, rs2, offset }),
        0b110 => Ok(Instr::Bltu { rs1, rs2, offset }),
        0b111 => Ok(Instr::Bgeu { rs1, rs2, offset }),
        _ => Err(Refused::Illegal),
    }
}

#[tactic(auto, unfolding(crate::specs::Table::meaning_of))]
fn load(word: u32) -> Result<Instr, Refused>
    requires { field.opcode word ≡ LOAD }
    ensures { result ≡ meaning_of word }
{
    let (rd, rs1, imm) = i_fields(word);
    match funct3(word) {
        0b000 => Ok(Instr::Lb { rd, rs1, imm }),
        0b001 => Ok(Instr::Lh { rd, rs1, imm }),
        0b010 => Ok(Instr::Lw { rd, rs1, imm }),
        0b100 => Ok(Instr::Lbu { rd, rs1, imm }),
        0b101 => Ok(Instr::Lhu { rd, rs1, imm }),
        _ => Err(Refused::Illegal),
    }
}

#[tactic(auto, unfolding(crate::specs::Table::meaning_of))]
fn store(word: u32) -> Result<Instr, Refused>
    requires { field.opcode word ≡ STORE }
    ensures { result ≡ meaning_of word }
{
    let (rs1, rs2, imm) = (rs1(word), rs2(word), s_immediate(word));
    match funct3(word) {
        0b000 => Ok(Instr::Sb { rs1, rs2, imm }),
        0b001 => Ok(Instr::Sh { rs1, rs2, imm }),
        0b010 => Ok(Instr::Sw { rs1, rs2, imm }),
        _ => Err(Refused::Illegal),
    }
}

#[tactic(auto, unfolding(crate::specs::Table::meaning_of))]
fn register_immediate(word: u32) -> Result<Instr, Refused>
    requires { field.opcode word ≡ OP_IMM }
    ensures { result ≡ meaning_of word }
{
    let (rd, rs1, imm) = i_fields(word);
    let amount = shift_amount(word);
    match (funct3(word), funct7(word)) {
        (0b000, _) => Ok(Instr::Addi { rd, rs1, imm }),
        (0b010, _) => Ok(Instr::Slti { rd, rs1, imm }),
        (0b011, _) => Ok(Instr::Sltiu { rd, rs1, imm }),
        (0b100, _) => Ok(Instr::Xori { rd, rs1, imm }),
        (0b110, _) => Ok(Instr::Ori { rd, rs1, imm }),
        (0b111, _) => Ok(Instr::Andi { rd, rs1, imm }),
        (0b001, 0b000_0000) => Ok(Instr::Slli { rd, rs1, amount }),
        (0b101, 0b000_0000) => Ok(Instr::Srli { rd, rs1, amount }),
        (0b101, 0b010_0000) => Ok(Instr::Srai { rd, rs1, amount }),
        _ => Err(Refused::Illegal),
    }
}

#[tactic(auto, unfolding(crate::specs::Table::meaning_of))]
fn register_register(word: u32) -> Result<Instr, Refused>
    requires { field.opcode word ≡ OP }
    ensures { result ≡ meaning_of word }
{
    let (rd, rs1, rs2) = (rd(word), rs1(word), rs2(word));
    match (funct7(word), funct3(word)) {
        (0b000_0000, 0b000) => Ok(Instr::Add { rd, rs1, rs2 }),
        (0b010_0000, 0b000) => Ok(Instr::Sub { rd, rs1, rs2 }),
        (0b000_0000, 0b001) => Ok(Instr::Sll { rd, rs1, rs2 }),
        (0b000_0000, 0b010) => Ok(Instr::Slt { rd, rs1, rs2 }),
        (0b000_0000, 0b011) => Ok(Instr::Sltu { rd, rs1, rs2 }),
        (0b000_0000, 0b100) => Ok(Instr::Xor { rd, rs1, rs2 }),
        (0b000_0000, 0b101) => Ok(Instr::Srl { rd, rs1, rs2 }),
        (0b010_0000, 0b101) => Ok(Instr::Sra { rd, rs1, rs2 }),
        (0b000_0000, 0b110) => Ok(Instr::Or { rd, rs1, rs2 }),
        (0b000_0000, 0b111) => Ok(Instr::And { rd, rs1, rs2 }),
        _ => Err(Refused::Illegal),
    }
}

#[tactic(auto, unfolding(crate::specs::Table::meaning_of))]
fn misc_mem(word: u32) -> Result<Instr, Refused>
    requires { field.opcode word ≡ MISC_MEM }
    ensures { result ≡ meaning_of word }
{
    match funct3(word) {
        0b000 => Ok(Instr::Fence),
        _ => Err(Refused::Illegal),
    }
}

#[tactic(auto, unfolding(crate::specs::Table::meaning_of))]
fn system(word: u32) -> Result<Instr, Refused>
    requires { field.opcode word ≡ SYSTEM }
    ensures { result ≡ meaning_of word }
{
    match word {
        ECALL | EBREAK => Err(Refused::System),
        _ => Err(Refused::Illegal),
    }
}

/// The fields of an instruction of format I.
fn i_fields(word: u32) -> (Destination, Register, u32)
    ensures rd { result.0 ≡ field.rd word }
    ensures rs1 { result.1 ≡ field.rs1 word }
    ensures immediate { result.2 ≡ field.i_immediate word }
{
    (rd(word), rs1(word), i_immediate(word))
}

fn opcode(word: u32) -> u32
    ensures { result ≡ field.opcode word }
{
    word & 0x7f
}

fn funct3(word: u32) -> u32
    ensures { result ≡ field.funct3 word }
{
    word >> 12 & 7
}

fn funct7(word: u32) -> u32
    ensures { result ≡ field.funct7 word }
{
    word >> 25
}

fn rd(word: u32) -> Destination
    ensures { result ≡ field.rd word }
{
    Destination::new((word >> 7 & 31) as u8)
}

fn rs1(word: u32) -> Register
    ensures { result ≡ field.rs1 word }
{
    Register::new((word >> 15 & 31) as u8)
}

fn rs2(word: u32) -> Register
    ensures { result ≡ field.rs2 word }
{
    Register::new((word >> 20 & 31) as u8)
}

fn shift_amount(word: u32) -> ShiftAmount
    ensures { result ≡ field.shamt word }
{
    ShiftAmount::new((word >> 20 & 31) as u8)
}

fn i_immediate(word: u32) -> u32
    ensures { result ≡ field.i_immediate word }
{
    extend_sign(12, word >> 20)
}

fn s_immediate(word: u32) -> u32
    ensures { result ≡ field.s_immediate word }
{
    extend_sign(12, (word >> 25) * 32 + (word >> 7 & 31))
}

fn b_immediate(word: u32) -> u32
    ensures { result ≡ field.b_immediate word }
{
    let high = (word >> 31) * 4096 + (word >> 7 & 1) * 2048;
    extend_sign(13, high + (word >> 25 & 63) * 32 + (word >> 8 & 15) * 2)
}

fn u_immediate(word: u32) -> u32
    ensures { result ≡ field.u_immediate word }
{
    word & 0xffff_f000
}

fn j_immediate(word: u32) -> u32
    ensures { result ≡ field.j_immediate word }
{
    let high = (word >> 31) * 1_048_576 + (word >> 12 & 255) * 4096;
    extend_sign(21, high + (word >> 20 & 1) * 2048 + (word >> 21 & 1023) * 2)
}

/// The number of 32 bits whose low `width` bits are `value`, and whose other bits are copies of the highest of these.
fn extend_sign(width: u32, value: u32) -> u32
    requires width_above { 0 < width }
    requires width_below { width < 32 }
    requires value { value < 2 ^ width }
    ensures { result ≡ field.sign_extended width value }
{
    if value < 1 << (width - 1) {
        value
    } else {
        value + (u32::MAX - (1 << width) + 1)
    }
}
