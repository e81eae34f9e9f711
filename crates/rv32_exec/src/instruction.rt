ghost use Rattle.std.specs.Prelude.{◌≡◌, ◌+◌, ◌<◌, ◌≤◌, ◌*◌, ◌/◌, ◌%◌, ◌^◌, ℕ, List, true, false, length, slice_index};
ghost use Rattle.rv32_exec.specs.Interpreter as spec;
ghost use Rattle.rv32_image.specs.Image.{LoadedImage};
ghost use Rattle.rv32_exec.specs.Hart.{with_register};
ghost use Rattle.rv32_exec.specs.Execute.{add, instruction_effect, jump as jump_effect, branch as branch_effect, load as load_effect, store as store_effect};
ghost use Rattle.rv32_exec.specs.declared.stop.Stop.{Stop};
ghost use Rattle.memory_bytes.specs.Bytes.{IsWidth};

use crate::access::extend;
use crate::registers::Registers;
use crate::stop::{
    LOAD_OUTSIDE_MEMORY, MISALIGNED_DATA, MISALIGNED_TARGET, STORE_OUTSIDE_DATA, Stop,
};
use memory_bytes::{low_bytes, read_number, write_number};
use rv32_decode::{Destination, Instr, Offset, Register};
use rv32_image::Image;

/// Where a hart goes after an instruction.
#[derive(Clone, Copy)]
pub(crate) enum Way {
    /// To the instruction that follows.
    Following,
    /// So many words on, modulo 2^64: those of an offset, which may be no whole words. Then it faults, and nothing has changed.
    By(usize),
    /// To this word.
    To(usize),
    /// To the instruction that follows: it was a load, made, of so many bytes from this address on.
    Loaded { addr: u32, width: u32 },
    /// The same of a store.
    Stored { addr: u32, width: u32 },
    /// Nowhere: it faults with this cause, and nothing has changed.
    Fault(u32),
    /// Nowhere: its access is not made, and nothing has changed.
    Access,
}

/// Executes the instruction at a word. A load or a store is made where it is aligned and in `bytes`, the first bytes of memory, and
/// no store into the code; else the hart faults, or stops at that access, which `at` then is.
#[inline(always)]
#[rattlefmt::skip]
#[tactic(auto, unfolding(crate::specs::Execute::instruction_effect))]
pub(crate) fn execute(instr: &Instr, word: usize, image: &Image, x: &mut Registers, bytes: &mut [u8], at: &mut Stop) -> Way
    requires address { 4 * word < 2 ^ 32 }
    requires size { length bytes.old ≤ image.now.size }
    requires in_words { length bytes.old % 4 ≡ 0 }
    ensures leads { (done : ℕ) → spec.Leads image.now word (spec.hart x.old.x (4 * word) done) bytes.old (instruction_effect image.now (spec.hart x.old.x (4 * word) done) (λ r. slice_index x.old.x r) instr.now) result at.new x.new.x bytes.new }
    ensures lands { spec.Lands result }
{
    // The order of the arms is that of LLVM's code for them, and saves instructions of the host. BNE, the first branch, needs no jump to
    // what all branches do that are taken, and ADDI, the last arm, none to what all writes do. LLVM aligns the code after an arm's test:
    // in this order there is nothing to fill up before that of SB, LBU, LW and SW, nor before the write of ADDI. `bench/seq/run` tells
    // what another order costs.
    match *instr {
        Instr::Lui { rd, imm } => write(x, rd, imm),
        // Without this exclusive or LLVM would have one addition for this and ADDI, to which one of the two has to jump.
        Instr::Auipc { rd, imm } => write(x, rd, exclusive_or_x0(x, address(x, word).wrapping_add(imm))),
        Instr::Jal { rd, offset } => jump(x, word, rd, offset),
        Instr::Jalr { rd, rs1, imm } => jump_register(x, word, rd, x.plus(rs1, imm) / 2 * 2),
        Instr::Bne { rs1, rs2, offset } => branch(x, x.get(rs1) != x.get(rs2), offset),
        Instr::Beq { rs1, rs2, offset } => branch(x, x.get(rs1) == x.get(rs2), offset),
        Instr::Blt { rs1, rs2, offset } => branch(x, x.is_less_signed(rs1, rs2), offset),
        Instr::Bge { rs1, rs2, offset } => branch(x, !x.is_less_signed(rs1, rs2), offset),
        Instr::Bltu { rs1, rs2, offset } => branch(x, x.is_less(rs1, rs2), offset),
        Instr::Bgeu { rs1, rs2, offset } => branch(x, !x.is_less(rs1, rs2), offset),
        Instr::Lb { rd, rs1, imm } => load(image, bytes, at, x, x.plus(rs1, imm), signed(1, rd)),
        Instr::Sb { rs1, rs2, imm } => store(image, bytes, at, x.plus(rs1, imm), 1, x.get(rs2)),
        Instr::Lbu { rd, rs1, imm } => load(image, bytes, at, x, x.plus(rs1, imm), unsigned(1, rd)),
        Instr::Xori { rd, rs1, imm } => write(x, rd, x.get(rs1) ^ imm),
        Instr::Ori { rd, rs1, imm } => write(x, rd, x.get(rs1) | imm),
        Instr::Andi { rd, rs1, imm } => write(x, rd, x.get(rs1) & imm),
        Instr::Add { rd, rs1, rs2 } => write(x, rd, x.get(rs1).wrapping_add(x.get(rs2))),
        Instr::Lw { rd, rs1, imm } => load(image, bytes, at, x, x.plus(rs1, imm), unsigned(4, rd)),
        Instr::Sub { rd, rs1, rs2 } => write(x, rd, x.get(rs1).wrapping_sub(x.get(rs2))),
        Instr::Xor { rd, rs1, rs2 } => write(x, rd, x.get(rs1) ^ x.get(rs2)),
        Instr::Or { rd, rs1, rs2 } => write(x, rd, x.get(rs1) | x.get(rs2)),
        Instr::And { rd, rs1, rs2 } => write(x, rd, x.get(rs1) & x.get(rs2)),
        Instr::Sw { rs1, rs2, imm } => store(image, bytes, at, x.plus(rs1, imm), 4, x.get(rs2)),
        Instr::Lh { rd, rs1, imm } => load(image, bytes, at, x, x.plus(rs1, imm), signed(2, rd)),
        Instr::Lhu { rd, rs1, imm } => load(image, bytes, at, x, x.plus(rs1, imm), unsigned(2, rd)),
        Instr::Sh { rs1, rs2, imm } => store(image, bytes, at, x.plus(rs1, imm), 2, x.get(rs2)),
        Instr::Slti { rd, rs1, imm } => write(x, rd, u32::from(x.get(rs1).cast_signed() < imm.cast_signed())),
        Instr::Sltiu { rd, rs1, imm } => write(x, rd, u32::from(x.get(rs1) < imm)),
        Instr::Slt { rd, rs1, rs2 } => write(x, rd, u32::from(x.is_less_signed(rs1, rs2))),
        Instr::Sltu { rd, rs1, rs2 } => write(x, rd, u32::from(x.is_less(rs1, rs2))),
        Instr::Slli { rd, rs1, amount } => write(x, rd, x.get(rs1).wrapping_shl(u32::from(amount.bits()))),
        Instr::Srli { rd, rs1, amount } => write(x, rd, x.get(rs1).wrapping_shr(u32::from(amount.bits()))),
        Instr::Srai { rd, rs1, amount } => write(x, rd, x.shifted_signed(rs1, u32::from(amount.bits()))),
        Instr::Sll { rd, rs1, rs2 } => write(x, rd, x.get(rs1).wrapping_shl(x.get(rs2))),
        Instr::Srl { rd, rs1, rs2 } => write(x, rd, x.get(rs1).wrapping_shr(x.get(rs2))),
        Instr::Sra { rd, rs1, rs2 } => write(x, rd, x.shifted_signed(rs1, x.get(rs2))),
        Instr::Fence => Way::Following,
        Instr::Addi { rd, rs1, imm } => write(x, rd, x.plus(rs1, imm)),
    }
}

/// Writes an instruction's result.
#[inline]
fn write(x: &mut Registers, rd: Destination, value: u32) -> Way
    ensures x { x.new.x ≡ with_register x.old.x rd value }
    ensures way { result ≡ Way.Following }
{
    x.put(rd, value);
    Way::Following
}

/// The address of a word of this number.
#[inline]
pub(crate) fn address(x: &Registers, word: usize) -> u32
    requires { 4 * word < 2 ^ 32 }
    ensures { result ≡ 4 * word }
{
    // LLVM doesn't know that x0 is 0. So it doesn't count addresses beside words, at each instruction.
    4 * exclusive_or_x0(x, word as u32)
}

/// The number itself.
#[inline]
pub(crate) fn exclusive_or_x0(x: &Registers, number: u32) -> u32
    ensures { result ≡ number }
{
    x.look();
    x.get(Register::new(0)) ^ number
}

/// By this offset where the branch is taken.
#[inline]
fn branch(x: &mut Registers, taken: bool, offset: Offset) -> Way
    ensures leads { (image : LoadedImage) (word done : ℕ) (memory : List ℕ) (at : Stop) → 4 * word < 2 ^ 32
        → spec.Leads image word (spec.hart x.old.x (4 * word) done) memory (branch_effect (spec.hart x.old.x (4 * word) done) taken offset) result at x.new.x memory }
    ensures lands { spec.Lands result }
{
    if taken {
        // It changes no register. With a write on one way, LLVM branches, and doesn't work out both ways first.
        x.settle();
        Way::By(offset.words_on())
    } else {
        Way::Following
    }
}

/// By this offset, with the link written, unless it is no whole words.
#[inline]
fn jump(x: &mut Registers, word: usize, rd: Destination, offset: Offset) -> Way
    requires { 4 * word < 2 ^ 32 }
    ensures leads { (image : LoadedImage) (done : ℕ) (memory : List ℕ) (at : Stop) → spec.Leads image word (spec.hart x.old.x (4 * word) done) memory
        (jump_effect (spec.hart x.old.x (4 * word) done) rd (add (4 * word) offset)) result at x.new.x memory }
    ensures lands { spec.Lands result }
{
    let by = offset.words_on();
    if !is_whole(by) {
        return Way::Fault(MISALIGNED_TARGET);
    }
    x.put(rd, address(x, word).wrapping_add(4));
    Way::By(by)
}

/// Whether so many words on, modulo 2^64, are those of an offset that is whole words.
#[inline]
pub(crate) fn is_whole(by: usize) -> bool
    ensures { result ≡ spec.is_whole by }
{
    by.wrapping_add(1 << 29) < 1 << 30
}

/// To the word at this address, with the link written, unless it is misaligned.
#[inline]
fn jump_register(x: &mut Registers, word: usize, rd: Destination, target: u32) -> Way
    requires { 4 * word < 2 ^ 32 }
    ensures leads { (image : LoadedImage) (done : ℕ) (memory : List ℕ) (at : Stop) → spec.Leads image word (spec.hart x.old.x (4 * word) done) memory
        (jump_effect (spec.hart x.old.x (4 * word) done) rd target) result at x.new.x memory }
    ensures lands { spec.Lands result }
{
    if target % 4 != 0 {
        return Way::Fault(MISALIGNED_TARGET);
    }
    x.put(rd, address(x, word).wrapping_add(4));
    Way::To((target / 4) as usize)
}

/// What a load reads, and where that goes: so many bytes, with their sign or filled with 0, into a register.
#[derive(Clone, Copy)]
struct Loading {
    width: u32,
    signed: bool,
    rd: Destination,
}

/// So many bytes with their sign.
#[inline(always)]
fn signed(width: u32, rd: Destination) -> Loading
    ensures { result ≡ record { width = width; signed = true; rd = rd } }
{
    Loading {
        width,
        signed: true,
        rd,
    }
}

/// So many bytes, filled with 0.
#[inline(always)]
fn unsigned(width: u32, rd: Destination) -> Loading
    ensures { result ≡ record { width = width; signed = false; rd = rd } }
{
    Loading {
        width,
        signed: false,
        rd,
    }
}

/// Loads the number at the address into the register, unless it faults or is past these bytes; `at` is then that load.
#[inline(always)]
fn load(
    image: &Image,
    bytes: &[u8],
    at: &mut Stop,
    x: &mut Registers,
    addr: u32,
    loading: Loading,
) -> Way
    requires width { IsWidth loading.width }
    requires size { length bytes.now ≤ image.now.size }
    requires in_words { length bytes.now % 4 ≡ 0 }
    ensures leads { (word pc done : ℕ) → spec.Leads image.now word (spec.hart x.old.x pc done) bytes.now (load_effect image.now (spec.hart x.old.x pc done) loading.width loading.signed loading.rd addr) result at.new x.new.x bytes.now }
    ensures lands { spec.Lands result }
{
    let Loading { width, signed, rd } = loading;
    let place = addr as usize;
    if place % width as usize != 0 {
        return Way::Fault(MISALIGNED_DATA);
    }
    if place >= bytes.len() {
        if addr >= image.size() {
            return Way::Fault(LOAD_OUTSIDE_MEMORY);
        }
        *at = Stop::Load {
            addr,
            width,
            signed,
            rd: rd.register(),
        };
        return Way::Access;
    }
    x.put(rd, extend(width, signed, read_number(bytes, place, width)));
    Way::Loaded { addr, width }
}

/// Stores the low `width` bytes of the value, unless it faults or is past these bytes; `at` is then that store.
#[inline(always)]
fn store(image: &Image, bytes: &mut [u8], at: &mut Stop, addr: u32, width: u32, value: u32) -> Way
    requires width { IsWidth width }
    requires size { length bytes.old ≤ image.now.size }
    requires in_words { length bytes.old % 4 ≡ 0 }
    ensures leads { (word pc done : ℕ) (x : List ℕ) → spec.Leads image.now word (spec.hart x pc done) bytes.old (store_effect image.now (spec.hart x pc done) width addr value) result at.new x bytes.new }
    ensures lands { spec.Lands result }
{
    let place = addr as usize;
    if place % width as usize != 0 {
        return Way::Fault(MISALIGNED_DATA);
    }
    if place >= bytes.len() {
        if addr >= image.size() || addr < image.code() {
            return Way::Fault(STORE_OUTSIDE_DATA);
        }
        *at = Stop::Store {
            addr,
            width,
            value: low_bytes(width, value),
        };
        return Way::Access;
    }
    if place < image.code() as usize {
        return Way::Fault(STORE_OUTSIDE_DATA);
    }
    write_number(bytes, place, width, low_bytes(width, value));
    Way::Stored { addr, width }
}
