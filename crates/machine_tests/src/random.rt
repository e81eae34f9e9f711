//! Random numbers, images and schedules.
ghost use Rattle.std.specs.Prelude.{◌<◌};

use std::alloc::{AllocError, Global};

/// Numbers that look random, the same at each run.
#[derive(Drop)]
pub struct Random {
    state: u64,
}

impl Random {
    pub fn new(seed: u64) -> Random {
        Random {
            state: seed ^ 0x9e37_79b9_7f4a_7c15,
        }
    }

    /// A number below this one.
    pub fn below(&mut self, count: u32) -> u32
        requires { 0 < count }
        ensures { result < count }
    {
        // xorshift64* of Vigna, "An experimental exploration of Marsaglia's xorshift generators, scrambled".
        self.state ^= self.state >> 12;
        self.state ^= self.state << 25;
        self.state ^= self.state >> 27;
        let high = self.state.wrapping_mul(0x2545_f491_4f6c_dd1d) >> 32;
        high as u32 % count
    }

    /// A word.
    pub fn number(&mut self) -> u32 {
        (self.below(0x1_0000) << 16) | self.below(0x1_0000)
    }

    /// One of the registers x5 to x10.
    fn register(&mut self) -> u32 {
        self.below(6).wrapping_add(5)
    }

    /// A load or a store of 1, 2 or 4 bytes from 64 to 79, or an instruction between registers.
    fn instruction(&mut self) -> u32 {
        let (rd, rs1, rs2) = (self.register(), self.register(), self.register());
        let size = self.below(3);
        let offset = 64_u32.wrapping_add(self.below(16) >> size << size);
        let unsigned = if size < 2 { 4 * self.below(2) } else { 0 };
        let zero = 0;
        match self.below(40) {
            0..=9 => load(rd, zero, offset, size + unsigned),
            10..=21 => store(rs2, zero, offset, size),
            // Most of these fault, or load what another epoch stores.
            22 => load(rd, rs1, offset, 2),
            23..=28 => immediate(rd, rs1, self.below(8)),
            29..=33 => (rs2 << 20) | (rs1 << 15) | (rd << 7) | 0x33,
            // A branch over the next instruction, where the two registers are equal or are not.
            34..=38 => (rs2 << 20) | (rs1 << 15) | (self.below(2) << 12) | (4 << 8) | 0x63,
            // ECALL.
            _ => 0x73,
        }
    }

    /// The text of an image of up to 7 epochs.
    pub fn image(&mut self, alloc: Global, second: bool) -> Result<String, AllocError> {
        let version = if second { "version 2\n" } else { "" };
        let exit = if self.below(3) == 0 { "exit\n" } else { "" };
        let (epochs, limit) = (self.below(8), self.below(40).wrapping_add(1));
        let mut text = format!(in alloc;
            "{version}size 256\n{exit}epochs {epochs}\nlimit {limit}\ncode "
        )?;
        for _ in 0..self.below(9) {
            push_word(&mut text, self.instruction())?;
        }
        // jalr x0,0(x1)
        push_word(&mut text, 0x0000_8067)?;
        text.push_str("\n")?;
        Ok(text)
    }

    /// Up to 150 core numbers.
    pub fn schedule(&mut self, alloc: Global, cores: u32) -> Result<Vec<u32>, AllocError>
        requires { 0 < cores }
    {
        let mut schedule = Vec::new(alloc);
        for _ in 0..self.below(150) {
            schedule.push(self.below(cores))?;
        }
        Ok(schedule)
    }
}

fn load(rd: u32, rs1: u32, offset: u32, funct3: u32) -> u32 {
    (offset << 20) | (rs1 << 15) | (funct3 << 12) | (rd << 7) | 0x03
}

fn store(rs2: u32, rs1: u32, offset: u32, funct3: u32) -> u32 {
    ((offset >> 5) << 25) | (rs2 << 20) | (rs1 << 15) | (funct3 << 12) | ((offset & 31) << 7) | 0x23
}

fn immediate(rd: u32, rs1: u32, number: u32) -> u32 {
    (number << 20) | (rs1 << 15) | (rd << 7) | 0x13
}

/// The word's bytes as an image has them, the low one first.
fn push_word(text: &mut String, word: u32) -> Result<(), AllocError> {
    for byte in word.to_le_bytes() {
        for digit in [byte >> 4, byte & 15] {
            text.push(char::from_digit(u32::from(digit), 16).unwrap_or('0'))?;
        }
    }
    Ok(())
}
