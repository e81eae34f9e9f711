//! The sequential machine, slowly: one whole instruction after another over bytes, by the manual's tables alone.

use rv32_exec::{End, Image};
use std::alloc::{AllocError, Global};

/// Why an epoch has stopped.
enum Halt {
    Ended,
    Fault(u32),
}

/// A hart with all of memory.
#[derive(Drop)]
struct Plain {
    x: [u32; 32],
    pc: u32,
    done: u32,
    bytes: Vec<u8>,
    code: u32,
    limit: u32,
}

/// Runs the loop of an image, and answers how it ended and its memory then.
pub(crate) fn run(alloc: Global, image: &Image) -> Result<(End, Vec<u8>), AllocError> {
    let mut plain = Plain {
        x: image.regs(),
        pc: 0,
        done: 0,
        bytes: Vec::from_slice(alloc, image.bytes())?,
        code: image.code(),
        limit: image.limit(),
    };
    for epoch in 0..image.epochs() {
        plain.x = image.regs();
        plain.x[1] = 0xffff_fffc;
        plain.x[10] = epoch;
        plain.pc = 0;
        plain.done = 0;
        match plain.run_epoch() {
            Halt::Ended if image.exit() && plain.x[10] != 0 => {
                return Ok((End::Exit(epoch), plain.bytes));
            }
            Halt::Ended => (),
            Halt::Fault(cause) => {
                let pc = plain.pc;
                return Ok((End::Fault { epoch, cause, pc }, plain.bytes));
            }
        }
    }
    Ok((End::Done(image.epochs()), plain.bytes))
}

impl Plain {
    fn run_epoch(&mut self) -> Halt {
        for _ in 0..1000 {
            if self.pc == 0xffff_fffc {
                return Halt::Ended;
            }
            if self.done >= self.limit {
                return Halt::Fault(8);
            }
            if self.pc >= self.code {
                return Halt::Fault(3);
            }
            let word = self.number(self.pc, 4);
            if let Err(cause) = self.execute(word) {
                return Halt::Fault(cause);
            }
            self.done = self.done.wrapping_add(1);
        }
        Halt::Fault(0)
    }

    /// Executes a word; where it faults nothing has changed, and the cause is answered.
    fn execute(&mut self, word: u32) -> Result<(), u32> {
        match (word % 128, funct3(word)) {
            (0b0110111, _) => self.write(word, word / 4096 * 4096),
            (0b0010111, _) => self.write(word, self.pc.wrapping_add(word / 4096 * 4096)),
            (0b1101111, _) => return self.jump(word, self.pc.wrapping_add(j_immediate(word))),
            (0b1100111, 0) => return self.jump(
                word,
                self.rs1(word).wrapping_add(i_immediate(word)) / 2 * 2,
            ),
            (0b1100011, _) => return self.branch(word),
            (0b0000011, _) => self.load(word)?,
            (0b0100011, _) => self.store(word)?,
            (0b0010011, 1 | 5) => self.operate(word, bits(word, 25, 7), bits(word, 20, 5))?,
            (0b0010011, _) => self.operate(word, 0, i_immediate(word))?,
            (0b0110011, _) => self.operate(word, bits(word, 25, 7), self.rs2(word))?,
            (0b0001111, 0) => (),
            (0b1110011, _) if word == 0x0000_0073 || word == 0x0010_0073 => return Err(2),
            _ => return Err(1),
        }
        self.pc = self.pc.wrapping_add(4);
        Ok(())
    }

    fn jump(&mut self, word: u32, target: u32) -> Result<(), u32> {
        if target % 4 != 0 {
            return Err(4);
        }
        self.write(word, self.pc.wrapping_add(4));
        self.pc = target;
        Ok(())
    }

    fn branch(&mut self, word: u32) -> Result<(), u32> {
        let (a, b) = (self.rs1(word), self.rs2(word));
        let taken = match funct3(word) {
            0 => a == b,
            1 => a != b,
            4 => is_less_signed(a, b),
            5 => !is_less_signed(a, b),
            6 => a < b,
            7 => a >= b,
            _ => return Err(1),
        };
        let offset = if taken { b_immediate(word) } else { 4 };
        let target = self.pc.wrapping_add(offset);
        if target % 4 != 0 {
            return Err(4);
        }
        self.pc = target;
        Ok(())
    }

    fn load(&mut self, word: u32) -> Result<(), u32> {
        let addr = self.rs1(word).wrapping_add(i_immediate(word));
        let (width, half) = match funct3(word) {
            0 => (1, 0x80),
            1 => (2, 0x8000),
            2 => (4, 0),
            4 => (1, 0),
            5 => (2, 0),
            _ => return Err(1),
        };
        if addr & (width - 1) != 0 {
            return Err(5);
        }
        if !self.is_inside(addr, width) {
            return Err(6);
        }
        self.write(word, extend(self.number(addr, width), half));
        Ok(())
    }

    fn store(&mut self, word: u32) -> Result<(), u32> {
        let addr = self.rs1(word).wrapping_add(s_immediate(word));
        let width = match funct3(word) {
            0 => 1,
            1 => 2,
            2 => 4,
            _ => return Err(1),
        };
        if addr & (width - 1) != 0 {
            return Err(5);
        }
        if !self.is_inside(addr, width) || addr < self.code {
            return Err(7);
        }
        let value = self.rs2(word);
        for i in 0..width {
            if let Some(byte) = self.bytes.get_mut(addr.wrapping_add(i) as usize) {
                *byte = bits(value, 8u32.wrapping_mul(i), 8).to_le_bytes()[0];
            }
        }
        Ok(())
    }

    /// Writes the result of an operation on rs1 and a second number.
    fn operate(&mut self, word: u32, funct7: u32, b: u32) -> Result<(), u32> {
        let a = self.rs1(word);
        let value = match (funct7, funct3(word)) {
            (0, 0) => a.wrapping_add(b),
            (32, 0) => a.wrapping_sub(b),
            (0, 1) => a.wrapping_shl(b % 32),
            (0, 2) => u32::from(is_less_signed(a, b)),
            (0, 3) => u32::from(a < b),
            (0, 4) => a ^ b,
            (0, 5) => a.wrapping_shr(b % 32),
            (32, 5) if a >= 0x8000_0000 => !(!a).wrapping_shr(b % 32),
            (32, 5) => a.wrapping_shr(b % 32),
            (0, 6) => a | b,
            (0, 7) => a & b,
            _ => return Err(1),
        };
        self.write(word, value);
        Ok(())
    }

    fn is_inside(&self, addr: u32, width: u32) -> bool {
        u64::from(addr) + u64::from(width) <= self.bytes.len() as u64
    }

    fn number(&self, addr: u32, width: u32) -> u32 {
        let mut number = 0;
        for i in 0..width {
            let byte = self.bytes.get(addr.wrapping_add(i) as usize).copied();
            number |= u32::from(byte.unwrap_or(0)).wrapping_shl(8u32.wrapping_mul(i));
        }
        number
    }

    fn rs1(&self, word: u32) -> u32 {
        self.x[(word.wrapping_shr(15) % 32) as usize]
    }

    fn rs2(&self, word: u32) -> u32 {
        self.x[(word.wrapping_shr(20) % 32) as usize]
    }

    fn write(&mut self, word: u32, value: u32) {
        let rd = word.wrapping_shr(7) % 32;
        if rd != 0 {
            self.x[rd as usize] = value;
        }
    }
}

fn is_less_signed(a: u32, b: u32) -> bool {
    (a ^ 0x8000_0000) < (b ^ 0x8000_0000)
}

/// So many bits of a word, from this place up.
fn bits(word: u32, low: u32, count: u32) -> u32 {
    word.wrapping_shr(low) & u32::MAX.wrapping_shr(32u32.wrapping_sub(count))
}

fn funct3(word: u32) -> u32 {
    bits(word, 12, 3)
}

/// A number whose sign bit is worth `half`, in 32 bits; 0 for one without a sign.
fn extend(number: u32, half: u32) -> u32 {
    if half != 0 && number >= half {
        number.wrapping_sub(half.wrapping_mul(2))
    } else {
        number
    }
}

fn i_immediate(word: u32) -> u32 {
    extend(bits(word, 20, 12), 1 << 11)
}

fn s_immediate(word: u32) -> u32 {
    extend(
        bits(word, 25, 7).wrapping_shl(5) | bits(word, 7, 5),
        1 << 11,
    )
}

fn b_immediate(word: u32) -> u32 {
    let high = bits(word, 31, 1).wrapping_shl(12) | bits(word, 7, 1).wrapping_shl(11);
    let low = bits(word, 25, 6).wrapping_shl(5) | bits(word, 8, 4).wrapping_shl(1);
    extend(high | low, 1 << 12)
}

fn j_immediate(word: u32) -> u32 {
    let high = bits(word, 31, 1).wrapping_shl(20) | bits(word, 12, 8).wrapping_shl(12);
    let low = bits(word, 20, 1).wrapping_shl(11) | bits(word, 21, 10).wrapping_shl(1);
    extend(high | low, 1 << 20)
}
