//! Image texts that look random, always the same ones.

ghost use Rattle.std.specs.Prelude.{◌<◌};

use std::alloc::{AllocError, Global};

/// The fixed bits of each row of the manual's table, and two words outside of it.
#[rattlefmt::skip]
const ROWS: [u32; 40] = [
    0x0000_0037, 0x0000_0017, 0x0000_006f, 0x0000_0067,
    0x0000_0063, 0x0000_1063, 0x0000_4063, 0x0000_5063, 0x0000_6063, 0x0000_7063,
    0x0000_0003, 0x0000_1003, 0x0000_2003, 0x0000_4003, 0x0000_5003,
    0x0000_0023, 0x0000_1023, 0x0000_2023,
    0x0000_0013, 0x0000_2013, 0x0000_3013, 0x0000_4013, 0x0000_6013, 0x0000_7013,
    0x0000_1013, 0x0000_5013, 0x4000_5013,
    0x0000_0033, 0x4000_0033, 0x0000_1033, 0x0000_2033, 0x0000_3033,
    0x0000_4033, 0x0000_5033, 0x4000_5033, 0x0000_6033, 0x0000_7033,
    0x0000_000f, 0x0000_0073, 0x0000_7067,
];

/// Registers that the programs use; x6 starts with the address of data.
const REGISTERS: [u32; 8] = [0, 5, 5, 6, 7, 7, 10, 11];

/// Where the next random number comes from.
#[derive(Drop)]
pub(crate) struct Dice {
    state: u32,
}

impl Dice {
    /// Dice that roll the same numbers for the same seed.
    pub(crate) fn new(seed: u32) -> Dice {
        Dice { state: seed }
    }

    /// A number below `sides`, by Marsaglia's xorshift.
    fn roll(&mut self, sides: u32) -> u32
        requires { 0 < sides }
        ensures { result < sides }
    {
        let mut state = self.state;
        state ^= state.wrapping_shl(13);
        state ^= state.wrapping_shr(17);
        state ^= state.wrapping_shl(5);
        self.state = state;
        state.wrapping_shr(4) % sides
    }

    fn register(&mut self) -> u32 {
        REGISTERS[self.roll(8) as usize]
    }

    /// A word of the table with fields that seldom fault.
    fn word(&mut self) -> u32 {
        let row = ROWS[self.roll(40) as usize];
        let rd = self.register().wrapping_shl(7);
        let rs1 = self.register().wrapping_shl(15);
        let rs2 = self.register().wrapping_shl(20);
        let base = 6u32.wrapping_shl(15);
        let forward = self.roll(3).wrapping_mul(4).wrapping_add(4);
        let aligned = self
            .roll(8)
            .wrapping_mul(4)
            .wrapping_add(self.roll(16) / 13);
        match row % 128 {
            0x37 | 0x17 => row | rd | self.roll(0x10_0000).wrapping_shl(12),
            0x6f => row | rd | forward.wrapping_shl(20),
            0x67 => row | rd | forward.wrapping_mul(4).wrapping_shl(20),
            0x63 => row | rs1 | rs2 | forward.wrapping_shl(7),
            0x03 => row | rd | base | aligned.wrapping_shl(20),
            0x23 => row | base | rs2 | (aligned % 32).wrapping_shl(7),
            0x13 if row & 0x3000 == 0x1000 => row | rd | rs1 | self.roll(32).wrapping_shl(20),
            0x13 => row | rd | rs1 | self.roll(0x1000).wrapping_shl(20),
            0x33 => row | rd | rs1 | rs2,
            _ => row,
        }
    }
}

/// Adds a word in eight hexadecimal digits.
fn push_hex(alloc: Global, text: &mut String, word: u32) -> Result<(), AllocError> {
    text.push_str(format!(in alloc; "{word:08x}")?.as_str())
}

/// Adds twelve words that look random.
fn push_words(alloc: Global, text: &mut String, dice: &mut Dice) -> Result<(), AllocError> {
    for _ in 0..12 {
        push_hex(alloc, text, dice.word().swap_bytes())?;
    }
    Ok(())
}

/// An image text of four epochs, with twelve words that end by a return.
pub(crate) fn image_text(alloc: Global, dice: &mut Dice) -> Result<String, AllocError> {
    let mut text = String::from_str(alloc, "size 256\nepochs 4\nlimit 40\nreg 6 00000040\n")?;
    if dice.roll(3) == 0 {
        text.push_str("exit\n")?;
    }
    text.push_str("reg 5 ")?;
    push_hex(alloc, &mut text, dice.roll(0x1000_0000).wrapping_mul(16))?;
    text.push_str("\ncode ")?;
    push_words(alloc, &mut text, dice)?;
    text.push_str("67800000\nat 00000040 80112233c4556677ff99aabb0cddeeff0102038405\n")?;
    Ok(text)
}
