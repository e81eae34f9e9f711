ghost use Rattle.std.specs.Prelude.{◌≡◌, ◌↔◌, ◌<◌, ◌≤◌, ◌+◌, ◌%◌, ◌^◌, IfOk, IfSome, IsSome, codes, length, slice_index};
ghost use Rattle.rv32_decode.specs.Table.{meaning_of};
ghost use Rattle.rv32_image.specs.Image.{IsImage};
ghost use Rattle.rv32_image.specs.Machine.{IsMachineFor};
ghost use Rattle.rv32_image.specs.Places.{place};
ghost use Rattle.rv32_image.specs.Header.{loaded_image};
ghost use Rattle.rv32_image.specs.Decoded.{IsDecoded, kept_of, trap};
ghost use Rattle.memory_bytes.specs.Bytes.{number_at};

use crate::machine::Machine;
use crate::version::Version;
use memory_bytes::read_number;
use rv32_decode::{Destination, Instr, Offset, Refused, decode};
use std::alloc::{AllocError, Global};
use std::marker::Model;
use std::sync::ArcSlice;
use thiserror::Error;

/// Memory ran out.
#[derive(Clone, Copy, Debug, PartialEq, Eq, Error)]
#[error("NoMemory")]
pub struct NoMemory;

impl NoMemory {
    /// The printed name, `NoMemory`.
    pub fn name(self) -> &'static str
        ensures { result.now ≡ codes "NoMemory" }
    {
        "NoMemory"
    }
}

impl From<AllocError> for NoMemory {
    ghost from_gives = { λ _ _. Unit {0} };

    fn from(_: AllocError) -> NoMemory {
        NoMemory
    }
}

/// What an image says beside its bytes.
#[derive(Clone, Copy)]
pub(crate) struct Header {
    pub version: Version,
    pub machine: Machine,
    pub exit: bool,
    pub size: u32,
    pub code: u32,
    pub epochs: u32,
    pub limit: u32,
    pub registers: [u32; 32],
}

/// A loop as it was loaded: its version, the machine that runs it, whether an epoch may exit it, its memory, with the code
/// from address 0 on, how many epochs it has, how many instructions each may execute, and the registers at their start.
///
/// Memory has 16 to 65,536 bytes, a multiple of 16, and in version 2 32 to 1,048,576, a multiple of 32; the code 4 bytes
/// to all of memory, a multiple of 4; there are 0 to 65,535 epochs; the limit is 1 to 1,000,000. Contracts see these values.
#[derive(Drop)]
pub struct Image {
    header: Header,
    bytes: ArcSlice<u8>,
    program: ArcSlice<Instr>,
}

impl Model for Image {
    ghost use Rattle.rv32_image.specs.Image.{LoadedImage};

    ghost Value = { LoadedImage };

    ghost use Rattle.rv32_image.specs.LoadedCode.{view_of, IsLoaded};

    ghost view = { view_of };

    ghost invariant = { IsLoaded };
}

impl Image {
    /// The image of this header and these bytes, with its code decoded.
    ///
    /// `NoMemory`: there was no memory for the decoded code.
    pub(crate) fn new(alloc: Global, header: Header, bytes: Vec<u8>) -> Result<Image, NoMemory>
        requires { IsImage (loaded_image header bytes.items) }
        ensures { IfOk result (λ image. image ≡ loaded_image header bytes.items) }
    {
        let program = decoded(alloc, header.code, bytes.as_slice())?;
        Ok(Image {
            header,
            bytes: ArcSlice::from_vec(bytes)?,
            program: ArcSlice::from_vec(program)?,
        })
    }

    /// A copy of the image. All copies share their bytes, so it costs the same for any size.
    ///
    /// `NoMemory`: there are too many copies, 2^63 - 1.
    pub fn copy(&self) -> Result<Image, NoMemory>
        ensures { IfOk result (λ image. image ≡ self.now) }
    {
        let bytes = self.bytes.clone()?;
        let program = self.program.clone()?;
        Ok(Image {
            header: self.header,
            bytes,
            program,
        })
    }

    /// The version: One where the text names none.
    pub fn version(&self) -> Version
        ensures version { result ≡ self.now.version }
        ensures limits { IsImage self.now }
    {
        self.header.version
    }

    /// The machine that runs it: that of its version, where no other was asked for.
    pub fn machine(&self) -> Machine
        ensures machine { result ≡ self.now.machine }
        ensures limits { IsImage self.now }
    {
        self.header.machine
    }

    /// The same loop, to be run on this machine.
    ///
    /// `None`: there is no such machine, or memory isn't a whole number of its lines.
    pub fn with_machine(self, machine: Machine) -> Option<Image>
        ensures same { IfSome result (λ image. image ≡ record self { machine = machine }) }
        ensures allowed { IsSome result ↔ IsMachineFor self.size machine }
    {
        if !machine.fits(self.header.size) {
            return None;
        }
        Some(Image {
            header: Header {
                machine,
                ..self.header
            },
            ..self
        })
    }

    /// The place of a byte: where it lies for the caches of the machine. All places lie below that of the end of memory.
    pub fn place(&self, addr: u32) -> u32
        requires { addr ≤ self.now.size }
        ensures place { result ≡ place self.now.machine self.now.size addr }
        ensures limits { IsImage self.now }
    {
        self.header.machine.place(self.header.size, addr)
    }

    /// Whether an epoch may exit the loop: one that ends with x10 other than 0 is then the last.
    pub fn exit(&self) -> bool
        ensures { result ≡ self.now.exit }
    {
        self.header.exit
    }

    /// Bytes of memory: 16 to 65,536, a multiple of 16; in version 2 32 to 1,048,576, a multiple of 32.
    pub fn size(&self) -> u32
        ensures size { result ≡ self.now.size }
        ensures limits { IsImage self.now }
    {
        self.header.size
    }

    /// Bytes of code: 4 to the size, a multiple of 4.
    pub fn code(&self) -> u32
        ensures code { result ≡ self.now.code }
        ensures limits { IsImage self.now }
    {
        self.header.code
    }

    /// How many epochs the loop has: 0 to 65,535.
    pub fn epochs(&self) -> u32
        ensures epochs { result ≡ self.now.epochs }
        ensures limits { IsImage self.now }
    {
        self.header.epochs
    }

    /// How many instructions an epoch may execute: 1 to 1,000,000.
    pub fn limit(&self) -> u32
        ensures limit { result ≡ self.now.limit }
        ensures limits { IsImage self.now }
    {
        self.header.limit
    }

    /// The registers at an epoch's start, x0 first. Those that the start sets, and x0, are 0 here.
    pub fn regs(&self) -> [u32; 32]
        ensures regs { result ≡ self.now.registers }
        ensures limits { IsImage self.now }
    {
        self.header.registers
    }

    /// Memory as it was loaded, from address 0 on.
    pub fn bytes(&self) -> &[u8]
        ensures bytes { result.now ≡ self.now.bytes }
        ensures limits { IsImage self.now }
    {
        self.bytes.as_slice()
    }

    /// The code decoded: each word's instruction, and a trap, a jump that faults, in place of a word that is refused and after
    /// the last.
    pub fn program(&self) -> &[Instr]
        ensures program { IsDecoded result.now self.now.code self.now.bytes }
        ensures limits { IsImage self.now }
    {
        self.program.as_slice()
    }

    /// The instruction at a pc, which is in the code.
    pub fn instruction_at(&self, pc: u32) -> Result<Instr, Refused>
        requires aligned { pc % 4 ≡ 0 }
        requires within { pc < self.now.code }
        ensures { result ≡ meaning_of (number_at (λ a. slice_index self.now.bytes a) pc 4) }
    {
        decode(read_number(self.bytes.as_slice(), pc as usize, 4))
    }
}

/// The instructions of the code, in order, and a trap after them.
fn decoded(alloc: Global, code: u32, bytes: &[u8]) -> Result<Vec<Instr>, AllocError>
    requires words { code % 4 ≡ 0 }
    requires within { code ≤ length bytes.now }
    ensures { IfOk result (λ program. IsDecoded program.items code bytes.now) }
{
    let words = (code / 4) as usize;
    let mut program = Vec::with_capacity(alloc, words + 1)?;
    for word in 0..words {
        program.push(kept(read_number(bytes, 4 * word, 4)))?;
    }
    program.push(trap())?;
    Ok(program)
}

/// What is kept of a word: its instruction, or a trap where it is refused.
#[tactic(auto, unfolding(crate::specs::Decoded::kept_of))]
fn kept(word: u32) -> Instr
    ensures { result ≡ kept_of (meaning_of word) }
{
    match decode(word) {
        Ok(instr) => instr,
        Err(_) => trap(),
    }
}

/// A jump that faults wherever it stands, since its target is misaligned.
fn trap() -> Instr
    ensures { result ≡ trap }
{
    Instr::Jal {
        rd: Destination::new(0),
        offset: Offset::new(2),
    }
}
