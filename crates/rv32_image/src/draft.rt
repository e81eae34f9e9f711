ghost use Rattle.std.specs.Prelude.{◌≡◌, ◌+◌, ◌%◌, ◌≤◌, ◌≢◌, IsTrue, None, length, replicate, Ok};
ghost use Rattle.rv32_image.specs.ImageText as spec;
ghost use Rattle.rv32_image.specs.Reading.{Gives, Answers};
ghost use Rattle.rv32_image.specs.Version.{IsSize};

use crate::fault::{ImageFault, ImageFaultKind};
use crate::image::{Header, Image};
use crate::numbered::is_remark;
use crate::version::Version;
use crate::words::{Words, bytes_in, number_in, word_in, words_of};
use std::alloc::Global;
use std::marker::Model;

/// What the lines so far have said.
#[derive(Drop)]
pub struct Draft {
    version: Option<Version>,
    exit: bool,
    size: Option<u32>,
    epochs: Option<u32>,
    limit: Option<u32>,
    code: Option<u32>,
    registers: [u32; 32],
    given: [bool; 32],
    bytes: Vec<u8>,
}

impl Model for Draft {
    ghost use Rattle.rv32_image.specs.ImageText as text;

    ghost Value = { text.Draft };

    ghost use Rattle.rv32_image.specs.DraftView.{draft_of, IsSound};

    ghost view = { draft_of };

    ghost invariant = { IsSound };
}

impl Draft {
    /// Nothing was said yet.
    pub fn blank(alloc: Global) -> Draft
        ensures { result ≡ spec.blank }
    {
        Draft {
            version: None,
            exit: false,
            size: None,
            epochs: None,
            limit: None,
            code: None,
            registers: [0; 32],
            given: [false; 32],
            bytes: Vec::new(alloc),
        }
    }

    /// Reads one line.
    #[tactic(auto, unfolding(crate::specs::ImageText::line_read))]
    pub fn read_line(&mut self, alloc: Global, line: &[u8]) -> Result<(), ImageFaultKind>
        ensures { Gives (λ _. self.new) result (spec.line_read self.old line.now) }
    {
        if is_remark(line) {
            return Ok(());
        }
        match words_of(line) {
            Words::One(keyword) => self.one_word(keyword),
            Words::Two(keyword, word) if keyword == b"version".as_slice() => self.version_line(
                word,
            ),
            Words::Two(keyword, word) => self.two_words(alloc, keyword, word),
            Words::Three(keyword, first, second) => self.three_words(alloc, keyword, first, second),
            Words::Other => Err(ImageFaultKind::Line),
        }
    }

    /// The version of the image, where no later line says it.
    fn version(&self) -> Version
        ensures { result ≡ spec.version_in self.now }
    {
        self.version.unwrap_or(Version::One)
    }

    /// Settles the version, at a line that is not its own.
    fn settle(&mut self)
        ensures { self.new ≡ spec.settled self.old }
    {
        self.version = Some(self.version());
    }

    #[tactic(auto, unfolding(crate::specs::ImageText::version_line))]
    fn version_line(&mut self, word: &[u8]) -> Result<(), ImageFaultKind>
        ensures { Gives (λ _. self.new) result (spec.version_line self.old word.now) }
    {
        let number = number_in(word)?;
        refuse(self.version.is_some(), ImageFaultKind::MissingOrRepeated)?;
        self.version = Some(version_of(number)?);
        Ok(())
    }

    #[tactic(auto, unfolding(crate::specs::ImageText::one_word, crate::specs::ImageText::exit_line))]
    fn one_word(&mut self, keyword: &[u8]) -> Result<(), ImageFaultKind>
        ensures { Gives (λ _. self.new) result (spec.one_word (spec.settled self.old) keyword.now) }
    {
        self.settle();
        refuse(keyword != b"exit".as_slice(), ImageFaultKind::Line)?;
        refuse(self.exit, ImageFaultKind::MissingOrRepeated)?;
        self.exit = true;
        Ok(())
    }

    #[tactic(auto, unfolding(crate::specs::ImageText::two_words))]
    fn two_words(
        &mut self,
        alloc: Global,
        keyword: &[u8],
        word: &[u8],
    ) -> Result<(), ImageFaultKind>
        ensures { Gives (λ _. self.new) result (spec.two_words (spec.settled self.old) keyword.now word.now) }
    {
        self.settle();
        if keyword == b"size".as_slice() {
            self.size_line(alloc, word)
        } else if keyword == b"epochs".as_slice() {
            self.epochs_line(word)
        } else if keyword == b"limit".as_slice() {
            self.limit_line(word)
        } else if keyword == b"code".as_slice() {
            self.code_line(alloc, word)
        } else {
            Err(ImageFaultKind::Line)
        }
    }

    #[tactic(auto, unfolding(crate::specs::ImageText::three_words))]
    fn three_words(
        &mut self,
        alloc: Global,
        keyword: &[u8],
        first: &[u8],
        second: &[u8],
    ) -> Result<(), ImageFaultKind>
        ensures { Gives (λ _. self.new) result (spec.three_words (spec.settled self.old) keyword.now first.now second.now) }
    {
        self.settle();
        if keyword == b"reg".as_slice() {
            self.reg_line(first, second)
        } else if keyword == b"at".as_slice() {
            self.at_line(alloc, first, second)
        } else {
            Err(ImageFaultKind::Line)
        }
    }

    #[tactic(auto, unfolding(crate::specs::ImageText::size_line))]
    fn size_line(&mut self, alloc: Global, word: &[u8]) -> Result<(), ImageFaultKind>
        requires { self.old.version ≢ None }
        ensures { Gives (λ _. self.new) result (spec.size_line self.old word.now) }
    {
        let size = number_in(word)?;
        refuse(self.size.is_some(), ImageFaultKind::MissingOrRepeated)?;
        refuse(!is_size(self.version(), size), ImageFaultKind::Range)?;
        self.bytes = zeros(alloc, size as usize)?;
        self.size = Some(size as u32);
        Ok(())
    }

    #[tactic(auto, unfolding(crate::specs::ImageText::epochs_line))]
    fn epochs_line(&mut self, word: &[u8]) -> Result<(), ImageFaultKind>
        ensures { Gives (λ _. self.new) result (spec.epochs_line self.old word.now) }
    {
        let epochs = number_in(word)?;
        refuse(self.epochs.is_some(), ImageFaultKind::MissingOrRepeated)?;
        refuse(epochs > 65535, ImageFaultKind::Range)?;
        self.epochs = Some(epochs as u32);
        Ok(())
    }

    #[tactic(auto, unfolding(crate::specs::ImageText::limit_line))]
    fn limit_line(&mut self, word: &[u8]) -> Result<(), ImageFaultKind>
        ensures { Gives (λ _. self.new) result (spec.limit_line self.old word.now) }
    {
        let limit = number_in(word)?;
        refuse(self.limit.is_some(), ImageFaultKind::MissingOrRepeated)?;
        refuse(limit == 0 || limit > 1_000_000, ImageFaultKind::Range)?;
        self.limit = Some(limit as u32);
        Ok(())
    }

    #[tactic(auto, unfolding(crate::specs::ImageText::code_line))]
    fn code_line(&mut self, alloc: Global, word: &[u8]) -> Result<(), ImageFaultKind>
        ensures { Gives (λ _. self.new) result (spec.code_line self.old word.now) }
    {
        refuse(word.is_empty(), ImageFaultKind::Line)?;
        refuse(
            self.code.is_some() || self.size.is_none(),
            ImageFaultKind::MissingOrRepeated,
        )?;
        let code = bytes_in(alloc, word)?;
        refuse(
            !is_code_length(self.bytes.len(), code.len()),
            ImageFaultKind::Range,
        )?;
        overwrite(&mut self.bytes, 0, &code);
        self.code = Some(code.len() as u32);
        Ok(())
    }

    #[tactic(auto, unfolding(crate::specs::ImageText::reg_line))]
    fn reg_line(&mut self, number: &[u8], digits: &[u8]) -> Result<(), ImageFaultKind>
        ensures { Gives (λ _. self.new) result (spec.reg_line self.old number.now digits.now) }
    {
        let number = number_in(number)?;
        refuse(digits.is_empty(), ImageFaultKind::Line)?;
        refuse(self.is_given(number), ImageFaultKind::MissingOrRepeated)?;
        let value = word_in(digits)?;
        refuse(!is_free_register(number), ImageFaultKind::Range)?;
        self.registers[number as usize] = value;
        self.given[number as usize] = true;
        Ok(())
    }

    fn is_given(&self, number: u64) -> bool
        ensures { result ≡ spec.is_given self.now number }
    {
        number < 32 && self.given[number as usize]
    }

    #[tactic(auto, unfolding(crate::specs::ImageText::at_line))]
    fn at_line(&mut self, alloc: Global, digits: &[u8], word: &[u8]) -> Result<(), ImageFaultKind>
        ensures { Gives (λ _. self.new) result (spec.at_line self.old digits.now word.now) }
    {
        refuse(digits.is_empty() || word.is_empty(), ImageFaultKind::Line)?;
        refuse(
            self.size.is_none() || self.code.is_none(),
            ImageFaultKind::MissingOrRepeated,
        )?;
        let address = word_in(digits)?;
        let bytes = bytes_in(alloc, word)?;
        refuse(
            !self.is_data_place(address as usize, bytes.len()),
            ImageFaultKind::Place,
        )?;
        overwrite(&mut self.bytes, address as usize, &bytes);
        Ok(())
    }

    /// Whether so many bytes from an address on lie in memory, outside the code.
    fn is_data_place(&self, address: usize, length: usize) -> bool
        ensures { result ≡ spec.is_data_place self.now address length }
    {
        let size = self.bytes.len();
        address >= self.code.unwrap_or(0) as usize && address <= size && length <= size - address
    }

    /// The image, where no line that it needs is missing.
    #[tactic(auto, unfolding(crate::specs::ImageText::finished))]
    pub fn finish(self, alloc: Global) -> Result<Image, ImageFault>
        ensures { Answers (λ image. image) result (spec.finished self) }
    {
        let Draft {
            version,
            exit,
            size,
            epochs,
            limit,
            code,
            registers,
            given: _,
            bytes,
        } = self;
        let (Some(size), Some(code), Some(epochs), Some(limit)) = (size, code, epochs, limit) else {
            return Err(ImageFault {
                line: 0,
                kind: ImageFaultKind::MissingOrRepeated,
            });
        };
        let version = version.unwrap_or(Version::One);
        let header = Header {
            version,
            machine: version.machine(),
            exit,
            size,
            code,
            epochs,
            limit,
            registers,
        };
        Ok(Image::new(alloc, header, bytes)?)
    }
}

/// The fault, where the test holds.
fn refuse(test: bool, kind: ImageFaultKind) -> Result<(), ImageFaultKind>
    ensures { result ≡ spec.refused test kind }
{
    if test { Err(kind) } else { Ok(()) }
}

/// The version of a number.
fn version_of(number: u64) -> Result<Version, ImageFaultKind>
    ensures { result ≡ spec.version_of number }
{
    match number {
        1 => Ok(Version::One),
        2 => Ok(Version::Two),
        _ => Err(ImageFaultKind::Range),
    }
}

/// Whether memory of this version may have so many bytes.
fn is_size(version: Version, n: u64) -> bool
    ensures test { result ≡ spec.is_size version n }
    ensures allowed { IsTrue result → IsSize version n }
    ensures least { IsTrue result → 16 ≤ n }
    ensures most { IsTrue result → n ≤ 1048576 }
    ensures lines { IsTrue result → n % 16 ≡ 0 }
{
    let limits = version.limits();
    let line_length = u64::from(version.machine().line_length);
    u64::from(limits.least_size) <= n && n <= u64::from(limits.most_size) && n % line_length == 0
}

fn is_code_length(size: usize, n: usize) -> bool
    ensures { result ≡ spec.is_code_length size n }
{
    4 <= n && n <= size && n % 4 == 0
}

fn is_free_register(n: u64) -> bool
    ensures { result ≡ spec.is_free_register n }
{
    n < 32 && n != 0 && n != 1 && n != 10
}

/// So many bytes, all 0.
fn zeros(alloc: Global, size: usize) -> Result<Vec<u8>, ImageFaultKind>
    ensures { Gives (λ v. v.items) result (Ok (replicate size 0)) }
{
    vec![in alloc; 0; size].map_err(|_| ImageFaultKind::NoMemory)
}

/// Puts bytes into memory, from an address on.
fn overwrite(memory: &mut Vec<u8>, address: usize, bytes: &[u8])
    requires { address + length bytes.now ≤ length memory.old.items }
    ensures { memory.new.items ≡ spec.with_bytes memory.old.items address bytes.now }
{
    memory[address..address + bytes.len()].copy_from_slice(bytes);
}
