//! The word that names a store, and the machine that it asks for.
ghost use Rattle.std.specs.Prelude.{◌≡◌, ◌↔◌, [], ◌∷◌, IfSome, IsSome};
ghost use Rattle.rv32_image.specs.ImageText.{number_in, pieces};
ghost use Rattle.rv32_image.specs.Machine.{IsMachineFor};
ghost use Rattle.trace_commands.specs.Stores as spec;

use crate::address::address_in;
use rv32_image::{Apart, Image, Machine, cut, number_in};

/// What is asked of a machine: None of what the version of an image says.
#[derive(Clone, Copy)]
pub struct MachineAsked {
    /// Bytes of a line.
    pub line_length: Option<u32>,
    /// Sets of a cache.
    pub sets: Option<u32>,
    /// Ways of a set.
    pub ways: Option<u32>,
    /// Lines of an ownership required buffer.
    pub buffer_lines: Option<u32>,
    /// Bytes that have lines of their own.
    pub apart: Option<Apart>,
}

impl MachineAsked {
    /// The machine of the image's version.
    pub const NOTHING: MachineAsked = MachineAsked {
        line_length: None,
        sets: None,
        ways: None,
        buffer_lines: None,
        apart: None,
    };

    /// The same machine, but for what is asked for.
    fn machine_with(self, machine: Machine) -> Machine
        ensures { result ≡ spec.machine_with self machine }
    {
        Machine {
            line_length: self.line_length.unwrap_or(machine.line_length),
            sets: self.sets.unwrap_or(machine.sets),
            ways: self.ways.unwrap_or(machine.ways),
            buffer_lines: self.buffer_lines.unwrap_or(machine.buffer_lines),
            apart: self.apart.or(machine.apart),
        }
    }

    /// The loop on the machine that is asked for. None: there is no such machine, or memory isn't a whole number of its lines.
    pub fn on(self, image: Image) -> Option<Image>
        ensures is { IfSome result (λ asked. asked ≡ spec.on_machine self image) }
        ensures allowed { IsSome result ↔ IsMachineFor image.size (spec.machine_with self image.machine) }
    {
        let machine = self.machine_with(image.machine());
        image.with_machine(machine)
    }
}

/// The store that a schedule runs over.
#[derive(Clone, Copy)]
pub enum Store {
    /// Caches on a coherent bus, of this machine.
    Caches(MachineAsked),
    /// The plain store.
    Plain,
}

impl Store {
    /// The machine that it asks for.
    pub fn asked(self) -> MachineAsked
        ensures { result ≡ spec.asked_by self }
    {
        match self {
            Store::Caches(asked) => asked,
            Store::Plain => MachineAsked::NOTHING,
        }
    }
}

/// The store that a word names: `plain`, `caches`, or `caches:KEY=N,..` with the keys `line`, `sets`, `ways` and `buffer`, and with
/// `apart=ADDR:LENGTH:PIECE`, each at most once. None: it names none.
#[tactic(auto, using(crate::proofs::Storing::named_with_keys), unfolding(crate::specs::Stores::store_named))]
pub fn store_named(word: &str) -> Option<Store>
    ensures { result ≡ spec.store_named word.now }
{
    let (name, keys) = cut(word.as_bytes(), b':');
    match keys {
        None => store_without_keys(name),
        Some(keys) => store_with_keys(name, keys),
    }
}

fn store_without_keys(name: &[u8]) -> Option<Store>
    ensures { result ≡ spec.store_without_keys name.now }
{
    if name == b"caches".as_slice() {
        Some(Store::Caches(MachineAsked::NOTHING))
    } else if name == b"plain".as_slice() {
        Some(Store::Plain)
    } else {
        None
    }
}

fn store_with_keys(name: &[u8], keys: &[u8]) -> Option<Store>
    ensures { result ≡ spec.store_with_keys name.now keys.now }
{
    if name != b"caches".as_slice() {
        return None;
    }
    let asked = keys_read(MachineAsked::NOTHING, keys)?;
    Some(Store::Caches(asked))
}

/// What these keys ask for beside what was asked.
#[tactic(auto, unfolding(crate::specs::Stores::keys_read))]
fn keys_read(asked: MachineAsked, keys: &[u8]) -> Option<MachineAsked>
    ensures { result ≡ spec.keys_read asked (pieces 44 keys.now) }
{
    let (key, rest) = cut(keys, b',');
    let next = key_read(asked, key)?;
    match rest {
        Some(rest) => keys_read(next, rest),
        None => Some(next),
    }
}

/// What a key with its value asks for beside what was asked.
fn key_read(asked: MachineAsked, text: &[u8]) -> Option<MachineAsked>
    ensures { result ≡ spec.key_read asked (pieces 61 text.now) }
{
    let (key, rest) = cut(text, b'=');
    let (word, more) = cut(rest?, b'=');
    match more {
        None => with_value(asked, key, word),
        Some(more) => {
            let _third = cut(more, b'=');
            None
        }
    }
}

/// What is asked for with the value of a key, where the key has none yet.
fn with_value(asked: MachineAsked, key: &[u8], word: &[u8]) -> Option<MachineAsked>
    ensures { result ≡ spec.with_value asked key.now word.now }
{
    if key == b"apart".as_slice() {
        with_apart(asked, apart_in(word)?)
    } else {
        with_key(asked, key, small_number(word)?)
    }
}

/// What is asked for with these bytes apart, where none were.
fn with_apart(asked: MachineAsked, apart: Apart) -> Option<MachineAsked>
    ensures { result ≡ spec.with_apart asked apart }
{
    if asked.apart.is_some() {
        return None;
    }
    let apart = Some(apart);
    Some(MachineAsked { apart, ..asked })
}

/// The bytes apart that `ADDR:LENGTH:PIECE` writes.
pub(crate) fn apart_in(text: &[u8]) -> Option<Apart>
    ensures { result ≡ spec.apart_of (pieces 58 text.now) }
{
    let (address, rest) = cut(text, b':');
    let (bytes, rest) = cut(rest?, b':');
    let (each, more) = cut(rest?, b':');
    match more {
        None => apart_of(address, bytes, each),
        Some(more) => {
            let _fourth = cut(more, b':');
            None
        }
    }
}

/// The bytes apart of these three words.
fn apart_of(address: &[u8], bytes: &[u8], each: &[u8]) -> Option<Apart>
    ensures { result ≡ spec.apart_of (address.now ∷ bytes.now ∷ each.now ∷ []) }
{
    let first = address_in(address)?;
    let length = small_number(bytes)?;
    let piece = small_number(each)?;
    Some(Apart {
        first,
        length,
        piece,
    })
}

/// The number of 32 bits that a word writes.
fn small_number(word: &[u8]) -> Option<u32>
    ensures { result ≡ spec.small_number (number_in word.now) }
{
    match number_in(word) {
        Ok(number) if number < 1 << 32 => Some(number as u32),
        _ => None,
    }
}

/// What is asked for with the number of a key, where the key has none yet.
fn with_key(asked: MachineAsked, key: &[u8], number: u32) -> Option<MachineAsked>
    ensures { result ≡ spec.with_key asked key.now number }
{
    if key == b"line".as_slice() {
        let line_length = Some(number);
        unless_asked(
            asked.line_length,
            MachineAsked {
                line_length,
                ..asked
            },
        )
    } else if key == b"sets".as_slice() {
        let sets = Some(number);
        unless_asked(asked.sets, MachineAsked { sets, ..asked })
    } else if key == b"ways".as_slice() {
        let ways = Some(number);
        unless_asked(asked.ways, MachineAsked { ways, ..asked })
    } else if key == b"buffer".as_slice() {
        let buffer_lines = Some(number);
        unless_asked(
            asked.buffer_lines,
            MachineAsked {
                buffer_lines,
                ..asked
            },
        )
    } else {
        None
    }
}

fn unless_asked(before: Option<u32>, asked: MachineAsked) -> Option<MachineAsked>
    ensures { result ≡ spec.unless_asked before asked }
{
    match before {
        None => Some(asked),
        Some(_) => None,
    }
}
