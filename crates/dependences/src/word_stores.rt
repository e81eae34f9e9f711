//! The last store of each aligned word.
ghost use Rattle.std.specs.Prelude.{◌≡◌, ◌==◌, ℕ, ◌<◌, IfOk, length};
ghost use Rattle.dependences.specs.declared.word_stores.Word.TheVariants.{Untouched};
ghost use Rattle.dependences.specs.KeptWords as spec;

use crate::byte_stores::{NO_STORE, StoredBy, reach};
use rv32_exec::NoMemory;
use std::alloc::Global;
use std::marker::Model;

/// By what the bytes of a word were stored last.
#[derive(Clone, Copy)]
pub(crate) enum Word {
    /// By nothing so far.
    Untouched,
    /// All of them by one store.
    Whole(StoredBy),
    /// Each by a store of its own, if any.
    Bytes,
}

/// By what each word of memory was stored last, at first by nothing. Contracts see the list of these.
///
/// Words are made up to the highest that is stored, when it is, so memory is taken by what is touched. Each is kept as a store, which is
/// none where the word is untouched, and `EACH` where its bytes have stores of their own.
#[derive(Drop)]
pub(crate) struct WordStores {
    words: Vec<StoredBy>,
    count: usize,
}

impl StoredBy {
    /// Whether it stands for a store of its own of each byte of a word.
    #[inline(always)]
    pub(crate) fn is_each(self) -> bool
        ensures { result ≡ (self.writer == 4294967295) }
    {
        self.writer == EACH.writer
    }
}

/// It stands for a store of its own of each byte of a word.
const EACH: StoredBy = StoredBy {
    writer: u32::MAX,
    step: 0,
    pc: 0,
};

/// The word that is kept as this.
#[inline(always)]
fn word_of(by: StoredBy) -> Word
    ensures { result ≡ spec.word_of by }
{
    if by.writer == NO_STORE.writer {
        Word::Untouched
    } else if by.writer == EACH.writer {
        Word::Bytes
    } else {
        Word::Whole(by)
    }
}

/// As what a word is kept.
#[inline(always)]
fn kept(word: Word) -> StoredBy
    requires { spec.IsKept word }
    ensures { spec.word_of result ≡ word }
{
    match word {
        Word::Untouched => NO_STORE,
        Word::Whole(by) => by,
        Word::Bytes => EACH,
    }
}

impl Model for WordStores {
    ghost use Rattle.std.specs.Prelude.{List, vec_capacity};
    ghost use Rattle.dependences.specs.declared.word_stores.Word.{Word};
    ghost use Rattle.dependences.specs.KeptMarks.{HasRoom};
    ghost use Rattle.dependences.specs.KeptWords.{words_of};

    ghost Value = { List Word };

    ghost view = { λ w. words_of w.words.items w.count };

    ghost invariant = { λ w. HasRoom w.words.items w.count (vec_capacity w.words) };
}

impl WordStores {
    /// Of so many words, each stored by nothing.
    ///
    /// `NoMemory`: there was no room for them.
    pub(crate) fn none(alloc: Global, count: usize) -> Result<WordStores, NoMemory>
        ensures long { IfOk result (λ w. length w ≡ count) }
        ensures none { IfOk result (λ w. (k : ℕ) → spec.word_at w k ≡ Untouched) }
    {
        let words = Vec::with_capacity(alloc, count)?;
        Ok(WordStores { words, count })
    }

    /// As what a word is kept.
    #[inline(always)]
    pub(crate) fn kept_at(&self, word: u32) -> StoredBy
        ensures { spec.word_of result ≡ spec.word_at self.now word }
    {
        match self.words.get(word as usize) {
            Some(by) => *by,
            None => NO_STORE,
        }
    }

    /// By what a word was stored last.
    #[inline(always)]
    pub(crate) fn at(&self, word: u32) -> Word
        ensures { result ≡ spec.word_at self.now word }
    {
        word_of(self.kept_at(word))
    }

    /// Notes by what a word was stored last.
    #[inline(always)]
    pub(crate) fn put(&mut self, word: u32, by: Word)
        requires within { word < length self.old }
        requires kept { spec.IsKept by }
        ensures long { length self.new ≡ length self.old }
        ensures put { spec.IsPut self.old self.new word by }
    {
        let at = word as usize;
        reach(&mut self.words, at, self.count);
        self.words[at] = kept(by);
    }
}
