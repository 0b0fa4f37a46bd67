//! The answer of a call, as words.
use crate::word::{NONE, Word};
use std::alloc::{AllocError, Global};
use std::convert::AsSlice;
use std::fmt::Display;
use std::ops::Bound;

/// The answer of a call: words with one space between them.
#[derive(Drop)]
pub struct CaseAnswer {
    alloc: Global,
    text: String,
}

impl CaseAnswer {
    /// Makes an answer without a word.
    pub fn new(alloc: Global) -> CaseAnswer {
        CaseAnswer {
            alloc,
            text: String::new(alloc),
        }
    }

    /// Returns the allocator of the answer.
    pub fn alloc(&self) -> Global {
        self.alloc
    }

    /// Returns the answer as text.
    pub fn as_str(&self) -> &str {
        self.text.as_str()
    }

    /// Appends a value as one word. Fails only if an allocation fails.
    pub fn word(&mut self, word: impl Display + Drop) -> Result<(), AllocError> {
        if !self.text.is_empty() {
            self.text.push(' ')?;
        }
        write!(self.text, "{word}")
    }

    /// Appends bytes as one word. Fails only if an allocation fails.
    pub fn bytes(&mut self, bytes: &[u8]) -> Result<(), AllocError> {
        self.word(Word(bytes))
    }

    /// Appends the word of an absent value, `(none)`. Fails only if an allocation fails.
    pub fn none(&mut self) -> Result<(), AllocError> {
        self.word(NONE)
    }

    /// Appends a value as one word, or `(none)`. Fails only if an allocation fails.
    pub fn option<T: Display + Drop>(&mut self, word: Option<T>) -> Result<(), AllocError> {
        match word {
            Some(word) => self.word(word),
            None => self.none(),
        }
    }

    /// Appends a count, and that many byte strings. Fails only if an allocation fails.
    pub fn list<T: AsSlice<u8>>(&mut self, items: &[T]) -> Result<(), AllocError> {
        self.word(items.len())?;
        for item in items {
            self.bytes(item.as_slice())?;
        }
        Ok(())
    }

    /// Appends the bound of a range. Fails only if an allocation fails.
    pub fn bound(&mut self, bound: Bound<u64>) -> Result<(), AllocError> {
        match bound {
            Bound::Included(position) => self.word(format_args!("i{position}")),
            Bound::Excluded(position) => self.word(format_args!("e{position}")),
            Bound::Unbounded => self.word("u"),
        }
    }
}
