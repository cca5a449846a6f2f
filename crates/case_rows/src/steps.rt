//! Steps, as rows write them: words with blanks between them, the first of which says what is done.
use crate::escapes::{count_of, decoded, place_of, quoted};
use crate::fault::Fault;
use crate::reading::number_of;
use crate::rows::part;
use std::alloc::Global;

/// The most words of a step.
const MOST_WORDS: usize = 16;

/// A step.
pub struct Step<'a> {
    text: &'a str,
    words: Vec<Vec<u8>>,
}

impl Drop for Step<'_> {
    fn drop(self) {
        let Step { text: _, words: _ } = self;
    }
}

/// Puts the bytes of a word, which may stand in double quotes, behind the others.
fn put_word(alloc: Global, word: &[u8], words: &mut Vec<Vec<u8>>) -> Result<(), Fault> {
    let bytes = decoded(alloc, quoted(word).unwrap_or(word))?;
    words.push(bytes)?;
    Ok(())
}

/// Puts the bytes of each word behind the others.
fn put_words(alloc: Global, text: &str, words: &mut Vec<Vec<u8>>) -> Result<(), Fault> {
    for word in text.split(' ').take(MOST_WORDS) {
        put_word(alloc, word.as_bytes(), words)?;
    }
    Ok(())
}

impl<'a> Step<'a> {
    /// The step that a text says.
    pub fn read(alloc: Global, text: &'a str) -> Result<Step<'a>, Fault> {
        let text = text.trim();
        let mut words = Vec::new(alloc);
        match put_words(alloc, text, &mut words) {
            Ok(()) => Ok(Step { text, words }),
            Err(fault) => Err(fault),
        }
    }

    /// A word by its number as it is written; what isn't there is empty.
    pub fn word(&self, at: usize) -> &'a str {
        part(self.text, ' ', at)
    }

    /// The bytes of a word; what isn't there is empty.
    pub fn bytes(&self, at: usize) -> &[u8] {
        match self.words.get(at) {
            Some(word) => word,
            None => b"",
        }
    }

    /// A word that is a number.
    pub fn number(&self, at: usize) -> Result<i64, Fault> {
        number_of(self.bytes(at))
    }

    /// A word that is a number without a sign.
    pub fn count(&self, at: usize) -> Result<usize, Fault> {
        count_of(self.bytes(at))
    }

    /// The same in 32 bits.
    pub fn place(&self, at: usize) -> Result<u32, Fault> {
        place_of(self.bytes(at))
    }
}

/// Steps, with semicolons between them in their text.
pub struct Steps<'a> {
    steps: Vec<Step<'a>>,
}

impl Drop for Steps<'_> {
    fn drop(self) {
        let Steps { steps: _ } = self;
    }
}

/// Puts the step that a text says behind the others.
fn put_step<'a>(alloc: Global, text: &'a str, steps: &mut Vec<Step<'a>>) -> Result<(), Fault> {
    let step = Step::read(alloc, text)?;
    steps.push(step)?;
    Ok(())
}

/// Puts each step that a text says behind the others.
fn put_steps<'a>(alloc: Global, text: &'a str, steps: &mut Vec<Step<'a>>) -> Result<(), Fault> {
    for step in text.split(';') {
        put_step(alloc, step, steps)?;
    }
    Ok(())
}

impl<'a> Steps<'a> {
    /// The steps that a text says.
    pub fn read(alloc: Global, text: &'a str) -> Result<Steps<'a>, Fault> {
        let mut steps = Vec::new(alloc);
        match put_steps(alloc, text, &mut steps) {
            Ok(()) => Ok(Steps { steps }),
            Err(fault) => Err(fault),
        }
    }

    pub fn as_slice(&self) -> &[Step<'a>] {
        &self.steps
    }
}
