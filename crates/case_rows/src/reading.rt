//! Calls with arguments, as rows write them: `name(first,'second',third)`, with commas between one and the next.
use crate::escapes::{count_of, decoded};
use crate::fault::Fault;
use std::alloc::Global;

/// The text in front of the first of these marks that stands outside single quotes, and what is left from the mark on.
fn cut<'a>(text: &'a [u8], marks: &[u8]) -> (&'a [u8], &'a [u8]) {
    let mut quoted = false;
    for (at, byte) in text.iter().enumerate() {
        if *byte == b'\'' {
            quoted = !quoted;
        }
        if !quoted && marks.contains(byte) {
            return text.split_at(at);
        }
    }
    text.split_at(text.len())
}

/// What is behind a mark that a text may begin with.
fn behind(text: &[u8], mark: u8) -> &[u8] {
    match text {
        [first, rest @ ..] if *first == mark => rest,
        _ => text,
    }
}

/// A text without the single quotes around it.
fn unquoted(text: &[u8]) -> &[u8] {
    match text {
        [b'\'', inner @ .., b'\''] => inner,
        _ => text,
    }
}

/// A number with a sign.
pub fn number_of(text: &[u8]) -> Result<i64, Fault> {
    let Ok(text) = std::str::from_utf8(text) else {
        return Err(Fault::Malformed);
    };
    match text.trim().parse::<i64>() {
        Ok(number) => Ok(number),
        Err(_) => Err(Fault::Malformed),
    }
}

/// A name with arguments.
#[derive(Clone, Copy)]
pub struct Call<'a> {
    name: &'a [u8],
    args: &'a [u8],
}

impl<'a> Call<'a> {
    /// The call that a text begins with, and what is behind it and a comma.
    pub fn first(text: &'a [u8]) -> (Call<'a>, &'a [u8]) {
        let (name, rest) = cut(text, b",(");
        let inner = behind(rest, b'(');
        if inner.len() == rest.len() {
            return (Call { name, args: b"" }, behind(rest, b','));
        }
        let (args, rest) = cut(inner, b")");
        (Call { name, args }, behind(behind(rest, b')'), b','))
    }

    /// The name; empty where it is no text.
    pub fn name(&self) -> &'a str {
        std::str::from_utf8(self.name).unwrap_or("")
    }

    /// An argument as it is written; what isn't there is empty.
    fn arg(&self, at: usize) -> &'a [u8] {
        let mut rest = self.args;
        for _ in 0..at {
            rest = behind(cut(rest, b",").1, b',');
        }
        cut(rest, b",").0
    }

    /// The bytes of an argument.
    pub fn text(&self, alloc: Global, at: usize) -> Result<Vec<u8>, Fault> {
        decoded(alloc, unquoted(self.arg(at)))
    }

    /// An argument that is a number.
    pub fn number(&self, at: usize) -> Result<i64, Fault> {
        number_of(self.arg(at))
    }

    /// An argument that is a number without a sign.
    pub fn count(&self, at: usize) -> Result<usize, Fault> {
        count_of(self.arg(at))
    }

    /// An argument that is a number, where it is there.
    pub fn some_number(&self, at: usize) -> Result<Option<i64>, Fault> {
        if self.arg(at).is_empty() {
            return Ok(None);
        }
        Ok(Some(self.number(at)?))
    }
}

/// The most words of a list.
const MOST_WORDS: u32 = 64;

/// The words of a list, each with a semicolon behind it.
pub fn words_of(alloc: Global, text: &str) -> Result<Vec<String>, Fault> {
    let mut words = Vec::new(alloc);
    let mut rest = text;
    for _ in 0..MOST_WORDS {
        let Some((word, behind)) = rest.split_once(';') else {
            break;
        };
        let Ok(word) = String::from_utf8(decoded(alloc, word.trim().as_bytes())?) else {
            return Err(Fault::Malformed);
        };
        words.push(word)?;
        rest = behind;
    }
    Ok(words)
}
