//! Samples as rows write them: `absent`, `true`, `false`, a number, or bytes in double quotes.
use crate::escapes::{decoded, quoted};
use crate::fault::Fault;
use crate::reading::number_of;
use std::alloc::Global;

/// A sample that a row gives.
pub enum Held {
    Absent,
    Truth(bool),
    Number(i64),
    Bytes(Vec<u8>),
}

impl Drop for Held {
    fn drop(self) {
        match self {
            Held::Absent => {}
            Held::Truth(_) => {}
            Held::Number(_) => {}
            Held::Bytes(_) => {}
        }
    }
}

/// The sample that a text without quotes says.
fn plain_held(text: &str) -> Result<Held, Fault> {
    match text {
        "absent" => Ok(Held::Absent),
        "true" => Ok(Held::Truth(true)),
        "false" => Ok(Held::Truth(false)),
        _ => Ok(Held::Number(number_of(text.as_bytes())?)),
    }
}

/// The sample that a text says.
pub fn held_in(alloc: Global, text: &str) -> Result<Held, Fault> {
    match quoted(text.as_bytes()) {
        Some(inner) => Ok(Held::Bytes(decoded(alloc, inner)?)),
        None => plain_held(text),
    }
}

/// The samples of a list, with semicolons between them.
pub fn held_list(alloc: Global, text: &str) -> Result<Vec<Held>, Fault> {
    let mut list = Vec::new(alloc);
    if text.is_empty() {
        return Ok(list);
    }
    for piece in text.split(';') {
        list.push(held_in(alloc, piece.trim())?)?;
    }
    Ok(list)
}
