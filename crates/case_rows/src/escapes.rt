//! Bytes as rows write them. `\n`, `\r`, `\t`, `\s` (a blank), `\0` and `\\` are single bytes, `\x3b` is the byte of two
//! hexadecimal digits, and `\[4080:v]` is the text behind the colon so many times.
use crate::fault::Fault;
use std::alloc::Global;

/// The most bytes that a field stands for.
const MOST: usize = 4194304;

/// The value of a hexadecimal digit.
fn digit(byte: u8) -> Result<u8, Fault> {
    match byte {
        b'0'..=b'9' => Ok(byte - b'0'),
        b'a'..=b'f' => Ok(byte - b'a' + 10),
        b'A'..=b'F' => Ok(byte - b'A' + 10),
        _ => Err(Fault::Malformed),
    }
}

/// The byte of two hexadecimal digits.
fn byte_of(high: u8, low: u8) -> Result<u8, Fault> {
    let high = digit(high)?;
    let low = digit(low)?;
    Ok((high & 15) << 4 | (low & 15))
}

/// The byte that a letter behind a backslash stands for.
fn marked(mark: u8) -> Result<u8, Fault> {
    match mark {
        b'n' => Ok(b'\n'),
        b'r' => Ok(b'\r'),
        b't' => Ok(b'\t'),
        b's' => Ok(b' '),
        b'0' => Ok(0),
        b'\\' => Ok(b'\\'),
        _ => Err(Fault::Malformed),
    }
}

/// The byte that a text begins with, and what is behind it.
fn first_byte(text: &[u8]) -> Result<(u8, &[u8]), Fault> {
    match text {
        [b'\\', b'x', high, low, rest @ ..] => Ok((byte_of(*high, *low)?, rest)),
        [b'\\', mark, rest @ ..] => Ok((marked(*mark)?, rest)),
        [byte, rest @ ..] => Ok((*byte, rest)),
        [] => Err(Fault::Malformed),
    }
}

/// Puts the byte that a text begins with behind the others; what is behind it is left.
fn put_byte<'a>(text: &'a [u8], into: &mut Vec<u8>) -> Result<&'a [u8], Fault> {
    let (byte, rest) = first_byte(text)?;
    into.push(byte)?;
    Ok(rest)
}

/// Puts the bytes of a text without runs behind the others.
fn put_plain(text: &[u8], into: &mut Vec<u8>) -> Result<(), Fault> {
    let mut rest = text;
    for _ in 0..text.len() {
        if rest.is_empty() {
            break;
        }
        rest = put_byte(rest, into)?;
    }
    Ok(())
}

/// The text up to the first such byte, and what is behind that byte.
pub fn split_at_first(text: &[u8], mark: u8) -> Option<(&[u8], &[u8])> {
    for (at, byte) in text.iter().enumerate() {
        if *byte == mark {
            return Some((&text[..at], &text[at + 1..]));
        }
    }
    None
}

/// What stands between double quotes, where a text begins and ends with one.
pub fn quoted(text: &[u8]) -> Option<&[u8]> {
    match text {
        [b'"', inner @ .., b'"'] => Some(inner),
        _ => None,
    }
}

/// The number that these digits say.
pub fn count_of(digits: &[u8]) -> Result<usize, Fault> {
    let Ok(text) = std::str::from_utf8(digits) else {
        return Err(Fault::Malformed);
    };
    match text.parse::<usize>() {
        Ok(count) => Ok(count),
        Err(_) => Err(Fault::Malformed),
    }
}

/// The same in 32 bits.
pub fn place_of(digits: &[u8]) -> Result<u32, Fault> {
    match u32::try_from(count_of(digits)?) {
        Ok(place) => Ok(place),
        Err(_) => Err(Fault::Malformed),
    }
}

/// Puts a piece so many times behind the others.
fn put_times(count: usize, piece: &[u8], into: &mut Vec<u8>) -> Result<(), Fault> {
    for _ in 0..count {
        if into.len() > MOST {
            return Err(Fault::Malformed);
        }
        put_plain(piece, into)?;
    }
    Ok(())
}

/// Puts a run behind the others; what is behind it is left.
fn put_run<'a>(run: &'a [u8], into: &mut Vec<u8>) -> Result<&'a [u8], Fault> {
    let Some((run, rest)) = split_at_first(run, b']') else {
        return Err(Fault::Malformed);
    };
    let Some((count, piece)) = split_at_first(run, b':') else {
        return Err(Fault::Malformed);
    };
    put_times(count_of(count)?, piece, into)?;
    Ok(rest)
}

/// Puts what a text begins with behind the others; what is behind it is left.
fn put_first<'a>(text: &'a [u8], into: &mut Vec<u8>) -> Result<&'a [u8], Fault> {
    if let [b'\\', b'[', run @ ..] = text {
        return put_run(run, into);
    }
    put_byte(text, into)
}

/// Puts the bytes that a text stands for behind the others.
fn put_decoded(text: &[u8], into: &mut Vec<u8>) -> Result<(), Fault> {
    let mut rest = text;
    for _ in 0..text.len() {
        if rest.is_empty() {
            break;
        }
        rest = put_first(rest, into)?;
    }
    Ok(())
}

/// The bytes that a text stands for.
pub fn decoded(alloc: Global, text: &[u8]) -> Result<Vec<u8>, Fault> {
    let mut bytes = Vec::new(alloc);
    match put_decoded(text, &mut bytes) {
        Ok(()) => Ok(bytes),
        Err(fault) => Err(fault),
    }
}
