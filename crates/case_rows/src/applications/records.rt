//! The records of an application, as rows write them: `out TEXT PAD`, `err TEXT PAD`, `end CONTENT PAD`, `record KIND ID CONTENT PAD` and `raw BYTES`, with
//! semicolons between them. Without a PAD there is no padding.
use crate::{Fault, Step};
use fcgi_record::{RecordHead, RecordKind, put_head};

/// What a record is, and of which request.
#[derive(Clone, Copy)]
struct Of {
    kind: u8,
    id: u16,
}

/// The most bytes of a record's content, and of its padding.
const MOST_CONTENT: usize = 65535;

const MOST_PADDING: usize = 255;

/// Puts so many bytes of padding behind others.
fn push_padding(pad: usize, into: &mut Vec<u8>) -> Result<(), Fault> {
    for _byte in 0..pad {
        into.push(b'p')?;
    }
    Ok(())
}

/// Puts a record behind others.
fn push_record(of: Of, content: &[u8], pad: usize, into: &mut Vec<u8>) -> Result<(), Fault> {
    if content.len() > MOST_CONTENT || pad > MOST_PADDING {
        return Err(Fault::Malformed);
    }
    let record = RecordHead {
        kind: of.kind,
        id: of.id,
        len: content.len() as u16,
        pad: pad as u8,
    };
    let mut head = [0; 8];
    put_head(record, &mut head);
    into.extend_from_slice(&head)?;
    into.extend_from_slice(content)?;
    push_padding(pad, into)
}

/// Puts each byte in a record of its own behind others.
fn push_bytes(of: Of, content: &[u8], pad: usize, into: &mut Vec<u8>) -> Result<(), Fault> {
    for byte in content {
        push_record(of, &[*byte], pad, into)?;
    }
    Ok(())
}

/// The padding that a word says; none where it isn't there.
fn pad_of(step: &Step<'_>, at: usize) -> Result<usize, Fault> {
    if step.word(at).is_empty() {
        return Ok(0);
    }
    step.count(at)
}

/// Puts the text of a step behind others, in one record, or in records of one byte.
fn push_text(of: Of, step: &Step<'_>, single: bool, into: &mut Vec<u8>) -> Result<(), Fault> {
    let text = step.bytes(1);
    let pad = pad_of(step, 2)?;
    if single && !text.is_empty() {
        return push_bytes(of, text, pad, into);
    }
    push_record(of, text, pad, into)
}

/// Puts a record of any kind behind others.
fn push_any(step: &Step<'_>, into: &mut Vec<u8>) -> Result<(), Fault> {
    let kind = step.count(1)?;
    let id = step.count(2)?;
    if kind > 255 || id > 65535 {
        return Err(Fault::Malformed);
    }
    let of = Of {
        kind: kind as u8,
        id: id as u16,
    };
    push_record(of, step.bytes(3), pad_of(step, 4)?, into)
}

/// A record of the request.
fn own(kind: RecordKind) -> Of {
    Of {
        kind: kind.byte(),
        id: 1,
    }
}

/// Puts the record of a step behind others; text in records of one byte, where that is asked for.
fn push_step(step: &Step<'_>, single: bool, into: &mut Vec<u8>) -> Result<(), Fault> {
    match step.word(0) {
        "out" => push_text(own(RecordKind::Stdout), step, single, into),
        "err" => push_text(own(RecordKind::Stderr), step, single, into),
        "end" => push_text(own(RecordKind::EndRequest), step, false, into),
        "record" => push_any(step, into),
        "raw" => Ok(into.extend_from_slice(step.bytes(1))?),
        _ => Err(Fault::Malformed),
    }
}

/// Puts the records of steps behind others.
pub fn push_steps(steps: &[Step<'_>], single: bool, into: &mut Vec<u8>) -> Result<(), Fault> {
    for step in steps {
        push_step(step, single, into)?;
    }
    Ok(())
}
