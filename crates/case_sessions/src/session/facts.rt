//! Facts of a report, where the cuts of a body into chunks are free.
use case_rows::{Answers, Fault, count_of, split_at_first};
use std::alloc::Global;

/// Puts bytes as a quoted text behind the others.
fn quote(bytes: &[u8], into: &mut Answers) {
    into.more(b"\"");
    for byte in bytes {
        match byte {
            b'\r' => into.more(b"\\r"),
            b'\n' => into.more(b"\\n"),
            b'"' => into.more(b"\\\""),
            _ => into.more(&[*byte]),
        }
    }
    into.more(b"\"");
}

/// Where the head of a message ends.
fn head_len(message: &[u8]) -> Option<usize> {
    for at in 4..message.len() + 1 {
        if &message[at - 4..at] == b"\r\n\r\n".as_slice() {
            return Some(at);
        }
    }
    None
}

/// Whether a head says that chunks follow.
fn is_chunked(head: &[u8]) -> bool {
    let mark = b"\r\ntransfer-encoding: chunked\r\n".as_slice();
    for part in head.windows(mark.len()) {
        if part == mark {
            return true;
        }
    }
    false
}

/// The line in front, without CR LF, and what is behind it.
fn chunk_line(text: &[u8]) -> Option<(&[u8], &[u8])> {
    let (line, rest) = split_at_first(text, b'\n')?;
    Some((line.strip_suffix(b"\r".as_slice())?, rest))
}

/// The length that a chunk's line says.
fn chunk_len(line: &[u8]) -> Option<u32> {
    let Ok(text) = std::str::from_utf8(line) else {
        return None;
    };
    match u32::from_str_radix(text, 16) {
        Ok(len) => Some(len),
        Err(_) => None,
    }
}

/// Puts the content of a chunk behind the others; what is behind its CR LF is left.
fn put_chunk<'a>(text: &'a [u8], len: u32, into: &mut Vec<u8>) -> Result<&'a [u8], Fault> {
    let len = len as usize;
    if text.len() < len + 2 {
        return Err(Fault::Malformed);
    }
    into.extend_from_slice(&text[..len])?;
    Ok(&text[len + 2..])
}

/// Puts the content of the chunks in front behind the others; what is behind the last chunk's line, or none where the
/// text ends behind a chunk.
fn join_chunks<'a>(text: &'a [u8], into: &mut Vec<u8>) -> Result<Option<&'a [u8]>, Fault> {
    let mut rest = text;
    for _ in 0..text.len() {
        let Some((line, behind)) = chunk_line(rest) else {
            break;
        };
        let len = chunk_len(line).ok_or(Fault::Malformed)?;
        if len == 0 {
            return Ok(Some(behind));
        }
        rest = put_chunk(behind, len, into)?;
    }
    if rest.is_empty() {
        Ok(None)
    } else {
        Err(Fault::Malformed)
    }
}

/// Tells the trailer section that stands behind the last chunk, or that the text ends behind a chunk.
fn tell_section(section: Option<&[u8]>, into: &mut Answers) {
    match section {
        Some(section) => {
            into.more(b", then the last chunk, the trailer lines ");
            quote(
                section.strip_suffix(b"\r\n".as_slice()).unwrap_or(section),
                into,
            );
            into.more(b" and the empty line");
        }
        None => into.more(b", then nothing"),
    }
}

/// Tells a chunked message, of which the head and the body are given.
fn tell_chunks(alloc: Global, head: &[u8], body: &[u8], into: &mut Answers) -> Result<(), Fault> {
    let mut content = Vec::new(alloc);
    let section = join_chunks(body, &mut content)?;
    into.more(b"the ");
    into.more_count(head.len() as u64);
    into.more(b" bytes ");
    quote(head, into);
    into.more(b", then nonempty chunks that join to ");
    quote(&content, into);
    tell_section(section, into);
    Ok(())
}

/// Tells what was sent to a side.
fn tell_bytes(alloc: Global, bytes: &[u8], into: &mut Answers) -> Result<(), Fault> {
    let len = head_len(bytes).unwrap_or(bytes.len()).min(bytes.len());
    let (head, body) = bytes.split_at(len);
    if is_chunked(head) {
        return tell_chunks(alloc, head, body, into);
    }
    into.more(b"exactly ");
    into.more_count(bytes.len() as u64);
    into.more(b" bytes ");
    quote(bytes, into);
    Ok(())
}

/// The side, how many bytes it was sent, and how it was closed, as the line of a side says it.
fn side_of(line: &str) -> Result<(&str, usize, &str), Fault> {
    let (front, close) = line.rsplit_once(' ').ok_or(Fault::Malformed)?;
    let (side, count) = front.rsplit_once(' ').ok_or(Fault::Malformed)?;
    Ok((side, count_of(count.as_bytes())?, close))
}

/// Tells a side: its line, and the bytes that stand behind it. What is behind them is left.
fn tell_side<'a>(
    alloc: Global,
    line: &str,
    rest: &'a [u8],
    into: &mut Answers,
) -> Result<&'a [u8], Fault> {
    let (side, count, close) = side_of(line)?;
    if count >= rest.len() {
        return Err(Fault::Malformed);
    }
    into.more(side.as_bytes());
    into.more(b" ");
    into.more(close.as_bytes());
    into.more(b": ");
    tell_bytes(alloc, &rest[..count], into)?;
    into.more(b"\n");
    Ok(&rest[count + 1..])
}

/// Tells a line of a report with what belongs to it. What is behind that is left.
fn tell_line<'a>(
    alloc: Global,
    line: &[u8],
    rest: &'a [u8],
    into: &mut Answers,
) -> Result<&'a [u8], Fault> {
    let Ok(text) = std::str::from_utf8(line) else {
        return Err(Fault::Malformed);
    };
    let is_side = text.starts_with("client ") || text.starts_with("server ");
    if is_side && !text.ends_with(" refused") {
        return tell_side(alloc, text, rest, into);
    }
    if !text.starts_with("PXREP ") {
        into.more(line);
        into.more(b"\n");
    }
    Ok(rest)
}

/// The facts of a report, in the form of a file of facts.
pub fn facts_of(alloc: Global, report: &[u8]) -> Result<Vec<u8>, Fault> {
    let mut facts = Answers::new(alloc);
    let mut rest = report;
    for _ in 0..report.len() {
        let Some((line, behind)) = split_at_first(rest, b'\n') else {
            break;
        };
        rest = tell_line(alloc, line, behind, &mut facts)?;
    }
    facts.into_text()
}
