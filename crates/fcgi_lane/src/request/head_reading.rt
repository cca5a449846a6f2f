//! The head of a request, read as the proxy spells it (RFC 9112 sections 2.1, 3 and 5).
ghost use Rattle.std.specs.Prelude.{◌≡◌, ◌≤◌, ◌==◌, not, length, IfOk, option_map};
ghost use Rattle.std.specs.List.{prefix_len};
ghost use Rattle.fcgi_model.specs.Head as head;
ghost use Rattle.fcgi_lane.specs.Request.Texts.{shown_field, shown_fields, shown_head, shown_pair};

use crate::request::field_texts::{FieldText, first_value};
use http_model::{Framing, OutOfMemory};
use px_bytes::{eq_fold, read_decimal};
use std::alloc::Global;

/// The head of a request, lent from its text.
#[derive(Drop)]
pub(crate) struct HeadText<'t> {
    pub method: &'t [u8],
    pub target: &'t [u8],
    pub fields: Vec<FieldText<'t>>,
}

/// How many bytes stand in front of the first byte of this kind.
fn len_before(stop: u8, text: &[u8]) -> usize
    ensures count { result ≡ prefix_len (λ b. not (b == stop)) text.now }
    ensures within { result ≤ length text.now }
{
    for (i, byte) in text.iter().enumerate() {
        if *byte == stop {
            return i;
        }
    }
    text.len()
}

/// The line that a text begins with, without its end, and what follows that.
fn line_at(text: &[u8]) -> Option<(&[u8], &[u8])>
    ensures { option_map shown_pair result ≡ head.line_at text.now }
{
    let (line, rest) = text.split_at(len_before(b'\r', text));
    match rest {
        [b'\r', b'\n', rest @ ..] => Some((line, rest)),
        _ => None,
    }
}

/// The method, and the target that stands behind a space and in front of the version.
fn target_at<'t>(method: &'t [u8], bytes: &'t [u8]) -> Option<(&'t [u8], &'t [u8])>
    ensures { option_map shown_pair result ≡ head.target_at method.now bytes.now }
{
    let [_, rest @ ..] = bytes else {
        return None;
    };
    let (target, version) = rest.split_at(len_before(b' ', rest));
    if version == b" HTTP/1.1".as_slice() {
        Some((method, target))
    } else {
        None
    }
}

/// The method and the target of a request line.
fn request_line(line: &[u8]) -> Option<(&[u8], &[u8])>
    ensures { option_map shown_pair result ≡ head.request_line line.now }
{
    let (method, rest) = line.split_at(len_before(b' ', line));
    target_at(method, rest)
}

/// The field that a line is.
fn field_of(line: &[u8]) -> Option<FieldText<'_>>
    ensures { option_map shown_field result ≡ head.field_of line.now }
{
    let (name, rest) = line.split_at(len_before(b':', line));
    match rest {
        [b':', b' ', value @ ..] => Some(FieldText { name, value }),
        _ => None,
    }
}

/// The fields of a text up to an empty line.
fn fields_of(alloc: Global, text: &[u8]) -> Result<Option<Vec<FieldText<'_>>>, OutOfMemory>
    ensures { IfOk result (λ fields. option_map (λ fs. shown_fields fs.items) fields ≡ head.fields_within (length text.now) text.now) }
{
    let mut fields = Vec::new(alloc);
    let mut left = text;
    for i in 0..text.len() {
        let Some((line, rest)) = line_at(left) else {
            return Ok(None);
        };
        if line.is_empty() {
            return Ok(Some(fields));
        }
        let Some(field) = field_of(line) else {
            return Ok(None);
        };
        fields.push(field)?;
        left = rest;
    }
    Ok(None)
}

/// The head that a text is.
pub(crate) fn head_of(alloc: Global, text: &[u8]) -> Result<Option<HeadText<'_>>, OutOfMemory>
    ensures { IfOk result (λ found. option_map shown_head found ≡ head.head_of text.now) }
{
    let Some((line, rest)) = line_at(text) else {
        return Ok(None);
    };
    let Some((method, target)) = request_line(line) else {
        return Ok(None);
    };
    let Some(fields) = fields_of(alloc, rest)? else {
        return Ok(None);
    };
    Ok(Some(HeadText {
        method,
        target,
        fields,
    }))
}

/// The framing of a body, by the coding and the size that fields tell.
fn framing_by(coding: Option<&[u8]>, size: Option<&[u8]>) -> Option<Framing>
    ensures { result ≡ head.framing_by (option_map (λ c. c.now) coding.entry) (option_map (λ s. s.now) size.entry) }
{
    match (coding, size) {
        (None, None) => Some(Framing::Absent),
        (None, Some(size)) => Some(Framing::Length(read_decimal(size, 18)?)),
        (Some(coding), None) if eq_fold(coding, b"chunked") => Some(Framing::Chunked),
        (Some(_), _) => None,
    }
}

/// The framing of the body of a request with these fields.
pub(crate) fn framing_of(fields: &[FieldText<'_>]) -> Option<Framing>
    ensures { result ≡ head.framing_of (shown_fields fields.now) }
{
    framing_by(
        first_value(b"transfer-encoding", fields),
        first_value(b"content-length", fields),
    )
}
