//! The received head, put straight into the array.
ghost use Rattle.std.specs.Prelude.{◌≡◌, ◌≤◌, ◌<◌, ◌++◌, ◌∷◌, [], length, map, All, OnOk, OnErr, decimal};
ghost use Rattle.httparse.specs.Grammar.{print_version};
ghost use Rattle.httparse.specs.Spans.{IsHeaderWithin, header_bytes};
ghost use Rattle.htx_model.specs.Block as block;
ghost use Rattle.htx_model.specs.Blocks.{load};
ghost use Rattle.http_model.specs.Head.{header_block, head_blocks};
ghost use Rattle.http_model.specs.Sizes.{most_name};
ghost use Rattle.h1_head.specs.Rows.{is_kept, folded, kept_head, request_line, status_line};
ghost use Rattle.h1_head.specs.Spans.{received_fields};
ghost use Rattle.h1_head.specs.Survey.{has_option_in, removes_some};
ghost use Rattle.h1_head.specs.Spans.{span_parts, response_span_parts, AreSpansGood, AreResponseSpansGood, HasGoodName};

use crate::names::{NameClass, class_of, is_lasting};
use crate::survey::has_value;
use http_model::MAX_NAME;
use httparse::spans::{HeaderSpan, RequestSpans, ResponseSpans};
use htx_arena::{Arena, Full, Kind};
use px_bytes::{fold, write_decimal};

/// Whether some element of Connection is this word.
fn has_option(text: &[u8], fields: &[HeaderSpan], word: &[u8]) -> bool
    requires { All (IsHeaderWithin (length text.now)) fields.now }
    ensures { result ≡ has_option_in word.now (map (header_bytes text.now) fields.now) }
{
    for field in fields {
        if class_of(field.name.of(text)) == NameClass::Connection
            && has_value(field.value.of(text), word)
        {
            return true;
        }
    }
    false
}

/// Whether a field of the head stays, where some element of Connection is no lasting name or none is.
fn is_kept(text: &[u8], fields: &[HeaderSpan], removes: bool, field: &HeaderSpan) -> bool
    requires within { All (IsHeaderWithin (length text.now)) fields.now }
    requires inside { IsHeaderWithin (length text.now) field.now }
    requires removes { removes ≡ removes_some (map (header_bytes text.now) fields.now) }
    ensures { result ≡ is_kept (map (header_bytes text.now) fields.now) (header_bytes text.now field.now) }
{
    if !removes {
        return true;
    }
    let name = field.name.of(text);
    !has_option(text, fields, name) || is_lasting(class_of(name))
}

/// Adds a field behind the others, with its name in lower case, which is made in the buffer.
fn push_field(
    buffer: &mut [u8; MAX_NAME],
    name: &[u8],
    value: &[u8],
    to: &mut Arena,
) -> Result<(), Full>
    requires named { 1 ≤ length name.now }
    requires short { length name.now ≤ most_name }
    ensures ok { OnOk result (to.new.blocks ≡ to.old.blocks ++ header_block (folded (name.now, value.now)) ∷ []) }
    ensures full { OnErr result (to.old.size < load (to.old.blocks ++ header_block (folded (name.now, value.now)) ∷ [])) }
    ensures size { to.new.size ≡ to.old.size }
{
    let lower = &mut buffer[..name.len()];
    lower.copy_from_slice(name);
    fold(lower);
    let at = to.len();
    to.insert_field(at, Kind::Header, lower, value)
}

/// Adds the fields that stay.
fn push_fields(
    text: &[u8],
    fields: &[HeaderSpan],
    removes: bool,
    to: &mut Arena,
) -> Result<(), Full>
    requires within { All (IsHeaderWithin (length text.now)) fields.now }
    requires named { All (HasGoodName text.now) fields.now }
    requires removes { removes ≡ removes_some (map (header_bytes text.now) fields.now) }
    ensures ok { OnOk result (to.new.blocks ≡ to.old.blocks ++ received_fields (map (header_bytes text.now) fields.now)) }
    ensures full { OnErr result (to.old.size < load (to.old.blocks ++ received_fields (map (header_bytes text.now) fields.now))) }
    ensures size { to.new.size ≡ to.old.size }
{
    let mut buffer = [0; MAX_NAME];
    for field in fields {
        if is_kept(text, fields, removes, field) {
            push_field(&mut buffer, field.name.of(text), field.value.of(text), to)?;
        }
    }
    Ok(())
}

/// The text of a version.
fn version_text(minor: u8) -> &'static [u8]
    requires { minor ≤ 1 }
    ensures { result.now ≡ print_version minor }
{
    if minor == 0 { b"HTTP/1.0" } else { b"HTTP/1.1" }
}

/// Puts the received head into an empty array.
pub fn push_head(
    text: &[u8],
    head: &RequestSpans,
    fields: &[HeaderSpan],
    removes: bool,
    to: &mut Arena,
) -> Result<(), Full>
    requires spans { AreSpansGood text.now head.now fields.now }
    requires named { All (HasGoodName text.now) fields.now }
    requires removes { removes ≡ removes_some (map (header_bytes text.now) fields.now) }
    requires empty { to.old.blocks ≡ [] }
    ensures ok { OnOk result (to.new.blocks ≡ head_blocks (kept_head (request_line (span_parts text.now head.now fields.now)) (span_parts text.now head.now fields.now).fields)) }
    ensures full { OnErr result (to.old.size < load (head_blocks (kept_head (request_line (span_parts text.now head.now fields.now)) (span_parts text.now head.now fields.now).fields))) }
    ensures size { to.new.size ≡ to.old.size }
{
    to.insert_line(
        0,
        Kind::RequestLine,
        head.method.of(text),
        head.path.of(text),
        version_text(head.version),
    )?;
    push_fields(text, fields, removes, to)?;
    let at = to.len();
    to.insert_end(at, Kind::EndHeaders)
}

/// Puts a status line into an empty array.
fn push_status(version: u8, code: u16, reason: &[u8], to: &mut Arena) -> Result<(), Full>
    requires empty { to.old.blocks ≡ [] }
    requires version { version ≤ 1 }
    ensures ok { OnOk result (to.new.blocks ≡ block.ResponseLine (print_version version) (decimal code) reason.now ∷ []) }
    ensures full { OnErr result (to.old.size < load (block.ResponseLine (print_version version) (decimal code) reason.now ∷ [])) }
    ensures size { to.new.size ≡ to.old.size }
{
    let mut digits = [0; 20];
    let len = write_decimal(code as u64, &mut digits);
    to.insert_line(
        0,
        Kind::ResponseLine,
        version_text(version),
        &digits[..len],
        reason,
    )
}

/// Puts the received head of a response into an empty array.
pub fn push_response_head(
    text: &[u8],
    head: &ResponseSpans,
    fields: &[HeaderSpan],
    removes: bool,
    to: &mut Arena,
) -> Result<(), Full>
    requires spans { AreResponseSpansGood text.now head.now fields.now }
    requires named { All (HasGoodName text.now) fields.now }
    requires removes { removes ≡ removes_some (map (header_bytes text.now) fields.now) }
    requires empty { to.old.blocks ≡ [] }
    ensures ok { OnOk result (to.new.blocks ≡ head_blocks (kept_head (status_line (response_span_parts text.now head.now fields.now)) (response_span_parts text.now head.now fields.now).fields)) }
    ensures full { OnErr result (to.old.size < load (head_blocks (kept_head (status_line (response_span_parts text.now head.now fields.now)) (response_span_parts text.now head.now fields.now).fields))) }
    ensures size { to.new.size ≡ to.old.size }
{
    push_status(head.version, head.code, head.reason.of(text), to)?;
    push_fields(text, fields, removes, to)?;
    let at = to.len();
    to.insert_end(at, Kind::EndHeaders)
}
