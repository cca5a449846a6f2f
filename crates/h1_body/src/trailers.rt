//! Trailers, put into the array.
ghost use Rattle.std.specs.Prelude.{◌≡◌, ◌≤◌, ◌++◌, ◌∷◌, ◌↔◌, [], List, ℕ, length, map, All, OnOk, OnErr, IsOk};
ghost use Rattle.httparse.specs.Grammar as grammar;
ghost use Rattle.httparse.specs.Spans.{IsHeaderWithin, header_bytes};
ghost use Rattle.htx_model.specs.Blocks.{Fits};
ghost use Rattle.http_model.specs.Fields.{is_named_among};
ghost use Rattle.http_model.specs.Finish.{own_names};
ghost use Rattle.http_model.specs.Head.{Field, trailer_block, ended_trailers};
ghost use Rattle.http_model.specs.Sizes.{most_name};
ghost use Rattle.h1_body.specs.Section.{BeginsFields, HasTrailers, folded, is_kept};
ghost use Rattle.h1_body.specs.Trailers.{trailer_blocks, kept_blocks, HasGoodName};

use crate::room::has_room;
use crate::section::MAX_FIELDS;
use http_model::{MAX_NAME, is_framing_name};
use httparse::Status;
use httparse::spans::{EMPTY_HEADER_SPAN, HeaderSpan, parse_headers};
use htx_arena::{Arena, Full, Kind};
use px_bytes::{eq_fold, fold};

/// Whether a trailer of this name is dropped: it frames a body or speaks of a connection.
fn is_dropped(name: &[u8]) -> bool
    ensures { (value : List ℕ) → result ≡ is_named_among own_names (name.now, value) }
{
    eq_fold(name, b"host") || is_framing_name(name)
}

/// Whether a field of the section stays.
pub(crate) fn is_kept(section: &[u8], field: &HeaderSpan) -> bool
    requires { IsHeaderWithin (length section.now) field.now }
    ensures { result ≡ is_kept (header_bytes section.now field.now) }
{
    !is_dropped(field.name.of(section))
}

/// Adds a trailer behind the other blocks, with its name in lower case.
fn push_trailer(name: &[u8], value: &[u8], to: &mut Arena)
    requires named { 1 ≤ length name.now }
    requires short { length name.now ≤ most_name }
    requires room { Fits (to.old.blocks ++ trailer_block (folded (name.now, value.now)) ∷ []) to.old.size }
    ensures blocks { to.new.blocks ≡ to.old.blocks ++ trailer_block (folded (name.now, value.now)) ∷ [] }
    ensures size { to.new.size ≡ to.old.size }
{
    let mut buffer = [0; MAX_NAME];
    let lower = &mut buffer[..name.len()];
    lower.copy_from_slice(name);
    fold(lower);
    let at = to.len();
    to.insert_field(at, Kind::Trailer, lower, value).unwrap();
}

/// Adds the trailers that stay.
fn push_trailers(section: &[u8], fields: &[HeaderSpan], to: &mut Arena)
    requires within { All (IsHeaderWithin (length section.now)) fields.now }
    requires named { All (HasGoodName section.now) fields.now }
    requires room { Fits (to.old.blocks ++ kept_blocks (map (header_bytes section.now) fields.now)) to.old.size }
    ensures blocks { to.new.blocks ≡ to.old.blocks ++ kept_blocks (map (header_bytes section.now) fields.now) }
    ensures size { to.new.size ≡ to.old.size }
{
    for field in fields {
        if is_kept(section, field) {
            push_trailer(field.name.of(section), field.value.of(section), to);
        }
    }
}

/// Adds the trailers that stay, and their end where there is one.
fn push_section(section: &[u8], fields: &[HeaderSpan], to: &mut Arena) -> Result<(), Full>
    requires within { All (IsHeaderWithin (length section.now)) fields.now }
    requires named { All (HasGoodName section.now) fields.now }
    ensures ok { OnOk result (to.new.blocks ≡ to.old.blocks ++ ended_trailers (kept_blocks (map (header_bytes section.now) fields.now))) }
    ensures fits { IsOk result ↔ Fits (to.old.blocks ++ ended_trailers (kept_blocks (map (header_bytes section.now) fields.now))) to.old.size }
    ensures full { OnErr result (to.new ≡ to.old) }
    ensures size { to.new.size ≡ to.old.size }
{
    if !has_room(section, fields, to.room() as usize) {
        return Err(Full);
    }
    let before = to.len();
    push_trailers(section, fields, to);
    let len = to.len();
    if len > before {
        to.insert_end(len, Kind::EndTrailers).unwrap();
    }
    Ok(())
}

/// Adds the trailers of a section that `feed` gave behind the other blocks, and the end of trailers; nothing where no
/// field is left. Names are in lower case, values have no blanks around them, and the fields named `host`,
/// `content-length`, `transfer-encoding`, `connection`, `keep-alive`, `proxy-connection`, `te` and `upgrade` are
/// dropped (RFC 9110 section 6.5.1). Full where the blocks do not fit all together; then the array is as it was.
pub fn add_trailers(section: &[u8], to: &mut Arena) -> Result<(), Full>
    requires { (fields : List grammar.Field) × BeginsFields section.now fields [] }
    ensures ok { (trailers : List Field) → HasTrailers section.now trailers → OnOk result (to.new.blocks ≡ to.old.blocks ++ trailer_blocks trailers) }
    ensures fits { (trailers : List Field) → HasTrailers section.now trailers → (IsOk result ↔ Fits (to.old.blocks ++ trailer_blocks trailers) to.old.size) }
    ensures full { OnErr result (to.new ≡ to.old) }
    ensures size { to.new.size ≡ to.old.size }
{
    let mut spans = [EMPTY_HEADER_SPAN; MAX_FIELDS];
    let count = match parse_headers(section, &mut spans) {
        Ok(Status::Complete((_used, count))) => count,
        _ => unreachable!(),
    };
    push_section(section, &spans[..count], to)
}
