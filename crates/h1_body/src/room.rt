//! Whether trailers fit, before the first is put in.
ghost use Rattle.std.specs.Prelude.{◌≡◌, ◌<◌, ◌+◌, ◌↔◌, length, map, All, true, IfSome, IfNone};
ghost use Rattle.httparse.specs.Spans.{IsHeaderWithin, header_bytes};
ghost use Rattle.htx_model.specs.Blocks.{load, Fits};
ghost use Rattle.http_model.specs.Head.{ended_trailers};
ghost use Rattle.h1_body.specs.Trailers.{kept_blocks, HasGoodName};

use crate::trailers::is_kept;
use httparse::spans::HeaderSpan;

/// What a trailer weighs beside its name and its value.
const TRAILER_WEIGHT: usize = 8;

/// What the end of trailers weighs.
const END_WEIGHT: usize = 9;

/// What is left of the room behind the trailers that stay.
fn room_behind(section: &[u8], fields: &[HeaderSpan], room: usize) -> Option<usize>
    requires within { All (IsHeaderWithin (length section.now)) fields.now }
    requires named { All (HasGoodName section.now) fields.now }
    ensures left { IfSome result (λ left. left + load (kept_blocks (map (header_bytes section.now) fields.now)) ≡ room) }
    ensures over { IfNone result (room < load (kept_blocks (map (header_bytes section.now) fields.now))) }
{
    let mut left = room;
    for field in fields {
        if is_kept(section, field) {
            let (name, value) = (field.name.of(section), field.value.of(section));
            left = left.checked_sub(TRAILER_WEIGHT + name.len() + value.len())?;
        }
    }
    Some(left)
}

/// Whether the trailers that stay fit into the room, with their end where there is one.
pub(crate) fn has_room(section: &[u8], fields: &[HeaderSpan], room: usize) -> bool
    requires within { All (IsHeaderWithin (length section.now)) fields.now }
    requires named { All (HasGoodName section.now) fields.now }
    ensures { result ≡ true ↔ Fits (ended_trailers (kept_blocks (map (header_bytes section.now) fields.now))) room }
{
    match room_behind(section, fields, room) {
        Some(left) => left == room || left >= END_WEIGHT,
        None => false,
    }
}
