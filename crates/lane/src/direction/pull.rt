//! The next part of a body, from a text into the array.
ghost use Rattle.std.specs.Prelude.{◌≡◌, ◌≤◌, [], length, drop};
ghost use Rattle.h1_body.specs.Scan.{IsScanned};
ghost use Rattle.lane.specs.Direction.Pulled.{Pulls};

use h1_body::{BodyReader, BodyState, SectionScan, add_trailers};
use htx_arena::Arena;

/// How many bytes were used, and what the reader says.
#[derive(Clone, Copy)]
pub(crate) struct Pulled {
    pub used: usize,
    pub state: BodyState,
}

/// Reads the next part of the body at the front of a text into an empty array.
pub(crate) fn read_part(
    reader: &mut BodyReader,
    text: &[u8],
    seen: &mut SectionScan,
    to: &mut Arena,
) -> Pulled
    requires empty { to.old.blocks ≡ [] }
    requires seen { IsScanned text.now seen.old }
    ensures used { result.used ≤ length text.now }
    ensures pulls { Pulls reader.old reader.new text.now (drop result.used text.now) to.old.size to.new.blocks result.used result.state }
    ensures size { to.new.size ≡ to.old.size }
    ensures seen { IsScanned (drop result.used text.now) seen.new }
{
    let step = reader.feed_grown(text, to.room().saturating_sub(8), seen);
    let (from, end) = (step.piece.from, step.piece.from + step.piece.len);
    to.add_data(&text[from..end]);
    if let Some(span) = step.trailers {
        // Never Full in a lane: with a section comes no data, so the array is empty, and it is as large as the limits of
        // the reader, by which a section is at most half of it, in at most 64 fields.
        let _added = add_trailers(&text[span.from..span.from + span.len], to);
    }
    Pulled {
        used: step.used,
        state: step.state,
    }
}
