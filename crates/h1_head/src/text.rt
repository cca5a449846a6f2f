//! What is alike in reading the heads of requests and of responses.
ghost use Rattle.std.specs.Prelude.{◌≡◌, ◌<◌, ◌∷◌, [], ◌↔◌, false, IsTrue, Err};
ghost use Rattle.httparse.specs.declared.Error.TheVariants.{TooManyHeaders};
ghost use Rattle.h1_head.specs.Waiting.{WaitTells};

use crate::lines::line_feeds;
use http_model::{Framing, Limits};
use httparse::Error;

/// The most fields of a head.
pub const MAX_FIELDS: usize = 256;

/// As many fields as most heads have. A list of places for the fields of a head is cleared before a parse, 32 bytes a place.
pub const FEW_FIELDS: usize = 32;

/// The most lines of a head: with the most fields it has a start line and an empty line.
pub const MAX_LINES: usize = MAX_FIELDS + 2;

/// What is kept of a head beside its blocks.
#[derive(Clone, Copy)]
pub struct Kept {
    pub framing: Framing,
    pub declared: Option<u64>,
    pub close: bool,
}

/// What becomes of a text in which no head of the grammar stands.
#[derive(Clone, Copy)]
pub enum Wait {
    /// A head may still come.
    More,
    /// The stream has ended.
    Ended,
    /// No head within the limits begins so.
    Long,
}

/// Whether a head may still come where none of the grammar stands in the text.
pub fn wait_for(text: &[u8], whole: bool, limits: Limits) -> Wait
    ensures { WaitTells limits whole text.now result }
{
    if whole {
        return Wait::Ended;
    }
    if text.len() >= limits.bufsize as usize {
        return Wait::Long;
    }
    if line_feeds(text) >= MAX_LINES {
        return Wait::Long;
    }
    Wait::More
}

/// Whether the text is a CR alone, which may be half of an empty line.
pub fn is_lone_cr(text: &[u8]) -> bool
    ensures { IsTrue result ↔ (text.now ≡ 13 ∷ []) }
{
    text == b"\r".as_slice()
}

/// Whether a parse had too few places for the fields.
pub fn wants_places<T>(parsed: &httparse::Result<T>) -> bool
    ensures { IsTrue result ↔ (parsed.now ≡ Err TooManyHeaders) }
{
    match parsed {
        Ok(_) => false,
        Err(error) => *error == Error::TooManyHeaders,
    }
}
