//! The trailer section behind the last chunk.
ghost use Rattle.std.specs.Prelude.{◌≡◌, length, map, All};
ghost use Rattle.std.specs.List.{list_all};
ghost use Rattle.httparse.specs.Spans.{IsHeaderWithin, header_bytes};
ghost use Rattle.h1_body.specs.Read.{SectionFound, is_short};

use h1_head::line_feeds;
use http_model::MAX_NAME;
use httparse::Status;
use httparse::spans::{EMPTY_HEADER_SPAN, HeaderSpan, parse_headers};

/// The most fields of a section.
pub const MAX_FIELDS: usize = 64;

/// The most lines of a section, with the empty line.
pub const MAX_LINES: usize = MAX_FIELDS + 1;

/// What the front of a window tells of a section.
pub enum SectionRead {
    /// So many bytes are a section within the limits.
    Whole(usize),
    /// The section may still come.
    More,
    /// No section within the limits can come.
    Bad,
}

/// Whether each name has at most 255 bytes.
fn has_short_names(window: &[u8], fields: &[HeaderSpan]) -> bool
    requires { All (IsHeaderWithin (length window.now)) fields.now }
    ensures { result ≡ list_all is_short (map (header_bytes window.now) fields.now) }
{
    for field in fields {
        if field.name.of(window).len() > MAX_NAME {
            return false;
        }
    }
    true
}

/// Reads a section of at most `limit` bytes at the front of a window.
pub fn read_section(window: &[u8], limit: u32) -> SectionRead
    ensures { SectionFound limit window.now result }
{
    let mut fields = [EMPTY_HEADER_SPAN; MAX_FIELDS];
    match parse_headers(window, &mut fields) {
        Ok(Status::Complete((used, count))) => {
            if used > limit as usize {
                return SectionRead::Bad;
            }
            if has_short_names(window, &fields[..count]) {
                SectionRead::Whole(used)
            } else {
                SectionRead::Bad
            }
        }
        Ok(Status::Partial) => {
            if window.len() >= limit as usize {
                return SectionRead::Bad;
            }
            if line_feeds(window) >= MAX_LINES {
                SectionRead::Bad
            } else {
                SectionRead::More
            }
        }
        Err(_) => SectionRead::Bad,
    }
}
