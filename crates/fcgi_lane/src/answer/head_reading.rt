//! The head in front of an application's output: where it ends, and the HTTP head that it is.
ghost use Rattle.std.specs.Prelude.{◌≡◌, ◌+◌, ◌≤◌, ◌++◌, ℕ, List, Some, length, take, drop, map, All};
ghost use Rattle.httparse.specs.Spans.{IsHeaderWithin, header_bytes};
ghost use Rattle.fcgi_lane.specs.Answer.Head.{status_of, http_head};
ghost use Rattle.fcgi_lane.specs.Answer.Room.{most_more};
ghost use Rattle.fcgi_lane.specs.Answer.Found.{TellsHead, TellsWhole};

use crate::answer::fixed_text::FixedText;
use crate::answer::head_text::push_head;
use crate::answer::status::status_of;
use httparse::Status;
use httparse::spans::{EMPTY_HEADER_SPAN, HeaderSpan, parse_headers};

/// The most fields of an application's head.
pub const MAX_FIELDS: usize = 256;

/// What the text in front of an application's output tells of its head.
#[derive(Clone, Copy, Debug)]
pub(crate) enum HeadRead {
    /// The head may still come.
    More,
    /// It is whole.
    Whole,
    /// None can come.
    Bad,
}

/// Makes the HTTP head of a section with these fields, in front of what follows it.
fn whole_head(http: &mut FixedText, text: &[u8], fields: &[HeaderSpan], rest: &[u8]) -> HeadRead
    requires fields { All (IsHeaderWithin (length text.now)) fields.now }
    requires room { (digits reason : List ℕ) → status_of (map (header_bytes text.now) fields.now) ≡ Some (digits, reason)
        → length (http_head digits reason (map (header_bytes text.now) fields.now)) + length rest.now ≤ http.old.cap }
    ensures tells { TellsWhole (map (header_bytes text.now) fields.now) rest.now http.new.bytes result }
    ensures cap { http.new.cap ≡ http.old.cap }
{
    let Some(status) = status_of(text, fields) else {
        return HeadRead::Bad;
    };
    http.clear();
    push_head(http, status, text, fields);
    http.push(rest);
    HeadRead::Whole
}

/// Reads the head of at most `limit` bytes and 256 fields that a text begins with. The HTTP head that it is stands in the place of what `http` held.
pub(crate) fn read_head(limit: u32, text: &[u8], http: &mut FixedText) -> HeadRead
    requires { length text.now + most_more ≤ http.old.cap }
    ensures tells { TellsHead limit text.now http.new.bytes result }
    ensures cap { http.new.cap ≡ http.old.cap }
{
    let mut fields = [EMPTY_HEADER_SPAN; MAX_FIELDS];
    match parse_headers(text, &mut fields) {
        Ok(Status::Complete((used, count))) => {
            if used > limit as usize {
                return HeadRead::Bad;
            }
            whole_head(http, text, &fields[..count], &text[used..])
        }
        Ok(Status::Partial) => {
            if text.len() >= limit as usize {
                return HeadRead::Bad;
            }
            HeadRead::More
        }
        Err(_) => HeadRead::Bad,
    }
}
