//! The status of an answer, from its fields (RFC 3875 section 6.3.3).
ghost use Rattle.std.specs.Prelude.{◌≡◌, ◌<◌, length, map, All, Some, None, IfSome, IsNone};
ghost use Rattle.httparse.specs.Spans.{IsHeaderWithin, header_bytes};
ghost use Rattle.fcgi_lane.specs.Answer.Head.{reason_in, status_in, status_of};

use crate::answer::fields::first_value;
use httparse::spans::HeaderSpan;
use px_bytes::read_decimal;
use px_reply::reason_of;

/// Three digits and a reason.
#[derive(Clone, Copy, Debug)]
pub(crate) struct Status<'t> {
    pub digits: &'t [u8],
    pub reason: &'t [u8],
}

/// The reason of a code, from what stands behind it: nothing, or a space and the reason. One that is empty is the table's.
fn reason_in(code: u16, behind: &[u8]) -> Option<&[u8]>
    ensures some { IfSome result (λ r. reason_in code behind.now ≡ Some r.now) }
    ensures none { IsNone result → reason_in code behind.now ≡ None }
{
    match behind {
        [] | [b' '] => Some(reason_of(code)),
        [b' ', reason @ ..] => Some(reason),
        _ => None,
    }
}

/// The status that a value is.
fn status_in(value: &[u8]) -> Option<Status<'_>>
    ensures some { IfSome result (λ s. status_in value.now ≡ Some (s.digits.now, s.reason.now)) }
    ensures none { IsNone result → status_in value.now ≡ None }
{
    if value.len() < 3 {
        return None;
    }
    let (digits, behind) = value.split_at(3);
    let code = read_decimal(digits, 3)?;
    if code < 200 {
        return None;
    }
    let reason = reason_in(code as u16, behind)?;
    Some(Status { digits, reason })
}

/// The status of an answer with these fields: its own, else 302 where there is a location, else 200.
pub(crate) fn status_of<'t>(text: &'t [u8], fields: &[HeaderSpan]) -> Option<Status<'t>>
    requires { All (IsHeaderWithin (length text.now)) fields.now }
    ensures some { IfSome result (λ s. status_of (map (header_bytes text.now) fields.now) ≡ Some (s.digits.now, s.reason.now)) }
    ensures none { IsNone result → status_of (map (header_bytes text.now) fields.now) ≡ None }
{
    if let Some(value) = first_value(b"status", text, fields) {
        return status_in(value);
    }
    let (digits, code) = match first_value(b"location", text, fields) {
        Some(_) => (b"302".as_slice(), 302),
        None => (b"200".as_slice(), 200),
    };
    Some(Status {
        digits,
        reason: reason_of(code),
    })
}
