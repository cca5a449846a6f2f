//! The payload of a `return`, its type and its length (RFC 9110 section 8).
ghost use Rattle.std.specs.Prelude.{◌≡◌, false, IsOk, IfOk, option_copied, option_map, length};
ghost use Rattle.px_bytes.specs.Blanks.{trimmed};
ghost use Rattle.http_rules.specs.Rule.Actions.{payload_holds_pattern};
ghost use Rattle.http_rules.specs.Action.Given.{Env};
ghost use Rattle.http_rules.specs.Action.Replies as spec;
ghost use Rattle.http_rules.specs.Action.Outcome.{IsScratch, IsPlaceOf};
ghost use Rattle.http_rules.specs.Action.Written.{body_by, IsBody};

use crate::action::fields::are_value_bytes;
use crate::action::place::Place;
use crate::action::scratch::Scratch;
use crate::action::texts::write_text;
use crate::rule::Payload;
use px_bytes::trim;
use px_expr::Text;
use px_sample::OutOfMemory;

/// The type that is written: none without a payload.
pub(crate) fn type_by<'a>(
    payload: &Option<Payload>,
    content_type: &'a Option<Text>,
) -> Option<&'a [u8]>
    ensures { option_copied result ≡ spec.type_by payload.now content_type.now }
{
    match payload {
        None => None,
        Some(_) => match content_type {
            None => None,
            Some(text) => Some(text.as_slice()),
        },
    }
}

/// Whether a type may stand in a field value.
pub(crate) fn is_good_type(content_type: Option<&[u8]>) -> bool
    ensures { result ≡ spec.is_good_type (option_copied content_type.entry) }
{
    match content_type {
        None => true,
        Some(text) => are_value_bytes(text),
    }
}

/// A type without the blanks at both ends.
pub(crate) fn trimmed_type(content_type: Option<&[u8]>) -> Option<&[u8]>
    ensures { option_copied result ≡ option_map trimmed (option_copied content_type.entry) }
{
    match content_type {
        None => None,
        Some(text) => Some(trim(text)),
    }
}

/// The length that is told: that of the payload, but for a status with which no body is sent. `text` holds
/// the bytes of a format.
pub(crate) fn length_by(status: u16, payload: &Option<Payload>, text: &[u8]) -> Option<u64>
    ensures { result ≡ spec.length_by status (length (body_by payload.now text.now)) }
{
    if status == 204 || status == 304 {
        None
    } else {
        Some(body_by(payload, text).len() as u64)
    }
}

/// Makes the text of a payload's format in `scratch.text`; false where it is longer than the array.
pub(crate) fn make_payload(
    payload: &Option<Payload>,
    place: Place<'_>,
    scratch: &mut Scratch,
) -> Result<bool, OutOfMemory>
    requires { IsScratch place.msg.now.size scratch.old }
    ensures made { IfOk result (λ good. (env : Env) → IsPlaceOf env place.entry → IsBody place.entry.msg.now.size env payload.now good scratch.new.text.bytes) }
    ensures succeeds { payload_holds_pattern payload.now ≡ false → IsOk result }
    ensures scratch { IsScratch place.entry.msg.now.size scratch.new }
{
    match payload {
        None | Some(Payload::Literal(_)) => Ok(true),
        Some(Payload::Format(fmt)) => write_text(fmt, place, scratch),
    }
}

/// The bytes of a payload. Those of a format are held in `text`.
pub(crate) fn body_by<'a>(payload: &'a Option<Payload>, text: &'a [u8]) -> &'a [u8]
    ensures { result.now ≡ body_by payload.now text.now }
{
    match payload {
        None => &[],
        Some(Payload::Literal(literal)) => literal.as_slice(),
        Some(Payload::Format(_)) => text,
    }
}
