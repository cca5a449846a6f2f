//! The HTTP head of an answer, as text.
ghost use Rattle.std.specs.Prelude.{◌≡◌, ◌+◌, ◌≤◌, ◌++◌, ◌∷◌, [], length, map, All, codes};
ghost use Rattle.std.specs.Str.{str_to_ascii_lowercase};
ghost use Rattle.httparse.specs.Spans.{IsHeaderWithin, header_bytes};
ghost use Rattle.http_model.specs.Spelling.{field_text, fields_text};
ghost use Rattle.fcgi_lane.specs.Answer.Head.{passed, http_head};

use crate::answer::fields::is_passed;
use crate::answer::fixed_text::FixedText;
use crate::answer::status::Status;
use httparse::spans::HeaderSpan;

/// Puts a field behind a text, with its name in lower case.
fn push_field(http: &mut FixedText, name: &[u8], value: &[u8])
    requires { length http.old.bytes + (length name.now + length value.now + 4) ≤ http.old.cap }
    ensures bytes { http.new.bytes ≡ http.old.bytes ++ field_text (str_to_ascii_lowercase name.now, value.now) }
    ensures cap { http.new.cap ≡ http.old.cap }
{
    http.push_name(name);
    http.push(b": ");
    http.push(value);
    http.push(b"\r\n");
}

/// Puts the fields that pass on behind a text.
fn push_fields(http: &mut FixedText, text: &[u8], fields: &[HeaderSpan])
    requires fields { All (IsHeaderWithin (length text.now)) fields.now }
    requires room { length http.old.bytes + length (fields_text (passed (map (header_bytes text.now) fields.now))) ≤ http.old.cap }
    ensures bytes { http.new.bytes ≡ http.old.bytes ++ fields_text (passed (map (header_bytes text.now) fields.now)) }
    ensures cap { http.new.cap ≡ http.old.cap }
{
    for field in fields {
        if is_passed(text, field) {
            push_field(http, field.name.of(text), field.value.of(text));
        }
    }
}

/// Puts a status line behind a text.
fn push_status(http: &mut FixedText, status: Status<'_>)
    requires { length http.old.bytes + (length status.digits.now + length status.reason.now + 12) ≤ http.old.cap }
    ensures bytes { http.new.bytes ≡ http.old.bytes ++ (codes "HTTP/1.1 " ++ status.entry.digits.now ++ 32 ∷ status.entry.reason.now ++ codes "\r\n") }
    ensures cap { http.new.cap ≡ http.old.cap }
{
    http.push(b"HTTP/1.1 ");
    http.push(status.digits);
    http.push(b" ");
    http.push(status.reason);
    http.push(b"\r\n");
}

/// Puts the head of an answer behind a text: status line, the fields that pass on, and the empty line.
#[tactic(auto, unfolding(crate::specs::Answer::Head::http_head))]
pub(crate) fn push_head(
    http: &mut FixedText,
    status: Status<'_>,
    text: &[u8],
    fields: &[HeaderSpan],
)
    requires fields { All (IsHeaderWithin (length text.now)) fields.now }
    requires room { length http.old.bytes + length (http_head status.digits.now status.reason.now (map (header_bytes text.now) fields.now)) ≤ http.old.cap }
    ensures bytes { http.new.bytes ≡ http.old.bytes ++ http_head status.entry.digits.now status.entry.reason.now (map (header_bytes text.now) fields.now) }
    ensures cap { http.new.cap ≡ http.old.cap }
{
    push_status(http, status);
    push_fields(http, text, fields);
    http.push(b"\r\n");
}
