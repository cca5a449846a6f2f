//! Fields of a section, found by their names.
ghost use Rattle.std.specs.Prelude.{◌≡◌, length, map, All, Some, None, IfSome, IsNone};
ghost use Rattle.httparse.specs.Spans.{IsHeaderWithin, header_bytes};
ghost use Rattle.fcgi_lane.specs.Answer.Head.{is_passed};
ghost use Rattle.fcgi_model.specs.Head.{first_value};

use httparse::spans::HeaderSpan;
use px_bytes::eq_fold;

/// The value of the first field of this name.
pub(crate) fn first_value<'t>(
    name: &[u8],
    text: &'t [u8],
    fields: &[HeaderSpan],
) -> Option<&'t [u8]>
    requires { All (IsHeaderWithin (length text.now)) fields.now }
    ensures some { IfSome result (λ v. first_value name.now (map (header_bytes text.now) fields.now) ≡ Some v.now) }
    ensures none { IsNone result → first_value name.now (map (header_bytes text.now) fields.now) ≡ None }
{
    for field in fields {
        if eq_fold(field.name.of(text), name) {
            return Some(field.value.of(text));
        }
    }
    None
}

/// Whether a field passes on: it is neither the status nor said of one connection.
pub(crate) fn is_passed(text: &[u8], field: &HeaderSpan) -> bool
    requires { IsHeaderWithin (length text.now) field.now }
    ensures { result ≡ is_passed (header_bytes text.now field.now) }
{
    let name = field.name.of(text);
    !(eq_fold(name, b"status")
        || eq_fold(name, b"transfer-encoding")
        || eq_fold(name, b"connection"))
}
