//! Whether a request names one authority, whatever form its target has (RFC 9112 sections 3.2 and 3.2.2).
ghost use Rattle.std.specs.Prelude.{◌≡◌, length, map, All};
ghost use Rattle.httparse.specs.Spans.{IsHeaderWithin, header_bytes};
ghost use Rattle.h1_head.specs.Rows.{is_host_for, hosts_fit, fits_target};
ghost use Rattle.h1_head.specs.Spans.{span_parts, AreSpansGood};

use httparse::spans::{HeaderSpan, RequestSpans};
use px_bytes::eq_fold;
use uri_parts::{host_agrees, is_authority, target_fits};

/// Whether a field is not named Host, or its value may stand beside this target.
fn is_host_for(target: &[u8], name: &[u8], value: &[u8]) -> bool
    ensures { result ≡ is_host_for target.now (name.now, value.now) }
{
    !eq_fold(name, b"host") || (is_authority(value) && host_agrees(target, value))
}

/// Whether each Host field may stand beside this target.
fn hosts_fit(text: &[u8], fields: &[HeaderSpan], target: &[u8]) -> bool
    requires { All (IsHeaderWithin (length text.now)) fields.now }
    ensures { result ≡ hosts_fit target.now (map (header_bytes text.now) fields.now) }
{
    for field in fields {
        if !is_host_for(target, field.name.of(text), field.value.of(text)) {
            return false;
        }
    }
    true
}

/// Whether the target of a head has a form that its method may have, and each Host field may stand beside it.
#[tactic(auto, unfolding(crate::specs::Rows::fits_target))]
pub fn fits_target(text: &[u8], head: &RequestSpans, fields: &[HeaderSpan]) -> bool
    requires spans { AreSpansGood text.now head.now fields.now }
    ensures { result ≡ fits_target (span_parts text.now head.now fields.now) }
{
    let target = head.path.of(text);
    target_fits(head.method.of(text), target) && hosts_fit(text, fields, target)
}
