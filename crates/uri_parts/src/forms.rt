//! The four forms of a target (RFC 9112 section 3.2).
ghost use Rattle.std.specs.Prelude.{◌≡◌};
ghost use Rattle.uri_parts.specs.Forms as spec;

use crate::authority::{has_full_port, has_host, is_authority};
use crate::target::{Parts, cut_target};
use px_bytes::eq_fold;

/// Whether the host of a scheme may not be empty.
fn asks_host(scheme: &[u8]) -> bool
    ensures { result ≡ spec.asks_host scheme.now }
{
    eq_fold(scheme, b"http") || eq_fold(scheme, b"https")
}

/// Whether a target is an absolute path, and a query or none.
fn is_origin_form(target: &[u8]) -> bool
    ensures { result ≡ spec.is_origin_form target.now }
{
    match target {
        [first, ..] => *first == b'/',
        [] => false,
    }
}

/// Whether a target is a scheme, `://`, an authority, and a path and a query or none.
fn is_absolute_form(target: &[u8]) -> bool
    ensures { result ≡ spec.is_absolute_form target.now }
{
    match cut_target(target) {
        Parts {
            scheme: Some(scheme),
            authority: Some(authority),
            ..
        } => is_authority(authority) && (has_host(authority) || !asks_host(scheme)),
        _ => false,
    }
}

/// Whether a target is a host and a port.
fn is_authority_form(target: &[u8]) -> bool
    ensures { result ≡ spec.is_authority_form target.now }
{
    has_host(target) && has_full_port(target)
}

/// Whether a target has a form that a method other than CONNECT may have.
fn is_common_form(method: &[u8], target: &[u8]) -> bool
    ensures { result ≡ spec.is_common_form method.now target.now }
{
    is_origin_form(target)
        || (is_absolute_form(target)
            || method == b"OPTIONS".as_slice() && target == b"*".as_slice())
}

/// Whether no fragment begins in a target.
fn has_no_fragment(target: &[u8]) -> bool
    ensures { result ≡ spec.has_no_fragment target.now }
{
    target.iter().all(|b| *b != b'#')
}

/// Whether a target has one of the four forms, one that its method may have: that of an authority is for CONNECT alone, `*` for
/// OPTIONS alone, and the two others for each other method.
#[tactic(auto, unfolding(crate::specs::Forms::target_fits))]
pub fn target_fits(method: &[u8], target: &[u8]) -> bool
    ensures { result ≡ spec.target_fits method.now target.now }
{
    if !has_no_fragment(target) {
        return false;
    }
    if method == b"CONNECT".as_slice() {
        return is_authority_form(target);
    }
    is_common_form(method, target)
}
