//! Whether Host names the authority of a target (RFC 9112 section 3.2.2).
ghost use Rattle.std.specs.Prelude.{◌≡◌, option_map};
ghost use Rattle.uri_parts.specs.Same as spec;

use crate::authority::is_authority;
use crate::target::{Parts, cut_target};
use px_bytes::eq_fold;

/// The port that a scheme has where none is named, with its colon.
fn default_port(scheme: &[u8]) -> &'static [u8]
    ensures { result.now ≡ spec.default_port scheme.now }
{
    if eq_fold(scheme, b"http") {
        b":80"
    } else if eq_fold(scheme, b"https") {
        b":443"
    } else {
        b":"
    }
}

/// A text without what it ends with, where it ends so.
fn without_end<'a>(end: &[u8], text: &'a [u8]) -> &'a [u8]
    ensures { result.now ≡ spec.without_end end.now text.now }
{
    if text.ends_with(end) {
        return &text[..text.len() - end.len()];
    }
    text
}

/// An authority without an empty port and without the port of its scheme.
fn plain_authority<'a>(scheme: &[u8], text: &'a [u8]) -> &'a [u8]
    ensures { result.now ≡ spec.plain_authority scheme.now text.now }
{
    without_end(b":", without_end(default_port(scheme), text))
}

/// Whether two authorities are the same but for the case of letters and the port of the scheme.
fn same_authority(scheme: &[u8], a: &[u8], b: &[u8]) -> bool
    ensures { result ≡ spec.same_authority scheme.now a.now b.now }
{
    eq_fold(plain_authority(scheme, a), plain_authority(scheme, b))
}

/// Whether a value of Host names the authority of a target, where the target has one. Names are compared without regard to case; the
/// port of the scheme may be left out of either; user information is never the same.
#[tactic(auto, unfolding(crate::specs::Same::host_agrees))]
pub fn host_agrees(target: &[u8], host: &[u8]) -> bool
    ensures { result ≡ spec.host_agrees target.now host.now }
{
    match cut_target(target) {
        Parts {
            scheme: Some(scheme),
            authority: Some(authority),
            ..
        } => is_authority(authority)
            && (is_authority(host) && same_authority(scheme, authority, host)),
        _ => true,
    }
}
