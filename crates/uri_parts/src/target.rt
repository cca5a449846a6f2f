//! The parts of a target (RFC 3986 section 3, RFC 9112 section 3.2).
ghost use Rattle.std.specs.Prelude.{◌≡◌, ◌≤◌, length, option_map};
ghost use Rattle.std.specs.List.{prefix_len};
ghost use Rattle.uri_parts.specs.Target as spec;
ghost use Rattle.uri_parts.specs.Lent.{shown};

/// The parts of a target, lent from it.
#[derive(Clone, Copy)]
pub struct Parts<'a> {
    /// Without its `://`.
    pub scheme: Option<&'a [u8]>,
    pub authority: Option<&'a [u8]>,
    pub path: &'a [u8],
    /// Without its `?`; `None` where there is no `?`.
    pub query: Option<&'a [u8]>,
}

/// Whether a byte may stand in a scheme.
#[inline]
fn is_scheme_byte(byte: u8) -> bool
    ensures { result ≡ spec.is_scheme_byte byte }
{
    byte.is_ascii_alphanumeric() || (byte == b'+' || (byte == b'-' || byte == b'.'))
}

/// How many bytes in front may stand in a scheme.
fn scheme_len(text: &[u8]) -> usize
    ensures count { result ≡ prefix_len spec.is_scheme_byte text.now }
    ensures within { result ≤ length text.now }
{
    for (i, byte) in text.iter().enumerate() {
        if !is_scheme_byte(*byte) {
            return i;
        }
    }
    text.len()
}

/// Whether a byte may stand in an authority.
#[inline]
fn is_authority_byte(byte: u8) -> bool
    ensures { result ≡ spec.is_authority_byte byte }
{
    !(byte == b'/' || byte == b'?')
}

/// How many bytes stand in front of the first `/` or `?`.
fn authority_len(text: &[u8]) -> usize
    ensures count { result ≡ prefix_len spec.is_authority_byte text.now }
    ensures within { result ≤ length text.now }
{
    for (i, byte) in text.iter().enumerate() {
        if !is_authority_byte(*byte) {
            return i;
        }
    }
    text.len()
}

/// How many bytes stand in front of the first `?`.
fn path_len(text: &[u8]) -> usize
    ensures count { result ≡ prefix_len spec.is_path_byte text.now }
    ensures within { result ≤ length text.now }
{
    for (i, byte) in text.iter().enumerate() {
        if *byte == b'?' {
            return i;
        }
    }
    text.len()
}

/// Whether the first byte is a letter.
fn begins_with_letter(text: &[u8]) -> bool
    ensures { result ≡ spec.begins_with_letter text.now }
{
    match text {
        [first, ..] => first.is_ascii_alphabetic(),
        [] => false,
    }
}

/// What follows the `?` that a text begins with.
fn query_in(text: &[u8]) -> Option<&[u8]>
    ensures { option_map (λ query. query.now) result ≡ spec.query_in text.now }
{
    match text {
        [_, query @ ..] => Some(query),
        [] => None,
    }
}

/// Path and query, behind a scheme and an authority.
fn cut_path<'a>(scheme: Option<&'a [u8]>, authority: Option<&'a [u8]>, text: &'a [u8]) -> Parts<'a>
    ensures { shown result ≡ spec.cut_path (option_map (λ s. s.now) scheme.entry) (option_map (λ s. s.now) authority.entry) text.now }
{
    let (path, behind) = text.split_at(path_len(text));
    Parts {
        scheme,
        authority,
        path,
        query: query_in(behind),
    }
}

/// What stands behind a scheme and its `://`.
fn cut_authority<'a>(scheme: &'a [u8], text: &'a [u8]) -> Parts<'a>
    ensures { shown result ≡ spec.cut_authority scheme.now text.now }
{
    let (authority, rest) = text.split_at(authority_len(text));
    cut_path(Some(scheme), Some(authority), rest)
}

/// The parts of a target. One that begins with no scheme and `://` is a path and a query, as `*` is.
pub fn cut_target(target: &[u8]) -> Parts<'_>
    ensures { shown result ≡ spec.target_parts target.now }
{
    if !begins_with_letter(target) {
        return cut_path(None, None, target);
    }
    let (scheme, behind) = target.split_at(scheme_len(target));
    if !behind.starts_with(b"://") {
        return cut_path(None, None, target);
    }
    cut_authority(scheme, &behind[3..])
}
