//! A parameter of a query.
ghost use Rattle.std.specs.Prelude.{◌≡◌, ◌≤◌, length, option_map};
ghost use Rattle.std.specs.List.{prefix_len};
ghost use Rattle.http_fetch.specs.Param as spec;

/// Whether a byte parts a query.
#[inline]
fn is_parting(byte: u8) -> bool
    ensures { result ≡ spec.is_parting byte }
{
    byte == b'&' || byte == b';'
}

/// How many bytes stand in front of the first `&` or `;`.
fn part_len(text: &[u8]) -> usize
    ensures count { result ≡ prefix_len spec.is_plain text.now }
    ensures within { result ≤ length text.now }
{
    for (i, byte) in text.iter().enumerate() {
        if is_parting(*byte) {
            return i;
        }
    }
    text.len()
}

/// What follows the `=` that a text begins with.
fn behind_sign(text: &[u8]) -> Option<&[u8]>
    ensures { option_map (λ value. value.now) result ≡ spec.behind_sign text.now }
{
    match text {
        [first, value @ ..] => { if *first == b'=' { Some(value) } else { None } }
        [] => None,
    }
}

/// The value of a part that begins with this name and `=`.
fn value_of<'a>(part: &'a [u8], name: &[u8]) -> Option<&'a [u8]>
    ensures { option_map (λ value. value.now) result ≡ spec.value_of_param name.now part.now }
{
    if part.starts_with(name) {
        behind_sign(&part[name.len()..])
    } else {
        None
    }
}

/// The value of the first part of a query that begins with this name and `=`.
pub(crate) fn param<'a>(query: &'a [u8], name: &[u8]) -> Option<&'a [u8]>
    ensures { option_map (λ value. value.now) result ≡ spec.param name.now query.now }
{
    let mut rest = query;
    'parts: loop {
        let len = part_len(rest);
        if let Some(value) = value_of(&rest[..len], name) {
            return Some(value);
        }
        if len == rest.len() {
            return None;
        }
        let (_, behind) = rest.split_at(len);
        rest = &behind[1..];
    }
}
