//! The authority of a target and the value of Host (RFC 3986 section 3.2, RFC 9110 section 7.2).
ghost use Rattle.std.specs.Prelude.{◌≡◌, ◌≤◌, ◌||◌, length, option_map};
ghost use Rattle.std.specs.List.{prefix_len};
ghost use Rattle.std.specs.Char.{is_ascii_hexdigit};
ghost use Rattle.uri_parts.specs.Authority as spec;

use std::net::Ipv6Addr;

/// What is owed behind the bytes of a name.
#[derive(Clone, Copy)]
enum NameState {
    Plain,
    /// Two hexadecimal digits, behind `%`.
    First,
    /// One more.
    Second,
    /// A byte was none of a name.
    Broken,
}

/// Whether a byte is one of the marks of a name.
fn is_mark(byte: u8) -> bool
    ensures { result ≡ (spec.is_low_mark byte || spec.is_high_mark byte) }
{
    let low = matches!(byte, b'-' | b'.' | b'_' | b'~' | b'!' | b'$' | b'&' | b'\'');
    let high = matches!(byte, b'(' | b')' | b'*' | b'+' | b',' | b';' | b'=');
    low || high
}

/// Whether a byte may stand in a name.
fn is_name_byte(byte: u8) -> bool
    ensures { result ≡ spec.is_name_byte byte }
{
    byte.is_ascii_alphanumeric() || is_mark(byte)
}

/// What is owed behind one more byte of a name.
fn next_state(state: NameState, byte: u8) -> NameState
    ensures { result ≡ spec.next_state state byte }
{
    match state {
        NameState::Plain => {
            if byte == b'%' {
                NameState::First
            } else if is_name_byte(byte) {
                NameState::Plain
            } else {
                NameState::Broken
            }
        }
        NameState::First => {
            if byte.is_ascii_hexdigit() {
                NameState::Second
            } else {
                NameState::Broken
            }
        }
        NameState::Second => {
            if byte.is_ascii_hexdigit() {
                NameState::Plain
            } else {
                NameState::Broken
            }
        }
        NameState::Broken => NameState::Broken,
    }
}

/// Whether no digit is owed, and each byte was good.
fn is_plain(state: NameState) -> bool
    ensures { result ≡ spec.is_plain state }
{
    matches!(state, NameState::Plain)
}

/// Whether a text is a registered name.
fn is_name(text: &[u8]) -> bool
    ensures { result ≡ spec.is_name text.now }
{
    let mut state = NameState::Plain;
    for byte in text {
        state = next_state(state, *byte);
    }
    is_plain(state)
}

/// Whether a text is an IPv6 address without a zone (RFC 4291 section 2.2).
pub fn is_ipv6(text: &[u8]) -> bool
    ensures { result ≡ spec.is_ipv6 text.now }
{
    match Ipv6Addr::parse_ascii(text) {
        Ok(_) => true,
        Err(_) => false,
    }
}

/// Whether a byte may stand behind the version of an address to come.
fn is_future_byte(byte: u8) -> bool
    ensures { result ≡ spec.is_future_byte byte }
{
    is_name_byte(byte) || byte == b':'
}

/// Whether each byte may stand behind the version of an address to come.
fn are_future_bytes(text: &[u8]) -> bool
    ensures { result ≡ spec.are_future_bytes text.now }
{
    text.iter().all(|b| is_future_byte(*b))
}

/// Whether a text is `.` and what an address to come may hold.
fn ends_future(text: &[u8]) -> bool
    ensures { result ≡ spec.ends_future text.now }
{
    match text {
        [dot, rest @ ..] => *dot == b'.' && (!rest.is_empty() && are_future_bytes(rest)),
        [] => false,
    }
}

/// How many hexadecimal digits stand in front.
fn hex_len(text: &[u8]) -> usize
    ensures count { result ≡ prefix_len is_ascii_hexdigit text.now }
    ensures within { result ≤ length text.now }
{
    text.iter().take_while(|b| b.is_ascii_hexdigit()).count()
}

/// Whether a text is a version and what ends an address to come.
fn has_version(text: &[u8]) -> bool
    ensures { result ≡ spec.has_version text.now }
{
    let len = hex_len(text);
    len > 0 && ends_future(&text[len..])
}

/// Whether a text is an address of a version to come.
fn is_future(text: &[u8]) -> bool
    ensures { result ≡ spec.is_future text.now }
{
    match text {
        [mark, rest @ ..] => (*mark == b'v' || *mark == b'V') && has_version(rest),
        [] => false,
    }
}

/// How many bytes stand in front of the first colon.
fn name_len(text: &[u8]) -> usize
    ensures count { result ≡ prefix_len spec.is_in_name text.now }
    ensures within { result ≤ length text.now }
{
    text.iter().take_while(|b| **b != b':').count()
}

/// How many bytes stand in front of the first closing bracket.
fn address_len(text: &[u8]) -> usize
    ensures count { result ≡ prefix_len spec.is_in_brackets text.now }
    ensures within { result ≤ length text.now }
{
    text.iter().take_while(|b| **b != b']').count()
}

/// What stands behind the closing bracket that a text begins with.
fn behind_bracket(text: &[u8]) -> Option<&[u8]>
    ensures { option_map (λ rest. rest.now) result ≡ spec.behind_bracket text.now }
{
    match text {
        [_, rest @ ..] => Some(rest),
        [] => None,
    }
}

/// What stands behind an address, whose opening bracket is left out.
fn behind_address(text: &[u8]) -> Option<&[u8]>
    ensures { option_map (λ rest. rest.now) result ≡ spec.behind_address text.now }
{
    let (address, behind) = text.split_at(address_len(text));
    if is_ipv6(address) || is_future(address) {
        return behind_bracket(behind);
    }
    None
}

/// What stands behind a name.
fn behind_name(text: &[u8]) -> Option<&[u8]>
    ensures { option_map (λ rest. rest.now) result ≡ spec.behind_name text.now }
{
    let (name, behind) = text.split_at(name_len(text));
    if is_name(name) { Some(behind) } else { None }
}

/// What stands behind the host that a text begins with.
fn behind_host(text: &[u8]) -> Option<&[u8]>
    ensures { option_map (λ rest. rest.now) result ≡ spec.behind_host text.now }
{
    match text {
        [b'[', address @ ..] => behind_address(address),
        [_, ..] => behind_name(text),
        [] => Some(&[]),
    }
}

/// Whether each byte is a digit.
fn are_digits(text: &[u8]) -> bool
    ensures { result ≡ spec.are_digits text.now }
{
    text.iter().all(|b| b.is_ascii_digit())
}

/// Whether a text is nothing, or a colon and digits.
fn is_port(text: &[u8]) -> bool
    ensures { result ≡ spec.is_port text.now }
{
    match text {
        [colon, digits @ ..] => *colon == b':' && are_digits(digits),
        [] => true,
    }
}

/// Whether a text is a colon and a digit at least.
fn is_full_port(text: &[u8]) -> bool
    ensures { result ≡ spec.is_full_port text.now }
{
    match text {
        [colon, digits @ ..] => *colon == b':' && (!digits.is_empty() && are_digits(digits)),
        [] => false,
    }
}

/// Whether a text is a host, which may be empty, and a port or none. So an authority has no user information here.
#[tactic(auto, unfolding(crate::specs::Authority::is_authority))]
pub fn is_authority(text: &[u8]) -> bool
    ensures { result ≡ spec.is_authority text.now }
{
    match behind_host(text) {
        Some(port) => is_port(port),
        None => false,
    }
}

/// Whether a text is a host and a port, neither of them empty.
pub(crate) fn has_full_port(text: &[u8]) -> bool
    ensures { result ≡ spec.on_rest spec.is_full_port (spec.behind_host text.now) }
{
    match behind_host(text) {
        Some(port) => is_full_port(port),
        None => false,
    }
}

/// Whether a text has a byte in front of its port.
pub(crate) fn has_host(text: &[u8]) -> bool
    ensures { result ≡ spec.has_host text.now }
{
    match text {
        [first, ..] => *first != b':',
        [] => false,
    }
}
