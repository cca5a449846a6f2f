//! The blanks around a value: spaces and tabs.
ghost use Rattle.std.specs.Prelude.{◌≡◌, ◌≤◌, length};
ghost use Rattle.std.specs.List.{prefix_len};
ghost use Rattle.px_bytes.specs.Blanks.{is_blank, trimmed, trimmed_behind};

/// Whether a byte is a space or a tab.
#[inline]
fn is_blank(byte: u8) -> bool
    ensures { result ≡ is_blank byte }
{
    byte == b' ' || byte == b'\t'
}

/// How many blanks stand in front.
pub(crate) fn blanks_in_front(bytes: &[u8]) -> usize
    ensures count { result ≡ prefix_len is_blank bytes.now }
    ensures within { result ≤ length bytes.now }
{
    bytes.iter().take_while(|byte| is_blank(**byte)).count()
}

/// The bytes without the blanks at their end.
pub(crate) fn trim_behind(bytes: &[u8]) -> &[u8]
    ensures { result.now ≡ trimmed_behind bytes.now }
{
    let mut end = bytes.len();
    while end > 0 && is_blank(bytes[end - 1]) {
        end -= 1;
    }
    &bytes[..end]
}

/// The bytes without the spaces and tabs at both ends (RFC 9110, section 5.6.3). No other byte is
/// taken off, so a carriage return stays.
pub fn trim(bytes: &[u8]) -> &[u8]
    ensures { result.now ≡ trimmed bytes.now }
{
    trim_behind(&bytes[blanks_in_front(bytes)..])
}
