//! Tokens, as methods and the names of fields are.
ghost use Rattle.std.specs.Prelude.{◌≡◌};
ghost use Rattle.px_bytes.specs.Tokens.{is_token_byte, is_token};

/// Each byte of a token stands at its own place, and a comma at every other place.
static TOKEN_BYTES: [u8; 256] = *b"\
    ,,,,,,,,,,,,,,,,,,,,,,,,,,,,,,,,\
    ,!,#$%&',,*+,-.,0123456789,,,,,,\
    ,ABCDEFGHIJKLMNOPQRSTUVWXYZ,,,^_\
    `abcdefghijklmnopqrstuvwxyz,|,~,\
    ,,,,,,,,,,,,,,,,,,,,,,,,,,,,,,,,\
    ,,,,,,,,,,,,,,,,,,,,,,,,,,,,,,,,\
    ,,,,,,,,,,,,,,,,,,,,,,,,,,,,,,,,\
    ,,,,,,,,,,,,,,,,,,,,,,,,,,,,,,,,";

/// Whether a byte may stand in a token.
#[inline]
fn is_token_byte(byte: u8) -> bool
    ensures { result ≡ is_token_byte byte }
{
    TOKEN_BYTES[byte as usize] != b','
}

/// Whether the bytes are a token: at least one byte, each a letter, a digit or one of
/// ``!#$%&'*+-.^_`|~`` (RFC 9110, section 5.6.2).
pub fn is_token(bytes: &[u8]) -> bool
    ensures { result ≡ is_token bytes.now }
{
    for byte in bytes {
        if !is_token_byte(*byte) {
            return false;
        }
    }
    !bytes.is_empty()
}
