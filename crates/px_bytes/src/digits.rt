//! Numbers read from digits.
ghost use Rattle.std.specs.Prelude.{◌≡◌, ◌≤◌, ◌<◌, ◌^◌, ◌↔◌, length, true, false, IsTrue, IfSome, IfNone};
ghost use Rattle.std.specs.Char.{digit_value, is_ascii_hexdigit};
ghost use Rattle.px_bytes.specs.Numbers.{decimal_of, hex_of, most_decimal_digits, most_hex_digits};

/// Whether there are 1 to `digits` bytes.
#[inline]
fn has_len(bytes: &[u8], digits: u32) -> bool
    ensures { IsTrue result ↔ ((1 ≤ length bytes.now) × (length bytes.now ≤ digits)) }
{
    1 <= bytes.len() && bytes.len() <= digits as usize
}

/// The number that 1 to `digits` decimal digits write, where `digits` is at most 18. Leading zeros
/// are digits; a sign, a blank or one digit more gives `None`.
pub fn read_decimal(bytes: &[u8], digits: u32) -> Option<u64>
    requires { digits ≤ most_decimal_digits }
    ensures value { result ≡ decimal_of digits bytes.now }
    ensures small { IfSome result (λ n. n < 10 ^ digits) }
{
    if !has_len(bytes, digits) {
        return None;
    }
    let mut number: u64 = 0;
    for byte in bytes {
        if !byte.is_ascii_digit() {
            return None;
        }
        number = number * 10 + (*byte - b'0') as u64;
    }
    Some(number)
}

/// The number that a hexadecimal digit of either case stands for.
pub fn hex_value(byte: u8) -> Option<u32>
    ensures digit { IfSome result (λ d. (is_ascii_hexdigit byte ≡ true) × (digit_value byte ≡ d) × (d < 16)) }
    ensures other { IfNone result (is_ascii_hexdigit byte ≡ false) }
    ensures past { IfNone result (16 ≤ digit_value byte) }
{
    match byte {
        b'0'..=b'9' => Some((byte - b'0') as u32),
        b'A'..=b'F' => Some((byte - b'A') as u32 + 10),
        b'a'..=b'f' => Some((byte - b'a') as u32 + 10),
        _ => None,
    }
}

/// The number that 1 to `digits` hexadecimal digits of either case write, where `digits` is at most
/// 16. Leading zeros are digits; a sign, a prefix or one digit more gives `None`.
pub fn read_hex(bytes: &[u8], digits: u32) -> Option<u64>
    requires { digits ≤ most_hex_digits }
    ensures value { result ≡ hex_of digits bytes.now }
    ensures small { IfSome result (λ n. n < 16 ^ digits) }
{
    if !has_len(bytes, digits) {
        return None;
    }
    let mut number: u64 = 0;
    for byte in bytes {
        match hex_value(*byte) {
            Some(digit) => number = number * 16 + digit as u64,
            None => return None,
        }
    }
    Some(number)
}
