//! The texts of numbers, without leading zeros.
ghost use Rattle.std.specs.Prelude.{◌≡◌, ◌<◌, ◌≤◌, length, take, drop, false};
ghost use Rattle.std.specs.Fmt.{decimal, signed_decimal, digits, digit_glyph};

use itoa::Buffer;

/// The hexadecimal digit that stands for a number below 16, in lower case.
#[inline]
fn hex_digit(value: u32) -> u8
    requires { value < 16 }
    ensures { result ≡ digit_glyph false value }
{
    if value < 10 {
        b'0' + value as u8
    } else {
        b'a' + (value - 10) as u8
    }
}

/// Writes a text at the front, and tells its length. The bytes behind it stay.
#[inline]
fn write_text(text: &[u8], into: &mut [u8; 20]) -> usize
    requires { length text.now ≤ 20 }
    ensures size { result ≡ length text.now }
    ensures text { take result into.new ≡ text.now }
    ensures rest { drop result into.new ≡ drop result into.old }
{
    let len = text.len();
    into[..len].copy_from_slice(text);
    len
}

/// Writes the decimal text of a number at the front, and tells its length: 1 to 20 bytes. The bytes
/// behind it stay.
pub fn write_decimal(n: u64, into: &mut [u8; 20]) -> usize
    ensures within { result ≤ 20 }
    ensures size { result ≡ length (decimal n) }
    ensures text { take result into.new ≡ decimal n }
    ensures rest { drop result into.new ≡ drop result into.old }
{
    let mut digits = Buffer::new();
    write_text(digits.format(n).as_bytes(), into)
}

/// Writes the decimal text of a number at the front, with a minus where it is negative, and tells its
/// length: 1 to 20 bytes. The bytes behind it stay.
pub fn write_signed(n: i64, into: &mut [u8; 20]) -> usize
    ensures within { result ≤ 20 }
    ensures size { result ≡ length (signed_decimal n) }
    ensures text { take result into.new ≡ signed_decimal n }
    ensures rest { drop result into.new ≡ drop result into.old }
{
    let mut text = Buffer::new();
    write_text(text.format(n).as_bytes(), into)
}

/// Writes the hexadecimal text of a number at the front, in lower case, and tells its length: 1 to 8
/// bytes. The bytes behind it stay.
pub fn write_hex(n: u32, into: &mut [u8; 8]) -> usize
    ensures within { result ≤ 8 }
    ensures size { result ≡ length (digits 16 false n) }
    ensures text { take result into.new ≡ digits 16 false n }
    ensures rest { drop result into.new ≡ drop result into.old }
{
    let mut text = [0; 8];
    let mut at = 8;
    let mut left = n;
    while left >= 16 {
        at -= 1;
        text[at] = hex_digit(left % 16);
        left /= 16;
    }
    at -= 1;
    text[at] = hex_digit(left);
    let len = 8 - at;
    into[..len].copy_from_slice(&text[at..]);
    len
}
