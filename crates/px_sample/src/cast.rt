//! Casts of samples: between numbers, truth values and bytes.
ghost use Rattle.std.specs.Prelude.{◌≡◌, option_map, option_and_then, Some};
ghost use Rattle.px_sample.specs.Sample.{Bytes, value_in, within};
ghost use Rattle.std.specs.Fmt.{signed_decimal};
ghost use Rattle.px_sample.specs.Cast.{magnitude_of, number_of_text, number_of, truth_of, text_of};

use crate::{Buf, Sample};
use itoa::Buffer;

/// What a number must not pass before another digit is put behind it.
const TENTH: u64 = (1 << 63) / 10;

/// The number that digits write, up to 2 ^ 63.
fn magnitude(digits: &[u8]) -> Option<u64>
    ensures { result ≡ magnitude_of digits.now }
{
    if digits.is_empty() {
        return None;
    }
    let mut value = 0u64;
    for digit in digits {
        if !digit.is_ascii_digit() {
            return None;
        }
        if value > TENTH {
            return None;
        }
        value = value * 10 + u64::from(*digit - b'0');
    }
    if value > 1 << 63 {
        return None;
    }
    Some(value)
}

/// The number that a text writes: an optional `-` and digits, within 64 bits. None for any other text.
pub fn number_of_bytes(text: &[u8]) -> Option<i64>
    ensures { result ≡ number_of_text text.now }
{
    if text.first() == Some(&b'-') {
        let value = magnitude(&text[1..])?;
        if value == 1 << 63 {
            return Some(i64::MIN);
        }
        return Some(-(value as i64));
    }
    let value = magnitude(text)?;
    if value >= 1 << 63 {
        return None;
    }
    Some(value as i64)
}

/// The sample as a number: a truth value is 1 or 0, bytes are one where they are an optional `-` and digits
/// within 64 bits. None where it is absent or none of these.
pub fn number_in(sample: Sample, buf: &Buf) -> Option<i64>
    ensures { result ≡ option_and_then number_of (value_in sample buf.now.bytes) }
{
    match sample {
        Sample::Absent => None,
        Sample::Truth(truth) => Some(i64::from(truth)),
        Sample::Number(number) => Some(number),
        Sample::InBuf => number_of_bytes(buf.bytes()),
    }
}

/// The sample as a truth value: a number is true unless it is 0.
pub fn truth_in(sample: Sample, buf: &Buf) -> Option<bool>
    ensures { result ≡ option_and_then truth_of (value_in sample buf.now.bytes) }
{
    match sample {
        Sample::Absent => None,
        Sample::Truth(truth) => Some(truth),
        Sample::Number(number) => Some(number != 0),
        Sample::InBuf => Some(number_of_bytes(buf.bytes())? != 0),
    }
}

/// Writes the decimal text of a number over what the buffer holds.
fn write_number(number: i64, buf: &mut Buf) -> Sample
    ensures value { value_in result buf.new.bytes ≡ within buf.old.cap (Some (Bytes (signed_decimal number))) }
    ensures cap { buf.new.cap ≡ buf.old.cap }
{
    let mut digits = Buffer::new();
    buf.clear();
    if buf.push(digits.format(number).as_bytes()) {
        Sample::InBuf
    } else {
        Sample::Absent
    }
}

/// Makes bytes of the sample: a number is its decimal text. Absent where there is no sample, or where the text
/// is longer than the buffer.
pub fn into_text(sample: Sample, buf: &mut Buf) -> Sample
    ensures value { value_in result buf.new.bytes ≡ within buf.old.cap (option_map (λ v. Bytes (text_of v)) (value_in sample buf.old.bytes)) }
    ensures cap { buf.new.cap ≡ buf.old.cap }
{
    match sample {
        Sample::Absent => Sample::Absent,
        Sample::Truth(truth) => write_number(i64::from(truth), buf),
        Sample::Number(number) => write_number(number, buf),
        Sample::InBuf => {
            let _held = buf.bytes();
            Sample::InBuf
        }
    }
}
