//! Pieces of a line: words, numbers, and bytes whose number is told.
ghost use Rattle.std.specs.Prelude.{◌≡◌, ◌+◌, ◌-◌, ◌*◌, ◌^◌, true, min, option_map};
ghost use Rattle.std.specs.Char.{digit_value, is_ascii_digit};
ghost use Rattle.std.specs.Option.{option_copied};
ghost use Rattle.std.specs.Str.{bytes_eq};
ghost use Rattle.rec_format.specs.Pieces.{before, behind, begins_number, number_of, counted};

/// The bytes in front of the first of these, or all, and the bytes behind it, if there is one.
pub(crate) fn split(bytes: &[u8], byte: u8) -> (&[u8], Option<&[u8]>)
    ensures front { result.0.now ≡ before byte bytes.now }
    ensures back { option_copied result.1 ≡ behind byte bytes.now }
{
    for (at, found) in bytes.iter().enumerate() {
        if *found == byte {
            return (&bytes[..at], Some(&bytes[at + 1..]));
        }
    }
    (bytes, None)
}

/// Whether a text is a word.
pub(crate) fn is_word(text: &[u8], word: &[u8]) -> bool
    ensures { result ≡ bytes_eq text.now word.now }
{
    text == word
}

/// Whether there is a byte, and several do not begin with `0`.
fn begins_number(word: &[u8]) -> bool
    ensures { result ≡ begins_number word.now }
{
    match word {
        [] => false,
        [_] => true,
        [first, ..] => *first != b'0',
    }
}

/// The number with one more digit behind it, or the last value where it is greater.
fn add_digit(number: u64, digit: u8) -> u64
    requires { is_ascii_digit digit ≡ true }
    ensures { result ≡ min (number * 10 + digit_value digit) (2 ^ 64 - 1) }
{
    number
        .saturating_mul(10)
        .saturating_add((digit - b'0') as u64)
}

/// The number that a word writes in digits, several of which do not begin with `0`. From the last value on it is that.
#[tactic(auto, using(crate::proofs::Capped::capped))]
pub(crate) fn number(word: &[u8]) -> Option<u64>
    ensures { result ≡ number_of word.now }
{
    if !begins_number(word) {
        return None;
    }
    let mut number: u64 = 0;
    for byte in word {
        if !byte.is_ascii_digit() {
            return None;
        }
        number = add_digit(number, *byte);
    }
    Some(number)
}

/// So many bytes and an LF in front, and what stands behind them.
pub(crate) fn counted(text: &[u8], n: u64) -> Option<(&[u8], &[u8])>
    ensures { option_map (λ parts. (parts.0.now, parts.1.now)) result ≡ counted n text.now }
{
    if n >= text.len() as u64 {
        return None;
    }
    let (bytes, rest) = text.split_at(n as usize);
    if rest[0] == b'\n' {
        Some((bytes, &rest[1..]))
    } else {
        None
    }
}
