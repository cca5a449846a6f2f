//! Times of `timeout` lines: digits, and a unit or nothing.
ghost use Rattle.std.specs.Prelude.{◌≡◌, ◌≤◌, length};
ghost use Rattle.std.specs.List.{prefix_len};
ghost use Rattle.std.specs.Char.{is_ascii_digit};
ghost use Rattle.cfg_parse.specs.Reading.{Gives};
ghost use Rattle.cfg_parse.specs.Numbers.{most_count, unit_of, in_milliseconds, time_of};

use crate::fault::{CfgKind, LineRefusal};
use crate::sizes::number_up_to;
use cfg_expr::is_word;

/// The most milliseconds of a time, some 24 days.
const MOST_TIME: u64 = 2_147_483_647;

/// The most of a unit that is told apart: so many microseconds are more than the longest time.
const MOST_COUNT: u64 = 4_000_000_000_000;

/// How many digits stand in front.
fn digits_in_front(word: &[u8]) -> usize
    ensures count { result ≡ prefix_len is_ascii_digit word.now }
    ensures within { result ≤ length word.now }
{
    for (i, byte) in word.iter().enumerate() {
        if !byte.is_ascii_digit() {
            return i;
        }
    }
    word.len()
}

/// How many milliseconds one of a unit has, where it has one or more; nothing is a millisecond.
#[tactic(auto, unfolding(crate::specs::Numbers::unit_of))]
fn unit_of(name: &[u8]) -> Option<u64>
    ensures { result ≡ unit_of name.now }
{
    if name.is_empty() || is_word(name, b"ms") {
        Some(1)
    } else if is_word(name, b"s") {
        Some(1_000)
    } else if is_word(name, b"m") {
        Some(60_000)
    } else if is_word(name, b"h") {
        Some(3_600_000)
    } else if is_word(name, b"d") {
        Some(86_400_000)
    } else {
        None
    }
}

/// So many of a unit, in milliseconds; a part of a millisecond counts as one.
#[tactic(auto, unfolding(crate::specs::Numbers::in_milliseconds))]
fn in_milliseconds(unit: &[u8], count: u64) -> Result<u64, LineRefusal>
    requires { count ≤ most_count }
    ensures { Gives (λ time. time) result (in_milliseconds unit.now count) }
{
    if is_word(unit, b"us") {
        return Ok(((count + 999) / 1000).min(MOST_TIME));
    }
    match unit_of(unit) {
        Some(length) => Ok(count.saturating_mul(length).min(MOST_TIME)),
        None => Err(LineRefusal::Refused(CfgKind::Argument)),
    }
}

/// A time in milliseconds: one or more digits, and a unit or nothing (Configuration Manual, section 2.5). What is longer than
/// 2147483647 milliseconds counts as that.
#[tactic(auto, unfolding(crate::specs::Numbers::time_of))]
pub fn time_of(word: &[u8]) -> Result<u64, LineRefusal>
    ensures { Gives (λ time. time) result (time_of word.now) }
{
    let digits = digits_in_front(word);
    let count = number_up_to(&word[..digits], MOST_COUNT)?;
    in_milliseconds(&word[digits..], count)
}
