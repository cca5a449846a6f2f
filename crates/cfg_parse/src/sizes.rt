//! Numbers of `tune` and `timeout` lines.
ghost use Rattle.std.specs.Prelude.{◌≤◌, ◌<◌, IfOk};
ghost use Rattle.cfg_parse.specs.Reading.{Gives};
ghost use Rattle.cfg_parse.specs.Numbers.{number_up_to, size_of};

use crate::fault::{CfgKind, LineRefusal};

/// A number in any number of digits, or `most` where it is larger.
#[tactic(auto, unfolding(crate::specs::Numbers::number_up_to))]
pub fn number_up_to(word: &[u8], most: u64) -> Result<u64, LineRefusal>
    requires { most ≤ 1000000000000000 }
    ensures value { Gives (λ number. number) result (number_up_to most word.now) }
    ensures within { IfOk result (λ number. number ≤ most) }
{
    if word.is_empty() {
        return Err(LineRefusal::Refused(CfgKind::Argument));
    }
    let mut number: u64 = 0;
    for byte in word {
        if !byte.is_ascii_digit() {
            return Err(LineRefusal::Refused(CfgKind::Argument));
        }
        number = (number * 10 + u64::from(*byte - b'0')).min(most);
    }
    Ok(number)
}

/// A number within limits.
#[tactic(auto, unfolding(crate::specs::Numbers::size_of))]
pub fn size_of(word: &[u8], least: u32, most: u32) -> Result<u32, LineRefusal>
    requires { most < 1000000 }
    ensures { Gives (λ size. size) result (size_of least most word.now) }
{
    let size = number_up_to(word, u64::from(most) + 1)? as u32;
    if size < least || size > most {
        return Err(LineRefusal::Refused(CfgKind::Limit));
    }
    Ok(size)
}
