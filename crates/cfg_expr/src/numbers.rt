//! Numbers, names and truth values that stand as arguments.
ghost use Rattle.std.specs.Prelude.{◌≡◌};
ghost use Rattle.cfg_expr.specs.Faults.{Gives};
ghost use Rattle.cfg_expr.specs.Fetches.{number, count, occurrence, field_name, truth};

use crate::{TextFault, TextKind, is_word};
use px_bytes::is_token;
use px_sample::{Text, number_of_bytes};
use std::alloc::Global;

/// The most bytes of a field's name.
const MAX_NAME: usize = 255;

/// An optional `-` and digits, within 64 bits.
pub(crate) fn number(text: &[u8]) -> Result<i64, TextFault>
    ensures { Gives (λ n. n) result (number text.now) }
{
    match number_of_bytes(text) {
        Some(n) => Ok(n),
        None => Err(TextFault::Refused(TextKind::Expr)),
    }
}

/// A number that counts something.
pub(crate) fn count(text: &[u8]) -> Result<i64, TextFault>
    ensures { Gives (λ n. n) result (count text.now) }
{
    let n = number(text)?;
    if n >= 0 {
        Ok(n)
    } else {
        Err(TextFault::Refused(TextKind::Expr))
    }
}

/// Which value of a field.
pub(crate) fn occurrence(text: &[u8]) -> Result<i64, TextFault>
    ensures { Gives (λ n. n) result (occurrence text.now) }
{
    let n = number(text)?;
    if n == 0 {
        Err(TextFault::Refused(TextKind::Expr))
    } else {
        Ok(n)
    }
}

/// The name of a field.
pub(crate) fn field_name(alloc: Global, text: &[u8]) -> Result<Text, TextFault>
    ensures { Gives (λ name. name) result (field_name text.now) }
{
    if is_token(text) && text.len() <= MAX_NAME {
        Ok(Text::copy(alloc, text)?)
    } else {
        Err(TextFault::Refused(TextKind::Expr))
    }
}

/// `true` or `1`, `false` or `0`.
#[tactic(auto, unfolding(crate::specs::Fetches::truth))]
pub(crate) fn truth(text: &[u8]) -> Result<bool, TextFault>
    ensures { Gives (λ b. b) result (truth text.now) }
{
    if is_word(text, b"true") || is_word(text, b"1") {
        Ok(true)
    } else if is_word(text, b"false") || is_word(text, b"0") {
        Ok(false)
    } else {
        Err(TextFault::Refused(TextKind::Expr))
    }
}
