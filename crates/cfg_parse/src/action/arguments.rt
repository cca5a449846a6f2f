//! The arguments of a rule, word by word.
ghost use Rattle.std.specs.Prelude.{◌≡◌, option_map, IfOk, Ok};
ghost use Rattle.std.specs.List.{list_any};
ghost use Rattle.std.specs.Str.{bytes_eq, str_to_ascii_lowercase};
ghost use Rattle.http_rules.specs.Rule.Valid.{IsName, IsMadeName, IsCode, IsVariableName};
ghost use Rattle.cfg_parse.specs.Action.Faults.{Gives, ReadsRule, argument};
ghost use Rattle.cfg_parse.specs.Action.Arguments.{name_of, made_name, made_name_at, is_name, is_framing, code_of, variable_behind, bracketed};
ghost use Rattle.cfg_parse.specs.Action.Asked.{format_at, pattern_at};

use crate::action::fault::{RuleFault, RuleKind};
use crate::action::texts::{format, pattern};
use cfg_expr::condition::WordsLeft;
use cfg_expr::{Side, variable_of};
use http_model::{FRAMING_NAMES, MAX_NAME};
use http_rules::rule::{Fmt, Scope, Text};
use px_bytes::{fold, is_token, read_decimal};
use px_pattern::{Pat, Patterns};
use std::alloc::Global;

/// The most digits of a number.
pub const MAX_DIGITS: u32 = 18;

/// The next word and those behind it. A missing one is refused.
pub fn argument(mut words: WordsLeft<'_>) -> Result<(&[u8], WordsLeft<'_>), RuleFault>
    ensures { Gives (λ taken. (taken.0.now, taken.1)) result (argument words.entry) }
{
    match words.next() {
        Some(word) => Ok((word, words)),
        None => Err(RuleFault::Refused(RuleKind::Argument)),
    }
}

/// A token of 1 to 255 bytes.
fn is_name(word: &[u8]) -> bool
    ensures { result ≡ is_name word.now }
{
    is_token(word) && word.len() <= MAX_NAME
}

/// A word in lower case.
fn lowered(alloc: Global, word: &[u8]) -> Result<Text, RuleFault>
    ensures { Gives (λ name. name) result (Ok (str_to_ascii_lowercase word.now)) }
{
    let mut name = Vec::from_slice(alloc, word)?;
    fold(&mut name);
    Ok(Text::copy(alloc, &name)?)
}

/// The name of a field, in lower case.
pub fn name_of(alloc: Global, word: &[u8]) -> Result<Text, RuleFault>
    ensures name { Gives (λ name. name) result (name_of word.now) }
    ensures good { IfOk result IsName }
{
    if !is_name(word) {
        return Err(RuleFault::Refused(RuleKind::Argument));
    }
    let name = lowered(alloc, word)?;
    Ok(name)
}

/// The name is in a table.
fn is_among(name: &[u8], table: &[&'static [u8]]) -> bool
    ensures { result ≡ list_any (λ entry. bytes_eq entry.now name.now) table.now }
{
    table.contains(&name)
}

/// The name, which is in lower case, frames a message or speaks of its connection.
#[tactic(auto, unfolding(crate::specs::Action::Arguments::is_framing))]
fn is_framing(name: &[u8]) -> bool
    ensures { result ≡ is_framing name.now }
{
    is_among(name, &FRAMING_NAMES)
}

/// The name of a field that a rule makes, in lower case.
#[tactic(auto, unfolding(crate::specs::Action::Arguments::made_name, crate::specs::Action::Arguments::is_framing))]
pub fn made_name(alloc: Global, word: &[u8]) -> Result<Text, RuleFault>
    ensures name { Gives (λ name. name) result (made_name word.now) }
    ensures good { IfOk result IsMadeName }
{
    let name = name_of(alloc, word)?;
    if is_framing(name.as_slice()) {
        drop(name);
        return Err(RuleFault::Refused(RuleKind::FramingName));
    }
    Ok(name)
}

/// The name of a field that a rule makes, and the words behind it.
#[tactic(auto, unfolding(crate::specs::Action::Arguments::made_name_at))]
pub fn made_name_at(alloc: Global, words: WordsLeft<'_>) -> Result<(Text, WordsLeft<'_>), RuleFault>
    ensures name { Gives (λ taken. (taken.0, taken.1)) result (made_name_at words.entry) }
    ensures good { IfOk result (λ taken. IsMadeName taken.0) }
{
    let (word, others) = argument(words)?;
    let name = made_name(alloc, word)?;
    Ok((name, others))
}

/// A code within bounds.
pub fn code_of(least: u16, most: u16, word: &[u8]) -> Result<u16, RuleFault>
    ensures code { Gives (λ code. code) result (code_of least most word.now) }
    ensures good { IfOk result (IsCode least most) }
{
    match read_decimal(word, MAX_DIGITS) {
        Some(n) if n >= u64::from(least) && n <= u64::from(most) => Ok(n as u16),
        _ => Err(RuleFault::Refused(RuleKind::Argument)),
    }
}

/// What stands in brackets, of which the first is the end of what the word begins with.
#[tactic(auto, unfolding(crate::specs::Action::Arguments::bracketed))]
fn bracketed<'t>(begin: &[u8], word: &'t [u8]) -> Option<&'t [u8]>
    ensures { option_map (λ text. text.now) result ≡ bracketed begin.now word.now }
{
    let stands = word.starts_with(begin) && word.ends_with(b")");
    if !stands {
        return None;
    }
    if word.len() <= begin.len() {
        return None;
    }
    Some(&word[begin.len()..word.len() - 1])
}

/// `SCOPE.NAME` in brackets.
#[tactic(auto, using(crate::proofs::ActionLemmas::NameLemmas::variable_named))]
pub fn variable_behind(alloc: Global, begin: &[u8], word: &[u8]) -> Result<(Scope, Text), RuleFault>
    ensures variable { Gives (λ variable. (variable.0, variable.1)) result (variable_behind begin.now word.now) }
    ensures good { IfOk result (λ variable. IsVariableName variable.1) }
{
    let Some(text) = bracketed(begin, word) else {
        return Err(RuleFault::Refused(RuleKind::Argument));
    };
    match variable_of(text) {
        Some((scope, name)) => Ok((scope, Text::copy(alloc, name)?)),
        None => Err(RuleFault::Refused(RuleKind::Argument)),
    }
}

/// The next word as a format, and those behind it.
#[tactic(auto, unfolding(crate::specs::Action::Asked::format_at))]
pub fn format_at<'w, P: Patterns>(
    alloc: Global,
    side: Side,
    words: WordsLeft<'w>,
    pats: &mut P,
) -> Result<(Fmt, WordsLeft<'w>), RuleFault>
    ensures { ReadsRule (λ taken. (taken.0, taken.1)) (format_at side words.entry) (P.refusals pats.old) (P.refusals pats.new) (P.last_refused pats.new) result }
{
    let (word, others) = argument(words)?;
    let fmt = format(alloc, side, word, pats)?;
    Ok((fmt, others))
}

/// The next word as a pattern, and those behind it.
#[tactic(auto, unfolding(crate::specs::Action::Asked::pattern_at))]
pub fn pattern_at<'w, P: Patterns>(
    alloc: Global,
    words: WordsLeft<'w>,
    pats: &mut P,
) -> Result<(Pat, WordsLeft<'w>), RuleFault>
    ensures { ReadsRule (λ taken. (taken.0, taken.1)) (pattern_at words.entry) (P.refusals pats.old) (P.refusals pats.new) (P.last_refused pats.new) result }
{
    let (word, others) = argument(words)?;
    let pat = pattern(alloc, word, pats)?;
    Ok((pat, others))
}
