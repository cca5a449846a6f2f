//! The rule of an `fcgi-param` line.
ghost use Rattle.std.specs.Prelude.{◌≡◌, Ok, IfOk};
ghost use Rattle.std.specs.List.{list_all};
ghost use Rattle.fcgi_model.specs.Application.{param_field};
ghost use Rattle.http_rules.specs.Valid.{IsParam, is_param_byte};
ghost use Rattle.http_rules.specs.declared.rule.action.Direction.TheVariants as directions;
ghost use Rattle.http_rules.specs.Rule.Valid.{IsGoodRule, IsMadeName};
ghost use Rattle.cfg_parse.specs.Action.Faults.{Gives, ReadsRule};
ghost use Rattle.cfg_parse.specs.Action.Params.{is_param, param_of, value_at, param_set, param_rule};

use crate::action::arguments::{argument, format_at};
use crate::action::fault::{RuleFault, RuleKind};
use crate::action::texts::condition;
use cfg_expr::condition::{AclList, Cond, WordsLeft};
use cfg_expr::{Side, is_word};
use http_rules::rule::{Action, Fmt, Rule, Text};
use px_bytes::fold;
use px_link::OutOfMemory;
use px_pattern::Patterns;
use std::alloc::Global;

/// The most bytes of a pair's name.
const MAX_PARAM: usize = 64;

/// A byte of a pair's name.
fn is_param_byte(byte: u8) -> bool
    ensures { result ≡ is_param_byte byte }
{
    byte.is_ascii_uppercase() || byte.is_ascii_digit() || byte == b'_'
}

/// Each byte is one of a pair's name.
fn has_param_bytes(word: &[u8]) -> bool
    ensures { result ≡ list_all is_param_byte word.now }
{
    word.iter().all(|byte| is_param_byte(*byte))
}

/// The name of a pair that a line may tell.
#[tactic(auto, unfolding(crate::specs::Action::Params::is_param))]
fn is_param(word: &[u8]) -> bool
    ensures { result ≡ is_param word.now }
{
    !word.is_empty()
        && word.len() <= MAX_PARAM
        && has_param_bytes(word)
        && !is_word(word, b"HTTP_PROXY")
}

/// The same, or a refusal.
#[tactic(auto, using(crate::proofs::ApplicationLemmas::params))]
fn param_of(word: &[u8]) -> Result<&[u8], RuleFault>
    ensures name { Gives (λ name. name.now) result (param_of word.now) }
    ensures good { IfOk result (λ name. IsParam name.now) }
{
    if !is_param(word) {
        return Err(RuleFault::Refused(RuleKind::Argument));
    }
    Ok(word)
}

/// The field that tells the value of a pair.
pub fn param_field(alloc: Global, name: &[u8]) -> Result<Text, OutOfMemory>
    ensures { IfOk result (λ field. field ≡ param_field name.now) }
{
    let mut field = Vec::from_slice(alloc, b"_")?;
    field.extend_from_slice(name)?;
    fold(&mut field);
    Text::copy(alloc, &field)
}

/// FMT, and a condition or none.
#[tactic(auto, unfolding(crate::specs::Action::Params::value_at))]
fn value_at<P: Patterns>(
    alloc: Global,
    lines: &AclList,
    words: WordsLeft<'_>,
    pats: &mut P,
) -> Result<(Fmt, Option<Cond>), RuleFault>
    ensures { ReadsRule (λ value. (value.0, value.1)) (value_at lines.now words.entry) (P.refusals pats.old) (P.refusals pats.new) (P.last_refused pats.new) result }
{
    let (fmt, others) = format_at(alloc, Side::Request, words, pats)?;
    match condition(alloc, Side::Request, lines, others, pats) {
        Ok(cond) => Ok((fmt, cond)),
        Err(fault) => {
            drop(fmt);
            Err(fault)
        }
    }
}

/// The rule that makes the field of a pair.
#[tactic(auto, using(crate::proofs::ApplicationLemmas::params))]
fn param_set(alloc: Global, name: &[u8], fmt: Fmt, cond: Option<Cond>) -> Result<Rule, RuleFault>
    ensures rule { Gives (λ rule. rule) result (Ok (param_set name.now fmt cond)) }
    ensures good { IsParam name.now → IfOk result (IsGoodRule directions.Request) }
{
    let field = param_field(alloc, name)?;
    Ok(Rule {
        action: Action::SetHeader(field, fmt),
        cond,
    })
}

/// The name of the pair and the rule that the words behind `fcgi-param` say, below these `acl` lines.
#[tactic(auto, unfolding(crate::specs::Action::Params::param_rule))]
pub fn read_param<'w, P: Patterns>(
    alloc: Global,
    lines: &AclList,
    words: WordsLeft<'w>,
    pats: &mut P,
) -> Result<(&'w [u8], Rule), RuleFault>
    ensures reads { ReadsRule (λ found. (found.0.now, found.1)) (param_rule lines.now words.entry) (P.refusals pats.old) (P.refusals pats.new) (P.last_refused pats.new) result }
    ensures named { IfOk result (λ found. IsParam found.0.now) }
    ensures good { IfOk result (λ found. IsGoodRule directions.Request found.1) }
{
    let (word, others) = argument(words)?;
    let name = param_of(word)?;
    let (fmt, cond) = value_at(alloc, lines, others, pats)?;
    let rule = param_set(alloc, name, fmt, cond)?;
    Ok((name, rule))
}
