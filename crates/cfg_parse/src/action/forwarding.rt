//! The rule of `option forwardfor`.
ghost use Rattle.std.specs.Prelude.{◌≡◌, IfOk};
ghost use Rattle.http_rules.specs.declared.rule.action.Direction.TheVariants as directions;
ghost use Rattle.http_rules.specs.Rule.Valid.{IsGoodRule, IsMadeName};
ghost use Rattle.cfg_parse.specs.Action.Faults.{Gives, ReadsRule};
ghost use Rattle.cfg_parse.specs.Action.Arguments.{ended, last_name, forwarded_name};
ghost use Rattle.cfg_parse.specs.Action.Forwarding.{forwarding_rule};

use crate::action::arguments::{made_name, made_name_at};
use crate::action::fault::{RuleFault, RuleKind};
use crate::action::texts::format;
use cfg_expr::condition::WordsLeft;
use cfg_expr::{Side, is_word};
use http_rules::rule::{Action, Rule, Text};
use px_pattern::Patterns;
use std::alloc::Global;

/// A name behind which nothing follows.
fn ended(name: Text, mut words: WordsLeft<'_>) -> Result<Text, RuleFault>
    ensures name { Gives (λ name. name) result (ended name words.entry) }
    ensures good { IsMadeName name → IfOk result IsMadeName }
{
    match words.next() {
        Some(_) => {
            drop(name);
            Err(RuleFault::Refused(RuleKind::Argument))
        }
        None => Ok(name),
    }
}

/// The last word as the name of a field that a rule makes.
#[tactic(auto, unfolding(crate::specs::Action::Arguments::last_name))]
fn last_name(alloc: Global, words: WordsLeft<'_>) -> Result<Text, RuleFault>
    ensures name { Gives (λ name. name) result (last_name words.entry) }
    ensures good { IfOk result IsMadeName }
{
    let (name, others) = made_name_at(alloc, words)?;
    ended(name, others)
}

/// The name behind `header`, or `x-forwarded-for`.
#[tactic(auto, unfolding(crate::specs::Action::Arguments::forwarded_name))]
fn forwarded_name(alloc: Global, mut words: WordsLeft<'_>) -> Result<Text, RuleFault>
    ensures name { Gives (λ name. name) result (forwarded_name words.entry) }
    ensures good { IfOk result IsMadeName }
{
    let Some(word) = words.next() else {
        return made_name(alloc, b"x-forwarded-for");
    };
    if !is_word(word, b"header") {
        return Err(RuleFault::Refused(RuleKind::Argument));
    }
    last_name(alloc, words)
}

/// The rule of `option forwardfor`, by the words behind that: `add-header NAME %[src]`.
#[tactic(auto, unfolding(crate::specs::Action::Forwarding::forwarding_rule))]
pub fn read_forwarding<P: Patterns>(
    alloc: Global,
    words: WordsLeft<'_>,
    pats: &mut P,
) -> Result<Rule, RuleFault>
    ensures reads { ReadsRule (λ rule. rule) (forwarding_rule words.entry) (P.refusals pats.old) (P.refusals pats.new) (P.last_refused pats.new) result }
    ensures good { IfOk result (IsGoodRule directions.Request) }
{
    let name = forwarded_name(alloc, words)?;
    match format(alloc, Side::Request, b"%[src]", pats) {
        Ok(fmt) => Ok(Rule {
            action: Action::AddHeader(name, fmt),
            cond: None,
        }),
        Err(fault) => {
            drop(name);
            Err(fault)
        }
    }
}
