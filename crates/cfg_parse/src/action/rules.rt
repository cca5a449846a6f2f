//! A rule: an action, and a condition or none.
ghost use Rattle.std.specs.Prelude.{IfOk};
ghost use Rattle.http_rules.specs.declared.rule.action.ActionName.{ActionName};
ghost use Rattle.http_rules.specs.Rule.Valid.{IsGoodRule};
ghost use Rattle.cfg_parse.specs.Action.Faults.{Gives, ReadsRule};
ghost use Rattle.cfg_parse.specs.Action.Good.{IsNamed, AreGoodParts};
ghost use Rattle.cfg_parse.specs.Action.Rules.{rule_made, rule_of};

use crate::action::actions::action_parts;
use crate::action::arguments::argument;
use crate::action::fault::RuleFault;
use crate::action::names::{placed_action, side_of};
use crate::action::parts::{ActionParts, made_of};
use crate::action::texts::condition;
use cfg_expr::condition::{AclList, Cond, WordsLeft};
use http_rules::rule::{Direction, Rule};
use px_pattern::Patterns;
use std::alloc::Global;

/// The rule of what is known of its action, in which nothing may lack, and of its condition.
fn rule_made(parts: ActionParts, cond: Option<Cond>) -> Result<Rule, RuleFault>
    ensures gives { Gives (λ rule. rule) result ((rule_made parts cond).gives) }
    ensures good { (name : ActionName) → AreGoodParts name parts → IfOk result (λ rule. IsNamed name rule.action) }
{
    match made_of(parts) {
        Ok(action) => Ok(Rule { action, cond }),
        Err(fault) => {
            drop(cond);
            Err(fault)
        }
    }
}

/// The rule that the words behind `http-request`, `http-response` or `http-after-response` say, below these `acl` lines.
/// Refused with Keyword where the action is unknown or rules of the direction don't have it; with FramingName where it makes
/// a field that frames a message; with Argument, Expr, Acl or Limit as its words are. The first refused word decides; what
/// lacks counts as behind the last.
#[tactic(auto, unfolding(crate::specs::Action::Rules::rule_of))]
pub fn read_rule<P: Patterns>(
    alloc: Global,
    direction: Direction,
    lines: &AclList,
    words: WordsLeft<'_>,
    pats: &mut P,
) -> Result<Rule, RuleFault>
    ensures reads { ReadsRule (λ rule. rule) (rule_of direction lines.now words.entry) (P.refusals pats.old) (P.refusals pats.new) (P.last_refused pats.new) result }
    ensures good { IfOk result (IsGoodRule direction) }
{
    let (word, others) = argument(words)?;
    let name = placed_action(direction, word)?;
    let (parts, others) = action_parts(alloc, direction, name, word, others, pats)?;
    match condition(alloc, side_of(direction), lines, others, pats) {
        Ok(cond) => {
            let rule = rule_made(parts, cond)?;
            Ok(rule)
        }
        Err(fault) => {
            drop(parts);
            Err(fault)
        }
    }
}
