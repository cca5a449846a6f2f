//! Actions on a request line.
ghost use Rattle.std.specs.Prelude.{IfOk};
ghost use Rattle.cfg_parse.specs.Action.Faults.{ReadsRule};
ghost use Rattle.cfg_parse.specs.Action.Good.{IsNamed};
ghost use Rattle.cfg_parse.specs.Action.Actions.{set_at, changed_at, line_at};

use crate::action::arguments::format_at;
use crate::action::fault::{RuleFault, RuleKind};
use crate::action::fields::pattern_and_format;
use cfg_expr::Side;
use cfg_expr::condition::WordsLeft;
use http_rules::rule::{Action, ActionName, takes_pattern};
use px_pattern::Patterns;
use std::alloc::Global;

/// A part of the line becomes a text.
#[tactic(auto, unfolding(crate::specs::Action::Actions::set_at))]
fn set_at<'w, P: Patterns>(
    alloc: Global,
    side: Side,
    name: ActionName,
    words: WordsLeft<'w>,
    pats: &mut P,
) -> Result<(Action, WordsLeft<'w>), RuleFault>
    ensures reads { ReadsRule (λ found. (found.0, found.1)) (set_at side name words.entry) (P.refusals pats.old) (P.refusals pats.new) (P.last_refused pats.new) result }
    ensures good { IfOk result (λ found. IsNamed name found.0) }
{
    let (fmt, others) = format_at(alloc, side, words, pats)?;
    match Action::by_text(name, fmt) {
        Some(action) => Ok((action, others)),
        None => Err(RuleFault::Refused(RuleKind::Keyword)),
    }
}

/// A pattern is replaced in a part of the line.
#[tactic(auto, unfolding(crate::specs::Action::Actions::changed_at))]
fn changed_at<'w, P: Patterns>(
    alloc: Global,
    side: Side,
    name: ActionName,
    words: WordsLeft<'w>,
    pats: &mut P,
) -> Result<(Action, WordsLeft<'w>), RuleFault>
    ensures reads { ReadsRule (λ found. (found.0, found.1)) (changed_at side name words.entry) (P.refusals pats.old) (P.refusals pats.new) (P.last_refused pats.new) result }
    ensures good { IfOk result (λ found. IsNamed name found.0) }
{
    let (pat, fmt, others) = pattern_and_format(alloc, side, words, pats)?;
    match Action::by_pattern(name, pat, fmt) {
        Some(action) => Ok((action, others)),
        None => Err(RuleFault::Refused(RuleKind::Keyword)),
    }
}

/// An action on a request line, of the words behind it.
#[tactic(auto, unfolding(crate::specs::Action::Actions::line_at))]
pub fn line_at<'w, P: Patterns>(
    alloc: Global,
    side: Side,
    name: ActionName,
    words: WordsLeft<'w>,
    pats: &mut P,
) -> Result<(Action, WordsLeft<'w>), RuleFault>
    ensures reads { ReadsRule (λ found. (found.0, found.1)) (line_at side name words.entry) (P.refusals pats.old) (P.refusals pats.new) (P.last_refused pats.new) result }
    ensures good { IfOk result (λ found. IsNamed name found.0) }
{
    if takes_pattern(name) {
        changed_at(alloc, side, name, words, pats)
    } else {
        set_at(alloc, side, name, words, pats)
    }
}
