//! The texts of a rule, by the readers of expressions and conditions.
ghost use Rattle.std.specs.Prelude.{false};
ghost use Rattle.cfg_expr.specs.Reading.{built};
ghost use Rattle.cfg_expr.specs.Exprs.{expr_of};
ghost use Rattle.cfg_expr.specs.Formats.{format_of};
ghost use Rattle.cfg_expr.specs.Condition.Conditions.{rule_end};
ghost use Rattle.cfg_parse.specs.Action.Faults.{of_text, ReadsRule};

use crate::action::fault::RuleFault;
use cfg_expr::condition::{AclList, Cond, WordsLeft, read_rule_end};
use cfg_expr::{Side, build, read_expr, read_format};
use http_rules::rule::{Expr, Fmt};
use px_pattern::{Pat, Patterns};
use std::alloc::Global;

/// A pattern with case.
#[tactic(auto, using(crate::proofs::ActionLemmas::FaultLemmas::texts))]
pub fn pattern<P: Patterns>(alloc: Global, text: &[u8], pats: &mut P) -> Result<Pat, RuleFault>
    ensures { ReadsRule (λ pat. pat) (built (record { text = text.now; icase = false })) (P.refusals pats.old) (P.refusals pats.new) (P.last_refused pats.new) result }
{
    Ok(build(alloc, text, false, pats)?)
}

#[tactic(auto, using(crate::proofs::ActionLemmas::FaultLemmas::texts))]
pub fn format<P: Patterns>(
    alloc: Global,
    side: Side,
    text: &[u8],
    pats: &mut P,
) -> Result<Fmt, RuleFault>
    ensures { ReadsRule (λ fmt. fmt) (of_text (format_of side text.now)) (P.refusals pats.old) (P.refusals pats.new) (P.last_refused pats.new) result }
{
    Ok(read_format(alloc, side, text, pats)?)
}

#[tactic(auto, using(crate::proofs::ActionLemmas::FaultLemmas::texts))]
pub fn expression<P: Patterns>(
    alloc: Global,
    side: Side,
    text: &[u8],
    pats: &mut P,
) -> Result<Expr, RuleFault>
    ensures { ReadsRule (λ expr. expr) (of_text (expr_of side text.now)) (P.refusals pats.old) (P.refusals pats.new) (P.last_refused pats.new) result }
{
    Ok(read_expr(alloc, side, text, pats)?)
}

#[tactic(auto, using(crate::proofs::ActionLemmas::FaultLemmas::texts))]
pub fn condition<P: Patterns>(
    alloc: Global,
    side: Side,
    lines: &AclList,
    words: WordsLeft<'_>,
    pats: &mut P,
) -> Result<Option<Cond>, RuleFault>
    ensures { ReadsRule (λ cond. cond) (of_text (rule_end side lines.now words.entry)) (P.refusals pats.old) (P.refusals pats.new) (P.last_refused pats.new) result }
{
    Ok(read_rule_end(alloc, side, lines, words, pats)?)
}
