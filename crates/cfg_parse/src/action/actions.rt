//! One action and its arguments.
ghost use Rattle.std.specs.Prelude.{IfOk};
ghost use Rattle.http_rules.specs.declared.rule.action.ActionName.TheVariants as names;
ghost use Rattle.cfg_parse.specs.Action.Faults.{ReadsRule};
ghost use Rattle.cfg_parse.specs.Action.Good.{IsNamed, AreGoodParts};
ghost use Rattle.cfg_parse.specs.Action.Actions.{variable_set, redirect_parts, return_parts, whole_action, action_parts};

use crate::action::arguments::{argument, variable_behind};
use crate::action::fault::RuleFault;
use crate::action::fields::field_at;
use crate::action::names::side_of;
use crate::action::parts::ActionParts;
use crate::action::plain::{denied, mode_set, status_set, variable_unset};
use crate::action::redirect::{RedirectOptions, redirect_options};
use crate::action::request_line::line_at;
use crate::action::returns::{ReturnOptions, return_options};
use crate::action::texts::expression;
use cfg_expr::Side;
use cfg_expr::condition::WordsLeft;
use http_rules::rule::{Action, ActionName, Direction, HdrList};
use px_pattern::Patterns;
use std::alloc::Global;

/// `set-var(SCOPE.NAME)` and its expression.
#[tactic(auto, unfolding(crate::specs::Action::Actions::variable_set))]
fn variable_set<'w, P: Patterns>(
    alloc: Global,
    side: Side,
    word: &[u8],
    words: WordsLeft<'w>,
    pats: &mut P,
) -> Result<(Action, WordsLeft<'w>), RuleFault>
    ensures reads { ReadsRule (λ found. (found.0, found.1)) (variable_set side word.now words.entry) (P.refusals pats.old) (P.refusals pats.new) (P.last_refused pats.new) result }
    ensures good { IfOk result (λ found. IsNamed names.SetVar found.0) }
{
    let (scope, name) = variable_behind(alloc, b"set-var(", word)?;
    let (text, others) = match argument(words) {
        Ok(found) => found,
        Err(fault) => {
            drop(name);
            return Err(fault);
        }
    };
    match expression(alloc, side, text, pats) {
        Ok(expr) => Ok((Action::SetVar(scope, name, expr), others)),
        Err(fault) => {
            drop(name);
            Err(fault)
        }
    }
}

/// The options of `redirect`.
#[tactic(auto, unfolding(crate::specs::Action::Actions::redirect_parts))]
fn redirect_parts<'w, P: Patterns>(
    alloc: Global,
    side: Side,
    words: WordsLeft<'w>,
    pats: &mut P,
) -> Result<(ActionParts, WordsLeft<'w>), RuleFault>
    ensures reads { ReadsRule (λ found. (found.0, found.1)) (redirect_parts side words.entry) (P.refusals pats.old) (P.refusals pats.new) (P.last_refused pats.new) result }
    ensures good { IfOk result (λ found. AreGoodParts names.Redirect found.0) }
{
    let none = RedirectOptions {
        to: None,
        code: None,
        drop_query: false,
        append_slash: false,
    };
    let (options, others) = redirect_options(alloc, side, words.len(), none, words, pats)?;
    Ok((ActionParts::Redirect(options), others))
}

/// The options of `return`.
#[tactic(auto, unfolding(crate::specs::Action::Actions::return_parts))]
fn return_parts<'w, P: Patterns>(
    alloc: Global,
    side: Side,
    words: WordsLeft<'w>,
    pats: &mut P,
) -> Result<(ActionParts, WordsLeft<'w>), RuleFault>
    ensures reads { ReadsRule (λ found. (found.0, found.1)) (return_parts side words.entry) (P.refusals pats.old) (P.refusals pats.new) (P.last_refused pats.new) result }
    ensures good { IfOk result (λ found. AreGoodParts names.Return found.0) }
{
    let none = ReturnOptions {
        status: None,
        content_type: None,
        payload: None,
        hdrs: HdrList::new(alloc),
    };
    let (options, others) = return_options(alloc, side, words.len(), none, words, pats)?;
    Ok((ActionParts::Return(options), others))
}

/// An action that no options make, and the words behind it.
fn whole_action<'w, P: Patterns>(
    alloc: Global,
    direction: Direction,
    name: ActionName,
    word: &[u8],
    words: WordsLeft<'w>,
    pats: &mut P,
) -> Result<(Action, WordsLeft<'w>), RuleFault>
    ensures reads { ReadsRule (λ found. (found.0, found.1)) (whole_action direction name word.now words.entry) (P.refusals pats.old) (P.refusals pats.new) (P.last_refused pats.new) result }
    ensures good { IfOk result (λ found. IsNamed name found.0) }
{
    let side = side_of(direction);
    match name {
        ActionName::Allow => Ok((Action::Allow, words)),
        ActionName::Deny => denied(direction, words),
        ActionName::SetStatus => status_set(alloc, words),
        ActionName::SetVar => variable_set(alloc, side, word, words, pats),
        ActionName::UnsetVar => variable_unset(alloc, word, words),
        ActionName::StrictMode => mode_set(words),
        ActionName::AddHeader
        | ActionName::SetHeader
        | ActionName::DelHeader
        | ActionName::ReplaceHeader
        | ActionName::ReplaceValue => field_at(alloc, side, name, words, pats),
        _ => line_at(alloc, side, name, words, pats),
    }
}

/// The action of a name and its own word, and what stands behind it.
#[tactic(auto, unfolding(crate::specs::Action::Actions::action_parts))]
pub fn action_parts<'w, P: Patterns>(
    alloc: Global,
    direction: Direction,
    name: ActionName,
    word: &[u8],
    words: WordsLeft<'w>,
    pats: &mut P,
) -> Result<(ActionParts, WordsLeft<'w>), RuleFault>
    ensures reads { ReadsRule (λ found. (found.0, found.1)) (action_parts direction name word.now words.entry) (P.refusals pats.old) (P.refusals pats.new) (P.last_refused pats.new) result }
    ensures good { IfOk result (λ found. AreGoodParts name found.0) }
{
    match name {
        ActionName::Redirect => redirect_parts(alloc, side_of(direction), words, pats),
        ActionName::Return => return_parts(alloc, side_of(direction), words, pats),
        _ => {
            let (action, others) = whole_action(alloc, direction, name, word, words, pats)?;
            Ok((ActionParts::Whole(action), others))
        }
    }
}
