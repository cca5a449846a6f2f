//! What is known of an action in front of its condition.
ghost use Rattle.std.specs.Prelude.{IfOk};
ghost use Rattle.http_rules.specs.declared.rule.action.ActionName.{ActionName};
ghost use Rattle.cfg_parse.specs.Action.Faults.{Gives};

use crate::action::fault::RuleFault;
use crate::action::redirect::{RedirectOptions, redirect_of};
use crate::action::returns::{ReturnOptions, return_of};
use http_rules::rule::Action;

/// An action, or options that may still lack one.
#[derive(Drop)]
pub enum ActionParts {
    Whole(Action),
    Redirect(RedirectOptions),
    Return(ReturnOptions),
}

ghost use Rattle.cfg_parse.specs.Action.Good.{IsNamed, AreGoodParts};
ghost use Rattle.cfg_parse.specs.Action.Actions.{made_of};

/// The action of its parts. What lacks counts as behind the last word of the line.
pub fn made_of(parts: ActionParts) -> Result<Action, RuleFault>
    ensures gives { Gives (λ action. action) result (made_of parts) }
    ensures good { (name : ActionName) → AreGoodParts name parts → IfOk result (IsNamed name) }
{
    match parts {
        ActionParts::Whole(action) => Ok(action),
        ActionParts::Redirect(options) => redirect_of(options),
        ActionParts::Return(options) => return_of(options),
    }
}
