//! Which actions rules of a direction have.
ghost use Rattle.std.specs.Prelude.{◌≡◌, true, IfOk};
ghost use Rattle.http_rules.specs.Rule.Actions.{action_named, stands_in};
ghost use Rattle.cfg_parse.specs.Action.Faults.{Gives};
ghost use Rattle.cfg_parse.specs.Action.Names.{placed, side_of};

use crate::action::fault::{RuleFault, RuleKind};
use cfg_expr::Side;
use http_rules::rule::{ActionName, Direction, action_named, stands_in};

/// The action of a word, where rules of the direction have it.
pub fn placed_action(direction: Direction, word: &[u8]) -> Result<ActionName, RuleFault>
    ensures gives { Gives (λ name. name) result (placed direction (action_named word.now)) }
    ensures good { IfOk result (λ name. stands_in direction name ≡ true) }
{
    match action_named(word) {
        Some(name) => {
            if stands_in(direction, name) {
                Ok(name)
            } else {
                Err(RuleFault::Refused(RuleKind::Keyword))
            }
        }
        None => Err(RuleFault::Refused(RuleKind::Keyword)),
    }
}

/// The side whose fetches the rules of a direction have.
pub fn side_of(direction: Direction) -> Side
    ensures { result ≡ side_of direction }
{
    match direction {
        Direction::Request => Side::Request,
        Direction::Response | Direction::After => Side::Response,
    }
}
