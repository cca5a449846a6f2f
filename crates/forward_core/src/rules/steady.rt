//! Whether rules leave the variables of the session alone.
ghost use Rattle.std.specs.Prelude.{◌≡◌, true};
ghost use Rattle.forward_core.specs.Rules.Steady as spec;

use http_rules::{Action, Config, Rule};
use px_sample::Scope;

fn is_session(scope: Scope) -> bool
    ensures { result ≡ spec.is_session scope }
{
    match scope {
        Scope::Sess => true,
        Scope::Txn | Scope::Req | Scope::Res => false,
    }
}

/// Whether an action sets a variable of the session, or takes one out.
fn turns_session(action: &Action) -> bool
    ensures { result ≡ spec.turns_session action.now }
{
    match action {
        Action::SetVar(scope, _, _) => is_session(*scope),
        Action::UnsetVar(scope, _) => is_session(*scope),
        Action::Allow => false,
        Action::Deny(_) => false,
        Action::AddHeader(_, _) => false,
        Action::SetHeader(_, _) => false,
        Action::DelHeader(_) => false,
        Action::ReplaceHeader(_, _, _) => false,
        Action::ReplaceValue(_, _, _) => false,
        Action::SetMethod(_) => false,
        Action::SetPath(_) => false,
        Action::SetPathq(_) => false,
        Action::SetUri(_) => false,
        Action::SetQuery(_) => false,
        Action::ReplacePath(_, _) => false,
        Action::ReplacePathq(_, _) => false,
        Action::ReplaceUri(_, _) => false,
        Action::SetStatus(_, _) => false,
        Action::Redirect { .. } => false,
        Action::Return { .. } => false,
        Action::StrictMode(_) => false,
    }
}

/// Whether some rule of these does.
fn some_turn(rules: &[Rule]) -> bool
    ensures { result ≡ spec.some_turn rules.now }
{
    for rule in rules {
        if turns_session(&rule.action) {
            return true;
        }
    }
    false
}

/// Whether no rule of a configuration sets a variable of the session, or takes one out.
pub(crate) fn is_steady(config: &Config) -> bool
    ensures { result ≡ true → spec.IsSteady config.now }
{
    !some_turn(config.request.as_slice())
        && !some_turn(config.response.as_slice())
        && !some_turn(config.after.as_slice())
}
