//! The actions that answer by themselves.
ghost use Rattle.std.specs.Prelude.{◌≡◌, [], true, false, IsOk, IfOk};
ghost use Rattle.http_rules.specs.Rule.Actions.{action_holds_pattern};
ghost use Rattle.http_rules.specs.Rule.Valid.{IsGoodAction};
ghost use Rattle.http_rules.specs.Action.Given.{Env};
ghost use Rattle.http_rules.specs.Action.Acts.{act};
ghost use Rattle.http_rules.specs.Action.Answering.{answers};
ghost use Rattle.http_rules.specs.Action.Does.{Replied};
ghost use Rattle.http_rules.specs.Action.Outcome.{IsScratch, IsAt};

use crate::action::place::{Place, Setting};
use crate::action::redirect::{Destination, redirect};
use crate::action::returning::{Returned, return_reply};
use crate::action::scratch::Scratch;
use crate::action::side::Side;
use crate::action::stepped::Stepped;
use crate::rule::Action;
use htx_arena::Arena;
use px_sample::{OutOfMemory, Vars};

/// Whether an action answers by itself: `redirect` and `return` do.
pub fn answers(action: &Action) -> bool
    ensures { result ≡ answers action.now }
{
    match action {
        Action::Redirect { .. } | Action::Return { .. } => true,
        _ => false,
    }
}

/// Runs an action that answers: its reply stands in an array of its own, which was empty, without a field that speaks of the
/// connection. After a failure that array is empty again. The message stays.
pub fn run_reply(
    action: &Action,
    side: Side<'_>,
    msg: &Arena,
    vars: &Vars,
    scratch: &mut Scratch,
    reply: &mut Arena,
) -> Result<Stepped, OutOfMemory>
    requires scratch { IsScratch msg.now.size scratch.old }
    requires valid { IsGoodAction action.now }
    requires answers { answers action.now ≡ true }
    requires reply_size { reply.old.size ≡ msg.now.size }
    requires no_reply { reply.old.blocks ≡ [] }
    ensures came { IfOk result (λ step. (env : Env) → IsAt side.entry env msg.now.blocks vars.now
        → Replied env (act msg.now.size action.now env) step reply.new.blocks) }
    ensures succeeds { action_holds_pattern action.now ≡ false → IsOk result }
    ensures reply_size { reply.new.size ≡ reply.old.size }
    ensures scratch { IsScratch msg.now.size scratch.new }
{
    let setting = Setting { side, vars };
    let place = Place { msg, setting };
    match action {
        Action::Redirect {
            to,
            code,
            drop_query,
            append_slash,
        } => {
            let destination = Destination {
                to,
                code: *code,
                drop_query: *drop_query,
                append_slash: *append_slash,
            };
            redirect(destination, place, scratch, reply)
        }
        Action::Return {
            status,
            content_type,
            payload,
            hdrs,
        } => {
            let returned = Returned {
                status: *status,
                content_type,
                payload,
                hdrs,
            };
            return_reply(returned, place, scratch, reply)
        }
        _ => unreachable!(),
    }
}
