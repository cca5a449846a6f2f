//! `del-header` by a name or a part of one.
ghost use Rattle.std.specs.Prelude.{◌≡◌, false, not, filter, IfOk, IsOk};
ghost use Rattle.header_ops.specs.Matching.{is_field_matching};
ghost use Rattle.px_sample.specs.Variables.{Variables};
ghost use Rattle.http_rules.specs.Rule.Actions.{del_holds_pattern};
ghost use Rattle.http_rules.specs.declared.action.side.Side.{Side as On};
ghost use Rattle.http_rules.specs.Action.Given.{Env};
ghost use Rattle.http_rules.specs.Action.Edits.{edited};
ghost use Rattle.http_rules.specs.Action.Steps.{del_step};
ghost use Rattle.http_rules.specs.Action.Outcome.{IsScratch, IsAt, Came, IsFront};

use crate::action::removal_by::remove_matching;
use crate::action::scratch::Scratch;
use crate::action::stepped::Stepped;
use crate::rule::DelBy;
use header_ops::{NameMatch, remove_where};
use htx_arena::Arena;
use px_sample::OutOfMemory;

/// Removes the fields whose names are meant. Those that frame the message or speak of its connection stay.
fn remove_meant(msg: &mut Arena, which: &NameMatch<'_>) -> Stepped
    ensures came { (side : On) (env : Env) (vars : Variables) → IsAt side env msg.old.blocks vars
        → Came side env (edited msg.old.size env (record { line = env.head.line; fields = filter (λ field. not (is_field_matching which.now field)) env.head.fields })) result msg.new.blocks vars }
    ensures size { msg.new.size ≡ msg.old.size }
{
    remove_where(msg, which);
    let _room = msg.room();
    Stepped::Done
}

/// `del-header`.
pub(crate) fn del_header(
    by: &DelBy,
    msg: &mut Arena,
    scratch: &mut Scratch,
) -> Result<Stepped, OutOfMemory>
    requires scratch { IsScratch msg.old.size scratch.old }
    requires front { IsFront msg.old.blocks }
    ensures came { IfOk result (λ step. (side : On) (env : Env) (vars : Variables) → IsAt side env msg.old.blocks vars
        → Came side env (del_step msg.old.size by.now env) step msg.new.blocks vars) }
    ensures succeeds { del_holds_pattern by.now ≡ false → IsOk result }
    ensures size { msg.new.size ≡ msg.old.size }
    ensures scratch { IsScratch msg.old.size scratch.new }
{
    match by {
        DelBy::Str(text) => Ok(remove_meant(msg, &NameMatch::Str(text.as_slice()))),
        DelBy::Beg(text) => Ok(remove_meant(msg, &NameMatch::Beg(text.as_slice()))),
        DelBy::End(text) => Ok(remove_meant(msg, &NameMatch::End(text.as_slice()))),
        DelBy::Sub(text) => Ok(remove_meant(msg, &NameMatch::Sub(text.as_slice()))),
        DelBy::Reg(pat) => {
            let Scratch {
                searchers,
                text,
                ..
            } = scratch;
            remove_matching(searchers, pat, msg, text)
        }
    }
}
