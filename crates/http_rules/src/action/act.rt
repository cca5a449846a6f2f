//! What one action makes of a message.
ghost use Rattle.std.specs.Prelude.{◌≡◌, false, true, IsOk, IfOk};
ghost use Rattle.http_rules.specs.Rule.Valid.{IsGoodAction};
ghost use Rattle.http_rules.specs.Rule.Actions.{action_holds_pattern};
ghost use Rattle.http_rules.specs.Action.Given.{Env};
ghost use Rattle.http_rules.specs.Action.Acts.{act, run_steps};
ghost use Rattle.http_rules.specs.Action.Steps.{steps_of};
ghost use Rattle.http_rules.specs.Action.Answering.{answers};
ghost use Rattle.http_rules.specs.Action.Outcome.{IsScratch, IsAt, Ran, IsFront};

use crate::action::extent::Extent;
use crate::action::part::TargetPart;
use crate::action::place::Setting;
use crate::action::removal::del_header;
use crate::action::replacement::{FieldReplacement, Replacement};
use crate::action::replacing::replace_fields;
use crate::action::retarget::replace_part;
use crate::action::scratch::Scratch;
use crate::action::side::Side;
use crate::action::status::set_status;
use crate::action::stepped::Stepped;
use crate::action::text_edits::{format_of, run_text};
use crate::action::variables::{Assignment, set_var, unset_var};
use crate::rule::Action;
use http_model::Why;
use htx_arena::Arena;
use px_sample::{OutOfMemory, Vars};

/// What an action made of a message.
#[derive(Clone, Copy)]
pub enum Acted {
    /// The next rule may run.
    Next,
    /// No later rule runs.
    Stop,
    /// A refusal with this code.
    Deny(u16),
    /// A step failed, and the message is as it was before that step.
    Failed(Why),
}

ghost use Rattle.http_rules.specs.Action.Does.{Does, acted_by};

/// What a step means for its action.
fn done_by(step: Stepped) -> Acted
    ensures { result ≡ acted_by step }
{
    match step {
        Stepped::Done => Acted::Next,
        Stepped::Failed(why) => Acted::Failed(why),
    }
}

/// Runs the steps of an action in turn, up to one that fails. One that answers, decides or changes the mode has none.
#[tactic(auto, using(crate::proofs::ActionLemmas::Doing::one), unfolding(crate::specs::Action::Steps::steps_of, crate::specs::Action::Steps::line_step))]
fn run_steps(
    action: &Action,
    side: Side<'_>,
    msg: &mut Arena,
    vars: &mut Vars,
    scratch: &mut Scratch,
) -> Result<Stepped, OutOfMemory>
    requires scratch { IsScratch msg.old.size scratch.old }
    requires front { IsFront msg.old.blocks }
    requires valid { IsGoodAction action.now }
    ensures ran { IfOk result (λ step. (env : Env) → IsAt side.entry env msg.old.blocks vars.old
        → Ran side.entry (run_steps (steps_of msg.old.size action.now env) env) step msg.new.blocks vars.new) }
    ensures succeeds { action_holds_pattern action.now ≡ false → IsOk result }
    ensures size { msg.new.size ≡ msg.old.size }
    ensures scratch { IsScratch msg.old.size scratch.new }
{
    let setting = Setting { side, vars };
    if let Some(fmt) = format_of(action) {
        return run_text(action, fmt, setting, msg, scratch);
    }
    match action {
        Action::DelHeader(by) => del_header(by, msg, scratch),
        Action::SetStatus(code, reason) => Ok(set_status(*code, reason, msg, scratch)),
        Action::SetVar(scope, name, expr) => {
            let (scope, name) = (*scope, name.as_slice());
            let assignment = Assignment { scope, name, expr };
            set_var(assignment, side, msg, vars, scratch)
        }
        Action::UnsetVar(scope, name) => Ok(unset_var(*scope, name.as_slice(), vars)),
        Action::ReplaceHeader(name, pat, fmt) => {
            let (extent, name) = (Extent::Whole, name.as_slice());
            let by = Replacement { pat, fmt };
            let fields = FieldReplacement { name, extent, by };
            replace_fields(fields, setting, msg, scratch)
        }
        Action::ReplaceValue(name, pat, fmt) => {
            let (extent, name) = (Extent::Values, name.as_slice());
            let by = Replacement { pat, fmt };
            let fields = FieldReplacement { name, extent, by };
            replace_fields(fields, setting, msg, scratch)
        }
        Action::ReplacePath(pat, fmt) => {
            let (part, by) = (TargetPart::Path, Replacement { pat, fmt });
            replace_part(part, by, setting, msg, scratch)
        }
        Action::ReplacePathq(pat, fmt) => {
            let (part, by) = (TargetPart::Pathq, Replacement { pat, fmt });
            replace_part(part, by, setting, msg, scratch)
        }
        Action::ReplaceUri(pat, fmt) => {
            let (part, by) = (TargetPart::Uri, Replacement { pat, fmt });
            replace_part(part, by, setting, msg, scratch)
        }
        _ => Ok(Stepped::Done),
    }
}

/// Runs an action on a message, but for one that answers by itself: `run_reply` has these.
#[tactic(auto, using(crate::proofs::ActionLemmas::Doing::several), unfolding(crate::specs::Action::Acts::act))]
pub fn run_action(
    action: &Action,
    side: Side<'_>,
    msg: &mut Arena,
    vars: &mut Vars,
    scratch: &mut Scratch,
) -> Result<Acted, OutOfMemory>
    requires scratch { IsScratch msg.old.size scratch.old }
    requires front { IsFront msg.old.blocks }
    requires valid { IsGoodAction action.now }
    requires edits { answers action.now ≡ false }
    ensures came { IfOk result (λ done. (env : Env) → IsAt side.entry env msg.old.blocks vars.old
        → Does side.entry env (act msg.old.size action.now env) done msg.new.blocks vars.new) }
    ensures succeeds { action_holds_pattern action.now ≡ false → IsOk result }
    ensures size { msg.new.size ≡ msg.old.size }
    ensures scratch { IsScratch msg.old.size scratch.new }
{
    match action {
        Action::Allow => Ok(Acted::Stop),
        Action::Deny(code) => Ok(Acted::Deny(*code)),
        Action::Redirect { .. } | Action::Return { .. } => unreachable!(),
        _ => {
            let step = run_steps(action, side, msg, vars, scratch)?;
            Ok(done_by(step))
        }
    }
}
