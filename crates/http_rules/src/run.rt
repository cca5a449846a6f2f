//! Rules run on a message in an array, in their order.
ghost use Rattle.std.specs.Prelude.{◌≡◌, [], true, false, IsOk, IfOk};
ghost use Rattle.std.specs.List.{AllByRecursion};
ghost use Rattle.http_model.specs.Head.{Head, head_blocks, front_blocks};
ghost use Rattle.session_model.specs.Env.{request_env, response_env};
ghost use Rattle.std.specs.Prelude.{List, ℕ};
ghost use Rattle.http_rules.specs.Rule.Valid.{IsGoodAction, AreRules};
ghost use Rattle.http_rules.specs.Rule.Actions.{rules_hold_pattern, rule_holds_pattern, cond_holds_pattern};
ghost use Rattle.http_rules.specs.declared.rule.action.Direction.TheVariants as directions;
ghost use Rattle.http_rules.specs.Action.Given.{Env};
ghost use Rattle.http_rules.specs.Action.Outcome.{IsScratch, IsAt, IsFront};
ghost use Rattle.http_rules.specs.Rules as spec;
ghost use Rattle.http_rules.specs.Run.{Leaves, RuleLeaves, EndsAt, AnswersAt, ruled_by, verdict_by, IsHead};
ghost use Rattle.http_rules.specs.declared.action.side.Side.TheVariants as sides;

use crate::action::{Acted, Scratch, Side, Stepped, answers, is_met, run_action, run_reply};
use crate::rule::{Action, Rule, Rules};
use crate::step::Step;
use crate::verdict::{Ended, Ruled, Verdict};
use htx_arena::{Arena, LateArena};
use px_sample::{OutOfMemory, Vars};

/// The mode behind an action.
fn mode_after(strict: bool, action: &Action) -> bool
    ensures { result ≡ spec.mode_after strict action.now }
{
    match action {
        Action::StrictMode(on) => *on,
        _ => strict,
    }
}

/// What an action's outcome means under a mode.
fn outcome_of(strict: bool, action: &Action, acted: Acted) -> Ruled
    ensures { result ≡ ruled_by strict action.now acted }
{
    match acted {
        Acted::Next => Ruled::Goes(Step::Next, mode_after(strict, action)),
        Acted::Stop => Ruled::Ends(Verdict::Pass),
        Acted::Deny(code) => Ruled::Ends(Verdict::Deny(code)),
        Acted::Failed(why) => {
            if !strict && !answers(action) {
                Ruled::Goes(Step::Skipped(why), strict)
            } else {
                Ruled::Ends(Verdict::Fail(why))
            }
        }
    }
}

/// Whether the condition of a rule holds.
fn runs(
    rule: &Rule,
    side: Side<'_>,
    msg: &Arena,
    vars: &Vars,
    scratch: &mut Scratch,
) -> Result<bool, OutOfMemory>
    requires { IsScratch msg.now.size scratch.old }
    ensures truth { IfOk result (λ truth. (env : Env) → IsAt side.entry env msg.now.blocks vars.now → truth ≡ spec.runs msg.now.size rule.now.cond env) }
    ensures succeeds { cond_holds_pattern rule.now.cond ≡ false → IsOk result }
    ensures scratch { IsScratch msg.now.size scratch.new }
{
    match &rule.cond {
        Some(cond) => is_met(cond, side, msg, vars, scratch),
        None => Ok(true),
    }
}

/// Runs one rule under a mode: the one turn of a run, and of a rule by itself.
pub(crate) fn run_rule(
    rule: &Rule,
    strict: bool,
    side: Side<'_>,
    msg: &mut Arena,
    vars: &mut Vars,
    scratch: &mut Scratch,
) -> Result<Ruled, OutOfMemory>
    requires scratch { IsScratch msg.old.size scratch.old }
    requires front { IsFront msg.old.blocks }
    requires valid { IsGoodAction rule.now.action }
    ensures ruled { IfOk result (λ ruled. (env : Env) → IsAt side.entry env msg.old.blocks vars.old → RuleLeaves side.entry msg.old.size rule.now strict env ruled msg.new.blocks vars.new) }
    ensures succeeds { rule_holds_pattern rule.now ≡ false → IsOk result }
    ensures size { msg.new.size ≡ msg.old.size }
    ensures scratch { IsScratch msg.old.size scratch.new }
{
    if !runs(rule, side, msg, vars, scratch)? {
        return Ok(Ruled::Goes(Step::Passed, strict));
    }
    if answers(&rule.action) {
        return Ok(Ruled::Answers);
    }
    let acted = run_action(&rule.action, side, msg, vars, scratch)?;
    Ok(outcome_of(strict, &rule.action, acted))
}

/// Runs rules in their order. The first one that does not go on decides, or is to be answered by.
fn run_rules<'c>(
    rules: &'c Rules,
    side: Side<'_>,
    msg: &mut Arena,
    vars: &mut Vars,
    scratch: &mut Scratch,
) -> Result<Ended<'c>, OutOfMemory>
    requires scratch { IsScratch msg.old.size scratch.old }
    requires front { IsFront msg.old.blocks }
    requires good { AllByRecursion (λ rule. IsGoodAction rule.action) rules.now }
    ensures leaves { IfOk result (λ ended. (env : Env) → IsAt side.entry env msg.old.blocks vars.old → EndsAt side.entry msg.old.size rules.now env ended msg.new.blocks vars.new) }
    ensures answers { IfOk result (AnswersAt rules.now) }
    ensures succeeds { rules_hold_pattern rules.now ≡ false → IsOk result }
    ensures size { msg.new.size ≡ msg.old.size }
    ensures scratch { IsScratch msg.old.size scratch.new }
{
    let mut strict = true;
    for at in 0..rules.len() {
        let rule = rules.get(at);
        let outcome = run_rule(rule, strict, side, msg, vars, scratch)?;
        match outcome {
            Ruled::Goes(_, mode) => strict = mode,
            Ruled::Ends(verdict) => return Ok(Ended::With(verdict)),
            Ruled::Answers => return Ok(Ended::Answering(&rule.action)),
        }
    }
    Ok(Ended::With(Verdict::Pass))
}

/// What the step of an action that answers means for the rules.
pub(crate) fn verdict_by(step: Stepped) -> Verdict
    ensures { result ≡ verdict_by step }
{
    match step {
        Stepped::Done => Verdict::Reply,
        Stepped::Failed(why) => Verdict::Fail(why),
    }
}

/// Runs rules that may answer by themselves; a reply comes into its own array, whose memory waits until one is made.
fn run_all(
    rules: &Rules,
    side: Side<'_>,
    msg: &mut Arena,
    vars: &mut Vars,
    scratch: &mut Scratch,
    reply: &mut LateArena,
) -> Result<Verdict, OutOfMemory>
    requires scratch { IsScratch msg.old.size scratch.old }
    requires front { IsFront msg.old.blocks }
    requires reply_size { reply.old.size ≡ msg.old.size }
    requires no_reply { reply.old.blocks ≡ [] }
    requires good { AllByRecursion (λ rule. IsGoodAction rule.action) rules.now }
    ensures leaves { IfOk result (λ verdict. (env : Env) → IsAt side.entry env msg.old.blocks vars.old → Leaves side.entry (spec.rules_of msg.old.size rules.now env) verdict msg.new.blocks vars.new reply.new.blocks) }
    ensures succeeds { rules_hold_pattern rules.now ≡ false → IsOk result }
    ensures size { msg.new.size ≡ msg.old.size }
    ensures scratch { IsScratch msg.old.size scratch.new }
    ensures reply_size { reply.new.size ≡ reply.old.size }
{
    match run_rules(rules, side, msg, vars, scratch)? {
        Ended::With(verdict) => Ok(verdict),
        Ended::Answering(action) => {
            let step = run_reply(action, side, msg, vars, scratch, reply.arena())?;
            Ok(verdict_by(step))
        }
    }
}

/// Runs the rules of requests on a head. Pass leaves the edited head; Reply leaves a reply in its own array, without a field that
/// speaks of the connection; Fail leaves the head in front of the step that failed.
pub fn run_request(
    rules: &Rules,
    msg: &mut Arena,
    vars: &mut Vars,
    scratch: &mut Scratch,
    reply: &mut LateArena,
) -> Result<Verdict, OutOfMemory>
    requires scratch { IsScratch msg.old.size scratch.old }
    requires head { IsHead msg.old.blocks }
    requires reply_size { reply.old.size ≡ msg.old.size }
    requires no_reply { reply.old.blocks ≡ [] }
    requires valid { AreRules directions.Request rules.now }
    ensures runs { IfOk result (λ verdict. (head : Head) → msg.old.blocks ≡ head_blocks head → Leaves sides.Request (spec.rules_of msg.old.size rules.now (request_env vars.old head)) verdict msg.new.blocks vars.new reply.new.blocks) }
    ensures succeeds { rules_hold_pattern rules.now ≡ false → IsOk result }
    ensures size { msg.new.size ≡ msg.old.size }
    ensures scratch { IsScratch msg.old.size scratch.new }
    ensures reply_size { reply.new.size ≡ reply.old.size }
{
    run_all(rules, Side::Request, msg, vars, scratch, reply)
}

/// Runs the rules of responses on a head, which answers a request of this method. As `run_request`.
pub fn run_response(
    rules: &Rules,
    method: &[u8],
    msg: &mut Arena,
    vars: &mut Vars,
    scratch: &mut Scratch,
    reply: &mut LateArena,
) -> Result<Verdict, OutOfMemory>
    requires scratch { IsScratch msg.old.size scratch.old }
    requires head { IsHead msg.old.blocks }
    requires reply_size { reply.old.size ≡ msg.old.size }
    requires no_reply { reply.old.blocks ≡ [] }
    requires valid { AreRules directions.Response rules.now }
    ensures runs { IfOk result (λ verdict. (head : Head) → msg.old.blocks ≡ head_blocks head → Leaves (sides.Answer method.entry) (spec.rules_of msg.old.size rules.now (response_env vars.old method.now head)) verdict msg.new.blocks vars.new reply.new.blocks) }
    ensures succeeds { rules_hold_pattern rules.now ≡ false → IsOk result }
    ensures size { msg.new.size ≡ msg.old.size }
    ensures scratch { IsScratch msg.old.size scratch.new }
    ensures reply_size { reply.new.size ≡ reply.old.size }
{
    run_all(rules, Side::Answer(method), msg, vars, scratch, reply)
}

/// Runs the rules on what the client is sent: on a head, with a body or none behind it, that answers a request of this method, which is
/// empty where no head was read. They neither reply nor deny.
pub fn run_after(
    rules: &Rules,
    method: &[u8],
    msg: &mut Arena,
    vars: &mut Vars,
    scratch: &mut Scratch,
) -> Result<Verdict, OutOfMemory>
    requires scratch { IsScratch msg.old.size scratch.old }
    requires front { IsFront msg.old.blocks }
    requires valid { AreRules directions.After rules.now }
    ensures runs { IfOk result (λ verdict. (head : Head) (body : List ℕ) → msg.old.blocks ≡ front_blocks head body → Leaves (sides.Answer method.entry) (spec.rules_of msg.old.size rules.now (record { is_request = false; head = head; body = body; method = method.now; vars = vars.old })) verdict msg.new.blocks vars.new []) }
    ensures succeeds { rules_hold_pattern rules.now ≡ false → IsOk result }
    ensures size { msg.new.size ≡ msg.old.size }
    ensures scratch { IsScratch msg.old.size scratch.new }
{
    let side = Side::Answer(method);
    match run_rules(rules, side, msg, vars, scratch)? {
        Ended::With(verdict) => Ok(verdict),
        Ended::Answering(_) => unreachable!(),
    }
}
