//! One rule at a time: one turn of the walk that a run makes.
ghost use Rattle.std.specs.Prelude.{◌≡◌, [], false, IsOk, IfOk};
ghost use Rattle.http_rules.specs.Rule.Valid.{IsGoodAction};
ghost use Rattle.http_rules.specs.Rule.Actions.{rule_holds_pattern};
ghost use Rattle.http_rules.specs.Action.Given.{Env};
ghost use Rattle.http_rules.specs.Action.Outcome.{IsScratch, IsAt, IsFront};
ghost use Rattle.http_rules.specs.Run.{told_by};
ghost use Rattle.http_rules.specs.Steps.{course_of};
ghost use Rattle.http_rules.specs.Stepped.{StepLeaves};

use crate::action::{Scratch, Side, run_reply};
use crate::rule::Rule;
use crate::run::{run_rule, verdict_by};
use crate::step::Step;
use crate::verdict::{Ruled, Verdict};
use htx_arena::Arena;
use px_sample::{OutOfMemory, Vars};

/// A rule whose turn it is, and whether a failure of its decides: it does when rules begin.
#[derive(Clone, Copy)]
pub struct Turn<'r> {
    pub rule: &'r Rule,
    pub strict: bool,
}

/// What the turn of a rule came to, and how it is told.
#[derive(Clone, Copy)]
pub enum Turned {
    /// The next one runs, under this mode.
    Goes(Step, bool),
    /// No other one does.
    Ends(Step, Verdict),
}

/// How a verdict is told of the rule that decided.
fn told_by(verdict: Verdict) -> Step
    ensures { result ≡ told_by verdict }
{
    match verdict {
        Verdict::Pass => Step::Stop,
        Verdict::Reply => Step::Reply,
        Verdict::Deny(code) => Step::Deny(code),
        Verdict::Fail(why) => Step::Fail(why),
    }
}

/// Runs one rule on a message, with a body or none behind its head. A reply comes into an array of its own, which was empty, without a
/// field that speaks of the connection; after a failure the message is as it was in front of the step that failed.
pub fn step_rule(
    turn: Turn<'_>,
    side: Side<'_>,
    msg: &mut Arena,
    vars: &mut Vars,
    scratch: &mut Scratch,
    reply: &mut Arena,
) -> Result<Turned, OutOfMemory>
    requires scratch { IsScratch msg.old.size scratch.old }
    requires front { IsFront msg.old.blocks }
    requires reply_size { reply.old.size ≡ msg.old.size }
    requires no_reply { reply.old.blocks ≡ [] }
    requires valid { IsGoodAction turn.rule.now.action }
    ensures steps { IfOk result (λ turned. (env : Env) → IsAt side.entry env msg.old.blocks vars.old → StepLeaves side.entry (course_of msg.old.size turn.entry.rule.now turn.entry.strict env) turned msg.new.blocks vars.new reply.new.blocks) }
    ensures succeeds { rule_holds_pattern turn.entry.rule.now ≡ false → IsOk result }
    ensures size { msg.new.size ≡ msg.old.size }
    ensures scratch { IsScratch msg.old.size scratch.new }
    ensures reply_size { reply.new.size ≡ reply.old.size }
{
    let Turn { rule, strict } = turn;
    match run_rule(rule, strict, side, msg, vars, scratch)? {
        Ruled::Goes(step, mode) => Ok(Turned::Goes(step, mode)),
        Ruled::Ends(verdict) => Ok(Turned::Ends(told_by(verdict), verdict)),
        Ruled::Answers => {
            let step = run_reply(&rule.action, side, msg, vars, scratch, reply)?;
            let verdict = verdict_by(step);
            Ok(Turned::Ends(told_by(verdict), verdict))
        }
    }
}
