//! One list of rules, run rule by rule, with a line for each that is reached.
ghost use Rattle.std.specs.Prelude.{◌≡◌, ◌≤◌, [], IfOk};
ghost use Rattle.std.specs.List.{AllByRecursion};
ghost use Rattle.http_model.specs.Sizes.{most_size};
ghost use Rattle.http_rules.specs.Rule.Valid.{IsGoodAction};
ghost use Rattle.http_rules.specs.Action.Given.{Env};
ghost use Rattle.http_rules.specs.Action.Outcome.{IsScratch, IsAt, IsFront};
ghost use Rattle.px_explain.specs.Told.{ToldOf, is_pass, step_in};

use crate::trace::Which;
use crate::trail::tell;
use crate::walk::Teller;
use crate::weighing::wanted;
use http_rules::action::Side;
use http_rules::{OutOfMemory, Rules, Step, Turn, Turned, Verdict, step_rule, stepping_is_the_run};
use htx_arena::Arena;

/// Rules of this list.
#[derive(Clone, Copy)]
pub(crate) struct RuleList<'r> {
    pub(crate) which: Which,
    pub(crate) rules: &'r Rules,
}

/// How the turn of a rule is told.
fn step_in(turned: Turned) -> Step
    ensures { result ≡ step_in turned }
{
    match turned {
        Turned::Goes(step, _) => step,
        Turned::Ends(step, _) => step,
    }
}

/// Runs rules on a message, with a body or none behind its head, and tells what each came to. A reply of theirs comes into an array of
/// its own, which was empty.
pub(crate) fn tell_rules(
    list: RuleList<'_>,
    side: Side<'_>,
    teller: &mut Teller,
    msg: &mut Arena,
    reply: &mut Arena,
) -> Result<Verdict, OutOfMemory>
    requires scratch { IsScratch msg.old.size teller.old.scratch }
    requires front { IsFront msg.old.blocks }
    requires small { msg.old.size ≤ most_size }
    requires reply_size { reply.old.size ≡ msg.old.size }
    requires no_reply { reply.old.blocks ≡ [] }
    requires good { AllByRecursion (λ rule. IsGoodAction rule.action) list.rules.now }
    ensures told { IfOk result (λ verdict. (env : Env) → IsAt side.entry env msg.old.blocks teller.old.vars
        → ToldOf list.entry side.entry msg.old.size env teller.old verdict teller.new msg.new.blocks reply.new.blocks) }
    ensures size { msg.new.size ≡ msg.old.size }
    ensures scratch { IsScratch msg.old.size teller.new.scratch }
    ensures reply_size { reply.new.size ≡ reply.old.size }
{
    stepping_is_the_run();
    let mut strict = true;
    for at in 0..list.rules.len() {
        let rule = list.rules.get(at);
        let turn = Turn { rule, strict };
        let turned = step_rule(
            turn,
            side,
            msg,
            &mut teller.vars,
            &mut teller.scratch,
            reply,
        )?;
        let step = step_in(turned);
        let needed = wanted(teller, step, &rule.action, side, msg)?;
        tell(&mut teller.trail, list.which, at, step, needed, msg)?;
        match turned {
            Turned::Goes(_, mode) => strict = mode,
            Turned::Ends(_, verdict) => return Ok(verdict),
        }
    }
    Ok(Verdict::Pass)
}

/// Whether rules passed.
pub(crate) fn passed(verdict: Verdict) -> bool
    ensures { result ≡ is_pass verdict }
{
    match verdict {
        Verdict::Pass => true,
        Verdict::Reply | Verdict::Deny(_) | Verdict::Fail(_) => false,
    }
}
