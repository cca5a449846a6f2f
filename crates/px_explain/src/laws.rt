//! What the definitions say together.
ghost use Rattle.std.specs.Prelude.{◌≡◌, ℕ, List, map};
ghost use Rattle.session_model.specs.Session.{Out};
ghost use Rattle.http_rules.specs.declared.config.Config.{Config};
ghost use Rattle.http_rules.specs.declared.rule.rule.Rule.{Rule};
ghost use Rattle.http_rules.specs.Action.Given.{Env};
ghost use Rattle.http_rules.specs.Steps.{steps_of};
ghost use Rattle.rec_format.specs.Recorded.{Visit};
ghost use Rattle.px_explain.specs.declared.trace.Which.{Which};
ghost use Rattle.px_explain.specs.Entry.{line_in};
ghost use Rattle.px_explain.specs.Told.{lines_from, told};
ghost use Rattle.px_explain.specs.Sessions.{IsSessionOf, TellsStatus};
ghost use Rattle.px_explain.specs.Traced.{Traced, TraceOf};

use h1_head::laws::one_reading;

/// In each session of the connection, but one in which a request is refused for its cut before an answer begins, the client is first sent the
/// status that is told, behind interim heads.
pub fn sessions_answer_so()
    ensures { (cfg : Config) (visit : Visit) (traced : Traced) (out : Out) → TraceOf cfg visit traced → IsSessionOf cfg visit out → TellsStatus traced.answer out.client.bytes }
{
    one_reading();
}

/// The lines of a list are those of the steps of its rules, in their order.
pub fn lines_are_steps()
    ensures { (which : Which) (size : ℕ) (rules : List Rule) (env : Env) → map line_in (told which size rules env) ≡ lines_from which 0 (steps_of size rules env) }
{}

/// Of each connection one trace is told.
pub fn one_trace()
    ensures { (cfg : Config) (visit : Visit) (a b : Traced) → TraceOf cfg visit a → TraceOf cfg visit b → a ≡ b }
{
    one_reading();
}
