//! What is said to a client for whose request no server is asked.
ghost use Rattle.std.specs.Prelude.{◌≡◌, false, OnOk, IfOk, IsOk};
ghost use Rattle.http_model.specs.Head.{Message, message_blocks};
ghost use Rattle.forward_core.specs.Rules.Ruling.{config_of, size_of, IsReady, HasReply, holds_pattern};
ghost use Rattle.forward_core.specs.Answer.Seen as answers;
ghost use Rattle.forward_core.specs.Answer.Stands.{IsSoundSide};
ghost use Rattle.forward_core.specs.Answer.Listed.{IsListed};
ghost use Rattle.forward_core.specs.declared.answer.place.Place.TheVariants as place;
ghost use Rattle.forward_core.specs.Joined.Asks.{SaysRefusal, SaysReply};

use crate::answer::AnswerSide;
use crate::answer::laws::lists;
use crate::rules::SessionRules;
use http_model::OutOfMemory;

/// The refusal with this code is said, as the rules on all that the client is sent leave it.
pub(crate) fn refuse(
    answer: &mut AnswerSide,
    rules: &mut SessionRules<'_>,
    method: &[u8],
    code: u16,
    no_body: bool,
) -> Result<(), OutOfMemory>
    requires sound { IsSoundSide answer.old }
    requires idle { answers.place_of answer.old ≡ place.Idle }
    requires ready { IsReady rules.old }
    requires size { answers.size_of answer.old ≡ size_of rules.old }
    ensures says { OnOk result (SaysRefusal (config_of rules.old) answer.old answer.new code method.now rules.old.vars no_body) }
    ensures succeeds { holds_pattern (config_of rules.old) ≡ false → IsOk result }
    ensures place { OnOk result (answers.place_of answer.new ≡ place.Saying) }
    ensures starts { OnOk result ((answers.seen answer.new).answered ≡ false) }
    ensures heard { OnOk result ((answers.seen answer.new).heard ≡ false) }
    ensures window { OnOk result ((answers.seen answer.new).window ≡ (answers.seen answer.old).window) }
    ensures sound { OnOk result (IsSoundSide answer.new) }
    ensures size { OnOk result (answers.size_of answer.new ≡ answers.size_of answer.old) }
    ensures window_size { OnOk result (answers.window_size_of answer.new ≡ answers.window_size_of answer.old) }
    ensures ready { OnOk result (IsReady rules.new) }
    ensures config { OnOk result (config_of rules.new ≡ config_of rules.old) }
{
    lists();
    rules.begin_answer();
    rules.say_refusal(code, method)?;
    // called for its clause alone: the list weighs no more than its array, so the answer direction can take it
    let said = rules.said.arena();
    let _room = said.room();
    answer.begin_saying(said, no_body);
    Ok(())
}

/// The reply that stands to be said is said, as the rules on all that the client is sent leave it. Answers whether the
/// connection goes on.
pub(crate) fn reply(
    answer: &mut AnswerSide,
    rules: &mut SessionRules<'_>,
    method: &[u8],
    no_body: bool,
    keep: bool,
) -> Result<bool, OutOfMemory>
    requires sound { IsSoundSide answer.old }
    requires idle { answers.place_of answer.old ≡ place.Idle }
    requires ready { IsReady rules.old }
    requires reply { HasReply rules.old.said.blocks }
    requires size { answers.size_of answer.old ≡ size_of rules.old }
    ensures says { IfOk result (λ kept. (m : Message) → IsListed m → rules.old.said.blocks ≡ message_blocks m
        → SaysReply (config_of rules.old) answer.old answer.new m method.now rules.old.vars rules.new.vars no_body keep kept) }
    ensures succeeds { holds_pattern (config_of rules.old) ≡ false → IsOk result }
    ensures place { OnOk result (answers.place_of answer.new ≡ place.Saying) }
    ensures starts { OnOk result ((answers.seen answer.new).answered ≡ false) }
    ensures heard { OnOk result ((answers.seen answer.new).heard ≡ false) }
    ensures window { OnOk result ((answers.seen answer.new).window ≡ (answers.seen answer.old).window) }
    ensures sound { OnOk result (IsSoundSide answer.new) }
    ensures size { OnOk result (answers.size_of answer.new ≡ answers.size_of answer.old) }
    ensures window_size { OnOk result (answers.window_size_of answer.new ≡ answers.window_size_of answer.old) }
    ensures ready { OnOk result (IsReady rules.new) }
    ensures config { OnOk result (config_of rules.new ≡ config_of rules.old) }
{
    lists();
    rules.begin_answer();
    let kept = rules.say_reply(method, keep)?;
    // called for its clause alone: the list weighs no more than its array, so the answer direction can take it
    let said = rules.said.arena();
    let _room = said.room();
    answer.begin_saying(said, no_body);
    Ok(kept)
}
