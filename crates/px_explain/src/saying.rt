//! What the client is sent in place of a server's answer, and the rules that run on it.
ghost use Rattle.std.specs.Prelude.{◌≡◌, ◌≤◌, unwrap_or, IfOk};
ghost use Rattle.htx_view.specs.Lines.{status_in};
ghost use Rattle.http_model.specs.Head.{Message};
ghost use Rattle.http_model.specs.Sizes.{least_size};
ghost use Rattle.px_explain.specs.Traced.{plain_code, replied, refused};
ghost use Rattle.px_explain.specs.Walked.{IsReady, HasReply, IsReply, Tells};

use crate::telling::{RuleList, passed, tell_rules};
use crate::trace::Which;
use crate::walk::Walk;
use http_rules::action::Side;
use http_rules::{Config, OutOfMemory, body_stays};
use htx_arena::Arena;
use htx_view::status_of;
use px_reply::laws::replies_of_messages;
use px_reply::{has_room_to_close, refusal};

/// The status of the head that stands in an array.
pub(crate) fn code_of(msg: &Arena) -> u16
    ensures { result ≡ unwrap_or (status_in msg.now.blocks) 0 }
{
    status_of(msg).unwrap_or(0)
}

/// The status of the refusal on which no rule runs, which stands in place of what can't be sent otherwise.
pub(crate) fn plain_code(said: &mut Arena) -> u16
    requires { least_size ≤ said.old.size }
    ensures code { result ≡ plain_code }
    ensures size { said.new.size ≡ said.old.size }
{
    said.clear();
    refusal(500, said);
    code_of(said)
}

/// The rules on all that the client is sent run on a reply or a refusal. Answers its status.
pub(crate) fn say(config: &Config, walk: &mut Walk) -> Result<u16, OutOfMemory>
    requires ready { IsReady config.now walk.old }
    requires reply { HasReply walk.old.said.blocks }
    ensures { IfOk result (λ answer. (m : Message) → IsReply m walk.old.said.blocks → Tells walk.old walk.new answer (replied config.now m walk.old.method.bytes walk.old.teller.vars)) }
{
    body_stays();
    replies_of_messages();
    walk.msg.clear();
    let side = Side::Answer(walk.method.bytes());
    let list = RuleList {
        which: Which::After,
        rules: &config.after,
    };
    let verdict = tell_rules(list, side, &mut walk.teller, &mut walk.said, &mut walk.msg)?;
    if !passed(verdict) {
        return Ok(plain_code(&mut walk.said));
    }
    if !has_room_to_close(&walk.said) {
        return Ok(plain_code(&mut walk.said));
    }
    Ok(code_of(&walk.said))
}

/// The client is refused with this code.
pub(crate) fn refuse(config: &Config, walk: &mut Walk, code: u16) -> Result<u16, OutOfMemory>
    requires ready { IsReady config.now walk.old }
    ensures { IfOk result (λ answer. Tells walk.old walk.new answer (refused config.now code walk.old.method.bytes walk.old.teller.vars)) }
{
    walk.said.clear();
    refusal(code, &mut walk.said);
    say(config, walk)
}
