//! What a client is sent in place of a server's answer, behind the rules that run on all that it is sent.
ghost use Rattle.std.specs.Prelude.{◌≡◌, false, true, IfOk, IsOk};
ghost use Rattle.http_model.specs.Head.{Message, message_blocks};
ghost use Rattle.http_model.specs.Refusal.{refusal, closing};
ghost use Rattle.session_model.specs.Amending.{refusal_sent, plain_refusal};
ghost use Rattle.forward_core.specs.Meaning.Product.{meaning_of};
ghost use Rattle.forward_core.specs.Rules.Ruling.{IsReady, config_of, holds_pattern, HasReply, IsReply, AmendsReply, SaysReply};

use crate::rules::rules::SessionRules;
use http_model::OutOfMemory;
use px_reply::laws::replies_of_messages;
use px_reply::{add_close, has_room_to_close, refusal};

impl<'c> SessionRules<'c> {
    /// A refusal on which no rule runs is said, with `connection: close`.
    pub fn say_closing(&mut self, code: u16)
        requires ready { IsReady self.old }
        ensures said { self.new.said.blocks ≡ message_blocks (closing (refusal code)) }
        ensures vars { self.new.vars ≡ self.old.vars }
        ensures ready { IsReady self.new }
        ensures config { config_of self.new ≡ config_of self.old }
    {
        replies_of_messages();
        self.said.clear();
        let said = self.said.arena();
        refusal(code, said);
        add_close(said).unwrap();
    }

    /// The refusal 500 is said in place of all that can't be sent otherwise; no rule runs on it.
    pub fn say_plain(&mut self)
        requires ready { IsReady self.old }
        ensures said { self.new.said.blocks ≡ message_blocks plain_refusal }
        ensures vars { self.new.vars ≡ self.old.vars }
        ensures ready { IsReady self.new }
        ensures config { config_of self.new ≡ config_of self.old }
    {
        self.say_closing(500);
    }

    /// What stands to be said becomes what the client is sent for it: as the rules on all that it is sent leave it, with
    /// `connection: close` where the connection isn't kept; plain where a rule fails, or where it would not fit with that
    /// field. Answers whether it isn't plain.
    pub fn amend_reply(&mut self, method: &[u8], keep: bool) -> Result<bool, OutOfMemory>
        requires ready { IsReady self.old }
        requires reply { HasReply self.old.said.blocks }
        ensures amends { IfOk result (λ edited. (m : Message) → IsReply m self.old.said.blocks → AmendsReply (config_of self.old) m method.now self.old.vars keep edited self.new.said.blocks self.new.vars) }
        ensures succeeds { holds_pattern (config_of self.old) ≡ false → IsOk result }
        ensures ready { IsReady self.new }
        ensures config { config_of self.new ≡ config_of self.old }
    {
        replies_of_messages();
        if !self.on_said(method)? {
            self.say_plain();
            return Ok(false);
        }
        if !has_room_to_close(self.said.arena()) {
            self.say_plain();
            return Ok(false);
        }
        if !keep {
            add_close(self.said.arena()).unwrap();
        }
        Ok(true)
    }

    /// The same, and answers whether the connection goes on: where it may be kept, and the reply isn't plain.
    pub fn say_reply(&mut self, method: &[u8], keep: bool) -> Result<bool, OutOfMemory>
        requires ready { IsReady self.old }
        requires reply { HasReply self.old.said.blocks }
        ensures says { IfOk result (λ kept. (m : Message) → IsReply m self.old.said.blocks → SaysReply (config_of self.old) m method.now self.old.vars keep kept self.new.said.blocks self.new.vars) }
        ensures succeeds { holds_pattern (config_of self.old) ≡ false → IsOk result }
        ensures ready { IsReady self.new }
        ensures config { config_of self.new ≡ config_of self.old }
    {
        let edited = self.amend_reply(method, keep)?;
        Ok(edited && keep)
    }

    /// The refusal with this code is said, as the rules on all that the client is sent leave it.
    pub fn say_refusal(&mut self, code: u16, method: &[u8]) -> Result<(), OutOfMemory>
        requires ready { IsReady self.old }
        ensures said { IfOk result (λ done. self.new.said.blocks ≡ message_blocks (refusal_sent (meaning_of (config_of self.old)) code method.now self.old.vars)) }
        ensures succeeds { holds_pattern (config_of self.old) ≡ false → IsOk result }
        ensures ready { IsReady self.new }
        ensures config { config_of self.new ≡ config_of self.old }
    {
        self.said.clear();
        refusal(code, self.said.arena());
        let _kept = self.say_reply(method, false)?;
        Ok(())
    }
}
