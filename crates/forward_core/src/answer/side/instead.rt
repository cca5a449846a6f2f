//! What goes out in place of a server's response: a refusal, a reply, or the plain refusal.
ghost use Rattle.std.specs.Prelude.{◌≡◌, ℕ, List, true, false, IsOk, OnOk};
ghost use Rattle.http_model.specs.Head.{Head, Message, front_blocks, message_blocks};
ghost use Rattle.px_sample.specs.Variables.{Variables};
ghost use Rattle.http_rules.specs.declared.config.Config.{Config};
ghost use Rattle.forward_core.specs.Meaning.Product.{meaning_of};
ghost use Rattle.forward_core.specs.Rules.Ruling.{IsReady, config_of, holds_pattern, HasReply};
ghost use Rattle.forward_core.specs.Rules.Ruling.{size_of as array_size};
ghost use Rattle.session_model.specs.Answering.{Final, Refuses, Replies, Plain};
ghost use Rattle.session_model.specs.Session.{SpellsFinal};
ghost use Rattle.session_core.specs.History.{Coming};
ghost use Rattle.session_core.specs.Sided.{Asking, asker_in, ToldIs, Saying};
ghost use Rattle.forward_core.specs.Answer.Seen.{size_of};
ghost use Rattle.forward_core.specs.Answer.Stands.{AnswerStands, list_text};
ghost use Rattle.forward_core.specs.Answer.Status.{is_status_line};
ghost use Rattle.forward_core.specs.Answer.Listed.{IsListed};
ghost use Rattle.forward_core.specs.Answer.Hearing.{IsBetween};
ghost use Rattle.forward_core.specs.Answer.Judging.{Settles, Finds, GoesOut, told_when};
ghost use Rattle.forward_core.specs.Answer.Judging as spec;

use crate::answer::place::Place;
use crate::answer::side::AnswerSide;
use crate::rules::SessionRules;
use http_model::OutOfMemory;
use htx_arena::Arena;
use htx_view::status_of;

/// The place of a list that goes out in place of a response.
fn place_when(replied: bool) -> Place
    ensures { result ≡ spec.place_when replied }
{
    if replied {
        return Place::Keeping;
    }
    Place::Closing
}

impl AnswerSide {
    /// The refusal with this code goes out, as the rules on all that the client is sent leave it.
    pub(super) fn refuse(
        &mut self,
        rules: &mut SessionRules<'_>,
        code: u16,
        method: &[u8],
    ) -> Result<(), OutOfMemory>
        requires between { IsBetween self.old }
        requires ready { IsReady rules.old }
        requires size { array_size rules.old ≡ size_of self.old }
        ensures leads { OnOk result ((cfg : Config) (asking : Asking Variables) (server : Coming) (put : List ℕ) (saying : Saying) → Settles cfg self.old asking server put (Refuses code method.now rules.old.vars) → config_of rules.old ≡ cfg
            → Finds cfg self.new asking server put saying rules.new.vars) }
        ensures goes_out { OnOk result (GoesOut self.old self.new) }
        ensures succeeds { holds_pattern (config_of rules.old) ≡ false → IsOk result }
        ensures ready { IsReady rules.new }
        ensures config { config_of rules.new ≡ config_of rules.old }
    {
        rules.say_refusal(code, method)?;
        self.say_instead(rules.said.arena(), false);
        Ok(())
    }

    /// The reply of the rules that stands to be said goes out, as the rules on all that the client is sent leave it.
    pub(super) fn reply(
        &mut self,
        rules: &mut SessionRules<'_>,
        method: &[u8],
    ) -> Result<(), OutOfMemory>
        requires between { IsBetween self.old }
        requires ready { IsReady rules.old }
        requires size { array_size rules.old ≡ size_of self.old }
        requires reply { HasReply rules.old.said.blocks }
        ensures leads { OnOk result ((cfg : Config) (asking : Asking Variables) (server : Coming) (put : List ℕ) (saying : Saying) (m : Message) → Settles cfg self.old asking server put (Replies m method.now rules.old.vars) → config_of rules.old ≡ cfg
            → rules.old.said.blocks ≡ message_blocks m → IsListed m → Finds cfg self.new asking server put saying rules.new.vars) }
        ensures goes_out { OnOk result (GoesOut self.old self.new) }
        ensures succeeds { holds_pattern (config_of rules.old) ≡ false → IsOk result }
        ensures ready { IsReady rules.new }
        ensures config { config_of rules.new ≡ config_of rules.old }
    {
        let replied = rules.amend_reply(method, self.asker.keep)?;
        self.say_instead(rules.said.arena(), replied);
        Ok(())
    }

    /// The plain refusal goes out.
    pub(super) fn say_plain(&mut self, rules: &mut SessionRules<'_>)
        requires between { IsBetween self.old }
        requires ready { IsReady rules.old }
        requires size { array_size rules.old ≡ size_of self.old }
        ensures leads { (cfg : Config) (asking : Asking Variables) (server : Coming) (put : List ℕ) (saying : Saying) → Settles cfg self.old asking server put Plain → config_of rules.old ≡ cfg → Finds cfg self.new asking server put saying rules.new.vars }
        ensures goes_out { GoesOut self.old self.new }
        ensures ready { IsReady rules.new }
        ensures config { config_of rules.new ≡ config_of rules.old }
    {
        rules.say_plain();
        self.say_instead(rules.said.arena(), false);
    }

    /// What stands in this list goes out in place of a response.
    fn say_instead(&mut self, said: &mut Arena, replied: bool)
        requires between { IsBetween self.old }
        requires size { said.old.size ≡ size_of self.old }
        ensures leads { (cfg : Config) (asking : Asking Variables) (server : Coming) (put : List ℕ) (saying : Saying) (now : Variables) (last : Final Variables) (head : Head) (body : List ℕ) → Settles cfg self.old asking server put last → said.old.blocks ≡ front_blocks head body
            → is_status_line head.line ≡ true → SpellsFinal (meaning_of cfg) (asker_in asking) last (list_text (asker_in asking).head_asked head body) → ToldIs (meaning_of cfg) (told_when replied) now last → AnswerStands cfg self.new asking server put now saying }
        ensures goes_out { GoesOut self.old self.new }
        ensures said_size { said.new.size ≡ said.old.size }
    {
        let _room = said.room();
        self.status = status_of(said);
        self.lane.answer(said, self.asker.head_asked);
        self.place = place_when(replied);
        self.at_rest = false;
    }
}
