//! What becomes of a server's final head: the rules run on it, its length is held against the limits, and it is finished.
ghost use Rattle.std.specs.Prelude.{◌≡◌, ℕ, List, true, false, not, ◌&&◌, IsOk, IfOk, OnOk};
ghost use Rattle.http_model.specs.Finish.{finish_response, response_framing};
ghost use Rattle.http_model.specs.Head.{Head, head_blocks};
ghost use Rattle.http_model.specs.Reading.{Received};
ghost use Rattle.htx_view.specs.Lines.{status_in};
ghost use Rattle.px_sample.specs.Variables.{Variables};
ghost use Rattle.http_rules.specs.declared.action.side.Side.TheVariants as sides;
ghost use Rattle.http_rules.specs.declared.config.Config.{Config};
ghost use Rattle.http_rules.specs.Lives.{answering};
ghost use Rattle.http_rules.specs.Run.{Leaves};
ghost use Rattle.forward_core.specs.Meaning.Product.{meaning_of, filters_of};
ghost use Rattle.forward_core.specs.Meaning.Product.{replaces as spec_replaces};
ghost use Rattle.forward_core.specs.Rules.Ruling.{IsReady, config_of, holds_pattern, AmendsHead};
ghost use Rattle.forward_core.specs.Rules.Ruling.{size_of as array_size};
ghost use Rattle.session_model.specs.Env.{response_env};
ghost use Rattle.session_model.specs.Meaning.{declares_too_much, is_bodiless};
ghost use Rattle.session_model.specs.Answering.{response_declares_too_much, finished_response, response_fits};
ghost use Rattle.session_core.specs.History.{Coming};
ghost use Rattle.session_core.specs.Sided.{Asking, asker_in, Saying};
ghost use Rattle.lane.specs.Answering.{blocks_of, framing_of, declared_of};
ghost use Rattle.forward_core.specs.Answer.Seen.{size_of};
ghost use Rattle.forward_core.specs.Answer.Stands.{AnswerStands};
ghost use Rattle.forward_core.specs.Answer.Stepping.{RunsFor};
ghost use Rattle.forward_core.specs.Answer.Hearing.{IsBetween, HasHead, FinalHead};
ghost use Rattle.forward_core.specs.Answer.Judging.{Edits, Finds, GoesOut, Passes, IsEdited, Finishes};
ghost use Rattle.forward_core.specs.Answer.Judging as spec;

use crate::answer::framing::{declared_for, declares_too_much, response_framing};
use crate::answer::hearing::is_not_modified;
use crate::answer::place::Place;
use crate::answer::side::AnswerSide;
use crate::meaning::replaces;
use crate::rules::SessionRules;
use header_ops::laws::edits_of_heads;
use http_model::OutOfMemory;
use http_rules::{Filters, Verdict, body_stays, replies_are_plain};
use htx_view::status_of;
use lane::laws::edited_answer;
use px_reply::finish_response;

impl AnswerSide {
    /// Runs the rules of responses on a final head, and begins what answers.
    pub(super) fn judge(
        &mut self,
        rules: &mut SessionRules<'_>,
        method: &[u8],
    ) -> Result<(), OutOfMemory>
        requires between { IsBetween self.old }
        requires has { HasHead self.old }
        requires ready { IsReady rules.old }
        requires size { array_size rules.old ≡ size_of self.old }
        ensures leads { OnOk result ((cfg : Config) (asking : Asking Variables) (server : Coming) (put : List ℕ) (saying : Saying) (received : Received) → FinalHead cfg self.old asking server put received → blocks_of self.old.lane ≡ head_blocks received.head
            → RunsFor rules.old method.now cfg asking → rules.old.vars ≡ answering asking.vars → Finds cfg self.new asking server put saying rules.new.vars) }
        ensures goes_out { OnOk result (GoesOut self.old self.new) }
        ensures succeeds { holds_pattern (config_of rules.old) ≡ false → IsOk result }
        ensures ready { IsReady rules.new }
        ensures config { config_of rules.new ≡ config_of rules.old }
    {
        body_stays();
        replies_are_plain();
        let not_modified = self.is_not_modified();
        let verdict = self.run_rules(rules, method)?;
        match verdict {
            Verdict::Pass => self.amend(rules, method, not_modified),
            Verdict::Deny(code) => self.refuse(rules, code, method),
            Verdict::Fail(_) => self.refuse(rules, 500, method),
            Verdict::Reply => self.reply(rules, method),
        }
    }

    /// Whether the status of the head that stands in the array is 304.
    fn is_not_modified(&mut self) -> bool
        ensures tells { (head : Head) → blocks_of self.old.lane ≡ head_blocks head → result ≡ spec.is_not_modified head }
        ensures same { self.new ≡ self.old }
    {
        is_not_modified(self.lane.head())
    }

    /// Runs the rules of responses on the head that stands in the array.
    fn run_rules(
        &mut self,
        rules: &mut SessionRules<'_>,
        method: &[u8],
    ) -> Result<Verdict, OutOfMemory>
        requires between { IsBetween self.old }
        requires has { HasHead self.old }
        requires ready { IsReady rules.old }
        requires size { array_size rules.old ≡ size_of self.old }
        ensures runs { IfOk result (λ verdict. (head : Head) → blocks_of self.old.lane ≡ head_blocks head → Leaves (sides.Answer method.entry) ((meaning_of (config_of rules.old)).response_rules (response_env rules.old.vars method.now head)) verdict (blocks_of self.new.lane) rules.new.vars rules.new.said.blocks) }
        ensures edits { Edits self.old self.new }
        ensures succeeds { holds_pattern (config_of rules.old) ≡ false → IsOk result }
        ensures ready { IsReady rules.new }
        ensures config { config_of rules.new ≡ config_of rules.old }
    {
        edited_answer();
        rules.on_response(method, self.lane.head())
    }

    /// Whether the declared length of a body passes a limit.
    fn is_too_long(&self, filters: &Filters) -> bool
        ensures { result ≡ (declares_too_much (filters_of filters.now) (declared_of self.now.lane) && not (is_bodiless (framing_of self.now.lane))) }
    {
        declares_too_much(filters, self.lane.declared(), self.lane.framing())
    }

    /// A response that rules passed is refused where its declared length passes a limit. Else the rules run on all that the client is
    /// sent, and the head that they leave is finished.
    fn amend(
        &mut self,
        rules: &mut SessionRules<'_>,
        method: &[u8],
        not_modified: bool,
    ) -> Result<(), OutOfMemory>
        requires between { IsBetween self.old }
        requires has { HasHead self.old }
        requires ready { IsReady rules.old }
        requires size { array_size rules.old ≡ size_of self.old }
        ensures leads { OnOk result ((cfg : Config) (asking : Asking Variables) (server : Coming) (put : List ℕ) (saying : Saying) (received : Received) → FinalHead cfg self.old asking server put received → Passes cfg self.old asking received rules.old.vars
            → RunsFor rules.old method.now cfg asking → not_modified ≡ spec.is_not_modified received.head → Finds cfg self.new asking server put saying rules.new.vars) }
        ensures goes_out { OnOk result (GoesOut self.old self.new) }
        ensures succeeds { holds_pattern (config_of rules.old) ≡ false → IsOk result }
        ensures ready { IsReady rules.new }
        ensures config { config_of rules.new ≡ config_of rules.old }
    {
        if self.is_too_long(&rules.config().res_filters) {
            return self.refuse(rules, 502, method);
        }
        if self.run_after(rules, method)? {
            self.finish(rules, not_modified);
            return Ok(());
        }
        self.say_plain(rules);
        Ok(())
    }

    /// Runs the rules on all that the client is sent; false where one fails.
    fn run_after(
        &mut self,
        rules: &mut SessionRules<'_>,
        method: &[u8],
    ) -> Result<bool, OutOfMemory>
        requires between { IsBetween self.old }
        requires has { HasHead self.old }
        requires ready { IsReady rules.old }
        requires size { array_size rules.old ≡ size_of self.old }
        ensures amends { IfOk result (λ edited. (head : Head) → blocks_of self.old.lane ≡ head_blocks head → AmendsHead ((meaning_of (config_of rules.old)).after_rules (response_env rules.old.vars method.now head)) edited (blocks_of self.new.lane) rules.new.vars) }
        ensures edits { Edits self.old self.new }
        ensures succeeds { holds_pattern (config_of rules.old) ≡ false → IsOk result }
        ensures ready { IsReady rules.new }
        ensures config { config_of rules.new ≡ config_of rules.old }
    {
        edited_answer();
        rules.on_sent_head(method, self.lane.head())
    }

    /// Finishes the head that stands in the array and begins the response, or what stands in its place where the head is too long.
    fn finish(&mut self, rules: &mut SessionRules<'_>, not_modified: bool)
        requires between { IsBetween self.old }
        requires has { HasHead self.old }
        requires ready { IsReady rules.old }
        requires size { array_size rules.old ≡ size_of self.old }
        ensures leads { (cfg : Config) (asking : Asking Variables) (server : Coming) (put : List ℕ) (saying : Saying) (received : Received) (head : Head) → FinalHead cfg self.old asking server put received → IsEdited cfg asking received head rules.old.vars → blocks_of self.old.lane ≡ head_blocks head
            → config_of rules.old ≡ cfg → not_modified ≡ spec.is_not_modified received.head → Finds cfg self.new asking server put saying rules.new.vars }
        ensures goes_out { GoesOut self.old self.new }
        ensures ready { IsReady rules.new }
        ensures config { config_of rules.new ≡ config_of rules.old }
    {
        edited_answer();
        let replaced = replaces(&rules.config().res_filters);
        if self.finish_head(replaced, not_modified) {
            self.send(replaced);
            return;
        }
        self.say_plain(rules);
    }

    /// Finishes the head that stands in the array, as its client is sent it; false where it is too long then.
    fn finish_head(&mut self, replaced: bool, not_modified: bool) -> bool
        requires between { IsBetween self.old }
        requires has { HasHead self.old }
        ensures finishes { (head : Head) → blocks_of self.old.lane ≡ head_blocks head → Finishes self.old self.new replaced not_modified head result }
        ensures edits { Edits self.old self.new }
    {
        edits_of_heads();
        edited_answer();
        let framing = response_framing(replaced, self.asker.is_http_11, self.lane.framing());
        let declared = declared_for(self.asker, replaced, self.lane.declared(), not_modified);
        let close = !self.asker.keep;
        finish_response(self.lane.head(), framing, declared, close).is_ok()
    }

    /// The status of the head that stands in the array.
    fn head_status(&mut self) -> Option<u16>
        ensures status { result ≡ status_in (blocks_of self.old.lane) }
        ensures same { self.new ≡ self.old }
    {
        status_of(self.lane.head())
    }

    /// The head that stands in the array is put out, and the body behind it.
    fn send(&mut self, replaced: bool)
        requires between { IsBetween self.old }
        requires has { HasHead self.old }
        ensures leads { (cfg : Config) (asking : Asking Variables) (server : Coming) (put : List ℕ) (now : Variables) (saying : Saying) (received : Received) (head : Head) → FinalHead cfg self.old asking server put received
            → IsEdited cfg asking received head now → response_fits (meaning_of cfg) (asker_in asking) received head ≡ true → blocks_of self.old.lane ≡ head_blocks (finished_response (meaning_of cfg) (asker_in asking) received head)
            → replaced ≡ spec_replaces cfg.res_filters → AnswerStands cfg self.new asking server put now saying }
        ensures goes_out { GoesOut self.old self.new }
    {
        let framing = response_framing(replaced, self.asker.is_http_11, self.lane.framing());
        self.status = self.head_status();
        self.lane.send(framing, self.asker.head_asked);
        self.place = Place::Response;
        self.at_rest = false;
    }
}
