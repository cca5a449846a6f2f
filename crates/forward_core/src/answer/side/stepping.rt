//! A step of a server's answer.
ghost use Rattle.std.specs.Prelude.{◌≡◌, ◌≢◌, ◌<◌, ℕ, List, true, false, IsOk, OnOk};
ghost use Rattle.px_sample.specs.Variables.{Variables};
ghost use Rattle.http_rules.specs.declared.config.Config.{Config};
ghost use Rattle.http_rules.specs.Lives.{answering};
ghost use Rattle.forward_core.specs.Rules.Ruling.{IsReady, config_of, holds_pattern};
ghost use Rattle.forward_core.specs.Rules.Ruling.{size_of as array_size};
ghost use Rattle.session_core.specs.History.{Coming};
ghost use Rattle.session_core.specs.Sided.{Asking, Saying};
ghost use Rattle.forward_core.specs.Answer.Seen.{seen, place_of, size_of, window_size_of};
ghost use Rattle.forward_core.specs.Answer.Stands.{AnswerStands, IsSoundSide, is_serving};
ghost use Rattle.forward_core.specs.Answer.Stepping.{RunsFor, VarsAt, StepsOn};
ghost use Rattle.forward_core.specs.Answer.Judging.{Decides, KeepsOn};
ghost use Rattle.forward_core.specs.declared.answer.place.Place.TheVariants as place;

use crate::answer::hearing::Heard;
use crate::answer::place::Place;
use crate::answer::side::AnswerSide;
use crate::rules::SessionRules;
use http_model::OutOfMemory;

impl AnswerSide {
    /// Reads heads of the server, runs the rules on the final one, and puts out as much of the answer as there is room for. Before
    /// the final head the variables are those in front of the rules on an answer (`begin_answer`).
    pub fn step_answer(
        &mut self,
        rules: &mut SessionRules<'_>,
        method: &[u8],
    ) -> Result<(), OutOfMemory>
        requires sound { IsSoundSide self.old }
        requires serving { is_serving (place_of self.old) ≡ true }
        requires ready { IsReady rules.old }
        requires size { array_size rules.old ≡ size_of self.old }
        ensures leads { OnOk result ((cfg : Config) (asking : Asking Variables) (server : Coming) (put : List ℕ) (now : Variables) (saying : Saying) → AnswerStands cfg self.old asking server put now saying
            → RunsFor rules.old method.now cfg asking → VarsAt (place_of self.old) (answering asking.vars) now rules.old.vars → StepsOn cfg self.old self.new asking server put saying rules.new.vars) }
        ensures serving { OnOk result (is_serving (place_of self.new) ≡ true) }
        ensures begun { OnOk result ((seen self.old).begun ≡ true → (seen self.new).begun ≡ true) }
        ensures heard { OnOk result ((seen self.old).heard ≡ true → (seen self.new).heard ≡ true) }
        ensures open { OnOk result ((seen self.new).is_open ≡ (seen self.old).is_open) }
        ensures sound { OnOk result (IsSoundSide self.new) }
        ensures size { OnOk result (size_of self.new ≡ size_of self.old) }
        ensures window_size { OnOk result (window_size_of self.new ≡ window_size_of self.old) }
        ensures succeeds { holds_pattern (config_of rules.old) ≡ false → IsOk result }
        ensures ready { IsReady rules.new }
        ensures config { config_of rules.new ≡ config_of rules.old }
    {
        self.decide(rules, method)?;
        self.put_out();
        Ok(())
    }

    /// Where heads are read, reads them, and begins what answers once a final one came, or none is to be had. Where nothing came since
    /// the last step there is nothing to read.
    fn decide(&mut self, rules: &mut SessionRules<'_>, method: &[u8]) -> Result<(), OutOfMemory>
        requires sound { IsSoundSide self.old }
        requires serving { is_serving (place_of self.old) ≡ true }
        requires ready { IsReady rules.old }
        requires size { array_size rules.old ≡ size_of self.old }
        ensures leads { OnOk result ((cfg : Config) (asking : Asking Variables) (server : Coming) (put : List ℕ) (now : Variables) (saying : Saying) → AnswerStands cfg self.old asking server put now saying
            → RunsFor rules.old method.now cfg asking → VarsAt (place_of self.old) (answering asking.vars) now rules.old.vars → Decides cfg self.old self.new asking server put saying rules.new.vars) }
        ensures keeps { OnOk result (KeepsOn self.old self.new) }
        ensures succeeds { holds_pattern (config_of rules.old) ≡ false → IsOk result }
        ensures ready { IsReady rules.new }
        ensures config { config_of rules.new ≡ config_of rules.old }
    {
        if !self.is_hearing() {
            return Ok(());
        }
        if self.is_waiting() {
            return Ok(());
        }
        self.at_rest = false;
        match self.hear() {
            Heard::More => {
                self.at_rest = true;
                Ok(())
            }
            Heard::Interim => Ok(()),
            Heard::Final => self.judge(rules, method),
            Heard::Refused => self.refuse(rules, 502, method),
        }
    }

    /// Whether heads are read.
    fn is_hearing(&self) -> bool
        ensures heads { result ≡ true → place_of self.now ≡ place.Heads }
        ensures rests { result ≡ false → place_of self.now ≢ place.Heads }
    {
        self.place == Place::Heads
    }

    /// Whether nothing came of the server, and nothing was taken, since the last step, and more can come.
    fn is_waiting(&self) -> bool
        ensures rests { result ≡ true → (seen self.now).at_rest ≡ true }
        ensures room { result ≡ true → 0 < (seen self.now).room }
    {
        self.at_rest && self.room() > 0
    }
}
