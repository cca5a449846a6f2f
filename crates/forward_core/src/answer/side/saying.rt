//! Texts that no server answers.
ghost use Rattle.std.specs.Prelude.{◌≡◌, ℕ, List, true, false};
ghost use Rattle.htx_model.specs.Blocks.{Fits};
ghost use Rattle.http_model.specs.Head.{Head, front_blocks};
ghost use Rattle.px_sample.specs.Variables.{Variables};
ghost use Rattle.http_rules.specs.declared.config.Config.{Config};
ghost use Rattle.session_core.specs.History.{Coming};
ghost use Rattle.session_core.specs.Sided.{Asking, Saying, unsaid};
ghost use Rattle.forward_core.specs.Answer.Seen.{seen, place_of, size_of, window_size_of};
ghost use Rattle.forward_core.specs.Answer.Stands.{AnswerStands, IsSoundSide, is_serving, list_text};
ghost use Rattle.forward_core.specs.Answer.Status.{is_status_line};
ghost use Rattle.forward_core.specs.Answer.Said.{SaysMore, TurnsTo};
ghost use Rattle.forward_core.specs.declared.answer.place.Place.TheVariants as place;

use crate::answer::place::Place;
use crate::answer::side::AnswerSide;
use crate::answer::side::views::is_done;
use htx_arena::Arena;
use htx_view::status_of;
use lane::laws::answer_promise;

impl AnswerSide {
    /// While no answer is in hand, the message of this list is to be said: the refusal or the reply of a request.
    pub fn begin_saying(&mut self, list: &mut Arena, no_body: bool)
        requires sound { IsSoundSide self.old }
        requires idle { place_of self.old ≡ place.Idle }
        requires fits { Fits list.old.blocks (size_of self.old) }
        ensures leads { (cfg : Config) (asking : Asking Variables) (server : Coming) (put : List ℕ) (now : Variables) (saying : Saying) (head : Head) (body : List ℕ) → AnswerStands cfg self.old asking server put now saying
            → list.old.blocks ≡ front_blocks head body → is_status_line head.line ≡ true → AnswerStands cfg self.new asking server put now (unsaid (list_text no_body head body)) }
        ensures place { place_of self.new ≡ place.Saying }
        ensures starts { (seen self.new).answered ≡ false }
        ensures begun { (seen self.new).begun ≡ false }
        ensures heard { (seen self.new).heard ≡ false }
        ensures window { (seen self.new).window ≡ (seen self.old).window }
        ensures list_size { list.new.size ≡ list.old.size }
        ensures sound { IsSoundSide self.new }
        ensures size { size_of self.new ≡ size_of self.old }
        ensures window_size { window_size_of self.new ≡ window_size_of self.old }
    {
        self.status = status_of(list);
        self.lane.answer(list, no_body);
        self.place = Place::Saying;
        self.at_rest = false;
    }

    /// While the last that answers hasn't begun, the message of this list is to be said in place of the server's answer,
    /// behind the interim heads, each whole.
    pub fn turn_to(&mut self, list: &mut Arena)
        requires sound { IsSoundSide self.old }
        requires serving { is_serving (place_of self.old) ≡ true }
        requires begun { (seen self.old).begun ≡ false }
        requires fits { Fits list.old.blocks (size_of self.old) }
        ensures leads { (cfg : Config) (asking : Asking Variables) (server : Coming) (put : List ℕ) (now : Variables) (saying : Saying) (head : Head) (body : List ℕ) → AnswerStands cfg self.old asking server put now saying
            → list.old.blocks ≡ front_blocks head body → is_status_line head.line ≡ true → TurnsTo cfg self.new asking server put now head body }
        ensures place { place_of self.new ≡ place.Saying }
        ensures starts { (seen self.new).answered ≡ false }
        ensures begun { (seen self.new).begun ≡ false }
        ensures heard { (seen self.new).heard ≡ (seen self.old).heard }
        ensures window { (seen self.new).window ≡ (seen self.old).window }
        ensures open { (seen self.new).is_open ≡ (seen self.old).is_open }
        ensures list_size { list.new.size ≡ list.old.size }
        ensures sound { IsSoundSide self.new }
        ensures size { size_of self.new ≡ size_of self.old }
        ensures window_size { window_size_of self.new ≡ window_size_of self.old }
    {
        answer_promise();
        self.status = status_of(list);
        self.lane.answer(list, self.asker.head_asked);
        self.place = Place::Saying;
        self.at_rest = false;
    }

    /// Puts out as much of what is said as there is room for.
    pub fn say(&mut self)
        requires sound { IsSoundSide self.old }
        requires says { place_of self.old ≡ place.Saying }
        ensures leads { (cfg : Config) (asking : Asking Variables) (server : Coming) (put : List ℕ) (now : Variables) (saying : Saying) → AnswerStands cfg self.old asking server put now saying
            → SaysMore cfg self.old self.new asking server put now saying }
        ensures place { place_of self.new ≡ place_of self.old }
        ensures open { (seen self.new).is_open ≡ (seen self.old).is_open }
        ensures begun { (seen self.old).begun ≡ true → (seen self.new).begun ≡ true }
        ensures heard { (seen self.new).heard ≡ (seen self.old).heard }
        ensures sound { IsSoundSide self.new }
        ensures size { size_of self.new ≡ size_of self.old }
        ensures window_size { window_size_of self.new ≡ window_size_of self.old }
    {
        answer_promise();
        if is_done(self.lane.stage()) {
            return;
        }
        self.lane.step();
    }
}
