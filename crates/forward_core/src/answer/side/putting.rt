//! A response on its way to the client, or what stands in its place.
ghost use Rattle.std.specs.Prelude.{◌≡◌, ℕ, List, true, false};
ghost use Rattle.px_sample.specs.Variables.{Variables};
ghost use Rattle.http_rules.specs.declared.config.Config.{Config};
ghost use Rattle.session_core.specs.History.{Coming};
ghost use Rattle.session_core.specs.Sided.{Asking, Saying};
ghost use Rattle.forward_core.specs.Answer.Seen as spec;
ghost use Rattle.forward_core.specs.Answer.Seen.{seen, place_of, size_of, window_size_of};
ghost use Rattle.forward_core.specs.Answer.Stands.{AnswerStands, IsSoundSide};
ghost use Rattle.forward_core.specs.Answer.Said.{PutsMore};

use crate::answer::place::Place;
use crate::answer::side::AnswerSide;
use crate::answer::side::views::is_done;

/// Whether the last that answers goes out.
pub(super) fn is_last(place: Place) -> bool
    ensures { result ≡ spec.is_last place }
{
    match place {
        Place::Response => true,
        Place::Closing => true,
        Place::Keeping => true,
        Place::Idle => false,
        Place::Heads => false,
        Place::Saying => false,
    }
}

impl AnswerSide {
    /// Puts out as much of a response, or of what stands in its place, as there is room for.
    pub(super) fn put_out(&mut self)
        requires sound { IsSoundSide self.old }
        ensures leads { (cfg : Config) (asking : Asking Variables) (server : Coming) (put : List ℕ) (now : Variables) (saying : Saying) → AnswerStands cfg self.old asking server put now saying
            → spec.is_last (place_of self.old) ≡ true → PutsMore cfg self.old self.new asking server put now saying }
        ensures begun { (seen self.old).begun ≡ true → (seen self.new).begun ≡ true }
        ensures place { place_of self.new ≡ place_of self.old }
        ensures open { (seen self.new).is_open ≡ (seen self.old).is_open }
        ensures heard { (seen self.new).heard ≡ (seen self.old).heard }
        ensures rests { spec.is_last (place_of self.old) ≡ false → self.new ≡ self.old }
        ensures size { size_of self.new ≡ size_of self.old }
        ensures window_size { window_size_of self.new ≡ window_size_of self.old }
        ensures sound { IsSoundSide self.new }
    {
        if is_last(self.place) {
            self.put_on();
        }
    }

    /// Puts out more, where not all is out.
    fn put_on(&mut self)
        requires sound { IsSoundSide self.old }
        requires last { spec.is_last (place_of self.old) ≡ true }
        ensures leads { (cfg : Config) (asking : Asking Variables) (server : Coming) (put : List ℕ) (now : Variables) (saying : Saying) → AnswerStands cfg self.old asking server put now saying
            → PutsMore cfg self.old self.new asking server put now saying }
        ensures begun { (seen self.old).begun ≡ true → (seen self.new).begun ≡ true }
        ensures place { place_of self.new ≡ place_of self.old }
        ensures open { (seen self.new).is_open ≡ (seen self.old).is_open }
        ensures heard { (seen self.new).heard ≡ (seen self.old).heard }
        ensures size { size_of self.new ≡ size_of self.old }
        ensures window_size { window_size_of self.new ≡ window_size_of self.old }
        ensures sound { IsSoundSide self.new }
    {
        self.at_rest = true;
        if is_done(self.lane.stage()) {
            return;
        }
        self.lane.step();
    }
}
