//! Heads of the server, up to a final one.
ghost use Rattle.std.specs.Prelude.{◌≡◌, ◌≢◌, ◌<◌, ◌≤◌, ℕ, List, length, true, false};
ghost use Rattle.px_sample.specs.Variables.{Variables};
ghost use Rattle.http_rules.specs.declared.config.Config.{Config};
ghost use Rattle.http_model.specs.Head.{Head, head_blocks};
ghost use Rattle.http_model.specs.Reading.{Received};
ghost use Rattle.session_core.specs.History.{Coming};
ghost use Rattle.session_core.specs.Sided.{Asking, Saying};
ghost use Rattle.session_model.specs.Meaning.{is_interim};
ghost use Rattle.lane.specs.Answering.{stage_of, input_of, blocks_of};
ghost use Rattle.lane.specs.declared.direction.stage.Stage.TheVariants as stage;
ghost use Rattle.forward_core.specs.Answer.Seen.{seen, place_of, size_of, window_size_of};
ghost use Rattle.forward_core.specs.Answer.Stands.{AnswerStands, IsSoundSide};
ghost use Rattle.forward_core.specs.Answer.Hearing.{IsBetween, HasHead, StandsThere, Hears, IsRead};
ghost use Rattle.forward_core.specs.declared.answer.place.Place.TheVariants as place;

use crate::answer::hearing::{Heard, is_interim};
use crate::answer::side::AnswerSide;
use lane::{LaneHead, Stage};

impl AnswerSide {
    /// Puts out what is left of an interim head, and reads heads up to a final one, as far as the stream and the window allow.
    pub(super) fn hear(&mut self) -> Heard
        requires sound { IsSoundSide self.old }
        requires heads { place_of self.old ≡ place.Heads }
        requires stirs { (seen self.old).at_rest ≡ false }
        ensures leads { (cfg : Config) (asking : Asking Variables) (server : Coming) (put : List ℕ) (now : Variables) (saying : Saying) → AnswerStands cfg self.old asking server put now saying
            → Hears cfg self.old self.new asking server put now saying result }
        ensures between { IsBetween self.new }
        ensures there { StandsThere result self.new }
        ensures over { result ≢ Heard.Interim }
        ensures open { (seen self.new).is_open ≡ (seen self.old).is_open }
        ensures heard { (seen self.old).heard ≡ true → (seen self.new).heard ≡ true }
        ensures size { size_of self.new ≡ size_of self.old }
        ensures window_size { window_size_of self.new ≡ window_size_of self.old }
    {
        match self.show_first() {
            Heard::More => Heard::More,
            Heard::Interim => self.read_heads(),
            Heard::Final => Heard::Final,
            Heard::Refused => Heard::Refused,
        }
    }

    /// Puts out what is left of an interim head.
    fn show_first(&mut self) -> Heard
        requires sound { IsSoundSide self.old }
        requires heads { place_of self.old ≡ place.Heads }
        requires stirs { (seen self.old).at_rest ≡ false }
        ensures leads { (cfg : Config) (asking : Asking Variables) (server : Coming) (put : List ℕ) (now : Variables) (saying : Saying) → AnswerStands cfg self.old asking server put now saying
            → Hears cfg self.old self.new asking server put now saying result }
        ensures between { IsBetween self.new }
        ensures there { StandsThere result self.new }
        ensures open { (seen self.new).is_open ≡ (seen self.old).is_open }
        ensures heard { (seen self.new).heard ≡ (seen self.old).heard }
        ensures size { size_of self.new ≡ size_of self.old }
        ensures window_size { window_size_of self.new ≡ window_size_of self.old }
    {
        if self.is_showing() {
            return self.show_on();
        }
        Heard::Interim
    }

    /// Reads heads up to a final one.
    fn read_heads(&mut self) -> Heard
        requires between { IsBetween self.old }
        requires reading { stage_of self.old.lane ≡ stage.Reading }
        ensures leads { (cfg : Config) (asking : Asking Variables) (server : Coming) (put : List ℕ) (now : Variables) (saying : Saying) → AnswerStands cfg self.old asking server put now saying
            → Hears cfg self.old self.new asking server put now saying result }
        ensures between { IsBetween self.new }
        ensures there { StandsThere result self.new }
        ensures over { result ≢ Heard.Interim }
        ensures open { (seen self.new).is_open ≡ (seen self.old).is_open }
        ensures heard { (seen self.old).heard ≡ true → (seen self.new).heard ≡ true }
        ensures size { size_of self.new ≡ size_of self.old }
        ensures window_size { window_size_of self.new ≡ window_size_of self.old }
    {
        'heads: loop {
            match self.read_on() {
                Heard::More => return Heard::More,
                Heard::Interim => {}
                Heard::Final => return Heard::Final,
                Heard::Refused => return Heard::Refused,
            }
        }
    }

    /// Reads a head; an interim one goes to the client, or nowhere.
    fn read_on(&mut self) -> Heard
        requires between { IsBetween self.old }
        requires reading { stage_of self.old.lane ≡ stage.Reading }
        ensures leads { (cfg : Config) (asking : Asking Variables) (server : Coming) (put : List ℕ) (now : Variables) (saying : Saying) → AnswerStands cfg self.old asking server put now saying
            → Hears cfg self.old self.new asking server put now saying result }
        ensures between { IsBetween self.new }
        ensures there { StandsThere result self.new }
        ensures less { result ≡ Heard.Interim → length (input_of self.new.lane) < length (input_of self.old.lane) }
        ensures open { (seen self.new).is_open ≡ (seen self.old).is_open }
        ensures heard { (seen self.old).heard ≡ true → (seen self.new).heard ≡ true }
        ensures size { size_of self.new ≡ size_of self.old }
        ensures window_size { window_size_of self.new ≡ window_size_of self.old }
    {
        match self.lane.read_head(self.asker.head_asked) {
            LaneHead::More => Heard::More,
            LaneHead::Nothing => Heard::Refused,
            LaneHead::Head => {
                self.heard = true;
                self.tell_head()
            }
            LaneHead::Refuse(_) => Heard::Refused,
        }
    }

    /// What becomes of the head that stands in the array.
    fn tell_head(&mut self) -> Heard
        requires between { IsBetween self.old }
        requires has { HasHead self.old }
        ensures leads { (cfg : Config) (asking : Asking Variables) (server : Coming) (put : List ℕ) (now : Variables) (saying : Saying) (received : Received) → IsRead cfg self.old asking server put received
            → blocks_of self.old.lane ≡ head_blocks received.head → Hears cfg self.old self.new asking server put now saying result }
        ensures between { IsBetween self.new }
        ensures there { StandsThere result self.new }
        ensures less { length (input_of self.new.lane) ≤ length (input_of self.old.lane) }
        ensures open { (seen self.new).is_open ≡ (seen self.old).is_open }
        ensures heard { (seen self.new).heard ≡ (seen self.old).heard }
        ensures size { size_of self.new ≡ size_of self.old }
        ensures window_size { window_size_of self.new ≡ window_size_of self.old }
    {
        if self.has_interim() {
            return self.pass_or_drop();
        }
        Heard::Final
    }

    /// Whether the head that stands in the array is that of an interim response.
    fn has_interim(&mut self) -> bool
        ensures tells { (head : Head) → blocks_of self.old.lane ≡ head_blocks head → result ≡ is_interim head }
        ensures same { self.new ≡ self.old }
    {
        is_interim(self.lane.head())
    }

    /// The interim head that stands in the array goes to an HTTP/1.1 client, and nowhere else (RFC 9110 section 15.2).
    fn pass_or_drop(&mut self) -> Heard
        requires between { IsBetween self.old }
        requires has { HasHead self.old }
        ensures leads { (cfg : Config) (asking : Asking Variables) (server : Coming) (put : List ℕ) (now : Variables) (saying : Saying) (received : Received) → IsRead cfg self.old asking server put received
            → is_interim received.head ≡ true → blocks_of self.old.lane ≡ head_blocks received.head → Hears cfg self.old self.new asking server put now saying result }
        ensures between { IsBetween self.new }
        ensures there { StandsThere result self.new }
        ensures less { length (input_of self.new.lane) ≤ length (input_of self.old.lane) }
        ensures open { (seen self.new).is_open ≡ (seen self.old).is_open }
        ensures heard { (seen self.new).heard ≡ (seen self.old).heard }
        ensures size { size_of self.new ≡ size_of self.old }
        ensures window_size { window_size_of self.new ≡ window_size_of self.old }
    {
        if self.asker.is_http_11 {
            self.lane.pass();
            return self.show_on();
        }
        self.lane.drop_head();
        Heard::Interim
    }

    /// Puts out more of an interim head.
    fn show_on(&mut self) -> Heard
        requires between { IsBetween self.old }
        requires sending { stage_of self.old.lane ≡ stage.Sending }
        ensures leads { (cfg : Config) (asking : Asking Variables) (server : Coming) (put : List ℕ) (now : Variables) (saying : Saying) → AnswerStands cfg self.old asking server put now saying
            → Hears cfg self.old self.new asking server put now saying result }
        ensures between { IsBetween self.new }
        ensures there { StandsThere result self.new }
        ensures less { length (input_of self.new.lane) ≤ length (input_of self.old.lane) }
        ensures open { (seen self.new).is_open ≡ (seen self.old).is_open }
        ensures heard { (seen self.new).heard ≡ (seen self.old).heard }
        ensures size { size_of self.new ≡ size_of self.old }
        ensures window_size { window_size_of self.new ≡ window_size_of self.old }
    {
        self.lane.step();
        if self.is_showing() {
            return Heard::More;
        }
        Heard::Interim
    }

    /// Whether an interim head goes out.
    fn is_showing(&self) -> bool
        ensures shows { result ≡ true → stage_of self.now.lane ≡ stage.Sending }
        ensures rests { result ≡ false → stage_of self.now.lane ≢ stage.Sending }
    {
        self.lane.stage() == Stage::Sending
    }
}
