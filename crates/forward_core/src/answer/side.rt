//! The direction in which a session answers its client.
ghost use Rattle.std.specs.Prelude.{◌≡◌, ◌≤◌, ◌+◌, ◌-◌, ℕ, List, [], length, drop, true, false, IfOk};
ghost use Rattle.http_model.specs.Sizes.{least_size, most_size, least_head};
ghost use Rattle.body_filter.specs.Valid.{AreFilters};
ghost use Rattle.px_sample.specs.Variables.{Variables};
ghost use Rattle.http_rules.specs.declared.config.Config.{Config};
ghost use Rattle.session_core.specs.History.{Coming, gains, ends, no_stream};
ghost use Rattle.session_core.specs.Sided.{Asking, asker_in, Saying, unsaid};
ghost use Rattle.forward_core.specs.Answer.Seen as spec;
ghost use Rattle.forward_core.specs.Answer.Seen.{seen, place_of, asker_of, size_of, window_size_of};
ghost use Rattle.forward_core.specs.Answer.Stands.{AnswerStands, IsSoundSide, IsAsker};
ghost use Rattle.forward_core.specs.declared.answer.place.Place.TheVariants as place;

mod instead;
mod judging;
mod passing;
mod putting;
mod reading;
mod saying;
mod stepping;
mod views;

use crate::answer::asker::Asker;
use crate::answer::place::Place;
use body_filter::FilterSpec;
use http_model::{Ending, Limits, OutOfMemory};
use lane::ResponseLane;
use std::alloc::Global;

/// The answer direction of a session.
pub struct AnswerSide {
    lane: ResponseLane,
    asker: Asker,
    place: Place,
    /// The server's stream has not ended.
    open: bool,
    /// A response head was read.
    heard: bool,
    /// The status of the last that goes out. It counts for nothing in front of an answer.
    status: Option<u16>,
    /// The last step left nothing undone that could be done with what has come.
    at_rest: bool,
}

impl Drop for AnswerSide {
    fn drop(self) {
        let AnswerSide {
            lane: _,
            asker: _,
            place: _,
            open: _,
            heard: _,
            status: _,
            at_rest: _,
        } = self;
    }
}

/// What is known of no request.
fn nobody() -> Asker
    ensures { result ≡ spec.nobody }
{
    Asker {
        head_asked: false,
        is_http_11: false,
        keep: false,
    }
}

impl AnswerSide {
    /// The answer direction of a new session, whose window to the client has `window` bytes. This call alone takes memory.
    pub fn new(
        alloc: Global,
        limits: Limits,
        window: u32,
        filters: &[FilterSpec],
    ) -> Result<AnswerSide, OutOfMemory>
        requires least { least_size ≤ limits.bufsize }
        requires most { limits.bufsize ≤ most_size }
        requires reserve { limits.maxrewrite + least_head ≤ limits.bufsize }
        requires window { 64 ≤ window }
        requires few { length filters.now ≤ 8 }
        requires valid { AreFilters filters.now }
        ensures stands { IfOk result (λ side. (cfg : Config) (asking : Asking Variables) (server : Coming) (now : Variables) (saying : Saying) → cfg.limits ≡ limits → cfg.res_filters ≡ filters.now
            → IsAsker (asker_of side) (asker_in asking) → AnswerStands cfg side asking server [] now saying) }
        ensures nobody { IfOk result (λ side. asker_of side ≡ spec.nobody) }
        ensures place { IfOk result (λ side. place_of side ≡ place.Idle) }
        ensures sound { IfOk result IsSoundSide }
        ensures size { IfOk result (λ side. size_of side ≡ limits.bufsize) }
        ensures window { IfOk result (λ side. (seen side).window ≡ []) }
        ensures window_size { IfOk result (λ side. window_size_of side ≡ window) }
    {
        let lane = ResponseLane::new(alloc, limits, window, filters)?;
        Ok(AnswerSide {
            lane,
            asker: nobody(),
            place: Place::Idle,
            open: true,
            heard: false,
            status: None,
            at_rest: true,
        })
    }

    /// Bytes of the server come.
    pub fn from_server(&mut self, bytes: &[u8])
        requires sound { IsSoundSide self.old }
        requires open { (seen self.old).is_open ≡ true }
        requires room { length bytes.now ≤ (seen self.old).room }
        ensures leads { (cfg : Config) (asking : Asking Variables) (server : Coming) (put : List ℕ) (now : Variables) (saying : Saying) → AnswerStands cfg self.old asking server put now saying
            → AnswerStands cfg self.new asking (gains server bytes.now) put now saying }
        ensures seen { seen self.new ≡ record (seen self.old) { room = (seen self.old).room - length bytes.now; at_rest = false } }
        ensures place { place_of self.new ≡ place_of self.old }
        ensures sound { IsSoundSide self.new }
        ensures size { size_of self.new ≡ size_of self.old }
        ensures window_size { window_size_of self.new ≡ window_size_of self.old }
    {
        self.lane.push(bytes);
        self.at_rest = false;
    }

    /// The server's stream ends.
    pub fn server_ended(&mut self, how: Ending)
        requires sound { IsSoundSide self.old }
        requires open { (seen self.old).is_open ≡ true }
        ensures leads { (cfg : Config) (asking : Asking Variables) (server : Coming) (put : List ℕ) (now : Variables) (saying : Saying) → AnswerStands cfg self.old asking server put now saying
            → AnswerStands cfg self.new asking (ends server how) put now saying }
        ensures seen { seen self.new ≡ record (seen self.old) { is_open = false; at_rest = false } }
        ensures place { place_of self.new ≡ place_of self.old }
        ensures sound { IsSoundSide self.new }
        ensures size { size_of self.new ≡ size_of self.old }
        ensures window_size { window_size_of self.new ≡ window_size_of self.old }
    {
        self.lane.end(how);
        self.open = false;
        self.at_rest = false;
    }

    /// The client took so many bytes of its window.
    pub fn client_took(&mut self, n: usize)
        requires sound { IsSoundSide self.old }
        requires within { n ≤ length (seen self.old).window }
        ensures leads { (cfg : Config) (asking : Asking Variables) (server : Coming) (put : List ℕ) (now : Variables) (saying : Saying) → AnswerStands cfg self.old asking server put now saying
            → AnswerStands cfg self.new asking server put now saying }
        ensures seen { seen self.new ≡ record (seen self.old) { window = drop n (seen self.old).window; at_rest = false } }
        ensures place { place_of self.new ≡ place_of self.old }
        ensures sound { IsSoundSide self.new }
        ensures size { size_of self.new ≡ size_of self.old }
        ensures window_size { window_size_of self.new ≡ window_size_of self.old }
    {
        self.lane.took(n);
        self.at_rest = false;
    }

    /// The next request was read, and goes to a server.
    pub fn begin(&mut self, asker: Asker)
        requires sound { IsSoundSide self.old }
        requires idle { place_of self.old ≡ place.Idle }
        ensures leads { (cfg : Config) (old asking : Asking Variables) (server : Coming) (put : List ℕ) (now : Variables) (saying : Saying) → AnswerStands cfg self.old old server put now saying
            → IsAsker asker (asker_in asking) → AnswerStands cfg self.new asking server put now saying }
        ensures seen { seen self.new ≡ seen self.old }
        ensures place { place_of self.new ≡ place_of self.old }
        ensures sound { IsSoundSide self.new }
        ensures size { size_of self.new ≡ size_of self.old }
        ensures window_size { window_size_of self.new ≡ window_size_of self.old }
    {
        self.asker = asker;
    }

    /// A server is open for the request in hand.
    pub fn open_server(&mut self)
        requires sound { IsSoundSide self.old }
        requires idle { place_of self.old ≡ place.Idle }
        ensures leads { (cfg : Config) (asking : Asking Variables) (server : Coming) (put : List ℕ) (now : Variables) (saying : Saying) → AnswerStands cfg self.old asking server put now saying
            → AnswerStands cfg self.new asking no_stream put now saying }
        ensures place { place_of self.new ≡ place.Heads }
        ensures open { (seen self.new).is_open ≡ true }
        ensures begun { (seen self.new).begun ≡ false }
        ensures heard { (seen self.new).heard ≡ false }
        ensures window { (seen self.new).window ≡ (seen self.old).window }
        ensures sound { IsSoundSide self.new }
        ensures size { size_of self.new ≡ size_of self.old }
        ensures window_size { window_size_of self.new ≡ window_size_of self.old }
    {
        self.lane.restart();
        self.place = Place::Heads;
        self.open = true;
        self.heard = false;
        self.at_rest = false;
    }

    /// All of the answer is put out, and the next exchange begins: nothing is put out until its answer does.
    pub fn next(&mut self)
        requires sound { IsSoundSide self.old }
        requires answered { (seen self.old).answered ≡ true }
        ensures leads { (cfg : Config) (asking : Asking Variables) (server : Coming) (put : List ℕ) (now : Variables) (saying : Saying) → AnswerStands cfg self.old asking server put now saying
            → AnswerStands cfg self.new asking no_stream [] now (unsaid []) }
        ensures place { place_of self.new ≡ place.Idle }
        ensures window { (seen self.new).window ≡ (seen self.old).window }
        ensures sound { IsSoundSide self.new }
        ensures size { size_of self.new ≡ size_of self.old }
        ensures window_size { window_size_of self.new ≡ window_size_of self.old }
    {
        self.lane.next();
        self.place = Place::Idle;
        self.heard = false;
        self.at_rest = false;
    }

    /// As a new one, in the same memory, for the same configuration.
    pub fn renew(&mut self)
        requires sound { IsSoundSide self.old }
        ensures stands { (cfg : Config) (asked : Asking Variables) (came : Coming) (sent : List ℕ) (before : Variables) (said : Saying) → AnswerStands cfg self.old asked came sent before said
            → (asking : Asking Variables) (server : Coming) (now : Variables) (saying : Saying) → IsAsker (asker_of self.new) (asker_in asking) → AnswerStands cfg self.new asking server [] now saying }
        ensures nobody { asker_of self.new ≡ spec.nobody }
        ensures place { place_of self.new ≡ place.Idle }
        ensures sound { IsSoundSide self.new }
        ensures size { size_of self.new ≡ size_of self.old }
        ensures window_size { window_size_of self.new ≡ window_size_of self.old }
        ensures window { (seen self.new).window ≡ [] }
    {
        self.lane.renew();
        self.asker = nobody();
        self.place = Place::Idle;
        self.open = true;
        self.heard = false;
        self.at_rest = true;
    }
}
