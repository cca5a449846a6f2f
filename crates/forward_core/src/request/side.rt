//! The request direction of a session, and its events and work.
ghost use Rattle.std.specs.Prelude.{◌≡◌, ◌≢◌, ◌≤◌, ◌<◌, ◌+◌, ◌-◌, ℕ, List, [], ◌++◌, true, false, drop, length, IfOk};
ghost use Rattle.http_model.specs.Head.{Head, head_blocks};
ghost use Rattle.http_model.specs.Sizes.{least_size, most_size, least_head};
ghost use Rattle.body_filter.specs.Valid.{AreFilters};
ghost use Rattle.px_sample.specs.Variables.{Variables};
ghost use Rattle.http_rules.specs.declared.config.Config.{Config};
ghost use Rattle.session_core.specs.History.{Coming, no_stream, gains, ends};
ghost use Rattle.session_core.specs.Sided.{Asking, Reply};
ghost use Rattle.session_core.specs.Leads.{KeepsRequest};
ghost use Rattle.http_model.specs.declared.Source.TheVariants as source;
ghost use Rattle.lane.specs.declared.direction.stage.Stage.TheVariants as stage;

mod views;

use crate::request::line::keep_line;
use crate::request::place::Place;
use body_filter::FilterSpec;
use h1_head::Side;
use h1_head::laws::has_bytes;
use http_model::{Ending, Framing, Limits, OutOfMemory};
use htx_arena::Arena;
use lane::laws::promise;
use lane::{Lane, LaneHead, Stage};
use px_sample::Buf;
use std::alloc::Global;

/// The request direction of a session.
pub struct RequestSide {
    lane: Lane,
    place: Place,
    /// The method, one space and the target of the head that was read in this exchange, as they were received. Where none was
    /// read it is empty.
    line: Buf,
    /// The client waits for a response head before it sends the body (RFC 9110 section 10.1.1).
    awaits: bool,
    /// The last step left nothing undone that could be done with what has come.
    at_rest: bool,
    /// No byte has come since the exchange before.
    untouched: bool,
}

impl Drop for RequestSide {
    fn drop(self) {
        let RequestSide {
            lane: _,
            place: _,
            line: _,
            awaits: _,
            at_rest: _,
            untouched: _,
        } = self;
    }
}

ghost use Rattle.forward_core.specs.Request.Seen.{seen, list_of, limits_of, input_size_of, place_of, is_open, room_of, window_of, window_size_of, to_read};
ghost use Rattle.forward_core.specs.Request.Stands.{IsSound, RequestStands, Leads};
ghost use Rattle.forward_core.specs.Request.Steps.{Puts, ReadsNext};
ghost use Rattle.forward_core.specs.Request.Reads.{HeadTells, UsesBytes, HasHead, SendsOn, RepliesTo};
ghost use Rattle.forward_core.specs.declared.request.place.Place.TheVariants as place;

impl RequestSide {
    /// A direction to which nothing has happened. Its input window and its arrays have `limits.bufsize` bytes, its output
    /// window `window`; bodies go through these filters. Beside rules with patterns, this call alone takes memory.
    pub fn new(
        alloc: Global,
        limits: Limits,
        window: u32,
        filters: &[FilterSpec],
    ) -> Result<RequestSide, OutOfMemory>
        requires least { least_size ≤ limits.bufsize }
        requires most { limits.bufsize ≤ most_size }
        requires reserve { limits.maxrewrite + least_head ≤ limits.bufsize }
        requires window { 64 ≤ window }
        requires few { length filters.now ≤ 8 }
        requires valid { AreFilters filters.now }
        ensures sound { IfOk result IsSound }
        ensures limits { IfOk result (λ side. limits_of side ≡ limits) }
        ensures stands { IfOk result (λ side. (cfg : Config) (vars : Variables) (asking : Asking Variables) (to_server : List ℕ) (reply : Reply Variables)
            → cfg.limits ≡ limits → cfg.req_filters ≡ filters.now → RequestStands cfg side vars no_stream asking to_server reply) }
        ensures place { IfOk result (λ side. place_of side ≡ place.Reading) }
        ensures open { IfOk result (λ side. is_open side ≡ true) }
        ensures window { IfOk result (λ side. window_of side ≡ []) }
        ensures window_size { IfOk result (λ side. window_size_of side ≡ window) }
    {
        let line = Buf::new(alloc, limits.bufsize)?;
        Ok(RequestSide {
            lane: Lane::new(alloc, limits, window, filters)?,
            place: Place::Reading,
            line,
            awaits: false,
            at_rest: false,
            untouched: true,
        })
    }

    /// Bytes of the client's stream come.
    pub fn from_client(&mut self, bytes: &[u8])
        requires sound { IsSound self.old }
        requires open { is_open self.old ≡ true }
        requires room { length bytes.now ≤ room_of self.old }
        ensures sound { IsSound self.new }
        ensures leads { Leads self.old self.new (λ came. gains came bytes.now) (λ put. put) }
        ensures seen { seen self.new ≡ record (seen self.old) { room = room_of self.old - length bytes.now; unread = (seen self.old).unread + to_read (place_of self.old) (length bytes.now); at_rest = false } }
        ensures place { place_of self.new ≡ place_of self.old }
        ensures limits { limits_of self.new ≡ limits_of self.old }
        ensures window_size { window_size_of self.new ≡ window_size_of self.old }
    {
        self.lane.push(bytes);
        self.at_rest = false;
        self.untouched = false;
    }

    /// The client's stream ends.
    pub fn client_ended(&mut self, how: Ending)
        requires sound { IsSound self.old }
        requires open { is_open self.old ≡ true }
        ensures sound { IsSound self.new }
        ensures leads { Leads self.old self.new (λ came. ends came how) (λ put. put) }
        ensures seen { seen self.new ≡ record (seen self.old) { is_open = false; at_rest = false } }
        ensures place { place_of self.new ≡ place_of self.old }
        ensures limits { limits_of self.new ≡ limits_of self.old }
        ensures window_size { window_size_of self.new ≡ window_size_of self.old }
    {
        self.lane.end(how);
        self.at_rest = false;
    }

    /// So many bytes of the text for the server were taken.
    pub fn server_took(&mut self, n: usize)
        requires sound { IsSound self.old }
        requires within { n ≤ length (window_of self.old) }
        ensures sound { IsSound self.new }
        ensures leads { Leads self.old self.new (λ came. came) (λ put. put) }
        ensures seen { seen self.new ≡ record (seen self.old) { window = drop n (window_of self.old); at_rest = false } }
        ensures place { place_of self.new ≡ place_of self.old }
        ensures limits { limits_of self.new ≡ limits_of self.old }
        ensures window_size { window_size_of self.new ≡ window_size_of self.old }
    {
        self.lane.took(n);
        self.at_rest = false;
    }

    /// The server takes nothing more: what waits for it, and all that follows, is dropped. Nothing is left in the array on which
    /// rules run.
    pub fn drop_request(&mut self)
        requires sound { IsSound self.old }
        requires some { window_of self.old ≢ [] }
        ensures sound { IsSound self.new }
        ensures leads { (cfg : Config) (vars : Variables) (came : Coming) (asking : Asking Variables) (to_server put : List ℕ) (reply : Reply Variables)
            → RequestStands cfg self.old vars came asking to_server reply → put ++ window_of self.old ≡ to_server → RequestStands cfg self.new vars came asking put reply }
        ensures seen { seen self.new ≡ record (seen self.old) { window = []; dropped = true; at_rest = false; list = [] } }
        ensures place { place_of self.new ≡ place_of self.old }
        ensures limits { limits_of self.new ≡ limits_of self.old }
        ensures window_size { window_size_of self.new ≡ window_size_of self.old }
    {
        promise();
        self.at_rest = false;
        self.lane.discard();
    }

    /// Reads, filters and puts out as much of the request as there is room for. The array on which rules run changes.
    pub fn step_request(&mut self)
        requires sound { IsSound self.old }
        requires begun { place_of self.old ≢ place.Reading }
        ensures sound { IsSound self.new }
        ensures puts { Puts self.old self.new }
        ensures keeps { KeepsRequest (seen self.old) (seen self.new) }
        ensures place { place_of self.new ≡ place_of self.old }
        ensures limits { limits_of self.new ≡ limits_of self.old }
        ensures window_size { window_size_of self.new ≡ window_size_of self.old }
    {
        self.at_rest = true;
        if !self.is_going_out() {
            return;
        }
        self.lane.step();
    }

    /// Whether text of a request is still to go out.
    fn is_going_out(&self) -> bool
        ensures place { result ≡ true → place_of self.now ≡ place.Sending }
        ensures stage { result ≡ true → self.now.lane.stage ≡ stage.Sending }
        ensures rests { result ≡ false → place_of self.now ≡ place.Sending → self.now.lane.stage ≢ stage.Sending }
    {
        match self.place {
            Place::Sending => self.lane.stage() == Stage::Sending,
            Place::Reading => false,
            Place::Idle => false,
            Place::Replied => false,
        }
    }

    /// Reads the head of the client's next request. Where it stands in the array, rules may edit it there before it is sent. Where nothing
    /// came since the last look there is nothing to read.
    pub fn read_head(&mut self) -> LaneHead
        requires sound { IsSound self.old }
        requires place { place_of self.old ≡ place.Reading }
        ensures sound { IsSound self.new }
        ensures tells { HeadTells self.old self.new result }
        ensures uses { UsesBytes self.old self.new result }
        ensures open { is_open self.new ≡ is_open self.old }
        ensures window { window_of self.new ≡ window_of self.old }
        ensures limits { limits_of self.new ≡ limits_of self.old }
        ensures window_size { window_size_of self.new ≡ window_size_of self.old }
    {
        if self.is_waiting() {
            return LaneHead::More;
        }
        has_bytes();
        self.at_rest = false;
        match self.lane.read_head(Side::Request) {
            LaneHead::More => {
                self.at_rest = true;
                LaneHead::More
            }
            LaneHead::Nothing => {
                self.place = Place::Idle;
                LaneHead::Nothing
            }
            LaneHead::Head => {
                keep_line(&mut self.line, &mut self.lane);
                self.place = Place::Idle;
                LaneHead::Head
            }
            LaneHead::Refuse(code) => {
                self.place = Place::Idle;
                LaneHead::Refuse(code)
            }
        }
    }

    /// Whether nothing came since a head was last looked for, and more can come.
    fn is_waiting(&self) -> bool
        ensures rests { result ≡ true → self.now.at_rest ≡ true }
        ensures room { result ≡ true → 0 < room_of self.now }
    {
        self.at_rest && self.client_room() > 0
    }

    /// The head that stands in the array, which rules edited and which is finished for its server, goes out, and the body behind
    /// it in this framing. `awaits` says whether the client waits for a response head before it sends the body.
    pub fn send(&mut self, framing: Framing, awaits: bool)
        requires sound { IsSound self.old }
        requires idle { place_of self.old ≡ place.Idle }
        requires has { HasHead self.old }
        requires head { (head : Head) × (list_of self.old ≡ head_blocks head) }
        ensures sound { IsSound self.new }
        ensures leads { SendsOn self.old self.new framing }
        ensures place { place_of self.new ≡ place.Sending }
        ensures open { is_open self.new ≡ is_open self.old }
        ensures window { window_of self.new ≡ window_of self.old }
        ensures list { list_of self.new ≡ list_of self.old }
        ensures source { (seen self.new).source ≡ source.Going }
        ensures sent { (seen self.new).sent ≡ false }
        ensures dropped { (seen self.new).dropped ≡ false }
        ensures waits { (seen self.new).awaits ≡ awaits }
        ensures limits { limits_of self.new ≡ limits_of self.old }
        ensures window_size { window_size_of self.new ≡ window_size_of self.old }
    {
        self.lane.send(framing, false);
        self.place = Place::Sending;
        self.awaits = awaits;
        self.at_rest = false;
    }

    /// Rules reply to the head that was read, with no server.
    pub fn reply(&mut self)
        requires sound { IsSound self.old }
        requires idle { place_of self.old ≡ place.Idle }
        ensures sound { IsSound self.new }
        ensures leads { RepliesTo self.old self.new }
        ensures place { place_of self.new ≡ place.Replied }
        ensures open { is_open self.new ≡ is_open self.old }
        ensures window { window_of self.new ≡ window_of self.old }
        ensures limits { limits_of self.new ≡ limits_of self.old }
        ensures window_size { window_size_of self.new ≡ window_size_of self.old }
        ensures input { input_size_of self.new ≡ input_size_of self.old }
    {
        self.place = Place::Replied;
        self.at_rest = false;
    }

    /// The next exchange begins behind a request that came whole, or that was replied to: the head of the next is to be read.
    /// What stands in the output goes.
    pub fn next(&mut self)
        requires sound { IsSound self.old }
        requires busy { place_of self.old ≢ place.Idle }
        ensures sound { IsSound self.new }
        ensures leads { ReadsNext self.old self.new }
        ensures place { place_of self.new ≡ place.Reading }
        ensures open { is_open self.new ≡ is_open self.old }
        ensures window { window_of self.new ≡ [] }
        ensures unread { (seen self.new).unread ≡ (seen self.old).unread }
        ensures limits { limits_of self.new ≡ limits_of self.old }
        ensures window_size { window_size_of self.new ≡ window_size_of self.old }
    {
        self.untouched = self.lane.input_len() == 0;
        self.lane.next();
        self.lane.clear_output();
        self.line.clear();
        self.place = Place::Reading;
        self.at_rest = false;
    }

    /// As a new one, in the same memory, for the same configuration.
    pub fn renew(&mut self)
        requires sound { IsSound self.old }
        ensures sound { IsSound self.new }
        ensures limits { limits_of self.new ≡ limits_of self.old }
        ensures window_size { window_size_of self.new ≡ window_size_of self.old }
        ensures stands { (cfg : Config) (before : Variables) (came : Coming) (asked : Asking Variables) (sent : List ℕ) (replied : Reply Variables) → RequestStands cfg self.old before came asked sent replied
            → (vars : Variables) (asking : Asking Variables) (to_server : List ℕ) (reply : Reply Variables) → RequestStands cfg self.new vars no_stream asking to_server reply }
        ensures place { place_of self.new ≡ place.Reading }
        ensures open { is_open self.new ≡ true }
        ensures window { window_of self.new ≡ [] }
    {
        self.lane.new_stream();
        self.lane.clear_output();
        self.line.clear();
        self.place = Place::Reading;
        self.awaits = false;
        self.at_rest = false;
        self.untouched = true;
    }
}
