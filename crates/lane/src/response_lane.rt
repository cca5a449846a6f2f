//! The direction in which the client is answered: a server's heads come, interim ones are passed on or dropped, and the
//! last that answers goes out behind them, the server's or one in its place.
ghost use Rattle.std.specs.Prelude.{◌≡◌, ◌≤◌, ◌<◌, ◌+◌, ◌++◌, ◌⊎◌, [], length, drop, true, false, List, ℕ, Some, Bool, IfOk};
ghost use Rattle.htx_model.specs.Blocks.{Fits};
ghost use Rattle.http_model.specs.Head.{Head, head_blocks};
ghost use Rattle.http_model.specs.Reading.{Received};
ghost use Rattle.http_model.specs.Sizes.{least_size, most_size, least_head};
ghost use Rattle.body_filter.specs.Valid.{AreFilters};
ghost use Rattle.body_filter.specs.declared.filter_spec.FilterSpec.{FilterSpec};
ghost use Rattle.http_model.specs.Head.{front_blocks};
ghost use Rattle.lane.specs.Answering.{Exchange, Answers, HeadComes, HeadStands, is_interim, IsOpen, with_bytes, passes, drops, serves, replies, fresh, IsSoundAnswer, HasFilters, shows_head, shows_last, stage_of, source_of, input_of, came_in, most_of, ended_of, output_of, window_of, limits_of, array_of, blocks_of, has_begun, phase_of};
ghost use Rattle.lane.specs.declared.phase.Phase.TheVariants as phase;
ghost use Rattle.lane.specs.declared.direction.stage.LaneHead.TheVariants as says;
ghost use Rattle.lane.specs.declared.direction.stage.Stage.TheVariants as stage;
ghost use Rattle.http_model.specs.declared.Source.TheVariants as source;

mod stepping;
mod straight;
mod views;

use crate::direction::{Lane, LaneHead, Stage};
use crate::phase::Phase;
use body_filter::FilterSpec;
use h1_head::Side;
use header_ops::laws::edits_of_heads;
use http_model::{Ending, Framing, Limits, Source};
use htx_arena::Arena;
use htx_model::OutOfMemory;
use std::alloc::Global;

/// The direction in which a client is answered.
pub struct ResponseLane {
    lane: Lane,
    phase: Phase,
    /// A byte of the last that answers was put out.
    begun: bool,
}

impl Drop for ResponseLane {
    fn drop(self) {
        let ResponseLane {
            lane: _,
            phase: _,
            begun: _,
        } = self;
    }
}

impl ResponseLane {
    ghost use Rattle.std.specs.Borrow.{sem};
    ghost use Rattle.lane.specs.Lending.{LendsAnswerHead, LendsAnswerText};

    /// A lane whose output window has `window` bytes and whose input window has `bufsize`, and whose bodies go through these
    /// filters. This call alone takes memory.
    pub fn new(
        alloc: Global,
        limits: Limits,
        window: u32,
        filters: &[FilterSpec],
    ) -> Result<ResponseLane, OutOfMemory>
        requires least { least_size ≤ limits.bufsize }
        requires most { limits.bufsize ≤ most_size }
        requires reserve { limits.maxrewrite + least_head ≤ limits.bufsize }
        requires window { 64 ≤ window }
        requires few { length filters.now ≤ 8 }
        requires valid { AreFilters filters.now }
        ensures filters { IfOk result (λ lane. HasFilters lane filters.now) }
        ensures limits { IfOk result (λ lane. limits_of lane ≡ limits) }
        ensures fresh { IfOk result (λ lane. (asked : Bool) → Answers lane (fresh asked)) }
        ensures reading { IfOk result (λ lane. stage_of lane ≡ stage.Reading) }
        ensures open { IfOk result IsOpen }
        ensures output { IfOk result (λ lane. output_of lane ≡ []) }
        ensures window { IfOk result (λ lane. (window_of lane).capacity ≡ window) }
        ensures begun { IfOk result (λ lane. has_begun lane ≡ false) }
        ensures sound { IfOk result IsSoundAnswer }
    {
        Ok(ResponseLane {
            lane: Lane::new(alloc, limits, window, filters)?,
            phase: Phase::Heads,
            begun: false,
        })
    }

    /// Bytes of the server's stream come.
    pub fn push(&mut self, bytes: &[u8])
        requires open { IsOpen self.old }
        requires room { length (input_of self.old) + length bytes.now ≤ most_of self.old }
        ensures answers { (p : Exchange) → Answers self.old p → Answers self.new (with_bytes p bytes.now) }
        ensures input { input_of self.new ≡ input_of self.old ++ bytes.now }
        ensures stage { stage_of self.new ≡ stage_of self.old }
        ensures window { window_of self.new ≡ window_of self.old }
        ensures begun { has_begun self.new ≡ has_begun self.old }
        ensures ended { ended_of self.new ≡ ended_of self.old }
        ensures phase { phase_of self.new ≡ phase_of self.old }
        ensures source { source_of self.new ≡ source_of self.old }
        ensures limits { limits_of self.new ≡ limits_of self.old }
        ensures sound { IsSoundAnswer self.old → IsSoundAnswer self.new }
        ensures filters { (filters : List FilterSpec) → HasFilters self.old filters → HasFilters self.new filters }
    {
        self.lane.push(bytes);
    }

    /// The server's stream ends.
    pub fn end(&mut self, how: Ending)
        requires { IsOpen self.old }
        ensures answers { (p : Exchange) → Answers self.old p → Answers self.new p }
        ensures stage { stage_of self.new ≡ stage_of self.old }
        ensures window { window_of self.new ≡ window_of self.old }
        ensures begun { has_begun self.new ≡ has_begun self.old }
        ensures came { came_in self.new ≡ came_in self.old }
        ensures phase { phase_of self.new ≡ phase_of self.old }
        ensures source { source_of self.new ≡ source_of self.old }
        ensures ended { ended_of self.new ≡ Some how }
        ensures limits { limits_of self.new ≡ limits_of self.old }
        ensures sound { IsSoundAnswer self.old → IsSoundAnswer self.new }
        ensures filters { (filters : List FilterSpec) → HasFilters self.old filters → HasFilters self.new filters }
    {
        self.lane.end(how);
    }

    /// Reads the next head of the server. A stream that ended without one is refused.
    pub fn read_head(&mut self, head_asked: bool) -> LaneHead
        requires sound { IsSoundAnswer self.old }
        requires reading { stage_of self.old ≡ stage.Reading }
        ensures comes { (p : Exchange) → Answers self.old p → p.asked ≡ head_asked → HeadComes p self.new result }
        ensures window { window_of self.new ≡ window_of self.old }
        ensures ended { ended_of self.new ≡ ended_of self.old }
        ensures begun { has_begun self.new ≡ has_begun self.old }
        ensures phase { phase_of self.new ≡ phase_of self.old }
        ensures shrinks { length (input_of self.new) ≤ length (input_of self.old) }
        ensures stands { HeadStands result self.new }
        ensures takes { result ≡ says.Head → length (input_of self.new) < length (input_of self.old) }
        ensures limits { limits_of self.new ≡ limits_of self.old }
        ensures sound { IsSoundAnswer self.new }
        ensures filters { (filters : List FilterSpec) → HasFilters self.old filters → HasFilters self.new filters }
    {
        match self.lane.read_head(Side::Response { head_asked }) {
            LaneHead::More => LaneHead::More,
            LaneHead::Nothing => {
                self.lane.give_up();
                LaneHead::Refuse(502)
            }
            LaneHead::Head => LaneHead::Head,
            LaneHead::Refuse(code) => LaneHead::Refuse(code),
        }
    }

    /// The array on which rules run.
    pub fn head(&mut self) -> &mut Arena
        ensures* back { sem 𝓛 (LendsAnswerHead self.entry result) }
        ensures value { result.now ≡ array_of self.old }
    {
        self.lane.head()
    }

    /// The interim head that stands in the array is put out, without the fields that frame a message or speak of its
    /// connection. Then heads are read on.
    pub fn pass(&mut self)
        requires sound { IsSoundAnswer self.old }
        requires head { stage_of self.old ≡ stage.Head }
        ensures answers { (p : Exchange) (got : Received) → Answers self.old p → p.pending ≡ Some got → is_interim got.head ≡ true → blocks_of self.old ≡ head_blocks got.head
            → Answers self.new (passes p got) }
        ensures stage { stage_of self.new ≡ stage.Sending }
        ensures limits { limits_of self.new ≡ limits_of self.old }
        ensures window { window_of self.new ≡ window_of self.old }
        ensures ended { ended_of self.new ≡ ended_of self.old }
        ensures begun { has_begun self.new ≡ has_begun self.old }
        ensures came { came_in self.new ≡ came_in self.old }
        ensures last { shows_last (phase_of self.new) ≡ false }
        ensures sound { IsSoundAnswer self.new }
        ensures filters { (filters : List FilterSpec) → HasFilters self.old filters → HasFilters self.new filters }
    {
        edits_of_heads();
        self.lane.strip();
        self.lane.show();
        self.phase = Phase::Passing;
    }

    /// The interim head that stands in the array goes nowhere.
    pub fn drop_head(&mut self)
        requires sound { IsSoundAnswer self.old }
        requires head { stage_of self.old ≡ stage.Head }
        ensures answers { (p : Exchange) (got : Received) → Answers self.old p → p.pending ≡ Some got → is_interim got.head ≡ true → Answers self.new (drops p got) }
        ensures stage { stage_of self.new ≡ stage.Reading }
        ensures limits { limits_of self.new ≡ limits_of self.old }
        ensures window { window_of self.new ≡ window_of self.old }
        ensures ended { ended_of self.new ≡ ended_of self.old }
        ensures begun { has_begun self.new ≡ has_begun self.old }
        ensures came { came_in self.new ≡ came_in self.old }
        ensures last { shows_last (phase_of self.new) ≡ false }
        ensures sound { IsSoundAnswer self.new }
        ensures filters { (filters : List FilterSpec) → HasFilters self.old filters → HasFilters self.new filters }
    {
        self.lane.next();
        self.phase = Phase::Heads;
    }

    /// The head that stands in the array is put out as the last that answers, and the body behind it in this framing.
    pub fn send(&mut self, framing: Framing, no_body: bool)
        requires sound { IsSoundAnswer self.old }
        requires head { stage_of self.old ≡ stage.Head }
        ensures answers { (p : Exchange) (filters : List FilterSpec) (head : Head) → Answers self.old p → HasFilters self.old filters → blocks_of self.old ≡ head_blocks head → Answers self.new (serves p filters head framing no_body) }
        ensures stage { stage_of self.new ≡ stage.Sending }
        ensures last { shows_last (phase_of self.new) ≡ true }
        ensures limits { limits_of self.new ≡ limits_of self.old }
        ensures window { window_of self.new ≡ window_of self.old }
        ensures ended { ended_of self.new ≡ ended_of self.old }
        ensures begun { has_begun self.new ≡ has_begun self.old }
        ensures sound { IsSoundAnswer self.new }
        ensures filters { (filters : List FilterSpec) → HasFilters self.old filters → HasFilters self.new filters }
    {
        self.lane.send(framing, no_body);
        self.phase = Phase::Answering;
    }

    /// The message of this list, a reply or a refusal, is put out as the last that answers. What is left of an interim
    /// head is put out in front of it, whole.
    pub fn answer(&mut self, list: &mut Arena, no_body: bool)
        requires sound { IsSoundAnswer self.old }
        requires unbegun { has_begun self.old ≡ false }
        requires fits { Fits list.old.blocks (limits_of self.old).bufsize }
        ensures answers { (p : Exchange) (head : Head) (body : List ℕ) → Answers self.old p → list.old.blocks ≡ front_blocks head body → Answers self.new (replies p head body no_body) }
        ensures list { list.new.blocks ≡ [] }
        ensures list_size { list.new.size ≡ list.old.size }
        ensures stage { stage_of self.new ≡ stage.Sending }
        ensures source { source_of self.new ≡ source.Whole }
        ensures last { shows_last (phase_of self.new) ≡ true }
        ensures limits { limits_of self.new ≡ limits_of self.old }
        ensures window { window_of self.new ≡ window_of self.old }
        ensures ended { ended_of self.new ≡ ended_of self.old }
        ensures begun { has_begun self.new ≡ has_begun self.old }
        ensures sound { IsSoundAnswer self.new }
        ensures filters { (filters : List FilterSpec) → HasFilters self.old filters → HasFilters self.new filters }
    {
        if self.is_showing() {
            self.lane.put_by(list);
            self.phase = Phase::Turning { no_body };
            return;
        }
        self.lane.say(list, no_body);
        self.phase = Phase::Answering;
    }

    /// Whether an interim head is put out.
    fn is_showing(&self) -> bool
        ensures { result ≡ shows_head (phase_of self.now) }
    {
        match self.phase {
            Phase::Heads | Phase::Answering => false,
            Phase::Passing | Phase::Turning { no_body: _ } => true,
        }
    }

    /// The text that was not taken yet.
    pub fn output(&mut self) -> &mut [u8]
        ensures* back { sem 𝓛 (LendsAnswerText self.entry result) }
        ensures value { result.now ≡ output_of self.old }
    {
        self.lane.output()
    }

    /// So many bytes of it were taken.
    pub fn took(&mut self, n: usize)
        requires { n ≤ length (output_of self.old) }
        ensures output { output_of self.new ≡ drop n (output_of self.old) }
        ensures answers { (p : Exchange) → Answers self.old p → Answers self.new p }
        ensures stage { stage_of self.new ≡ stage_of self.old }
        ensures ended { ended_of self.new ≡ ended_of self.old }
        ensures begun { has_begun self.new ≡ has_begun self.old }
        ensures came { came_in self.new ≡ came_in self.old }
        ensures phase { phase_of self.new ≡ phase_of self.old }
        ensures source { source_of self.new ≡ source_of self.old }
        ensures limits { limits_of self.new ≡ limits_of self.old }
        ensures window_size { (window_of self.new).capacity ≡ (window_of self.old).capacity }
        ensures sound { IsSoundAnswer self.old → IsSoundAnswer self.new }
        ensures filters { (filters : List FilterSpec) → HasFilters self.old filters → HasFilters self.new filters }
    {
        self.lane.took(n);
    }

    /// The next exchange begins on what is left of the stream.
    pub fn next(&mut self)
        requires sound { IsSoundAnswer self.old }
        requires done { stage_of self.old ≡ stage.Done }
        ensures answers { (asked : Bool) → Answers self.new (with_bytes (fresh asked) (input_of self.old)) }
        ensures stage { stage_of self.new ≡ stage.Reading }
        ensures limits { limits_of self.new ≡ limits_of self.old }
        ensures window { window_of self.new ≡ window_of self.old }
        ensures ended { ended_of self.new ≡ ended_of self.old }
        ensures came { came_in self.new ≡ came_in self.old }
        ensures begun { has_begun self.new ≡ false }
        ensures sound { IsSoundAnswer self.new }
        ensures filters { (filters : List FilterSpec) → HasFilters self.old filters → HasFilters self.new filters }
    {
        self.lane.next();
        self.phase = Phase::Heads;
        self.begun = false;
    }

    /// Another server answers: what came of the one before goes, and what is put out stays.
    pub fn restart(&mut self)
        requires sound { IsSoundAnswer self.old }
        requires rests { (stage_of self.old ≡ stage.Done) ⊎ (stage_of self.old ≡ stage.Reading) }
        ensures answers { (asked : Bool) → Answers self.new (fresh asked) }
        ensures stage { stage_of self.new ≡ stage.Reading }
        ensures limits { limits_of self.new ≡ limits_of self.old }
        ensures open { IsOpen self.new }
        ensures window { window_of self.new ≡ window_of self.old }
        ensures begun { has_begun self.new ≡ false }
        ensures last { shows_last (phase_of self.new) ≡ false }
        ensures sound { IsSoundAnswer self.new }
        ensures filters { (filters : List FilterSpec) → HasFilters self.old filters → HasFilters self.new filters }
    {
        self.lane.new_stream();
        self.phase = Phase::Heads;
        self.begun = false;
    }

    /// As a new one, in the same memory: what came is gone, and so is what waits to go. Bodies go through the same filters.
    pub fn renew(&mut self)
        requires sound { IsSoundAnswer self.old }
        ensures fresh { (asked : Bool) → Answers self.new (fresh asked) }
        ensures reading { stage_of self.new ≡ stage.Reading }
        ensures open { IsOpen self.new }
        ensures output { output_of self.new ≡ [] }
        ensures begun { has_begun self.new ≡ false }
        ensures limits { limits_of self.new ≡ limits_of self.old }
        ensures window_size { (window_of self.new).capacity ≡ (window_of self.old).capacity }
        ensures filters { (filters : List FilterSpec) → HasFilters self.old filters → HasFilters self.new filters }
        ensures sound { IsSoundAnswer self.new }
    {
        self.lane.new_stream();
        self.lane.clear_output();
        self.phase = Phase::Heads;
        self.begun = false;
    }
}
