//! A body on its way through filters.
ghost use Rattle.std.specs.Prelude.{◌≡◌, ◌≢◌, ◌≤◌, ◌<◌, ◌+◌, ◌++◌, [], length, drop, true, false, List, ℕ, IfOk};
ghost use Rattle.htx_model.specs.Blocks.{append_data, Fits};
ghost use Rattle.http_model.specs.Head.{Field};
ghost use Rattle.h1_body.specs.Section.{HasTrailers};
ghost use Rattle.h1_body.specs.Trailers.{trailer_blocks};
ghost use Rattle.body_filter.specs.Valid.{AreFilters};
ghost use Rattle.body_filter.specs.declared.filter_spec.FilterSpec.{FilterSpec};
ghost use Rattle.lane.specs.Sieve.Feeds.{Feeds};
ghost use Rattle.lane.specs.Sieve.Sieved.{IsSieve, IsSection, HasSieved, IsIdle, IsStill, Sifts, answer_at, over_at, end_of, held_in, is_ended, section_in};
ghost use Rattle.lane.specs.declared.sieve.sieve.BodyEnd.TheVariants as body_end;
ghost use Rattle.lane.specs.declared.sieve.sieve.Sifted.TheVariants as sifted;

use body_filter::{Chain, Fed, FedState, FilterSpec};
use h1_body::add_trailers;
use htx_arena::Arena;
use htx_model::OutOfMemory;
use std::alloc::Global;
use wire_buf::Window;

/// How a body ends behind the bytes that are held.
#[derive(Clone, Copy)]
pub enum BodyEnd {
    /// More of it may come.
    Open,
    /// It is whole.
    Whole,
    /// It breaks off, or is none.
    Cut,
    /// It is whole, and the filters accepted it.
    Accepted,
}

/// What a call of `sift` came to.
#[derive(Clone, Copy, PartialEq, Eq)]
pub enum Sifted {
    /// Bytes were used or given, and there may be more.
    Gave,
    /// Nothing is held, and all was given but what the filters keep back.
    Idle,
    /// The body is whole, was accepted, and all of it was given.
    Accepted,
    /// The body is cut, what came of it was accepted, and all of it was given.
    Cut,
    /// The body was refused with this code, and all that goes out of it was given.
    Refused(u16),
}

/// Filters, with what they have not used of a body.
pub struct Sieve {
    chain: Chain,
    /// Bytes of the body that the filters have not used.
    held: Window,
    /// The trailer section that comes behind them.
    section: Window,
    end: BodyEnd,
    /// Room for what the filters give at once.
    given: Vec<u8>,
}

impl Drop for Sieve {
    fn drop(self) {
        let Sieve {
            chain: _,
            held: _,
            section: _,
            end: _,
            given: _,
        } = self;
    }
}

/// Hands a text to the filters, and puts what they give into an empty array.
fn feed_into(chain: &mut Chain, text: &[u8], last: bool, room: &mut [u8], to: &mut Arena) -> Fed
    requires some { 0 < length room.old }
    requires wide { length room.old + 8 ≤ to.old.size }
    requires empty { to.old.blocks ≡ [] }
    ensures feeds { (piece : List ℕ) × Feeds chain.old chain.new text.now last result piece × (to.new.blocks ≡ append_data [] piece) }
    ensures used { result.used ≤ length text.now }
    ensures size { to.new.size ≡ to.old.size }
{
    let fed = chain.feed(text, last, room);
    to.add_data(&room[..fed.given]);
    fed
}

/// Hands a window to the filters, and what they used goes.
fn feed_held(
    chain: &mut Chain,
    held: &mut Window,
    last: bool,
    room: &mut [u8],
    to: &mut Arena,
) -> Fed
    requires some { 0 < length room.old }
    requires wide { length room.old + 8 ≤ to.old.size }
    requires empty { to.old.blocks ≡ [] }
    ensures feeds { (piece : List ℕ) × Feeds chain.old chain.new held.old.items last result piece × (to.new.blocks ≡ append_data [] piece) }
    ensures held { held.new.items ≡ drop result.used held.old.items }
    ensures capacity { held.new.capacity ≡ held.old.capacity }
    ensures size { to.new.size ≡ to.old.size }
{
    let fed = feed_into(chain, held.bytes(), last, room, to);
    held.drop_front(fed.used);
    fed
}

/// Whether a byte was used or given.
fn has_moved(fed: Fed) -> bool
    ensures some { result ≡ true → 0 < fed.used + fed.given }
    ensures none { result ≡ false → (fed.used ≡ 0) × (fed.given ≡ 0) }
{
    if fed.used > 0 {
        return true;
    }
    fed.given > 0
}

/// What filters that are over came to, by how the body ends.
fn over_of(end: BodyEnd) -> Sifted
    ensures { result ≡ over_at end }
{
    match end {
        BodyEnd::Cut => Sifted::Cut,
        BodyEnd::Open | BodyEnd::Whole | BodyEnd::Accepted => Sifted::Accepted,
    }
}

/// What a call of the filters came to, by how the body ends.
fn answer_of(end: BodyEnd, state: FedState, moved: bool) -> Sifted
    ensures { result ≡ answer_at end state moved }
{
    match state {
        FedState::Over => over_of(end),
        FedState::Refused(code) => Sifted::Refused(code),
        FedState::Going => { if moved { Sifted::Gave } else { Sifted::Idle } }
    }
}

impl Sieve {
    /// A sieve of these filters, in front of a body, for arrays of this size. This call alone takes memory.
    pub fn open(alloc: Global, filters: &[FilterSpec], size: u32) -> Result<Sieve, OutOfMemory>
        requires few { length filters.now ≤ 8 }
        requires valid { AreFilters filters.now }
        requires wide { 8 < size }
        ensures sieved { IfOk result (λ sieve. HasSieved filters.now [] [] sieve) }
        ensures idle { IfOk result IsIdle }
        ensures size { IfOk result (IsSieve size) }
    {
        Ok(Sieve {
            given: vec![in alloc; 0; size as usize - 8]?,
            held: Window::new(alloc, size)?,
            section: Window::new(alloc, size)?,
            end: BodyEnd::Open,
            chain: Chain::open(alloc, filters)?,
        })
    }

    /// Begins a new body.
    pub fn reset(&mut self)
        ensures sieved { (filters : List FilterSpec) (found passed : List ℕ) → HasSieved filters found passed self.old → HasSieved filters [] [] self.new }
        ensures idle { IsIdle self.new }
        ensures section { section_in self.new ≡ [] }
        ensures size { (size : ℕ) → IsSieve size self.old → IsSieve size self.new }
    {
        self.chain.reset();
        self.held.drop_front(self.held.len());
        self.section.drop_front(self.section.len());
        self.end = BodyEnd::Open;
    }

    /// How the body ends behind the bytes that are held.
    pub fn end(&self) -> BodyEnd
        ensures { result ≡ end_of self.now }
    {
        self.end
    }

    /// The next part of the body is held, and the section behind it where it has come.
    pub fn hold(&mut self, piece: &[u8], section: &[u8])
        requires idle { IsIdle self.old }
        requires fits { (size : ℕ) × IsSieve size self.old × (length piece.now ≤ size) × (length section.now ≤ size) }
        requires section { IsSection section.now }
        ensures held { held_in self.new ≡ piece.now }
        ensures section { section_in self.new ≡ section.now }
        ensures end { end_of self.new ≡ body_end.Open }
        ensures still { IsStill self.old → IsStill self.new }
        ensures sieved { (filters : List FilterSpec) (found passed : List ℕ) → HasSieved filters found passed self.old → HasSieved filters (found ++ piece.now) passed self.new }
        ensures size { (size : ℕ) → IsSieve size self.old → IsSieve size self.new }
    {
        self.held.push(piece);
        self.section.drop_front(self.section.len());
        self.section.push(section);
    }

    /// The body is whole with what is held.
    pub fn set_whole(&mut self)
        requires { end_of self.old ≡ body_end.Open }
        ensures same { self.new ≡ record self.old { end = body_end.Whole } }
        ensures sieved { (filters : List FilterSpec) (found passed : List ℕ) → HasSieved filters found passed self.old → HasSieved filters found passed self.new }
        ensures size { (size : ℕ) → IsSieve size self.old → IsSieve size self.new }
    {
        self.end = BodyEnd::Whole;
    }

    /// The body is cut behind what is held.
    pub fn set_cut(&mut self)
        requires { end_of self.old ≡ body_end.Open }
        ensures same { self.new ≡ record self.old { end = body_end.Cut } }
        ensures sieved { (filters : List FilterSpec) (found passed : List ℕ) → HasSieved filters found passed self.old → HasSieved filters found passed self.new }
        ensures size { (size : ℕ) → IsSieve size self.old → IsSieve size self.new }
    {
        self.end = BodyEnd::Cut;
    }

    /// Hands what is held to the filters, and puts what they give into an empty array.
    pub fn sift(&mut self, to: &mut Arena) -> Sifted
        requires size { IsSieve to.old.size self.old }
        requires empty { to.old.blocks ≡ [] }
        requires open { end_of self.old ≢ body_end.Accepted }
        ensures sifts { Sifts self.old self.new result to.new.blocks }
        ensures section { section_in self.new ≡ section_in self.old }
        ensures sieve { IsSieve to.old.size self.new }
        ensures size { to.new.size ≡ to.old.size }
    {
        let last = self.is_last();
        let fed = feed_held(&mut self.chain, &mut self.held, last, &mut self.given, to);
        let answer = answer_of(self.end, fed.state, has_moved(fed));
        self.meet(answer);
        answer
    }

    /// Whether nothing follows what is held.
    fn is_last(&self) -> bool
        ensures { result ≡ is_ended (end_of self.now) }
    {
        match self.end {
            BodyEnd::Open => false,
            BodyEnd::Whole | BodyEnd::Cut | BodyEnd::Accepted => true,
        }
    }

    /// Notes that the filters accepted a whole body, where they did.
    fn meet(&mut self, answer: Sifted)
        ensures accepted { answer ≡ sifted.Accepted → self.new.end ≡ body_end.Accepted }
        ensures other { answer ≢ sifted.Accepted → self.new.end ≡ self.old.end }
        ensures same { self.new ≡ record self.old { end = self.new.end } }
    {
        if answer == Sifted::Accepted {
            self.end = BodyEnd::Accepted;
        }
    }

    /// The trailers of the section that is held go into the array, behind the other blocks.
    pub fn add_section(&mut self, to: &mut Arena)
        requires section { IsSection (section_in self.old) }
        ensures added { (trailers : List Field) → HasTrailers (section_in self.old) trailers → Fits (to.old.blocks ++ trailer_blocks trailers) to.old.size
            → to.new.blocks ≡ to.old.blocks ++ trailer_blocks trailers }
        ensures same { self.new ≡ self.old }
        ensures size { to.new.size ≡ to.old.size }
    {
        if self.section.len() == 0 {
            return;
        }
        let _added = add_trailers(self.section.bytes(), to);
    }
}
