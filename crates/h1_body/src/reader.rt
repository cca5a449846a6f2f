//! The reader of a body.
ghost use Rattle.std.specs.Prelude.{◌≡◌, ◌≤◌, ◌<◌, ◌+◌, ◌++◌, [], length, take, drop, true, false, Some, None, List, ℕ, IfSome};
ghost use Rattle.httparse.specs.Grammar as grammar;
ghost use Rattle.http_model.specs.declared.Framing.{Framing};
ghost use Rattle.http_model.specs.declared.Limits.{Limits};
ghost use Rattle.http_model.specs.Sizes.{least_size};
ghost use Rattle.h1_body.specs.Section.{BeginsFields};
ghost use Rattle.h1_body.specs.Scan.{IsScanned};
ghost use Rattle.h1_body.specs.BodyOf.{StateTells, ClosedIsWhole, ClosedIsCut};
ghost use Rattle.h1_body.specs.Stands.{HasRead, Waits, state_at, state_of, ends_at, ends_of, limit_of, bytes_of, data_len, span_of, ahead_at, ahead_of};

use crate::scan::{SectionScan, behind_used, is_early, look_on};
use crate::stages::{Found, Stage, feed_at};
use http_model::{Framing, Limits};

/// What a step tells of the body.
#[derive(Clone, Copy)]
pub enum BodyState {
    /// It is not whole yet.
    More,
    /// It is whole.
    Whole,
    /// Whatever follows, the bytes are no body.
    Bad,
}

/// A part of a window.
#[derive(Clone, Copy)]
pub struct Span {
    pub from: usize,
    pub len: usize,
}

/// What a step used, and what it found.
#[derive(Clone, Copy)]
pub struct BodyStep {
    /// The bytes used, from the front of the window. The caller drops them.
    pub used: usize,
    /// The bytes of the body among them.
    pub piece: Span,
    /// The trailer section, where this step read it: for `add_trailers`, before the bytes are dropped.
    pub trailers: Option<Span>,
    pub state: BodyState,
}

/// A step that used nothing.
const WAITING: BodyStep = BodyStep {
    used: 0,
    piece: Span { from: 0, len: 0 },
    trailers: None,
    state: BodyState::More,
};

/// What the stage tells of the body.
fn tell(stage: Stage) -> BodyState
    ensures { result ≡ state_at stage }
{
    match stage {
        Stage::Over => BodyState::Whole,
        Stage::Dead => BodyState::Bad,
        _ => BodyState::More,
    }
}

/// Whether a closed stream makes the body whole.
fn ends(stage: Stage) -> bool
    ensures { result ≡ ends_at stage }
{
    matches!(stage, Stage::UntilClose | Stage::Over)
}

/// How many bytes that come next are data, with no line between them.
fn ahead(stage: Stage) -> usize
    ensures { result ≡ ahead_at stage }
{
    match stage {
        Stage::Left(left) => left as usize,
        Stage::UntilClose => usize::MAX,
        _ => 0,
    }
}

/// The bytes of data that a step found.
fn piece_of(found: Found) -> Span
    ensures { result ≡ record { from = 0; len = data_len found } }
{
    match found {
        Found::Data(len) => Span { from: 0, len },
        Found::Nothing => Span { from: 0, len: 0 },
        Found::Section(_) => Span { from: 0, len: 0 },
    }
}

/// Where the trailer section lies, where one was found.
fn section_of(found: Found) -> Option<Span>
    ensures { result ≡ span_of found }
{
    match found {
        Found::Section(len) => Some(Span { from: 0, len }),
        Found::Nothing => None,
        Found::Data(_) => None,
    }
}

/// A reader of a body, whose bytes come in any pieces (RFC 9112 sections 6 to 8). It takes no memory.
#[derive(Clone, Copy)]
pub struct BodyReader {
    stage: Stage,
    section_limit: u32,
}

impl BodyReader {
    /// A reader of a body that has not begun.
    pub fn new(framing: Framing, limits: Limits) -> BodyReader
        requires { least_size ≤ limits.bufsize }
        ensures { HasRead limits framing [] [] [] result }
    {
        let stage = match framing {
            Framing::Absent => Stage::Over,
            Framing::Length(0) => Stage::Over,
            Framing::Length(len) => Stage::Left(len),
            Framing::Chunked => Stage::Line,
            Framing::ToClose => Stage::UntilClose,
        };
        BodyReader {
            stage,
            section_limit: limits.bufsize / 2,
        }
    }

    /// Whether the body is whole where the stream is closed here.
    pub fn ended(&self) -> bool
        ensures told { result ≡ ends_of self.now }
        ensures closed { result ≡ true → ClosedIsWhole self.now }
        ensures cut { result ≡ false → ClosedIsCut self.now }
    {
        ends(self.stage)
    }

    /// How many bytes that come next are data, with no line between them, whatever they are: those that a declared length still
    /// lacks, or without an end up to a close. Where a line may come first it is none.
    pub fn data_ahead(&self) -> usize
        ensures { result ≡ ahead_of self.now }
    {
        ahead(self.stage)
    }

    /// Takes the next part of the body from the front of the window, and at most `room` bytes of data. The window is
    /// the bytes of the stream that were not used yet.
    pub fn feed(&mut self, window: &[u8], room: u32) -> BodyStep
        ensures used { result.used ≤ length window.now }
        ensures small { result.piece.len ≤ room }
        ensures piece_within { result.piece.from + result.piece.len ≤ result.used }
        ensures some { IfSome result.trailers (λ span. 0 < span.len) }
        ensures section_within { IfSome result.trailers (λ span. span.from + span.len ≤ result.used) }
        ensures fields { IfSome result.trailers (λ span. (fields : List grammar.Field) × BeginsFields (bytes_of window.now (Some span)) fields []) }
        ensures alone { IfSome result.trailers (λ _. result.piece.len ≡ 0) }
        ensures short { IfSome result.trailers (λ span. span.len ≤ limit_of self.old) }
        ensures leads { (limits : Limits) (framing : Framing) (bytes found section : List ℕ) → HasRead limits framing bytes found section self.old
            → HasRead limits framing (bytes ++ take result.used window.now) (found ++ bytes_of window.now (Some result.piece)) (section ++ bytes_of window.now result.trailers) self.new }
        ensures told { (limits : Limits) (framing : Framing) (bytes found section : List ℕ) → HasRead limits framing bytes found section self.old
            → StateTells limits framing (bytes ++ take result.used window.now) (found ++ bytes_of window.now (Some result.piece)) (section ++ bytes_of window.now result.trailers) result.state }
        ensures state { result.state ≡ state_of self.new }
        ensures waits { (limits : Limits) (framing : Framing) (bytes found section : List ℕ) → HasRead limits framing bytes found section self.old
            → result.used ≡ 0 → Waits self.new window.now room }
        ensures ahead { 0 < length window.now → length window.now ≤ ahead_of self.old → length window.now ≤ room
            → (result.used ≡ length window.now) × (result.trailers ≡ None) × (ahead_of self.old ≤ ahead_of self.new + length window.now) }
    {
        let fed = feed_at(self.stage, window, room, self.section_limit);
        self.stage = fed.stage;
        BodyStep {
            used: fed.used,
            piece: piece_of(fed.found),
            trailers: section_of(fed.found),
            state: tell(fed.stage),
        }
    }

    /// The same over a window that has grown, of which `scan` tells what was looked at before: a trailer section is parsed only
    /// once its empty line came, or it is none. So one that comes byte by byte is parsed a few times, and not once a byte.
    ///
    /// The caller keeps `scan`: a new one for bytes that were not looked at, and this one once it has dropped the bytes used.
    pub fn feed_grown(&mut self, window: &[u8], room: u32, scan: &mut SectionScan) -> BodyStep
        requires { IsScanned window.now scan.old }
        ensures used { result.used ≤ length window.now }
        ensures small { result.piece.len ≤ room }
        ensures piece_within { result.piece.from + result.piece.len ≤ result.used }
        ensures some { IfSome result.trailers (λ span. 0 < span.len) }
        ensures section_within { IfSome result.trailers (λ span. span.from + span.len ≤ result.used) }
        ensures fields { IfSome result.trailers (λ span. (fields : List grammar.Field) × BeginsFields (bytes_of window.now (Some span)) fields []) }
        ensures alone { IfSome result.trailers (λ _. result.piece.len ≡ 0) }
        ensures short { IfSome result.trailers (λ span. span.len ≤ limit_of self.old) }
        ensures leads { (limits : Limits) (framing : Framing) (bytes found section : List ℕ) → HasRead limits framing bytes found section self.old
            → HasRead limits framing (bytes ++ take result.used window.now) (found ++ bytes_of window.now (Some result.piece)) (section ++ bytes_of window.now result.trailers) self.new }
        ensures told { (limits : Limits) (framing : Framing) (bytes found section : List ℕ) → HasRead limits framing bytes found section self.old
            → StateTells limits framing (bytes ++ take result.used window.now) (found ++ bytes_of window.now (Some result.piece)) (section ++ bytes_of window.now result.trailers) result.state }
        ensures state { result.state ≡ state_of self.new }
        ensures waits { (limits : Limits) (framing : Framing) (bytes found section : List ℕ) → HasRead limits framing bytes found section self.old
            → result.used ≡ 0 → Waits self.new window.now room }
        ensures scanned { IsScanned (drop result.used window.now) scan.new }
    {
        let seen = look_on(self.stage, *scan, window);
        if is_early(self.stage, seen, window, self.section_limit) {
            *scan = seen;
            return WAITING;
        }
        let step = self.feed(window, room);
        *scan = behind_used(seen, window, step.used);
        step
    }
}
