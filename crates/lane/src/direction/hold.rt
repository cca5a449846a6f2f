//! The next part of a body, from the window into what its filters hold.
ghost use Rattle.std.specs.Prelude.{◌≡◌, ◌≤◌, ◌<◌, ◌+◌, ◌++◌, length, drop, true, false, List, ℕ, None, IfSome};
ghost use Rattle.body_filter.specs.declared.filter_spec.FilterSpec.{FilterSpec};
ghost use Rattle.lane.specs.Sieve.Sieved.{IsSieve, IsIdle, IsStill, HasSieved, end_of, held_in, section_in};
ghost use Rattle.lane.specs.declared.sieve.sieve.BodyEnd.TheVariants as body_end;
ghost use Rattle.h1_body.specs.Scan.{IsScanned};
ghost use Rattle.h1_body.specs.Stands.{ends_of, bytes_of};
ghost use Rattle.lane.specs.Direction.Filtering.{SieveFits, SieveRests};
ghost use Rattle.lane.specs.Direction.Holding.{Holds, HoldsNext, HoldsBy, MeetsEnd};

use crate::direction::input::Input;
use crate::direction::pull::Pulled;
use crate::sieve::Sieve;
use h1_body::{BodyReader, BodyState, SectionScan, Span};
use http_model::Ending;

/// The bytes that a span of a text covers.
fn covered<'a>(text: &'a [u8], span: Option<Span>) -> &'a [u8]
    requires { IfSome span (λ s. s.from + s.len ≤ length text.now) }
    ensures { result.now ≡ bytes_of text.now span }
{
    match span {
        Some(span) => &text[span.from..span.from + span.len],
        None => &[],
    }
}

/// Reads the next part of the body at the front of a text, and the filters hold it.
pub(crate) fn hold_part(
    reader: &mut BodyReader,
    text: &[u8],
    seen: &mut SectionScan,
    room: u32,
    sieve: &mut Sieve,
) -> Pulled
    requires idle { IsIdle sieve.old }
    requires sieve { IsSieve room sieve.old }
    requires text { length text.now ≤ room }
    requires room { 0 < room }
    requires seen { IsScanned text.now seen.old }
    ensures used { result.used ≤ length text.now }
    ensures holds { Holds reader.old reader.new text.now (drop result.used text.now) (held_in sieve.new) (section_in sieve.new) result.used result.state }
    ensures end { end_of sieve.new ≡ body_end.Open }
    ensures still { IsStill sieve.old → IsStill sieve.new }
    ensures sieved { (filters : List FilterSpec) (found passed : List ℕ) → HasSieved filters found passed sieve.old → HasSieved filters (found ++ held_in sieve.new) passed sieve.new }
    ensures sieve { IsSieve room sieve.new }
    ensures seen { IsScanned (drop result.used text.now) seen.new }
{
    let step = reader.feed_grown(text, room, seen);
    let piece = covered(text, Some(step.piece));
    let section = covered(text, step.trailers);
    sieve.hold(piece, section);
    Pulled {
        used: step.used,
        state: step.state,
    }
}

/// What a closed stream makes of a body.
fn close(reader: &BodyReader, sieve: &mut Sieve)
    requires { end_of sieve.old ≡ body_end.Open }
    ensures whole { ends_of reader.now ≡ true → sieve.new ≡ record sieve.old { end = body_end.Whole } }
    ensures cut { ends_of reader.now ≡ false → sieve.new ≡ record sieve.old { end = body_end.Cut } }
    ensures size { (size : ℕ) → IsSieve size sieve.old → IsSieve size sieve.new }
{
    if reader.ended() {
        sieve.set_whole();
        return;
    }
    sieve.set_cut();
}

/// What an end of the stream makes of a body that waits. False where the stream goes on.
fn meet_end(ended: Option<Ending>, reader: &BodyReader, sieve: &mut Sieve) -> bool
    requires { end_of sieve.old ≡ body_end.Open }
    ensures open { result ≡ false → (ended ≡ None) × (sieve.new ≡ sieve.old) }
    ensures met { result ≡ true → MeetsEnd ended reader.now sieve.old sieve.new }
    ensures size { (size : ℕ) → IsSieve size sieve.old → IsSieve size sieve.new }
{
    match ended {
        None => false,
        Some(Ending::Closed) => {
            close(reader, sieve);
            true
        }
        Some(Ending::Broke) => {
            sieve.set_cut();
            true
        }
    }
}

/// Reads the next part of the body, and what ends it. False where the reader waits for the stream.
fn hold_next(
    input: &mut Input,
    reader: &mut BodyReader,
    ended: Option<Ending>,
    room: u32,
    sieve: &mut Sieve,
) -> bool
    requires idle { IsIdle sieve.old }
    requires sieve { IsSieve room sieve.old }
    requires input { length input.old.items ≤ room }
    requires room { 0 < room }
    ensures holds { HoldsNext ended reader.old reader.new input.old.items input.new.items sieve.old sieve.new result }
    ensures capacity { input.new.capacity ≡ input.old.capacity }
    ensures shrinks { length input.new.items ≤ length input.old.items }
    ensures sieve { IsSieve room sieve.new }
{
    let pulled = input.hold(reader, room, sieve);
    match pulled.state {
        BodyState::Whole => {
            sieve.set_whole();
            true
        }
        BodyState::Bad => {
            sieve.set_cut();
            true
        }
        BodyState::More => {
            if pulled.used > 0 {
                return true;
            }
            meet_end(ended, reader, sieve)
        }
    }
}

/// The same where there may be no filters, which hold nothing.
pub(crate) fn hold(
    input: &mut Input,
    reader: &mut BodyReader,
    ended: Option<Ending>,
    room: u32,
    sieve: &mut Option<Sieve>,
) -> bool
    requires rests { SieveRests sieve.old }
    requires sieve { SieveFits room sieve.old }
    requires input { length input.old.items ≤ room }
    requires room { 0 < room }
    ensures holds { HoldsBy ended reader.old reader.new input.old.items input.new.items sieve.old sieve.new result }
    ensures capacity { input.new.capacity ≡ input.old.capacity }
    ensures shrinks { length input.new.items ≤ length input.old.items }
    ensures sieve { SieveFits room sieve.new }
{
    match sieve {
        None => false,
        Some(sieve) => hold_next(input, reader, ended, room, sieve),
    }
}
