//! The next part of a body, from the window.
ghost use Rattle.std.specs.Prelude.{◌≡◌, ◌≢◌, ◌≤◌, ◌<◌, [], length, true, false, None};
ghost use Rattle.lane.specs.Direction.Filtering.{SieveRests};
ghost use Rattle.lane.specs.Direction.Sends.{Past, Sends, Leads, Keeps, RestsFor, reads_left, IsSized};
ghost use Rattle.lane.specs.Direction.Pulled.{IsWaiting};
ghost use Rattle.h1_body.specs.Stands.{state_of, ends_of};
ghost use Rattle.h1_body.specs.declared.reader.BodyState.TheVariants as state;
ghost use Rattle.http_model.specs.declared.Source.TheVariants as source;

use crate::direction::hold::hold;
use crate::direction::lane::Lane;
use h1_body::{BodyReader, BodyState};
use http_model::{Ending, Source};

/// What a closed stream makes of a body.
fn source_at_close(reader: &BodyReader) -> Source
    ensures whole { ends_of reader.now ≡ true → result ≡ source.Whole }
    ensures cut { ends_of reader.now ≡ false → result ≡ source.Cut 400 }
{
    if reader.ended() {
        return Source::Whole;
    }
    Source::Cut(400)
}

impl Lane {
    /// What an end of the stream makes of a body that waits. False where the stream goes on.
    fn meet_end(&mut self) -> bool
        ensures keeps { Keeps self.old self.new }
        ensures same { (self.new.output ≡ self.old.output) × (self.new.input ≡ self.old.input) × (self.new.msg ≡ self.old.msg) × (self.new.out ≡ self.old.out) × (self.new.reader ≡ self.old.reader) × (self.new.writer ≡ self.old.writer) }
        ensures source { result ≡ false → (self.new.source ≡ self.old.source) × (self.old.ended ≡ None) }
        ensures met { result ≡ true → self.new.source ≢ source.Going }
        ensures sieve { self.new.sieve ≡ self.old.sieve }
        ensures leads { (p : Past) → Sends self.old p → self.old.source ≡ source.Going → self.old.sieve ≡ None → IsWaiting self.old.reader self.old.input.items → state_of self.old.reader ≡ state.More → Sends self.new p }
    {
        match self.ended {
            None => false,
            Some(Ending::Closed) => {
                self.source = source_at_close(&self.reader);
                true
            }
            Some(Ending::Broke) => {
                self.source = Source::Cut(400);
                true
            }
        }
    }

    /// Brings the next part of the body into the empty first array, without filters. False where the lane waits for the
    /// stream.
    fn read_plain(&mut self) -> bool
        requires empty { self.old.msg.blocks ≡ [] }
        requires plain { self.old.sieve ≡ None }
        ensures keeps { Keeps self.old self.new }
        ensures same { (self.new.output ≡ self.old.output) × (self.new.out ≡ self.old.out) × (self.new.writer ≡ self.old.writer) }
        ensures leads { (p : Past) → Sends self.old p → self.old.source ≡ source.Going → Sends self.new p }
        ensures nearer { self.old.source ≡ source.Going → result ≡ true → reads_left self.new < reads_left self.old }
        ensures waits { (p : Past) → Sends self.old p → self.old.source ≡ source.Going → result ≡ false → (self.new.source ≡ self.old.source) × (self.new.ended ≡ None) × IsWaiting self.new.reader self.new.input.items × (state_of self.new.reader ≡ state.More) }
        ensures sieve { self.new.sieve ≡ self.old.sieve }
        ensures sized { IsSized self.old → IsSized self.new }
        ensures empty { (p : Past) → Sends self.old p → self.old.source ≡ source.Going → result ≡ false → self.new.msg.blocks ≡ [] }
    {
        let pulled = self.input.pull(&mut self.reader, &mut self.msg);
        match pulled.state {
            BodyState::Whole => {
                self.source = Source::Whole;
                true
            }
            BodyState::Bad => {
                self.source = Source::Cut(400);
                true
            }
            BodyState::More => {
                if pulled.used > 0 {
                    return true;
                }
                self.meet_end()
            }
        }
    }

    /// Brings the next part of the body to the filters. False where the lane waits for the stream.
    fn read_held(&mut self) -> bool
        requires sized { IsSized self.old }
        requires rests { SieveRests self.old.sieve }
        requires held { length self.old.input.items ≤ self.old.input.capacity }
        requires going { self.old.source ≡ source.Going }
        requires some { self.old.sieve ≢ None }
        ensures keeps { Keeps self.old self.new }
        ensures same { (self.new.output ≡ self.old.output) × (self.new.out ≡ self.old.out) × (self.new.msg ≡ self.old.msg) × (self.new.writer ≡ self.old.writer) × (self.new.source ≡ self.old.source) }
        ensures leads { Leads self.old self.new }
        ensures nearer { result ≡ true → reads_left self.new < reads_left self.old }
        ensures waits { (p : Past) → Sends self.old p → result ≡ false → RestsFor self.new }
        ensures sized { IsSized self.new }
    {
        hold(
            &mut self.input,
            &mut self.reader,
            self.ended,
            self.limits.bufsize,
            &mut self.sieve,
        )
    }

    /// Whether bodies go through filters.
    fn is_filtering(&self) -> bool
        ensures some { result ≡ true → self.now.sieve ≢ None }
        ensures none { result ≡ false → self.now.sieve ≡ None }
    {
        self.sieve.is_some()
    }

    /// Reads the next part of the body. False where the lane waits for the stream.
    pub(super) fn read_body(&mut self) -> bool
        requires sized { IsSized self.old }
        requires empty { self.old.msg.blocks ≡ [] }
        requires rests { SieveRests self.old.sieve }
        requires held { length self.old.input.items ≤ self.old.input.capacity }
        requires going { self.old.source ≡ source.Going }
        ensures keeps { Keeps self.old self.new }
        ensures same { (self.new.output ≡ self.old.output) × (self.new.out ≡ self.old.out) × (self.new.writer ≡ self.old.writer) }
        ensures leads { Leads self.old self.new }
        ensures nearer { result ≡ true → reads_left self.new < reads_left self.old }
        ensures waits { (p : Past) → Sends self.old p → result ≡ false → (self.new.source ≡ self.old.source) × (self.new.msg.blocks ≡ []) × RestsFor self.new }
        ensures sized { IsSized self.new }
    {
        if self.is_filtering() {
            return self.read_held();
        }
        self.read_plain()
    }

    /// Whether the body still comes.
    pub(super) fn is_going(&self) -> bool
        ensures going { result ≡ true → self.now.source ≡ source.Going }
        ensures over { result ≡ false → self.now.source ≢ source.Going }
    {
        match self.source {
            Source::Going => true,
            _ => false,
        }
    }
}
