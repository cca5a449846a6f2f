//! Data that goes from the stream to the text at once.
ghost use Rattle.std.specs.Prelude.{◌≡◌, ◌≢◌, ◌≤◌, ◌<◌, ◌+◌, ◌-◌, ◌++◌, [], length, take, min, true, None, List, ℕ};
ghost use Rattle.body_filter.specs.declared.filter_spec.FilterSpec.{FilterSpec};
ghost use Rattle.lane.specs.Direction.Filtering.{AreThese};
ghost use Rattle.lane.specs.Direction.Sends.{Past, Stands, IsSound, IsStraight, MayPass, GoesAtOnce, source_told, with_more};
ghost use Rattle.htx_model.specs.Blocks.{append_data};
ghost use Rattle.h1_body.specs.Stands.{ahead_of};
ghost use Rattle.h1_write.specs.Spelled.{Writes};
ghost use Rattle.http_model.specs.declared.Source.TheVariants as source;

use crate::direction::lane::Lane;
use crate::direction::stage::Stage;
use h1_body::BodyState;
use http_model::Source;

/// Where a body stands of which its reader says this.
fn source_of(state: BodyState) -> Source
    ensures { result ≡ source_told state }
{
    match state {
        BodyState::More => Source::Going,
        BodyState::Whole => Source::Whole,
        BodyState::Bad => Source::Cut(400),
    }
}

impl Lane {
    /// Whether nothing stands between the stream and the text, and data is written as it is.
    fn is_straight(&self) -> bool
        ensures straight { result ≡ true → IsStraight self.now }
        ensures only { IsStraight self.now → result ≡ true }
        ensures writes { result ≡ true → (piece window : List ℕ) → Writes self.now.writer (append_data [] piece) window self.now.writer [] (window ++ piece) }
    {
        if self.stage != Stage::Sending {
            return false;
        }
        if self.dropped {
            return false;
        }
        if !self.is_going() {
            return false;
        }
        if self.sieve.is_some() {
            return false;
        }
        if self.input.len() > 0 {
            return false;
        }
        if self.msg.len() > 0 {
            return false;
        }
        if self.out.len() > 0 {
            return false;
        }
        self.writer.is_plain()
    }

    /// So many bytes, whatever they are, go out at once where they come.
    pub fn at_once(&self) -> usize
        ensures goes { GoesAtOnce self.now result }
        ensures most { IsStraight self.now → result ≡ min (ahead_of self.now.reader) (self.now.output.capacity - length self.now.output.items) }
    {
        if !self.is_straight() {
            return 0;
        }
        self.reader.data_ahead().min(self.output.room())
    }

    /// Bytes of the stream come, and go out at once, as many at the front as can; how many did. The caller pushes the others.
    /// Only data that is written as it is goes so, where nothing of the message waits in the lane: it is copied once.
    pub fn pass_data(&mut self, bytes: &[u8]) -> usize
        requires open { self.old.ended ≡ None }
        requires sound { IsSound self.old }
        requires room { length self.old.input.items + length bytes.now ≤ self.old.input.capacity }
        ensures within { result ≤ length bytes.now }
        ensures none { result ≡ 0 → self.new ≡ self.old }
        ensures some { result ≢ 0 → IsStraight self.old }
        ensures takes { MayPass self.old bytes.now → 0 < result }
        ensures stands { (p : Past) → Stands (with_more self.old (take result bytes.now)) p → Stands self.new p }
        ensures same { self.new ≡ record self.old { output = self.new.output; reader = self.new.reader; source = self.new.source } }
        ensures sound { IsSound self.new }
        ensures window { self.new.output.capacity ≡ self.old.output.capacity }
        ensures grows { (put : List ℕ) × (self.new.output.items ≡ self.old.output.items ++ put) }
        ensures all { (count : ℕ) → GoesAtOnce self.old count → length bytes.now ≤ count → (result ≡ length bytes.now) × GoesAtOnce self.new (count - length bytes.now) }
        ensures settled { self.old.source ≢ source.Going → self.new.source ≡ self.old.source }
    {
        if !self.is_straight() {
            return 0;
        }
        let _len = self.output.len();
        let mut reader = self.reader;
        let step = reader.feed(bytes, self.output.room() as u32);
        if step.used == 0 {
            return 0;
        }
        if step.trailers.is_some() {
            return 0;
        }
        let (from, end) = (step.piece.from, step.piece.from + step.piece.len);
        self.output.push(&bytes[from..end]);
        self.reader = reader;
        self.source = source_of(step.state);
        step.used
    }
}
