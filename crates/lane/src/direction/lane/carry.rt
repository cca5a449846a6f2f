//! A message on its way through the two arrays.
ghost use Rattle.std.specs.Prelude.{◌≡◌, ◌≢◌, ◌≤◌, ◌<◌, ◌+◌, ◌*◌, ◌++◌, ◌⊎◌, [], length, true, false, List, ℕ};
ghost use Rattle.body_filter.specs.declared.filter_spec.FilterSpec.{FilterSpec};
ghost use Rattle.lane.specs.Direction.Filtering.{AreThese, SieveRests, held_left};
ghost use Rattle.lane.specs.Direction.Sends.{Stands, GoesOn, IsAllOut, IsSound, Past, Sends, Leads, Keeps, IsAtRest, IsDrained, reads_left, brings_left, is_going, IsSized};
ghost use Rattle.h1_write.specs.Spelled.{IsEven, is_done};
ghost use Rattle.http_model.specs.declared.Source.TheVariants as source;
ghost use Rattle.lane.specs.declared.direction.stage.Stage.TheVariants as stage;

use crate::direction::lane::Lane;
use crate::direction::sift::{Came, sift};
use crate::direction::stage::Stage;
use http_model::Source;
use htx_xfer::xfer;

impl Lane {
    /// Whether nothing else will come behind what stands in the second array.
    fn is_last(&self) -> bool
        ensures last { result ≡ true → (self.now.source ≡ source.Whole) × (self.now.msg.blocks ≡ []) }
        ensures whole { self.now.source ≡ source.Whole → self.now.msg.blocks ≡ [] → result ≡ true }
    {
        match self.source {
            Source::Whole => self.msg.len() == 0,
            _ => false,
        }
    }

    /// Writes what stands in the second array, as far as the output window has room.
    fn write(&mut self)
        ensures keeps { Keeps self.old self.new }
        ensures leads { Leads self.old self.new }
        ensures grows { (put : List ℕ) × (self.new.output.items ≡ self.old.output.items ++ put) }
        ensures same { (self.new.msg ≡ self.old.msg) × (self.new.input ≡ self.old.input) × (self.new.source ≡ self.old.source) × (self.new.reader ≡ self.old.reader) }
        ensures sieve { self.new.sieve ≡ self.old.sieve }
        ensures sized { IsSized self.old → IsSized self.new }
        ensures empties { length self.new.output.items < self.new.output.capacity → self.new.out.blocks ≡ [] }
        ensures rests { length self.new.output.items < self.new.output.capacity → IsEven self.new.writer }
        ensures done { length self.new.output.items < self.new.output.capacity → self.old.msg.blocks ≡ [] → self.old.source ≡ source.Whole → is_done self.new.writer ≡ true }
    {
        let last = self.is_last();
        self.writer.next(&mut self.out, last, &mut self.output);
    }

    /// Moves blocks from the first array to the second, which is empty.
    fn hand_over(&mut self)
        requires sized { IsSized self.old }
        requires empty { self.old.out.blocks ≡ [] }
        ensures keeps { Keeps self.old self.new }
        ensures leads { Leads self.old self.new }
        ensures same { (self.new.output ≡ self.old.output) × (self.new.input ≡ self.old.input) × (self.new.source ≡ self.old.source) × (self.new.reader ≡ self.old.reader) × (self.new.writer ≡ self.old.writer) }
        ensures sieve { self.new.sieve ≡ self.old.sieve }
        ensures all { self.new.msg.blocks ≡ [] }
        ensures sized { IsSized self.new }
    {
        let load = self.limits.bufsize - self.msg.room();
        xfer(&mut self.msg, &mut self.out, load);
    }

    /// Lets the filters fill the empty first array. False where they wait for more of the body, or there are none.
    pub(super) fn sift(&mut self) -> bool
        requires sized { IsSized self.old }
        requires empty { self.old.msg.blocks ≡ [] }
        requires going { self.old.source ≡ source.Going }
        ensures keeps { Keeps self.old self.new }
        ensures same { (self.new.output ≡ self.old.output) × (self.new.out ≡ self.old.out) × (self.new.writer ≡ self.old.writer) × (self.new.input ≡ self.old.input) × (self.new.reader ≡ self.old.reader) }
        ensures leads { Leads self.old self.new }
        ensures nearer { result ≡ true → held_left self.new.sieve + is_going self.new.source < held_left self.old.sieve + is_going self.old.source }
        ensures reads { reads_left self.new ≤ reads_left self.old }
        ensures rests { result ≡ false → SieveRests self.new.sieve × (self.new.msg.blocks ≡ []) × (self.new.source ≡ self.old.source) }
        ensures sized { IsSized self.new }
    {
        match sift(&mut self.sieve, &mut self.msg) {
            Came::More => true,
            Came::Waits => false,
            Came::Ends(source) => {
                self.source = source;
                true
            }
        }
    }

    /// Fills the first array from the filters, where it is empty. False where there is nothing to bring.
    fn fill(&mut self) -> bool
        requires { IsSized self.old }
        ensures keeps { Keeps self.old self.new }
        ensures same { (self.new.output ≡ self.old.output) × (self.new.out ≡ self.old.out) × (self.new.writer ≡ self.old.writer) × (self.new.input ≡ self.old.input) }
        ensures sized { IsSized self.new }
        ensures leads { Leads self.old self.new }
        ensures nearer { result ≡ true → 2 * (held_left self.new.sieve + is_going self.new.source) < brings_left self.old }
        ensures reads { reads_left self.new ≤ reads_left self.old }
        ensures rests { result ≡ false → (self.old.msg.blocks ≡ []) × (self.new.msg.blocks ≡ []) × (self.new.source ≡ self.old.source) × (self.new.source ≡ source.Going → SieveRests self.new.sieve) }
        ensures settled { self.old.source ≢ source.Going → self.new.source ≡ self.old.source }
    {
        if self.msg.len() > 0 {
            return true;
        }
        if !self.is_going() {
            return false;
        }
        self.sift()
    }

    /// Brings what comes next to the second array. False where there is nothing to bring.
    fn refill(&mut self) -> bool
        requires sized { IsSized self.old }
        requires empty { self.old.out.blocks ≡ [] }
        ensures keeps { Keeps self.old self.new }
        ensures same { (self.new.output ≡ self.old.output) × (self.new.writer ≡ self.old.writer) × (self.new.input ≡ self.old.input) }
        ensures sized { IsSized self.new }
        ensures leads { Leads self.old self.new }
        ensures nearer { result ≡ true → brings_left self.new < brings_left self.old }
        ensures reads { reads_left self.new ≤ reads_left self.old }
        ensures rests { result ≡ false → (self.new.out ≡ self.old.out) × (self.old.msg.blocks ≡ []) × (self.new.msg.blocks ≡ []) × (self.new.source ≡ self.old.source) × (self.new.source ≡ source.Going → SieveRests self.new.sieve) }
        ensures settled { self.old.source ≢ source.Going → self.new.source ≡ self.old.source }
    {
        if !self.fill() {
            return false;
        }
        self.hand_over();
        true
    }

    /// Whether the output window has no room.
    fn is_full(&self) -> bool
        ensures full { result ≡ true → self.now.output.capacity ≤ length self.now.output.items }
        ensures room { result ≡ false → length self.now.output.items < self.now.output.capacity }
    {
        self.output.room() == 0
    }

    /// Writes, and brings what comes next of what was read. False where the window is full, or nothing comes.
    fn pass_on(&mut self) -> bool
        requires { IsSized self.old }
        ensures keeps { Keeps self.old self.new }
        ensures grows { (put : List ℕ) × (self.new.output.items ≡ self.old.output.items ++ put) }
        ensures same { self.new.input ≡ self.old.input }
        ensures sized { IsSized self.new }
        ensures leads { Leads self.old self.new }
        ensures nearer { result ≡ true → brings_left self.new < brings_left self.old }
        ensures reads { reads_left self.new ≤ reads_left self.old }
        ensures rests { result ≡ false → (self.new.output.capacity ≤ length self.new.output.items) ⊎ IsDrained self.new }
        ensures settled { self.old.source ≢ source.Going → self.new.source ≡ self.old.source }
    {
        self.write();
        if self.is_full() {
            return false;
        }
        self.refill()
    }

    /// Brings all that was read into the output window, as far as it has room.
    fn drain(&mut self)
        requires { IsSized self.old }
        ensures keeps { Keeps self.old self.new }
        ensures grows { (put : List ℕ) × (self.new.output.items ≡ self.old.output.items ++ put) }
        ensures same { self.new.input ≡ self.old.input }
        ensures sized { IsSized self.new }
        ensures leads { Leads self.old self.new }
        ensures reads { reads_left self.new ≤ reads_left self.old }
        ensures rests { (self.new.output.capacity ≤ length self.new.output.items) ⊎ IsDrained self.new }
        ensures settled { self.old.source ≢ source.Going → self.new.source ≡ self.old.source }
    {
        'parts: loop {
            if !self.pass_on() {
                break;
            }
        }
    }

    /// Brings what was read into the output window, and reads on. False where the window is full, or nothing comes.
    fn turn(&mut self) -> bool
        requires sized { IsSized self.old }
        requires held { length self.old.input.items ≤ self.old.input.capacity }
        ensures keeps { Keeps self.old self.new }
        ensures grows { (put : List ℕ) × (self.new.output.items ≡ self.old.output.items ++ put) }
        ensures sized { IsSized self.new }
        ensures leads { Leads self.old self.new }
        ensures nearer { result ≡ true → reads_left self.new < reads_left self.old }
        ensures rests { (p : Past) → Sends self.old p → result ≡ false → (self.new.output.capacity ≤ length self.new.output.items) ⊎ IsAtRest self.new }
        ensures settled { self.old.source ≢ source.Going → self.new.source ≡ self.old.source }
    {
        self.drain();
        if self.is_full() {
            return false;
        }
        if !self.is_going() {
            return false;
        }
        self.read_body()
    }

    /// Brings all that can be brought into the output window.
    pub(super) fn carry(&mut self)
        requires sized { IsSized self.old }
        requires held { length self.old.input.items ≤ self.old.input.capacity }
        ensures sized { IsSized self.new }
        ensures keeps { Keeps self.old self.new }
        ensures grows { (put : List ℕ) × (self.new.output.items ≡ self.old.output.items ++ put) }
        ensures leads { Leads self.old self.new }
        ensures rests { (p : Past) → Sends self.old p → (self.new.output.capacity ≤ length self.new.output.items) ⊎ IsAtRest self.new }
        ensures settled { self.old.source ≢ source.Going → self.new.source ≡ self.old.source }
    {
        'turns: loop {
            if !self.turn() {
                break;
            }
        }
    }

    /// Whether all text of the message stands in the output window, or was taken.
    fn is_out(&self) -> bool
        ensures out { result ≡ true → IsAllOut self.now }
        ensures rests { IsAtRest self.now → self.now.source ≢ source.Going → result ≡ true }
        ensures only { IsAllOut self.now → result ≡ true }
    {
        if self.msg.len() > 0 || self.out.len() > 0 {
            return false;
        }
        match self.source {
            Source::Going => false,
            Source::Whole => self.writer.done(),
            Source::Cut(_) => self.writer.rests(),
        }
    }

    /// Notes that the message was put out, where it was.
    fn settle(&mut self)
        requires { self.old.stage ≡ stage.Sending }
        ensures same { self.new ≡ record self.old { stage = self.new.stage } }
        ensures done { self.new.stage ≡ stage.Done → IsAllOut self.old }
        ensures only { IsAllOut self.old → self.new.stage ≡ stage.Done }
        ensures rests { IsAtRest self.old → self.old.source ≢ source.Going → self.new.stage ≡ stage.Done }
        ensures stage { (self.new.stage ≡ stage.Sending) ⊎ (self.new.stage ≡ stage.Done) }
    {
        if self.is_out() {
            self.stage = Stage::Done;
        }
    }

    /// Does all that can be done of a message whose text goes out.
    pub(super) fn put_out(&mut self)
        requires sound { IsSound self.old }
        requires sending { self.old.stage ≡ stage.Sending }
        requires going { self.old.dropped ≡ false }
        ensures sound { IsSound self.new }
        ensures filters { (filters : List FilterSpec) → AreThese self.old.sieve filters → AreThese self.new.sieve filters }
        ensures capacity { self.new.input.capacity ≡ self.old.input.capacity }
        ensures shrinks { length self.new.input.items ≤ length self.old.input.items }
        ensures ended { self.new.ended ≡ self.old.ended }
        ensures window { self.new.output.capacity ≡ self.old.output.capacity }
        ensures limits { self.new.limits ≡ self.old.limits }
        ensures grows { (put : List ℕ) × (self.new.output.items ≡ self.old.output.items ++ put) }
        ensures stands { (p : Past) → Sends self.old p → Stands self.new p }
        ensures done { IsAllOut self.new → self.new.stage ≡ stage.Done }
        ensures goes_on { (p : Past) → Sends self.old p → self.new.stage ≡ stage.Sending → GoesOn self.new }
        ensures all { (p : Past) → Sends self.old p → self.new.output.items ≡ [] → IsAtRest self.new }
        ensures kept { self.new.dropped ≡ false }
        ensures stage { (self.new.stage ≡ stage.Sending) ⊎ (self.new.stage ≡ stage.Done) }
        ensures settled { self.old.source ≢ source.Going → self.new.source ≡ self.old.source }
    {
        self.carry();
        self.settle();
    }
}
