//! A body whose text is dropped.
ghost use Rattle.std.specs.Prelude.{◌≡◌, ◌≢◌, ◌≤◌, ◌<◌, ◌+◌, ◌⊎◌, [], length, true, false, List};
ghost use Rattle.body_filter.specs.declared.filter_spec.FilterSpec.{FilterSpec};
ghost use Rattle.lane.specs.Direction.Filtering.{AreThese, SieveRests, held_left};
ghost use Rattle.lane.specs.Direction.Sends.{Stands, GoesOn, IsAllOut, IsSound, Past, Sends, Leads, Keeps, RestsFor, reads_left, is_going, IsSized};
ghost use Rattle.http_model.specs.declared.Source.TheVariants as source;
ghost use Rattle.lane.specs.declared.direction.stage.Stage.TheVariants as stage;

use crate::direction::lane::Lane;

impl Lane {
    /// Whether text is dropped.
    pub(super) fn is_dropping(&self) -> bool
        ensures { result ≡ self.now.dropped }
    {
        self.dropped
    }

    /// Lets the filters give what can be given, and drops it. False where they wait for more of the body.
    fn drop_sifted(&mut self) -> bool
        requires sized { IsSized self.old }
        requires empty { self.old.msg.blocks ≡ [] }
        ensures keeps { Keeps self.old self.new }
        ensures same { (self.new.output ≡ self.old.output) × (self.new.out ≡ self.old.out) × (self.new.writer ≡ self.old.writer) × (self.new.input ≡ self.old.input) }
        ensures sized { IsSized self.new }
        ensures leads { self.old.dropped ≡ true → Leads self.old self.new }
        ensures empty { self.new.msg.blocks ≡ [] }
        ensures nearer { result ≡ true → held_left self.new.sieve + is_going self.new.source < held_left self.old.sieve + is_going self.old.source }
        ensures reads { reads_left self.new ≤ reads_left self.old }
        ensures rests { result ≡ false → self.new.source ≡ source.Going → SieveRests self.new.sieve }
        ensures settled { self.old.source ≢ source.Going → self.new.source ≡ self.old.source }
    {
        if !self.is_going() {
            return false;
        }
        if !self.sift() {
            return false;
        }
        self.msg.clear();
        true
    }

    /// Lets the filters work on all that was read, and drops what they give.
    fn drop_held(&mut self)
        requires sized { IsSized self.old }
        requires empty { self.old.msg.blocks ≡ [] }
        ensures keeps { Keeps self.old self.new }
        ensures same { (self.new.output ≡ self.old.output) × (self.new.out ≡ self.old.out) × (self.new.writer ≡ self.old.writer) × (self.new.input ≡ self.old.input) }
        ensures sized { IsSized self.new }
        ensures leads { self.old.dropped ≡ true → Leads self.old self.new }
        ensures empty { self.new.msg.blocks ≡ [] }
        ensures reads { reads_left self.new ≤ reads_left self.old }
        ensures rests { self.new.source ≡ source.Going → SieveRests self.new.sieve }
        ensures settled { self.old.source ≢ source.Going → self.new.source ≡ self.old.source }
    {
        'parts: loop {
            if !self.drop_sifted() {
                break;
            }
        }
    }

    /// Reads the next part of the body, and drops it. False where there is nothing to read.
    fn drop_part(&mut self) -> bool
        requires sized { IsSized self.old }
        requires empty { self.old.msg.blocks ≡ [] }
        requires held { length self.old.input.items ≤ self.old.input.capacity }
        ensures keeps { Keeps self.old self.new }
        ensures same { (self.new.output ≡ self.old.output) × (self.new.out ≡ self.old.out) × (self.new.writer ≡ self.old.writer) }
        ensures sized { IsSized self.new }
        ensures leads { self.old.dropped ≡ true → Leads self.old self.new }
        ensures empty { result ≡ true → self.new.msg.blocks ≡ [] }
        ensures nearer { result ≡ true → reads_left self.new < reads_left self.old }
        ensures rests { (p : Past) → self.old.dropped ≡ true → Sends self.old p → result ≡ false → RestsFor self.new }
        ensures settled { self.old.source ≢ source.Going → self.new.source ≡ self.old.source }
    {
        self.drop_held();
        if !self.is_going() {
            return false;
        }
        if !self.read_body() {
            return false;
        }
        self.msg.clear();
        true
    }

    /// Reads what came of a body whose text is dropped.
    pub(super) fn drop_body(&mut self)
        requires sized { IsSized self.old }
        requires held { length self.old.input.items ≤ self.old.input.capacity }
        ensures sized { IsSized self.new }
        ensures keeps { Keeps self.old self.new }
        ensures same { (self.new.output ≡ self.old.output) × (self.new.out ≡ self.old.out) × (self.new.writer ≡ self.old.writer) }
        ensures leads { self.old.dropped ≡ true → Leads self.old self.new }
        ensures rests { (p : Past) → self.old.dropped ≡ true → Sends self.old p → RestsFor self.new }
        ensures settled { self.old.source ≢ source.Going → self.new.source ≡ self.old.source }
    {
        self.msg.clear();
        'parts: loop {
            if !self.drop_part() {
                break;
            }
        }
    }

    /// Does all that can be done of a message whose text is dropped.
    pub(super) fn read_out(&mut self)
        requires sound { IsSound self.old }
        requires sending { self.old.stage ≡ stage.Sending }
        requires dropped { self.old.dropped ≡ true }
        ensures sound { IsSound self.new }
        ensures filters { (filters : List FilterSpec) → AreThese self.old.sieve filters → AreThese self.new.sieve filters }
        ensures capacity { self.new.input.capacity ≡ self.old.input.capacity }
        ensures shrinks { length self.new.input.items ≤ length self.old.input.items }
        ensures ended { self.new.ended ≡ self.old.ended }
        ensures limits { self.new.limits ≡ self.old.limits }
        ensures output { self.new.output ≡ self.old.output }
        ensures dropped { self.new.dropped ≡ true }
        ensures stands { (p : Past) → Sends self.old p → Stands self.new p }
        ensures rests { (p : Past) → Sends self.old p → RestsFor self.new }
        ensures done { IsAllOut self.new → self.new.stage ≡ stage.Done }
        ensures goes_on { (p : Past) → Sends self.old p → self.new.stage ≡ stage.Sending → GoesOn self.new }
        ensures stage { (self.new.stage ≡ stage.Sending) ⊎ (self.new.stage ≡ stage.Done) }
        ensures settled { self.old.source ≢ source.Going → self.new.source ≡ self.old.source }
    {
        self.drop_body();
        if self.is_going() {
            return;
        }
        self.give_up();
    }
}
