//! Messages that stand whole in an array, and heads that go out alone.
ghost use Rattle.std.specs.Prelude.{◌≡◌, ◌≤◌, [], length, false, List, ℕ};
ghost use Rattle.http_model.specs.Head.{Head, head_blocks};
ghost use Rattle.body_filter.specs.declared.filter_spec.FilterSpec.{FilterSpec};
ghost use Rattle.lane.specs.Direction.Filtering.{AreThese};
ghost use Rattle.htx_model.specs.Blocks.{flow, Fits};
ghost use Rattle.http_model.specs.Head.{front_blocks};
ghost use Rattle.h1_write.specs.Spelled.{is_done};
ghost use Rattle.lane.specs.Direction.Shown.{Shows, Goes};
ghost use Rattle.lane.specs.Direction.Sends.{Stands, IsSound, IsReady, said};
ghost use Rattle.lane.specs.declared.direction.stage.Stage.TheVariants as stage;
ghost use Rattle.http_model.specs.declared.Source.TheVariants as source;

use crate::direction::lane::Lane;
use crate::direction::lane::calls::reset;
use crate::direction::stage::Stage;
use h1_body::BodyReader;
use h1_write::Writer;
use http_model::{Framing, Source};
use htx_arena::Arena;
use htx_xfer::xfer;

impl Lane {
    /// Whatever was to be put out and isn't is dropped, and the message of this list is put out in its place: a reply,
    /// whose body stands in it.
    pub fn say(&mut self, list: &mut Arena, no_body: bool)
        requires sound { IsSound self.old }
        requires fits { Fits list.old.blocks self.old.limits.bufsize }
        ensures stands { (filters : List FilterSpec) (head : Head) (body : List ℕ) → AreThese self.old.sieve filters → list.old.blocks ≡ front_blocks head body → Stands self.new (said self.old filters head body no_body) }
        ensures filters { (filters : List FilterSpec) → AreThese self.old.sieve filters → AreThese self.new.sieve filters }
        ensures sound { IsSound self.new }
        ensures list { list.new.blocks ≡ [] }
        ensures list_size { list.new.size ≡ list.old.size }
        ensures stage { self.new.stage ≡ stage.Sending }
        ensures source { self.new.source ≡ source.Whole }
        ensures input { self.new.input ≡ self.old.input }
        ensures ended { self.new.ended ≡ self.old.ended }
        ensures output { self.new.output ≡ self.old.output }
        ensures kept { self.new.dropped ≡ self.old.dropped }
        ensures limits { self.new.limits ≡ self.old.limits }
    {
        self.hide();
        self.put_by(list);
        self.say_msg(no_body);
    }

    /// The blocks of this list stand in the first array alone.
    pub fn put_by(&mut self, list: &mut Arena)
        requires size { self.old.msg.size ≡ self.old.limits.bufsize }
        requires fits { Fits list.old.blocks self.old.limits.bufsize }
        ensures list { list.new.blocks ≡ [] }
        ensures list_size { list.new.size ≡ list.old.size }
        ensures flow { flow self.new.msg.blocks ≡ flow list.old.blocks }
        ensures same { self.new ≡ record self.old { msg = self.new.msg } }
        ensures size { self.new.msg.size ≡ self.old.msg.size }
        ensures sound { IsSound self.old → IsSound self.new }
    {
        self.msg.clear();
        let load = self.limits.bufsize;
        xfer(list, &mut self.msg, load);
    }

    /// The message that stands in the first array is put out: its body stands there, and none comes.
    pub fn say_msg(&mut self, no_body: bool)
        requires sound { IsSound self.old }
        requires empty { self.old.out.blocks ≡ [] }
        ensures stands { (filters : List FilterSpec) (head : Head) (body : List ℕ) → AreThese self.old.sieve filters → flow self.old.msg.blocks ≡ front_blocks head body → Stands self.new (said self.old filters head body no_body) }
        ensures filters { (filters : List FilterSpec) → AreThese self.old.sieve filters → AreThese self.new.sieve filters }
        ensures sound { IsSound self.new }
        ensures stage { self.new.stage ≡ stage.Sending }
        ensures source { self.new.source ≡ source.Whole }
        ensures input { self.new.input ≡ self.old.input }
        ensures ended { self.new.ended ≡ self.old.ended }
        ensures output { self.new.output ≡ self.old.output }
        ensures kept { self.new.dropped ≡ self.old.dropped }
        ensures limits { self.new.limits ≡ self.old.limits }
        ensures msg { self.new.msg ≡ self.old.msg }
        ensures out { self.new.out ≡ self.old.out }
    {
        reset(&mut self.sieve);
        self.reader = BodyReader::new(Framing::Absent, self.limits);
        self.writer = Writer::new(Framing::ToClose, no_body);
        self.source = Source::Whole;
        self.stage = Stage::Sending;
    }

    /// The head that stands in the first array is put out from the second, with no body.
    pub fn show(&mut self)
        requires ready { IsReady self.old }
        ensures shows { (head : Head) → self.old.msg.blocks ≡ head_blocks head → Shows self.new.writer head [] self.new.out.blocks }
        ensures msg { self.new.msg.blocks ≡ [] }
        ensures sound { IsSound self.new }
        ensures stage { self.new.stage ≡ stage.Sending }
        ensures source { self.new.source ≡ source.Whole }
        ensures input { self.new.input ≡ self.old.input }
        ensures ended { self.new.ended ≡ self.old.ended }
        ensures output { self.new.output ≡ self.old.output }
        ensures kept { self.new.dropped ≡ false }
        ensures limits { self.new.limits ≡ self.old.limits }
        ensures sieve { self.new.sieve ≡ self.old.sieve }
    {
        let load = self.limits.bufsize - self.msg.room();
        xfer(&mut self.msg, &mut self.out, load);
        self.writer = Writer::new(Framing::Absent, true);
        self.source = Source::Whole;
        self.stage = Stage::Sending;
    }

    /// Writes on of a head that is shown. Whether all of it is put out.
    pub fn show_on(&mut self) -> bool
        ensures shows { Goes self.old self.new }
        ensures done { result ≡ is_done self.new.writer }
        ensures waits { result ≡ false → (self.new.output.capacity ≤ length self.new.output.items) }
        ensures window { self.new.output.capacity ≡ self.old.output.capacity }
        ensures same { self.new ≡ record self.old { writer = self.new.writer; out = self.new.out; output = self.new.output } }
        ensures sound { IsSound self.old → IsSound self.new }
    {
        self.writer.next(&mut self.out, true, &mut self.output);
        self.writer.done()
    }

    /// What is left of a head that was shown stands nowhere.
    pub fn hide(&mut self)
        ensures empty { self.new.out.blocks ≡ [] }
        ensures same { self.new ≡ record self.old { out = self.new.out } }
        ensures sound { IsSound self.old → IsSound self.new }
    {
        self.out.clear();
    }
}
