//! The calls of a lane beside reading a head.
ghost use Rattle.std.specs.Prelude.{◌≡◌, ◌≢◌, ◌≤◌, ◌<◌, ◌+◌, ◌++◌, ◌⊎◌, [], length, take, drop, true, false, List, ℕ, Some, None, Option, IfOk};
ghost use Rattle.http_model.specs.Head.{Head, head_blocks};
ghost use Rattle.http_model.specs.Sizes.{least_size, most_size, least_head};
ghost use Rattle.http_model.specs.declared.Ending.{Ending};
ghost use Rattle.body_filter.specs.declared.filter_spec.FilterSpec.{FilterSpec};
ghost use Rattle.body_filter.specs.Valid.{AreFilters};
ghost use Rattle.h1_body.specs.declared.reader.BodyReader.{BodyReader};
ghost use Rattle.lane.specs.Direction.Filtering.{AreThese, HasPassed, SieveFits, GoesOnBy};
ghost use Rattle.header_ops.specs.Headers.{without_framing};
ghost use Rattle.h1_head.specs.declared.answer.Side.{Side};
ghost use Rattle.lane.specs.Direction.Sends.{Past, Stands, GoesOn, IsAtRest, IsAllOut, IsSound, IsReady, IsReading, RestsFor, begun};
ghost use Rattle.http_model.specs.declared.Source.TheVariants as source;
ghost use Rattle.lane.specs.declared.direction.stage.Stage.TheVariants as stage;

use crate::direction::input::Input;
use crate::direction::lane::Lane;
use crate::direction::stage::Stage;
use crate::sieve::Sieve;
use body_filter::FilterSpec;
use h1_body::BodyReader;
use h1_head::laws::stays_scanned;
use h1_write::Writer;
use header_ops::remove_framing;
use http_model::{Ending, Framing, Limits, Source};
use htx_arena::Arena;
use htx_model::OutOfMemory;
use std::alloc::Global;
use wire_buf::Window;

/// What lets bodies through these filters; nothing where there are none.
fn sieve_of(alloc: Global, filters: &[FilterSpec], size: u32) -> Result<Option<Sieve>, OutOfMemory>
    requires few { length filters.now ≤ 8 }
    requires valid { AreFilters filters.now }
    requires wide { 8 < size }
    ensures these { IfOk result (λ sieve. AreThese sieve filters.now) }
    ensures size { IfOk result (SieveFits size) }
{
    if filters.len() == 0 {
        return Ok(None);
    }
    let sieve = Sieve::open(alloc, filters, size)?;
    Ok(Some(sieve))
}

/// Begins a new body, where there are filters.
pub(super) fn reset(sieve: &mut Option<Sieve>)
    ensures passed { (filters : List FilterSpec) → AreThese sieve.old filters → HasPassed sieve.new filters [] [] }
    ensures goes { (reader : BodyReader) (ended : Option Ending) (input : List ℕ) → GoesOnBy sieve.new reader ended input [] }
    ensures size { (size : ℕ) → SieveFits size sieve.old → SieveFits size sieve.new }
{
    match sieve {
        None => {}
        Some(sieve) => sieve.reset(),
    }
}

impl Lane {
    ghost use Rattle.std.specs.Borrow.{sem};
    ghost use Rattle.lane.specs.Direction.Lending.{LendsMsg, LendsOutput};

    /// A lane whose output window has this size, and whose bodies go through these filters. This call alone takes memory.
    pub fn new(
        alloc: Global,
        limits: Limits,
        window: u32,
        filters: &[FilterSpec],
    ) -> Result<Lane, OutOfMemory>
        requires least { least_size ≤ limits.bufsize }
        requires most { limits.bufsize ≤ most_size }
        requires reserve { limits.maxrewrite + least_head ≤ limits.bufsize }
        requires window { 64 ≤ window }
        requires few { length filters.now ≤ 8 }
        requires valid { AreFilters filters.now }
        ensures filters { IfOk result (λ lane. AreThese lane.sieve filters.now) }
        ensures reading { IfOk result (λ lane. (side : Side) → IsReading side lane) }
        ensures input { IfOk result (λ lane. lane.input.items ≡ []) }
        ensures ended { IfOk result (λ lane. lane.ended ≡ None) }
        ensures output { IfOk result (λ lane. lane.output.items ≡ []) }
        ensures limits { IfOk result (λ lane. lane.limits ≡ limits) }
        ensures window { IfOk result (λ lane. lane.output.capacity ≡ window) }
    {
        stays_scanned();
        Ok(Lane {
            limits,
            input: Input::new(alloc, limits.bufsize)?,
            ended: None,
            scanned: 0,
            msg: Arena::new(alloc, limits.bufsize)?,
            out: Arena::new(alloc, limits.bufsize)?,
            framing: Framing::Absent,
            declared: None,
            close: false,
            reader: BodyReader::new(Framing::Absent, limits),
            writer: Writer::new(Framing::Absent, false),
            output: Window::new(alloc, window)?,
            stage: Stage::Reading,
            source: Source::Going,
            dropped: false,
            sieve: sieve_of(alloc, filters, limits.bufsize)?,
        })
    }

    /// Bytes of the stream come.
    pub fn push(&mut self, bytes: &[u8])
        requires open { self.old.ended ≡ None }
        requires room { length self.old.input.items + length bytes.now ≤ self.old.input.capacity }
        ensures input { self.new.input.items ≡ self.old.input.items ++ bytes.now }
        ensures same { self.new ≡ record self.old { input = self.new.input } }
        ensures sound { IsSound self.old → IsSound self.new }
        ensures reading { (side : Side) → IsReading side self.old → IsReading side self.new }
        ensures stands { (p : Past) → Stands self.old p → Stands self.new (record p { bytes = p.bytes ++ bytes.now }) }
    {
        stays_scanned();
        self.input.push(bytes);
    }

    /// The stream ends.
    pub fn end(&mut self, how: Ending)
        requires { self.old.ended ≡ None }
        ensures same { self.new ≡ record self.old { ended = Some how } }
        ensures sound { IsSound self.old → IsSound self.new }
        ensures reading { (side : Side) → IsReading side self.old → IsReading side self.new }
        ensures stands { (p : Past) → Stands self.old p → Stands self.new p }
    {
        self.ended = Some(how);
    }

    /// The array on which rules run.
    pub fn head(&mut self) -> &mut Arena
        ensures* back { sem 𝓛 (LendsMsg self.entry result) }
        ensures value { result.now ≡ self.old.msg }
    {
        &mut self.msg
    }

    /// The head that stands in the array is put out, and the body behind it in this framing.
    pub fn send(&mut self, framing: Framing, no_body: bool)
        requires ready { IsReady self.old }
        requires head { self.old.stage ≡ stage.Head }
        ensures stands { (filters : List FilterSpec) (head : Head) → AreThese self.old.sieve filters → self.old.msg.blocks ≡ head_blocks head → Stands self.new (begun self.old filters head framing no_body) }
        ensures filters { (filters : List FilterSpec) → AreThese self.old.sieve filters → AreThese self.new.sieve filters }
        ensures sound { IsSound self.new }
        ensures stage { self.new.stage ≡ stage.Sending }
        ensures source { self.new.source ≡ source.Going }
        ensures input { self.new.input ≡ self.old.input }
        ensures ended { self.new.ended ≡ self.old.ended }
        ensures msg { self.new.msg ≡ self.old.msg }
        ensures output { self.new.output ≡ self.old.output }
        ensures kept { self.new.dropped ≡ false }
        ensures limits { self.new.limits ≡ self.old.limits }
    {
        reset(&mut self.sieve);
        self.reader = BodyReader::new(self.framing, self.limits);
        self.writer = Writer::new(framing, no_body);
        self.source = Source::Going;
        self.stage = Stage::Sending;
    }

    /// Does all that can be done with what came and what room there is.
    pub fn step(&mut self)
        requires sound { IsSound self.old }
        requires sending { self.old.stage ≡ stage.Sending }
        ensures stands { (p : Past) → Stands self.old p → Stands self.new p }
        ensures sound { IsSound self.new }
        ensures filters { (filters : List FilterSpec) → AreThese self.old.sieve filters → AreThese self.new.sieve filters }
        ensures capacity { self.new.input.capacity ≡ self.old.input.capacity }
        ensures shrinks { length self.new.input.items ≤ length self.old.input.items }
        ensures ended { self.new.ended ≡ self.old.ended }
        ensures window { self.new.output.capacity ≡ self.old.output.capacity }
        ensures limits { self.new.limits ≡ self.old.limits }
        ensures no_stall { (p : Past) → Stands self.old p → self.new.stage ≡ stage.Sending → GoesOn self.new }
        ensures done { IsAllOut self.new → self.new.stage ≡ stage.Done }
        ensures all { (p : Past) → Stands self.old p → self.new.output.items ≡ [] → self.new.dropped ≡ false → IsAtRest self.new }
        ensures no_cut { (p : Past) → Stands self.old p → (self.new.output.items ≡ []) ⊎ (self.new.dropped ≡ true) → RestsFor self.new }
        ensures grows { (put : List ℕ) × (self.new.output.items ≡ self.old.output.items ++ put) }
        ensures kept { self.new.dropped ≡ self.old.dropped }
        ensures drops { self.old.dropped ≡ true → self.new.output ≡ self.old.output }
        ensures stage { (self.new.stage ≡ stage.Sending) ⊎ (self.new.stage ≡ stage.Done) }
        ensures settled { self.old.source ≢ source.Going → self.new.source ≡ self.old.source }
    {
        if self.is_dropping() {
            self.read_out();
            return;
        }
        self.put_out();
    }

    /// The text that was not taken yet.
    pub fn output(&mut self) -> &mut [u8]
        ensures* back { sem 𝓛 (LendsOutput self.entry result) }
        ensures value { result.now ≡ self.old.output.items }
    {
        self.output.bytes()
    }

    /// So many bytes of it were taken.
    pub fn took(&mut self, n: usize)
        requires { n ≤ length self.old.output.items }
        ensures same { self.new ≡ record self.old { output = self.new.output } }
        ensures output { self.new.output.items ≡ drop n self.old.output.items }
        ensures window { self.new.output.capacity ≡ self.old.output.capacity }
        ensures sound { IsSound self.old → IsSound self.new }
        ensures reading { (side : Side) → IsReading side self.old → IsReading side self.new }
        ensures stands { (p : Past) → Stands self.old p → Stands self.new (record p { took = p.took ++ take n self.old.output.items }) }
    {
        self.output.drop_front(n);
    }

    /// From now on text is dropped, until `next`: what stands in the output, and both arrays, too.
    pub fn discard(&mut self)
        ensures dropped { self.new.dropped ≡ true }
        ensures output { self.new.output.items ≡ [] }
        ensures window { self.new.output.capacity ≡ self.old.output.capacity }
        ensures blocks { self.new.msg.blocks ≡ [] }
        ensures sieve { self.new.sieve ≡ self.old.sieve }
        ensures stage { self.new.stage ≡ self.old.stage }
        ensures source { self.new.source ≡ self.old.source }
        ensures input { self.new.input ≡ self.old.input }
        ensures ended { self.new.ended ≡ self.old.ended }
        ensures limits { self.new.limits ≡ self.old.limits }
        ensures sound { IsSound self.old → IsSound self.new }
        ensures stands { (p : Past) → Stands self.old p → Stands self.new p }
    {
        self.dropped = true;
        self.msg.clear();
        self.out.clear();
        self.output.drop_front(self.output.len());
    }

    /// The next message: what came and what is put out stays.
    pub fn next(&mut self)
        requires sound { IsSound self.old }
        ensures reading { (side : Side) → IsReading side self.new }
        ensures input { self.new.input ≡ self.old.input }
        ensures ended { self.new.ended ≡ self.old.ended }
        ensures limits { self.new.limits ≡ self.old.limits }
        ensures output { self.new.output ≡ self.old.output }
        ensures sieve { self.new.sieve ≡ self.old.sieve }
    {
        stays_scanned();
        self.msg.clear();
        self.out.clear();
        self.source = Source::Going;
        self.dropped = false;
        self.scanned = 0;
        self.stage = Stage::Reading;
    }

    /// There is no head to be had.
    pub fn give_up(&mut self)
        ensures same { self.new ≡ record self.old { stage = stage.Done } }
    {
        self.stage = Stage::Done;
    }

    /// The fields that frame the message that stands in the array, or speak of its connection, go.
    pub fn strip(&mut self)
        ensures blocks { self.new.msg.blocks ≡ without_framing self.old.msg.blocks }
        ensures size { self.new.msg.size ≡ self.old.msg.size }
        ensures same { self.new ≡ record self.old { msg = self.new.msg } }
    {
        remove_framing(&mut self.msg);
    }

    /// What is put out and was not taken goes.
    pub fn clear_output(&mut self)
        ensures same { self.new ≡ record self.old { output = self.new.output } }
        ensures empty { self.new.output.items ≡ [] }
        ensures window { self.new.output.capacity ≡ self.old.output.capacity }
        ensures reading { (side : Side) → IsReading side self.old → IsReading side self.new }
    {
        self.output.drop_front(self.output.len());
    }

    /// The stream of another server begins.
    pub fn new_stream(&mut self)
        requires sound { IsSound self.old }
        ensures reading { (side : Side) → IsReading side self.new }
        ensures input { self.new.input.items ≡ [] }
        ensures ended { self.new.ended ≡ None }
        ensures limits { self.new.limits ≡ self.old.limits }
        ensures output { self.new.output ≡ self.old.output }
        ensures sieve { self.new.sieve ≡ self.old.sieve }
    {
        self.input.drop_front(self.input.len());
        self.ended = None;
        self.next();
    }
}
