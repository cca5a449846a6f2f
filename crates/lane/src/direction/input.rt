//! What came of a stream and was not used yet. A head, and a trailer section, that come in small pieces are not parsed again for each.
ghost use Rattle.std.specs.Prelude.{◌≡◌, ◌≤◌, ◌<◌, ◌+◌, ◌-◌, ◌++◌, [], length, drop, IfOk, List, ℕ};
ghost use Rattle.body_filter.specs.declared.filter_spec.FilterSpec.{FilterSpec};
ghost use Rattle.lane.specs.Sieve.Sieved.{IsSieve, IsIdle, IsStill, HasSieved, end_of, held_in, section_in};
ghost use Rattle.lane.specs.declared.sieve.sieve.BodyEnd.TheVariants as body_end;
ghost use Rattle.h1_head.specs.Answers.{IfMore, IfHead, IfRefuse, UnlessHead, Keeps};
ghost use Rattle.h1_head.specs.Decides.{OnEachStream, MayWait};
ghost use Rattle.h1_head.specs.Scanned.{IsScanned};
ghost use Rattle.h1_head.specs.Sides.{kind_of};
ghost use Rattle.h1_head.specs.Stream.{behind, HeadOf};
ghost use Rattle.http_model.specs.Reading.{Refused};
ghost use Rattle.http_model.specs.Sizes.{least_size, most_size, least_head};
ghost use Rattle.lane.specs.Direction.Holding.{Holds};
ghost use Rattle.lane.specs.Direction.Pulled.{Pulls};

use crate::direction::hold::hold_part;
use crate::direction::pull::{Pulled, read_part};
use crate::sieve::Sieve;
use h1_body::laws::stays_scanned;
use h1_body::{BodyReader, SectionScan};
use h1_head::{HeadRead, Side, read_grown_head};
use http_model::Limits;
use htx_arena::Arena;
use htx_model::OutOfMemory;
use std::alloc::Global;
use std::marker::Model;
use wire_buf::Window;

/// The bytes that came and were not used. Contracts see the window in which they stand.
#[derive(Drop)]
pub(crate) struct Input {
    window: Window,
    /// How far it was looked at for a trailer section. Only speed rests on it.
    seen: SectionScan,
}

impl Model for Input {
    ghost use Rattle.std.specs.Prelude.{ℕ};
    ghost use Rattle.wire_buf.specs.Buffer.{Buffer};
    ghost use Rattle.h1_body.specs.Scan.{IsScanned};

    ghost Value = { Buffer ℕ };

    ghost view = { λ i. i.window };

    ghost invariant = { λ i. IsScanned i.window.items i.seen };
}

impl Input {
    /// None of at most `cap` bytes. This call alone takes memory.
    pub fn new(alloc: Global, cap: u32) -> Result<Input, OutOfMemory>
        ensures empty { IfOk result (λ input. input.items ≡ []) }
        ensures capacity { IfOk result (λ input. input.capacity ≡ cap) }
    {
        Ok(Input {
            window: Window::new(alloc, cap)?,
            seen: SectionScan::new(),
        })
    }

    /// How many bytes stand in the window.
    pub fn len(&self) -> usize
        ensures len { result ≡ length self.now.items }
        ensures within { result ≤ self.now.capacity }
    {
        self.window.len()
    }

    /// How many more bytes it can hold.
    pub fn room(&self) -> usize
        ensures { result + length self.now.items ≡ self.now.capacity }
    {
        self.window.room()
    }

    /// Puts bytes that fit behind those in the window.
    pub fn push(&mut self, bytes: &[u8])
        requires { length self.old.items + length bytes.now ≤ self.old.capacity }
        ensures items { self.new.items ≡ self.old.items ++ bytes.now }
        ensures capacity { self.new.capacity ≡ self.old.capacity }
    {
        stays_scanned();
        self.window.push(bytes);
    }

    /// Drops the first `n` bytes.
    pub fn drop_front(&mut self, n: usize)
        requires { n ≤ length self.old.items }
        ensures items { self.new.items ≡ drop n self.old.items }
        ensures capacity { self.new.capacity ≡ self.old.capacity }
    {
        self.window.drop_front(n);
        self.seen = SectionScan::new();
    }

    /// What the window says of a head, of which so many bytes were looked at before; the window stays.
    pub fn read_head(
        &mut self,
        scanned: usize,
        whole: bool,
        side: Side,
        limits: Limits,
        to: &mut Arena,
    ) -> HeadRead
        requires least { least_size ≤ limits.bufsize }
        requires most { limits.bufsize ≤ most_size }
        requires reserve { limits.maxrewrite + least_head ≤ limits.bufsize }
        requires window { length self.old.items ≤ limits.bufsize }
        requires scanned { IsScanned (kind_of side) limits self.old.items scanned }
        requires empty { to.old.blocks ≡ [] }
        requires size { to.old.size ≡ limits.bufsize }
        ensures same { self.new ≡ self.old }
        ensures skip { IfMore result (λ skip. skip ≤ length self.old.items) }
        ensures lines { IfMore result (λ skip. drop skip self.old.items ≡ behind self.old.items) }
        ensures waits { IfMore result (λ _. MayWait (kind_of side) limits whole self.old.items) }
        ensures scanned { IfMore result (λ skip. IsScanned (kind_of side) limits (drop skip self.old.items) (length self.old.items - skip)) }
        ensures head { IfHead result (Keeps (kind_of side) limits whole self.old.items to.new.blocks) }
        ensures refused { IfRefuse result (λ code _. OnEachStream whole (λ more. HeadOf (kind_of side) limits (self.old.items ++ more) (Refused code))) }
        ensures unkept { UnlessHead result (to.new.blocks ≡ []) }
        ensures size { to.new.size ≡ to.old.size }
    {
        read_grown_head(self.window.bytes(), scanned, whole, side, limits, to)
    }

    /// Reads the next part of the body at the front into an empty array, and what was used goes.
    pub fn pull(&mut self, reader: &mut BodyReader, to: &mut Arena) -> Pulled
        requires { to.old.blocks ≡ [] }
        ensures pulls { Pulls reader.old reader.new self.old.items self.new.items to.old.size to.new.blocks result.used result.state }
        ensures capacity { self.new.capacity ≡ self.old.capacity }
        ensures size { to.new.size ≡ to.old.size }
    {
        let pulled = read_part(reader, self.window.bytes(), &mut self.seen, to);
        self.window.drop_front(pulled.used);
        pulled
    }

    /// Reads the next part of the body at the front, and the filters hold it.
    pub fn hold(&mut self, reader: &mut BodyReader, room: u32, sieve: &mut Sieve) -> Pulled
        requires idle { IsIdle sieve.old }
        requires sieve { IsSieve room sieve.old }
        requires input { length self.old.items ≤ room }
        requires room { 0 < room }
        ensures holds { Holds reader.old reader.new self.old.items self.new.items (held_in sieve.new) (section_in sieve.new) result.used result.state }
        ensures capacity { self.new.capacity ≡ self.old.capacity }
        ensures shrinks { length self.new.items ≤ length self.old.items }
        ensures end { end_of sieve.new ≡ body_end.Open }
        ensures still { IsStill sieve.old → IsStill sieve.new }
        ensures sieved { (filters : List FilterSpec) (found passed : List ℕ) → HasSieved filters found passed sieve.old → HasSieved filters (found ++ held_in sieve.new) passed sieve.new }
        ensures sieve { IsSieve room sieve.new }
    {
        let pulled = hold_part(reader, self.window.bytes(), &mut self.seen, room, sieve);
        self.window.drop_front(pulled.used);
        pulled
    }
}
