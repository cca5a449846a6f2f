//! What makes the laid-out array's list shorter, and its payloads laid close together. None of these needs room.
ghost use Rattle.std.specs.Prelude.{◌≡◌, ◌+◌, ◌<◌, ◌≤◌, [], length, take, drop, remove, slice_index, slice_set};
ghost use Rattle.htx_model.specs.Block.{Data as DataBlock};
ghost use Rattle.htx_model.specs.Block.{kind_of, value_of};
ghost use Rattle.htx_model.specs.Blocks.{block_at};
ghost use Rattle.htx_model.specs.declared.Kind.TheVariants.{Data};
ghost use Rattle.htx_arena.specs.Layout.Place.{settled};
ghost use Rattle.htx_arena.specs.Layout.Addresses.{removed, truncated, dropped, defragmented};

use crate::layout::array::Array;
use crate::layout::scan::{self, Ends};
use crate::layout::words::Info;
use crate::layout::{change, edits, pack, sites};

#[tactic(auto, using(crate::proofs::LayoutLemmas::WholeLemmas::wholes))]
impl Array {
    /// Drops all blocks.
    pub fn clear(&mut self)
        ensures blocks { self.new.blocks ≡ [] }
        ensures size { self.new.size ≡ self.old.size }
        ensures addrs { self.new.addrs ≡ [] }
        ensures front { self.new.front ≡ 0 }
    {
        self.count = 0;
        self.load = 0;
        self.ends = Ends {
            front: 0,
            top: 0,
            low: None,
        };
    }

    /// Takes out a block.
    pub fn remove(&mut self, at: u32)
        requires { at < length self.old.blocks }
        ensures blocks { self.new.blocks ≡ remove self.old.blocks at }
        ensures size { self.new.size ≡ self.old.size }
        ensures addrs { self.new.addrs ≡ (removed self.old at).addrs }
        ensures front { self.new.front ≡ (removed self.old at).front }
    {
        self.unlist(at);
        self.settle();
    }

    /// Takes out a block, and leaves `front` where it is.
    pub(super) fn unlist(&mut self, at: u32)
        requires { at < length self.old.blocks }
        ensures blocks { self.new.blocks ≡ remove self.old.blocks at }
        ensures size { self.new.size ≡ self.old.size }
        ensures addrs { self.new.addrs ≡ remove self.old.addrs at }
        ensures front { self.new.front ≡ self.old.front }
    {
        let len = self.payload_len(at);
        let addr = self.addr(at);
        let end = scan::end_at(&self.space, self.count, at);
        self.ends.low = scan::low_without(self.ends, addr);
        edits::unlist(&mut self.space, self.count, at);
        self.count -= 1;
        self.load -= 8 + len;
        self.ends = scan::ends_behind(&self.space, self.count, self.ends, end);
    }

    /// Brings `front` to 0 where no payload stands at or above it.
    fn settle(&mut self)
        ensures blocks { self.new.blocks ≡ self.old.blocks }
        ensures size { self.new.size ≡ self.old.size }
        ensures addrs { self.new.addrs ≡ self.old.addrs }
        ensures front { self.new.front ≡ settled self.old.front self.old.addrs }
    {
        self.ends.front = sites::settle(self.ends);
    }

    /// Drops the blocks from an index on.
    pub fn truncate(&mut self, at: u32)
        requires { at ≤ length self.old.blocks }
        ensures blocks { self.new.blocks ≡ take at self.old.blocks }
        ensures size { self.new.size ≡ self.old.size }
        ensures addrs { self.new.addrs ≡ (truncated self.old at).addrs }
        ensures front { self.new.front ≡ (truncated self.old at).front }
    {
        self.load -= scan::weight_from(&self.space, self.count, at);
        self.count = at;
        self.ends = scan::ends_of(&self.space, self.count, self.ends.front);
        self.settle();
    }

    /// Drops the first blocks, in one move of the descriptors behind them.
    pub fn drop_first(&mut self, n: u32)
        requires { n ≤ length self.old.blocks }
        ensures blocks { self.new.blocks ≡ drop n self.old.blocks }
        ensures size { self.new.size ≡ self.old.size }
        ensures addrs { self.new.addrs ≡ (dropped self.old n).addrs }
        ensures front { self.new.front ≡ (dropped self.old n).front }
    {
        let gone = scan::weigh(&self.space, n, 0);
        edits::drop_first(&mut self.space, self.count, n);
        self.count -= n;
        self.load -= gone.weight;
        self.ends.low = None;
        self.ends = scan::ends_behind(&self.space, self.count, self.ends, gone.end);
        self.settle();
    }

    /// Drops the first bytes of data, and not all.
    pub fn cut(&mut self, at: u32, n: u32)
        requires within { at < length self.old.blocks }
        requires kind { kind_of (block_at self.old.blocks at) ≡ Data }
        requires part { n < length (value_of (block_at self.old.blocks at)) }
        ensures blocks { self.new.blocks ≡ slice_set self.old.blocks at (DataBlock (drop n (value_of (block_at self.old.blocks at)))) }
        ensures size { self.new.size ≡ self.old.size }
        ensures addrs { self.new.addrs ≡ slice_set self.old.addrs at (slice_index self.old.addrs at + n) }
        ensures front { self.new.front ≡ self.old.front }
    {
        let info = self.info(at);
        change::trim(&mut self.space, self.count, at, n, Info(info.0 - n));
        self.ends.low = None;
        self.load -= n;
    }

    /// Lays the payloads one behind the other from 0 on, in the order of their addresses.
    pub fn pack(&mut self)
        ensures blocks { self.new.blocks ≡ self.old.blocks }
        ensures size { self.new.size ≡ self.old.size }
        ensures addrs { self.new.addrs ≡ (defragmented self.old).addrs }
        ensures front { self.new.front ≡ 0 }
    {
        let top = pack::defrag(&mut self.space, self.count);
        self.ends = Ends {
            front: 0,
            top,
            low: None,
        };
    }
}
