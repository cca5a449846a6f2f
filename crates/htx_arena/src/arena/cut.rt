//! What makes the list shorter: blocks are taken out, dropped or cut, or laid close together. None of these can fail.
ghost use Rattle.std.specs.Prelude.{◌≡◌, ◌<◌, ◌≤◌, [], length, take, remove};
ghost use Rattle.htx_model.specs.Block.{kind_of, value_of};
ghost use Rattle.htx_model.specs.Blocks.{block_at, cut_front};
ghost use Rattle.htx_model.specs.declared.Kind.TheVariants.{Data};
ghost use Rattle.htx_arena.specs.Layout.Addresses.{removed, truncated, cut_to, defragmented};

use crate::arena::Arena;

impl Arena {
    /// Empties the list.
    pub fn clear(&mut self)
        ensures blocks { self.new.blocks ≡ [] }
        ensures size { self.new.size ≡ self.old.size }
        ensures addrs { self.new.addrs ≡ [] }
        ensures front { self.new.front ≡ 0 }
    {
        self.array.clear();
    }

    /// Takes out a block.
    pub fn remove(&mut self, at: u32)
        requires { at < length self.old.blocks }
        ensures blocks { self.new.blocks ≡ remove self.old.blocks at }
        ensures size { self.new.size ≡ self.old.size }
        ensures addrs { self.new.addrs ≡ (removed self.old at).addrs }
        ensures front { self.new.front ≡ (removed self.old at).front }
    {
        self.array.remove(at);
    }

    /// Drops the blocks from an index on.
    pub fn truncate(&mut self, at: u32)
        requires { at ≤ length self.old.blocks }
        ensures blocks { self.new.blocks ≡ take at self.old.blocks }
        ensures size { self.new.size ≡ self.old.size }
        ensures addrs { self.new.addrs ≡ (truncated self.old at).addrs }
        ensures front { self.new.front ≡ (truncated self.old at).front }
    {
        self.array.truncate(at);
    }

    /// Drops the first bytes of data; a block of data that becomes empty is taken out.
    pub fn cut_front(&mut self, at: u32, n: u32)
        requires within { at < length self.old.blocks }
        requires kind { kind_of (block_at self.old.blocks at) ≡ Data }
        requires part { n ≤ length (value_of (block_at self.old.blocks at)) }
        ensures blocks { self.new.blocks ≡ cut_front self.old.blocks at n }
        ensures size { self.new.size ≡ self.old.size }
        ensures addrs { self.new.addrs ≡ (cut_to self.old at n).addrs }
        ensures front { self.new.front ≡ (cut_to self.old at n).front }
    {
        if n < self.payload_len(at) {
            self.cut(at, n);
            return;
        }
        self.remove(at);
    }

    /// Lays the payloads one behind the other from 0 on, in the order of their addresses.
    pub fn defrag(&mut self)
        ensures blocks { self.new.blocks ≡ self.old.blocks }
        ensures size { self.new.size ≡ self.old.size }
        ensures addrs { self.new.addrs ≡ (defragmented self.old).addrs }
        ensures front { self.new.front ≡ 0 }
    {
        self.array.pack();
    }
}
