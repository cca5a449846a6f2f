//! The calls of the laid-out array that those of an arena go through, once it is known that they fit.
ghost use Rattle.std.specs.Prelude.{◌≡◌, ◌+◌, ◌<◌, ◌≤◌, ◌++◌, length, drop, insert, slice_index, slice_set};
ghost use Rattle.htx_model.specs.Block.{Data as DataBlock};
ghost use Rattle.htx_model.specs.Block.{kind_of, name_of, value_of, payload_len, with_value, IsFieldKind};
ghost use Rattle.htx_model.specs.Blocks.{load, block_at};
ghost use Rattle.htx_model.specs.declared.Kind.TheVariants.{Data};
ghost use Rattle.htx_arena.specs.Layout.Addresses.{inserted, replaced, extended};

use crate::arena::Arena;
use crate::layout::NewBlock;

impl Arena {
    /// Puts in a block.
    #[inline(always)]
    pub(super) fn put(&mut self, at: u32, new: &NewBlock<'_>)
        requires within { at ≤ length self.old.blocks }
        requires fits { load self.old.blocks + 8 + payload_len new.now ≤ self.old.size }
        ensures blocks { self.new.blocks ≡ insert self.old.blocks at new.now }
        ensures size { self.new.size ≡ self.old.size }
        ensures addrs { self.new.addrs ≡ (inserted self.old at (payload_len new.now)).addrs }
        ensures front { self.new.front ≡ (inserted self.old at (payload_len new.now)).front }
    {
        self.array.add(at, new);
    }

    /// Puts another block in the place of one.
    pub(super) fn set(&mut self, at: u32, new: &NewBlock<'_>)
        requires within { at < length self.old.blocks }
        requires fits { load self.old.blocks + payload_len new.now ≤ self.old.size + payload_len (block_at self.old.blocks at) }
        ensures blocks { self.new.blocks ≡ slice_set self.old.blocks at new.now }
        ensures size { self.new.size ≡ self.old.size }
        ensures addrs { self.new.addrs ≡ (replaced self.old at (payload_len new.now)).addrs }
        ensures front { self.new.front ≡ (replaced self.old at (payload_len new.now)).front }
    {
        self.array.replace(at, new);
    }

    /// Gives a field another value.
    pub(super) fn set_value(&mut self, at: u32, value: &[u8])
        requires within { at < length self.old.blocks }
        requires field { IsFieldKind (kind_of (block_at self.old.blocks at)) }
        requires fits { load self.old.blocks + length value.now ≤ self.old.size + length (value_of (block_at self.old.blocks at)) }
        ensures blocks { self.new.blocks ≡ slice_set self.old.blocks at (with_value (block_at self.old.blocks at) value.now) }
        ensures size { self.new.size ≡ self.old.size }
        ensures addrs { self.new.addrs ≡ (replaced self.old at (length (name_of (block_at self.old.blocks at)) + length value.now)).addrs }
        ensures front { self.new.front ≡ (replaced self.old at (length (name_of (block_at self.old.blocks at)) + length value.now)).front }
    {
        self.array.replace_value(at, value);
    }

    /// Puts more bytes behind those of data.
    pub(super) fn extend(&mut self, at: u32, piece: &[u8])
        requires within { at < length self.old.blocks }
        requires data { kind_of (block_at self.old.blocks at) ≡ Data }
        requires some { 0 < length piece.now }
        requires fits { load self.old.blocks + length piece.now ≤ self.old.size }
        ensures blocks { self.new.blocks ≡ slice_set self.old.blocks at (DataBlock (value_of (block_at self.old.blocks at) ++ piece.now)) }
        ensures size { self.new.size ≡ self.old.size }
        ensures addrs { self.new.addrs ≡ (extended self.old at (slice_index self.old.addrs at + payload_len (block_at self.old.blocks at)) (length piece.now)).addrs }
        ensures front { self.new.front ≡ (extended self.old at (slice_index self.old.addrs at + payload_len (block_at self.old.blocks at)) (length piece.now)).front }
    {
        self.array.extend(at, piece);
    }

    /// Drops the first bytes of data, and not all.
    pub(super) fn cut(&mut self, at: u32, n: u32)
        requires within { at < length self.old.blocks }
        requires kind { kind_of (block_at self.old.blocks at) ≡ Data }
        requires part { n < length (value_of (block_at self.old.blocks at)) }
        ensures blocks { self.new.blocks ≡ slice_set self.old.blocks at (DataBlock (drop n (value_of (block_at self.old.blocks at)))) }
        ensures size { self.new.size ≡ self.old.size }
        ensures addrs { self.new.addrs ≡ slice_set self.old.addrs at (slice_index self.old.addrs at + n) }
        ensures front { self.new.front ≡ self.old.front }
    {
        self.array.cut(at, n);
    }

    /// A block, to be put into another arena.
    pub(super) fn copy(&self, at: u32) -> NewBlock<'_>
        requires { at < length self.now.blocks }
        ensures { result ≡ block_at self.now.blocks at }
    {
        self.array.copy(at)
    }
}
