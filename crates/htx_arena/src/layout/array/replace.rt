//! Other bytes in a block of the laid-out array, or more of them: written where the payload stands if there is room, else placed anew.
//! The caller has made sure that they fit.
ghost use Rattle.std.specs.Prelude.{◌≡◌, ◌+◌, ◌<◌, ◌≤◌, ◌++◌, Some, length, take, slice_index, slice_set};
ghost use Rattle.htx_model.specs.Block.{Data as DataBlock};
ghost use Rattle.htx_model.specs.Block.{kind_of, name_of, value_of, payload_len, with_value, IsFieldKind};
ghost use Rattle.htx_model.specs.Blocks.{load, block_at};
ghost use Rattle.htx_model.specs.declared.Kind.TheVariants.{Data};
ghost use Rattle.htx_arena.specs.Layout.Raw.{block_of, info_len, payload_of, Tells};
ghost use Rattle.htx_arena.specs.Layout.Place.{stays};
ghost use Rattle.htx_arena.specs.Layout.Addresses.{replaced, placed_anew, extended};

use crate::layout::array::Array;
use crate::layout::change;
use crate::layout::longer::{self, Longer};
use crate::layout::new_block::NewBlock;
use crate::layout::payload::Payload;
use crate::layout::scan::{self, Spot};
use crate::layout::words::Info;

#[tactic(auto, using(crate::proofs::LayoutLemmas::WholeLemmas::wholes))]
impl Array {
    /// Puts another block in the place of one.
    pub fn replace(&mut self, at: u32, new: &NewBlock<'_>)
        requires within { at < length self.old.blocks }
        requires fits { load self.old.blocks + payload_len new.now ≤ self.old.size + payload_len (block_at self.old.blocks at) }
        ensures blocks { self.new.blocks ≡ slice_set self.old.blocks at new.now }
        ensures size { self.new.size ≡ self.old.size }
        ensures addrs { self.new.addrs ≡ (replaced self.old at (payload_len new.now)).addrs }
        ensures front { self.new.front ≡ (replaced self.old at (payload_len new.now)).front }
    {
        if new.len() <= self.payload_len(at) {
            self.rewrite(at, 0, new.info(), new.payload());
            return;
        }
        self.unlist(at);
        self.add(at, new);
    }

    /// Gives a field another value.
    pub fn replace_value(&mut self, at: u32, value: &[u8])
        requires within { at < length self.old.blocks }
        requires field { IsFieldKind (kind_of (block_at self.old.blocks at)) }
        requires fits { load self.old.blocks + length value.now ≤ self.old.size + length (value_of (block_at self.old.blocks at)) }
        ensures blocks { self.new.blocks ≡ slice_set self.old.blocks at (with_value (block_at self.old.blocks at) value.now) }
        ensures size { self.new.size ≡ self.old.size }
        ensures addrs { self.new.addrs ≡ (replaced self.old at (length (name_of (block_at self.old.blocks at)) + length value.now)).addrs }
        ensures front { self.new.front ≡ (replaced self.old at (length (name_of (block_at self.old.blocks at)) + length value.now)).front }
    {
        let old = self.info(at);
        let kind = old.kind();
        let name = old.name_len();
        let len = value.len() as u32;
        let info = Info::field(kind, name, len);
        if name + len <= self.payload_len(at) {
            self.rewrite(at, name, info, &Payload::one(value));
            return;
        }
        let kept = Info::field(kind, name, 0);
        self.extend_anew(at, kept, info, value);
    }

    /// Puts more bytes behind those of data: where it stands, or placed anew.
    pub fn extend(&mut self, at: u32, piece: &[u8])
        requires within { at < length self.old.blocks }
        requires data { kind_of (block_at self.old.blocks at) ≡ Data }
        requires some { 0 < length piece.now }
        requires fits { load self.old.blocks + length piece.now ≤ self.old.size }
        ensures blocks { self.new.blocks ≡ slice_set self.old.blocks at (DataBlock (value_of (block_at self.old.blocks at) ++ piece.now)) }
        ensures size { self.new.size ≡ self.old.size }
        ensures addrs { self.new.addrs ≡ (extended self.old at (slice_index self.old.addrs at + payload_len (block_at self.old.blocks at)) (length piece.now)).addrs }
        ensures front { self.new.front ≡ (extended self.old at (slice_index self.old.addrs at + payload_len (block_at self.old.blocks at)) (length piece.now)).front }
    {
        self.look_behind(at);
        self.extend_within(at, piece);
    }

    /// Keeps the least address behind `front` where a payload that ends there asks for it, so that it isn't looked for again
    /// where the payload is placed anew.
    fn look_behind(&mut self, at: u32)
        requires { at < length self.old.blocks }
        ensures { self.new ≡ self.old }
    {
        if scan::end_at(&self.space, self.count, at) == self.ends.front {
            self.ends.low = scan::low_of(&self.space, self.count, self.ends);
        }
    }

    /// Puts more bytes behind those of data: where it stands, or placed anew.
    fn extend_within(&mut self, at: u32, piece: &[u8])
        requires within { at < length self.old.blocks }
        requires data { kind_of (block_at self.old.blocks at) ≡ Data }
        requires some { 0 < length piece.now }
        requires fits { load self.old.blocks + length piece.now ≤ self.old.size }
        ensures blocks { self.new.blocks ≡ slice_set self.old.blocks at (DataBlock (value_of (block_at self.old.blocks at) ++ piece.now)) }
        ensures size { self.new.size ≡ self.old.size }
        ensures addrs { self.new.addrs ≡ (extended self.old at (slice_index self.old.addrs at + payload_len (block_at self.old.blocks at)) (length piece.now)).addrs }
        ensures front { self.new.front ≡ (extended self.old at (slice_index self.old.addrs at + payload_len (block_at self.old.blocks at)) (length piece.now)).front }
    {
        let old = self.info(at);
        let len = piece.len() as u32;
        let info = Info(old.0 + len);
        match scan::room_behind(&self.space, self.count, self.ends, at, len) {
            Some(front) => self.extend_here(at, front, info, piece),
            None => self.extend_anew(at, old, info, piece),
        }
    }

    /// Writes more bytes behind a payload where it stands.
    fn extend_here(&mut self, at: u32, front: u32, info: Info, piece: &[u8])
        requires within { at < length self.old.blocks }
        requires stays { stays self.old.size self.old.blocks self.old.addrs self.old.front (slice_index self.old.addrs at + payload_len (block_at self.old.blocks at)) (length piece.now) ≡ Some front }
        requires len { info_len info.0 ≡ payload_len (block_at self.old.blocks at) + length piece.now }
        requires tells { Tells info.0 (payload_of (block_at self.old.blocks at) ++ piece.now) }
        requires fits { load self.old.blocks + length piece.now ≤ self.old.size }
        ensures blocks { self.new.blocks ≡ slice_set self.old.blocks at (block_of info.0 (payload_of (block_at self.old.blocks at) ++ piece.now)) }
        ensures size { self.new.size ≡ self.old.size }
        ensures addrs { self.new.addrs ≡ self.old.addrs }
        ensures front { self.new.front ≡ front }
    {
        let own = self.space.descriptor(at);
        let keep = self.payload_len(at);
        let more = Payload::one(piece);
        change::rewrite(&mut self.space, self.count, at, keep, info, &more);
        let spot = Spot {
            addr: own.addr,
            front,
        };
        self.ends = scan::ends_with(self.ends, spot, info.payload_len());
        self.load += piece.len() as u32;
    }

    /// Writes bytes behind the first ones of a payload, which becomes no longer.
    fn rewrite(&mut self, at: u32, keep: u32, info: Info, more: &Payload<'_>)
        requires within { at < length self.old.blocks }
        requires shorter { keep + length more.now ≤ payload_len (block_at self.old.blocks at) }
        requires some { 0 < keep + length more.now }
        requires len { info_len info.0 ≡ keep + length more.now }
        requires tells { Tells info.0 (take keep (payload_of (block_at self.old.blocks at)) ++ more.now) }
        ensures blocks { self.new.blocks ≡ slice_set self.old.blocks at (block_of info.0 (take keep (payload_of (block_at self.old.blocks at)) ++ more.now)) }
        ensures size { self.new.size ≡ self.old.size }
        ensures addrs { self.new.addrs ≡ self.old.addrs }
        ensures front { self.new.front ≡ self.old.front }
    {
        let len = self.payload_len(at);
        let end = scan::end_at(&self.space, self.count, at);
        let gone = len - keep - more.len();
        change::rewrite(&mut self.space, self.count, at, keep, info, more);
        self.ends = scan::ends_behind(&self.space, self.count, self.ends, end);
        self.load -= gone;
    }

    /// Places a longer payload: its block's first bytes, as many as `kept` tells, and others.
    fn extend_anew(&mut self, at: u32, kept: Info, info: Info, more: &[u8])
        requires within { at < length self.old.blocks }
        requires some { 0 < info_len kept.0 }
        requires part { info_len kept.0 ≤ payload_len (block_at self.old.blocks at) }
        requires longer { payload_len (block_at self.old.blocks at) ≤ info_len kept.0 + length more.now }
        requires kept_tells { Tells kept.0 (take (info_len kept.0) (payload_of (block_at self.old.blocks at))) }
        requires len { info_len info.0 ≡ info_len kept.0 + length more.now }
        requires tells { Tells info.0 (take (info_len kept.0) (payload_of (block_at self.old.blocks at)) ++ more.now) }
        requires fits { load self.old.blocks + info_len info.0 ≤ self.old.size + payload_len (block_at self.old.blocks at) }
        ensures blocks { self.new.blocks ≡ slice_set self.old.blocks at (block_of info.0 (take (info_len kept.0) (payload_of (block_at self.old.blocks at)) ++ more.now)) }
        ensures size { self.new.size ≡ self.old.size }
        ensures addrs { self.new.addrs ≡ (placed_anew self.old at (info_len info.0)).addrs }
        ensures front { self.new.front ≡ (placed_anew self.old at (info_len info.0)).front }
    {
        let added = info.payload_len() - self.payload_len(at);
        let from = self.space.descriptor(at).addr;
        let new = Longer {
            from,
            kept,
            info,
            more,
        };
        self.ends = longer::extend(&mut self.space, self.count, self.ends, at, new);
        self.load += added;
    }
}
