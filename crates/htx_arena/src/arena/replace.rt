//! Other text in a block: a field's value, or the parts of a start line, exactly where the list with it fits, else nothing changes.
ghost use Rattle.std.specs.Prelude.{◌≡◌, ◌+◌, ◌<◌, ◌↔◌, length, slice_set, OnOk, OnErr, IsOk};
ghost use Rattle.htx_model.specs.Block.{block, kind_of, name_of, with_value, IsLineKind, IsFieldKind};
ghost use Rattle.htx_model.specs.Blocks.{Fits, block_at};
ghost use Rattle.htx_arena.specs.Layout.Addresses.{replaced};

use crate::arena::{Arena, Full};
use crate::layout::{NewBlock, line_head};

impl Arena {
    /// Gives a field another value.
    pub fn replace_value(&mut self, at: u32, value: &[u8]) -> Result<(), Full>
        requires within { at < length self.old.blocks }
        requires field { IsFieldKind (kind_of (block_at self.old.blocks at)) }
        ensures ok { OnOk result (self.new.blocks ≡ slice_set self.old.blocks at (with_value (block_at self.old.blocks at) value.now)) }
        ensures fits { IsOk result ↔ Fits (slice_set self.old.blocks at (with_value (block_at self.old.blocks at) value.now)) self.old.size }
        ensures full { OnErr result (self.new ≡ self.old) }
        ensures size { self.new.size ≡ self.old.size }
        ensures addrs { OnOk result (self.new.addrs ≡ (replaced self.old at (length (name_of (block_at self.old.blocks at)) + length value.now)).addrs) }
        ensures front { OnOk result (self.new.front ≡ (replaced self.old at (length (name_of (block_at self.old.blocks at)) + length value.now)).front) }
    {
        if value.len() > self.free() + self.value(at).len() {
            return Err(Full);
        }
        self.set_value(at, value);
        Ok(())
    }

    /// Gives a start line other parts.
    pub fn replace_line(&mut self, at: u32, a: &[u8], b: &[u8], c: &[u8]) -> Result<(), Full>
        requires within { at < length self.old.blocks }
        requires line { IsLineKind (kind_of (block_at self.old.blocks at)) }
        ensures ok { OnOk result (self.new.blocks ≡ slice_set self.old.blocks at (block (kind_of (block_at self.old.blocks at)) a.now b.now c.now)) }
        ensures fits { IsOk result ↔ Fits (slice_set self.old.blocks at (block (kind_of (block_at self.old.blocks at)) a.now b.now c.now)) self.old.size }
        ensures full { OnErr result (self.new ≡ self.old) }
        ensures size { self.new.size ≡ self.old.size }
        ensures addrs { OnOk result (self.new.addrs ≡ (replaced self.old at (12 + length a.now + length b.now + length c.now)).addrs) }
        ensures front { OnOk result (self.new.front ≡ (replaced self.old at (12 + length a.now + length b.now + length c.now)).front) }
    {
        let most = self.free() + self.payload_len(at) as usize;
        if a.len() > most || b.len() > most || c.len() > most {
            return Err(Full);
        }
        let len = 12 + a.len() + b.len() + c.len();
        if len > most {
            return Err(Full);
        }
        let head = line_head(a.len() as u32, b.len() as u32, c.len() as u32);
        let line = NewBlock::line(self.kind(at), &head, a, b, c);
        self.set(at, &line);
        Ok(())
    }
}
