//! Blocks at the two ends of an arena, as a transfer takes and puts them.
ghost use Rattle.std.specs.Prelude.{◌≡◌, ◌<◌, ◌≤◌, ◌↔◌, [], ◌∷◌, ◌++◌, length, drop, OnOk, OnErr, IsOk};
ghost use Rattle.htx_model.specs.Block.{payload_len};
ghost use Rattle.htx_model.specs.Blocks.{Fits, block_at};
ghost use Rattle.htx_arena.specs.Layout.Addresses.{inserted, dropped};

use crate::arena::{Arena, Full};

impl Arena {
    /// How many bytes the payload of a block has: at least one.
    pub fn payload_len(&self, at: u32) -> u32
        requires { at < length self.now.blocks }
        ensures len { result ≡ payload_len (block_at self.now.blocks at) }
        ensures some { 0 < result }
    {
        self.array.payload_len(at)
    }

    /// Puts a copy of a block of another arena behind the others.
    pub fn add_copy(&mut self, from: &Arena, at: u32) -> Result<(), Full>
        requires { at < length from.now.blocks }
        ensures ok { OnOk result (self.new.blocks ≡ self.old.blocks ++ block_at from.now.blocks at ∷ []) }
        ensures fits { IsOk result ↔ Fits (self.old.blocks ++ block_at from.now.blocks at ∷ []) self.old.size }
        ensures full { OnErr result (self.new ≡ self.old) }
        ensures size { self.new.size ≡ self.old.size }
        ensures addrs { OnOk result (self.new.addrs ≡ (inserted self.old (length self.old.blocks) (payload_len (block_at from.now.blocks at))).addrs) }
        ensures front { OnOk result (self.new.front ≡ (inserted self.old (length self.old.blocks) (payload_len (block_at from.now.blocks at))).front) }
    {
        let block = from.copy(at);
        if 8 + block.len() as usize > self.free() {
            return Err(Full);
        }
        self.put(self.len(), &block);
        Ok(())
    }

    /// Drops the first blocks, in one move of the descriptors behind them.
    pub fn drop_first(&mut self, n: u32)
        requires { n ≤ length self.old.blocks }
        ensures blocks { self.new.blocks ≡ drop n self.old.blocks }
        ensures size { self.new.size ≡ self.old.size }
        ensures addrs { self.new.addrs ≡ (dropped self.old n).addrs }
        ensures front { self.new.front ≡ (dropped self.old n).front }
    {
        self.array.drop_first(n);
    }
}
