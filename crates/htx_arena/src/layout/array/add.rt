//! A block put into the laid-out array, by the rule of placement. The caller has made sure that it fits.
ghost use Rattle.std.specs.Prelude.{◌≡◌, ◌+◌, ◌≤◌, length, insert};
ghost use Rattle.htx_model.specs.Block.{payload_len};
ghost use Rattle.htx_model.specs.Blocks.{load};
ghost use Rattle.htx_arena.specs.Layout.Addresses.{inserted};

use crate::layout::array::Array;
use crate::layout::new_block::NewBlock;
use crate::layout::sites;

#[tactic(auto, using(crate::proofs::LayoutLemmas::WholeLemmas::wholes))]
impl Array {
    /// Puts in a block.
    #[inline(always)]
    pub fn add(&mut self, at: u32, new: &NewBlock<'_>)
        requires within { at ≤ length self.old.blocks }
        requires fits { load self.old.blocks + 8 + payload_len new.now ≤ self.old.size }
        ensures blocks { self.new.blocks ≡ insert self.old.blocks at new.now }
        ensures size { self.new.size ≡ self.old.size }
        ensures addrs { self.new.addrs ≡ (inserted self.old at (payload_len new.now)).addrs }
        ensures front { self.new.front ≡ (inserted self.old at (payload_len new.now)).front }
    {
        self.ends = sites::add(&mut self.space, self.count, self.ends, at, new);
        self.count += 1;
        self.load += 8 + new.len();
    }
}
