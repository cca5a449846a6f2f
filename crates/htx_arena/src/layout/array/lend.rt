//! The parts of a block in the laid-out array, lent; a value for writing; and a block as one that can be put into another array.
ghost use Rattle.std.specs.Prelude.{◌≡◌, ◌<◌, length};
ghost use Rattle.htx_model.specs.Block.{kind_of, name_of, value_of, line_of, HasValue, IsLineKind, IsFieldKind};
ghost use Rattle.htx_model.specs.Blocks.{block_at};

use crate::layout::array::Array;
use crate::layout::new_block::NewBlock;
use crate::layout::{parts, words};

#[tactic(auto, using(crate::proofs::LayoutLemmas::WholeLemmas::wholes))]
impl Array {
    ghost use Rattle.std.specs.Borrow.{sem};
    ghost use Rattle.std.specs.Prelude.{ℕ, List, slice_set};
    ghost use Rattle.htx_model.specs.Block.{with_value};
    ghost use Rattle.htx_arena.specs.Layout.Written.{written};
    ghost use Rattle.htx_arena.specs.Layout.Lending.{LendsValue};

    /// The name of a field.
    pub fn name(&self, at: u32) -> &[u8]
        requires within { at < length self.now.blocks }
        requires field { IsFieldKind (kind_of (block_at self.now.blocks at)) }
        ensures { result.now ≡ name_of (block_at self.now.blocks at) }
    {
        parts::name(&self.space, self.count, at)
    }

    /// The value of a field, the bytes of data.
    pub fn value(&self, at: u32) -> &[u8]
        requires within { at < length self.now.blocks }
        requires valued { HasValue (kind_of (block_at self.now.blocks at)) }
        ensures { result.now ≡ value_of (block_at self.now.blocks at) }
    {
        parts::value(&self.space, self.count, at)
    }

    /// The value of a field or the bytes of data, for writing.
    pub fn value_mut(&mut self, at: u32) -> &mut [u8]
        requires within { at < length self.old.blocks }
        requires valued { HasValue (kind_of (block_at self.old.blocks at)) }
        ensures* written { sem 𝓛 (LendsValue self.entry at result) }
        ensures value { result.now ≡ value_of (block_at self.old.blocks at) }
        ensures same_len { (w : List ℕ) → length w ≡ length (value_of (block_at self.old.blocks at)) → written self.old at w ≡ record self.old { blocks = slice_set self.old.blocks at (with_value (block_at self.old.blocks at) w) } }
    {
        let (start, len) = words::value_place(&self.space, at);
        self.space.window_mut(start, len)
    }

    /// The parts of a start line.
    pub fn line(&self, at: u32) -> (&[u8], &[u8], &[u8])
        requires within { at < length self.now.blocks }
        requires line { IsLineKind (kind_of (block_at self.now.blocks at)) }
        ensures { (result.0.now, result.1.now, result.2.now) ≡ line_of (block_at self.now.blocks at) }
    {
        parts::line(parts::payload(&self.space, self.count, at))
    }

    /// A block, to be put into another array.
    pub fn copy(&self, at: u32) -> NewBlock<'_>
        requires { at < length self.now.blocks }
        ensures { result ≡ block_at self.now.blocks at }
    {
        NewBlock::copied(self.info(at), parts::payload(&self.space, self.count, at))
    }
}
