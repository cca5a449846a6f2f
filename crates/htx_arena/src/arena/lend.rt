//! The parts of a block, lent: name, value, the parts of a start line; and a value for writing, which keeps its length.
ghost use Rattle.std.specs.Prelude.{◌≡◌, ◌<◌, length};
ghost use Rattle.htx_model.specs.Block.{kind_of, name_of, value_of, line_of, HasValue, IsLineKind, IsFieldKind};
ghost use Rattle.htx_model.specs.Blocks.{block_at};

use crate::arena::{Arena, Line};

impl Arena {
    ghost use Rattle.std.specs.Borrow.{sem};
    ghost use Rattle.std.specs.Prelude.{ℕ, List, slice_set};
    ghost use Rattle.htx_model.specs.Block.{with_value};
    ghost use Rattle.htx_arena.specs.Layout.Written.{written};
    ghost use Rattle.htx_arena.specs.Lending.{LendsValue};

    /// The name of a field.
    pub fn name(&self, at: u32) -> &[u8]
        requires within { at < length self.now.blocks }
        requires field { IsFieldKind (kind_of (block_at self.now.blocks at)) }
        ensures { result.now ≡ name_of (block_at self.now.blocks at) }
    {
        self.array.name(at)
    }

    /// The value of a field, the bytes of data.
    pub fn value(&self, at: u32) -> &[u8]
        requires within { at < length self.now.blocks }
        requires valued { HasValue (kind_of (block_at self.now.blocks at)) }
        ensures { result.now ≡ value_of (block_at self.now.blocks at) }
    {
        self.array.value(at)
    }

    /// The value of a field or the bytes of data, for writing.
    pub fn value_mut(&mut self, at: u32) -> &mut [u8]
        requires within { at < length self.old.blocks }
        requires valued { HasValue (kind_of (block_at self.old.blocks at)) }
        ensures* written { sem 𝓛 (LendsValue self.entry at result) }
        ensures value { result.now ≡ value_of (block_at self.old.blocks at) }
        ensures same_len { (w : List ℕ) → length w ≡ length (value_of (block_at self.old.blocks at)) → written self.old at w ≡ record self.old { blocks = slice_set self.old.blocks at (with_value (block_at self.old.blocks at) w) } }
    {
        self.array.value_mut(at)
    }

    /// The parts of a start line.
    pub fn line(&self, at: u32) -> Line<'_>
        requires within { at < length self.now.blocks }
        requires line { IsLineKind (kind_of (block_at self.now.blocks at)) }
        ensures { (result.a.now, result.b.now, result.c.now) ≡ line_of (block_at self.now.blocks at) }
    {
        let (a, b, c) = self.array.line(at);
        Line { a, b, c }
    }
}
