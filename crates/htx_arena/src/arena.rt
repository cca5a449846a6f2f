//! The array of blocks as its callers see it: what it weighs, its room, and what each block is. It knows no rule of placement: blocks, addresses
//! and `front` are those of the laid-out array below it.
ghost use Rattle.std.specs.Prelude.{◌≡◌, ◌+◌, ◌<◌, ◌≤◌, [], length, slice_index, IfOk};
ghost use Rattle.htx_model.specs.Block.{kind_of};
ghost use Rattle.htx_model.specs.Blocks.{load, block_at};
ghost use Rattle.htx_arena.specs.Layout.Held.{held, blocks_of};

mod cut;
mod data;
mod front;
mod insert;
mod lend;
mod replace;
mod steps;

use crate::layout::Array;
use htx_model::{Kind, OutOfMemory};
use std::alloc::Global;
use std::marker::Model;

/// The change would not fit.
#[derive(Clone, Copy)]
pub struct Full;

/// The parts of a start line.
#[derive(Clone, Copy)]
pub struct Line<'a> {
    pub a: &'a [u8],
    pub b: &'a [u8],
    pub c: &'a [u8],
}

/// Blocks of at most a size, in an array of bytes that is taken once.
pub struct Arena {
    array: Array,
}

impl Drop for Arena {
    fn drop(self) {
        let Arena { array: _ } = self;
    }
}

impl Model for Arena {
    ghost use Rattle.htx_arena.specs.Layout.Contents.{Contents};

    ghost Value = { Contents };

    ghost view = { λ a. a.array };
}

impl Arena {
    /// An empty list. This call alone takes memory.
    pub fn new(alloc: Global, size: u32) -> Result<Self, OutOfMemory>
        requires least { 1024 ≤ size }
        requires most { size ≤ 262144 }
        ensures size { IfOk result (λ arena. arena.size ≡ size) }
        ensures empty { IfOk result (λ arena. arena.blocks ≡ []) }
        ensures addrs { IfOk result (λ arena. arena.addrs ≡ []) }
        ensures front { IfOk result (λ arena. arena.front ≡ 0) }
    {
        Ok(Arena {
            array: Array::new(alloc, size)?,
        })
    }

    /// An empty list in bytes that are there.
    pub(crate) fn over(bytes: Vec<u8>) -> Self
        requires { length bytes.items ≤ 262144 }
        ensures size { result.size ≡ length bytes.items }
        ensures empty { result.blocks ≡ [] }
        ensures addrs { result.addrs ≡ [] }
        ensures front { result.front ≡ 0 }
    {
        Arena {
            array: Array::over(bytes),
        }
    }

    /// How many blocks there are.
    pub fn len(&self) -> u32
        ensures { result ≡ length self.now.blocks }
    {
        self.array.len()
    }

    /// What the blocks weigh, in bytes.
    pub fn load(&self) -> u32
        ensures { result ≡ load self.now.blocks }
    {
        self.array.load()
    }

    /// How many bytes more the blocks may weigh.
    pub fn room(&self) -> u32
        ensures { result + load self.now.blocks ≡ self.now.size }
    {
        self.array.room()
    }

    /// The same, for lengths.
    fn free(&self) -> usize
        ensures room { result + load self.now.blocks ≡ self.now.size }
        ensures small { self.now.size ≤ 262144 }
    {
        self.array.room() as usize
    }

    /// The type of a block.
    pub fn kind(&self, at: u32) -> Kind
        requires { at < length self.now.blocks }
        ensures { result ≡ kind_of (block_at self.now.blocks at) }
    {
        self.array.kind(at)
    }

    /// Where the payload of a block stands in the array.
    pub fn addr(&self, at: u32) -> u32
        requires { at < length self.now.blocks }
        ensures { result ≡ slice_index self.now.addrs at }
    {
        self.array.addr(at)
    }

    /// The whole array: payloads, and descriptors from its end.
    pub fn raw(&self) -> &[u8]
        ensures held { held result.now self.now.blocks self.now.addrs }
        ensures size { length result.now ≡ self.now.size }
        ensures gives_back { blocks_of result.now (length self.now.blocks) ≡ self.now.blocks }
    {
        self.array.raw()
    }
}
