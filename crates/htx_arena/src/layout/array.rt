//! The laid-out array as its callers see it: blocks, addresses and `front`, whatever its bytes are.
ghost use Rattle.std.specs.Prelude.{◌≡◌, ◌+◌, ◌<◌, ◌≤◌, [], length, slice_index, IfOk};
ghost use Rattle.htx_model.specs.Block.{kind_of, payload_len};
ghost use Rattle.htx_model.specs.Blocks.{load, block_at};
ghost use Rattle.htx_arena.specs.Layout.Held.{held, blocks_of};
ghost use Rattle.htx_arena.specs.Layout.Raw.{Describes};

mod add;
mod cut;
mod lend;
mod replace;

use crate::layout::scan::Ends;
use crate::layout::words::Info;
use crate::space::Space;
use htx_model::{Kind, OutOfMemory};
use std::alloc::Global;
use std::marker::Model;

/// Blocks in an array of bytes that is taken once. Their load and the ends of the bytes in use are kept.
pub struct Array {
    space: Space,
    count: u32,
    load: u32,
    ends: Ends,
}

impl Drop for Array {
    fn drop(self) {
        let Array {
            space: _,
            count: _,
            load: _,
            ends: _,
        } = self;
    }
}

impl Model for Array {
    ghost use Rattle.std.specs.Prelude.{length};
    ghost use Rattle.htx_arena.specs.Layout.Contents.{Contents};
    ghost use Rattle.htx_arena.specs.Layout.Raw.{blocks_of as listed_blocks, addrs_of};
    ghost use Rattle.htx_arena.specs.Layout.Whole.{IsWhole};

    ghost Value = { Contents };

    ghost view = { λ a. record { size = length a.space; blocks = listed_blocks a.space a.count; addrs = addrs_of a.space a.count; front = a.ends.front } };

    ghost invariant = { IsWhole };
}

#[tactic(auto, using(crate::proofs::LayoutLemmas::WholeLemmas::wholes))]
impl Array {
    /// No blocks. This call alone takes memory.
    pub fn new(alloc: Global, size: u32) -> Result<Self, OutOfMemory>
        requires least { 1024 ≤ size }
        requires most { size ≤ 262144 }
        ensures size { IfOk result (λ array. array.size ≡ size) }
        ensures empty { IfOk result (λ array. array.blocks ≡ []) }
        ensures addrs { IfOk result (λ array. array.addrs ≡ []) }
        ensures front { IfOk result (λ array. array.front ≡ 0) }
    {
        Ok(Array::with(Space::new(alloc, size)?))
    }

    /// No blocks, over bytes that are there.
    pub(crate) fn over(bytes: Vec<u8>) -> Self
        requires { length bytes.items ≤ 262144 }
        ensures size { result.size ≡ length bytes.items }
        ensures empty { result.blocks ≡ [] }
        ensures addrs { result.addrs ≡ [] }
        ensures front { result.front ≡ 0 }
    {
        Array::with(Space::over(bytes))
    }

    /// No blocks, in this space.
    fn with(space: Space) -> Self
        ensures size { result.size ≡ length space }
        ensures empty { result.blocks ≡ [] }
        ensures addrs { result.addrs ≡ [] }
        ensures front { result.front ≡ 0 }
    {
        Array {
            space,
            count: 0,
            load: 0,
            ends: Ends {
                front: 0,
                top: 0,
                low: None,
            },
        }
    }

    /// How many blocks there are.
    pub fn len(&self) -> u32
        ensures { result ≡ length self.now.blocks }
    {
        self.count
    }

    /// What the blocks weigh, in bytes.
    pub fn load(&self) -> u32
        ensures { result ≡ load self.now.blocks }
    {
        self.load
    }

    /// How many bytes more the blocks may weigh.
    pub fn room(&self) -> u32
        ensures room { result + load self.now.blocks ≡ self.now.size }
        ensures small { self.now.size ≤ 262144 }
    {
        self.space.size() - self.load
    }

    /// The type of a block.
    pub fn kind(&self, at: u32) -> Kind
        requires { at < length self.now.blocks }
        ensures { result ≡ kind_of (block_at self.now.blocks at) }
    {
        self.info(at).kind()
    }

    /// Where the payload of a block stands.
    pub fn addr(&self, at: u32) -> u32
        requires { at < length self.now.blocks }
        ensures { result ≡ slice_index self.now.addrs at }
    {
        self.space.descriptor(at).addr
    }

    /// How many bytes the payload of a block has: at least one.
    pub fn payload_len(&self, at: u32) -> u32
        requires { at < length self.now.blocks }
        ensures len { result ≡ payload_len (block_at self.now.blocks at) }
        ensures some { 0 < result }
    {
        Info(self.space.descriptor(at).info).payload_len()
    }

    /// The info word of a block.
    fn info(&self, at: u32) -> Info
        requires { at < length self.now.blocks }
        ensures is { Describes result.0 (block_at self.now.blocks at) }
        ensures small { self.now.size ≤ 262144 }
    {
        Info(self.space.descriptor(at).info)
    }

    /// The whole array: payloads, and descriptors from its end.
    pub fn raw(&self) -> &[u8]
        ensures held { held result.now self.now.blocks self.now.addrs }
        ensures size { length result.now ≡ self.now.size }
        ensures gives_back { blocks_of result.now (length self.now.blocks) ≡ self.now.blocks }
    {
        self.space.bytes()
    }
}
