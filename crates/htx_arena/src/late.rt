//! An arena whose memory is taken when it is made, and written to first when it is first used. So no page of the system stands behind one
//! into which nothing was put.
ghost use Rattle.std.specs.Prelude.{◌≡◌, ◌≤◌, [], length, replicate, vec_capacity, None, Option, IfOk};
ghost use Rattle.htx_arena.specs.Late.{shown_by, Waits};

use crate::arena::Arena;
use htx_model::OutOfMemory;
use std::alloc::Global;
use std::marker::Model;

/// Blocks of at most a size, in an array of bytes that is taken once and left alone until blocks may come. Contracts see it as an `Arena`.
pub struct LateArena {
    size: u32,
    /// The memory, for so many bytes, while nothing was written to it.
    waiting: Option<Vec<u8>>,
    /// The arena in this memory; one without bytes while that waits.
    arena: Arena,
}

impl Drop for LateArena {
    fn drop(self) {
        let LateArena {
            size: _,
            waiting: _,
            arena: _,
        } = self;
    }
}

impl Model for LateArena {
    ghost use Rattle.htx_arena.specs.Layout.Contents.{Contents};
    ghost use Rattle.htx_arena.specs.Late.{shown_by, Waits};

    ghost Value = { Contents };

    ghost view = { λ late. shown_by late.waiting late.size late.arena };

    ghost invariant = { λ late. Waits late.waiting late.size };
}

/// So many zeros, in memory that waits for them.
fn zeros(waiting: Vec<u8>, size: u32) -> Vec<u8>
    requires empty { waiting.items ≡ [] }
    requires room { size ≤ vec_capacity waiting }
    ensures { result.items ≡ replicate size 0 }
{
    let mut bytes = waiting;
    bytes.resize(size as usize, 0).unwrap();
    bytes
}

/// Makes the arena in the memory that waits; nothing where none does.
fn make(waiting: &mut Option<Vec<u8>>, size: u32, arena: &mut Arena)
    requires { Waits waiting.old size }
    ensures made { waiting.new ≡ None }
    ensures arena { arena.new ≡ shown_by waiting.old size arena.old }
{
    let Some(bytes) = waiting.take() else {
        return;
    };
    *arena = Arena::over(zeros(bytes, size));
}

impl LateArena {
    ghost use Rattle.std.specs.Borrow.{sem};
    ghost use Rattle.htx_arena.specs.Lending.{LendsArena};

    /// An empty list. This call alone takes memory, and writes nothing to it.
    pub fn new(alloc: Global, size: u32) -> Result<Self, OutOfMemory>
        requires least { 1024 ≤ size }
        requires most { size ≤ 262144 }
        ensures size { IfOk result (λ arena. arena.size ≡ size) }
        ensures empty { IfOk result (λ arena. arena.blocks ≡ []) }
        ensures addrs { IfOk result (λ arena. arena.addrs ≡ []) }
        ensures front { IfOk result (λ arena. arena.front ≡ 0) }
    {
        Ok(LateArena {
            size,
            waiting: Some(Vec::with_capacity(alloc, size as usize)?),
            arena: Arena::over(Vec::new(alloc)),
        })
    }

    /// The arena, for reading and writing. The first call writes to all of the memory.
    pub fn arena(&mut self) -> &mut Arena
        ensures* back { sem 𝓛 (LendsArena self.entry result) }
        ensures value { result.now ≡ self.old }
    {
        make(&mut self.waiting, self.size, &mut self.arena);
        &mut self.arena
    }

    /// Empties the list.
    pub fn clear(&mut self)
        ensures blocks { self.new.blocks ≡ [] }
        ensures size { self.new.size ≡ self.old.size }
        ensures addrs { self.new.addrs ≡ [] }
        ensures front { self.new.front ≡ 0 }
    {
        self.arena.clear();
    }
}
