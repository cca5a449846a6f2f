//! The header fields of an array in turn, each with the index of its block. Trailers and other blocks are passed over.
ghost use Rattle.std.specs.Prelude.{◌≡◌, ◌+◌, ◌<◌, [], ◌∷◌, ◌^◌, length, IfSome, MatchOption};
ghost use Rattle.std.specs.Iterator.{YieldsFirstBy, item_count};
ghost use Rattle.htx_model.specs.Block.{kind_of, name_of, value_of};
ghost use Rattle.htx_model.specs.Blocks.{block_at};
ghost use Rattle.htx_model.specs.declared.Kind.TheVariants.{Header};
ghost use Rattle.htx_arena.specs.Fields.{fields_of, fields_after, seen};

use crate::Arena;
use htx_model::Kind;
use std::marker::Model;

/// The headers in turn, each with its index.
pub struct Fields<'a> {
    arena: &'a Arena,
    at: u32,
}

impl Drop for Fields<'_> {
    fn drop(self) {
        let Fields { arena: _, at: _ } = self;
    }
}

impl<'a> Model for Fields<'a> {
    ghost use Rattle.std.specs.Prelude.{List, ℕ};
    ghost use Rattle.htx_arena.specs.Fields.{fields_after};

    ghost Value = { List (ℕ × List ℕ × List ℕ) };

    ghost view = { λ f. fields_after f.arena.now.blocks f.at };
}

impl Arena {
    /// The headers in turn.
    pub fn fields(&self) -> Fields<'_>
        ensures fields { result ≡ fields_of self.now.blocks }
        ensures few { length (fields_of self.now.blocks) < 2 ^ 32 }
    {
        let _count = self.len();
        Fields { arena: self, at: 0 }
    }
}

/// The first header from an index on.
fn header_from(arena: &Arena, from: u32) -> Option<u32>
    ensures small { IfSome result (λ i. i + 1 < 2 ^ 32) }
    ensures next { MatchOption result
        (fields_after arena.now.blocks from ≡ [])
        (λ i. (i < length arena.now.blocks) × (kind_of (block_at arena.now.blocks i) ≡ Header)
        × (fields_after arena.now.blocks from ≡ (i, name_of (block_at arena.now.blocks i), value_of (block_at arena.now.blocks i)) ∷ fields_after arena.now.blocks (i + 1))) }
{
    let mut at = from;
    while at < arena.len() {
        if arena.kind(at) == Kind::Header {
            return Some(at);
        }
        at += 1;
    }
    None
}

impl<'a> Iterator for Fields<'a> {
    type Item = (u32, &'a [u8], &'a [u8]);

    ghost next_gives = { YieldsFirstBy seen (λ f. f) };

    ghost remaining = { item_count (λ f. f) };

    fn next(&mut self) -> Option<(u32, &'a [u8], &'a [u8])> {
        let arena = self.arena;
        match header_from(arena, self.at) {
            Some(at) => {
                self.at = at + 1;
                Some((at, arena.name(at), arena.value(at)))
            }
            None => None,
        }
    }
}
