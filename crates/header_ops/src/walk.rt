//! The values of the headers of a name, one after another.
ghost use Rattle.std.specs.Prelude.{◌≡◌, ◌<◌, ◌∷◌, [], length, drop, ℕ, List, MatchOption};
ghost use Rattle.http_model.specs.Block.{Block};
ghost use Rattle.htx_arena.specs.Blocks.{block_at};
ghost use Rattle.header_ops.specs.Lists.{fulls_named, values_named};
ghost use Rattle.header_ops.specs.Walk.{values_at, values_left};

use crate::names::named_value;
use htx_arena::Arena;
use px_bytes::first_value;

/// Where the values of a name go on: at a block, and in its value at a byte.
#[derive(Clone, Copy)]
pub struct ValuePlace {
    pub at: u32,
    pub within: usize,
}

/// The place of the first value, whatever the name and the message.
pub fn first_place() -> ValuePlace
    ensures first { result.at ≡ 0 }
    ensures whole { (name : List ℕ) (blocks : List Block) → values_left name blocks result ≡ values_named name blocks }
{
    ValuePlace { at: 0, within: 0 }
}

/// The first value of a block from a byte on, and the byte where the next one begins.
#[tactic(auto, using(crate::proofs::Walking::walking))]
fn value_from<'a>(msg: &'a Arena, at: u32, name: &[u8], within: usize) -> Option<(&'a [u8], usize)>
    requires { at < length msg.now.blocks }
    ensures { MatchOption result
        (values_at name.now (block_at msg.now.blocks at) within ≡ [])
        (λ found. values_at name.now (block_at msg.now.blocks at) within ≡ found.0.now ∷ values_at name.now (block_at msg.now.blocks at) found.1) }
{
    let field = named_value(msg, at, name)?;
    if within > field.len() {
        return None;
    }
    let (value, len) = first_value(&field[within..]);
    Some((value, within + len))
}

/// The value at a place, and the place of the next one. A walk from the first place on goes over the message once.
pub fn next_value<'a>(
    msg: &'a Arena,
    name: &[u8],
    place: ValuePlace,
) -> Option<(&'a [u8], ValuePlace)>
    ensures { MatchOption result
        (values_left name.now msg.now.blocks place ≡ [])
        (λ found. values_left name.now msg.now.blocks place ≡ found.0.now ∷ values_left name.now msg.now.blocks found.1) }
{
    let mut within = place.within;
    for at in place.at..msg.len() {
        match value_from(msg, at, name, within) {
            Some((value, behind)) => return Some((value, ValuePlace { at, within: behind })),
            None => within = 0,
        }
    }
    None
}

/// The whole value of the first header of this name from a block on, and the block behind it.
pub fn next_full<'a>(msg: &'a Arena, name: &[u8], from: u32) -> Option<(&'a [u8], u32)>
    ensures { MatchOption result
        (fulls_named name.now (drop from msg.now.blocks) ≡ [])
        (λ found. fulls_named name.now (drop from msg.now.blocks) ≡ found.0.now ∷ fulls_named name.now (drop found.1 msg.now.blocks)) }
{
    for at in from..msg.len() {
        match named_value(msg, at, name) {
            Some(value) => return Some((value, at + 1)),
            None => {}
        }
    }
    None
}
