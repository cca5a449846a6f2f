//! Header fields by name.
ghost use Rattle.std.specs.Prelude.{◌≡◌, ◌<◌, length, true, false, MatchOption};
ghost use Rattle.std.specs.List.{list_any};
ghost use Rattle.http_model.specs.Block.{value_of};
ghost use Rattle.htx_arena.specs.Blocks.{block_at};
ghost use Rattle.header_ops.specs.Headers.{is_header_named};

use htx_arena::{Arena, Kind};
use px_bytes::eq_fold;

/// Whether the block at an index is a header of this name.
#[inline(always)]
pub fn is_named(msg: &Arena, at: u32, name: &[u8]) -> bool
    requires { at < length msg.now.blocks }
    ensures { result ≡ is_header_named name.now (block_at msg.now.blocks at) }
{
    match msg.kind(at) {
        Kind::Header => eq_fold(msg.name(at), name),
        _ => false,
    }
}

/// The value of the block at an index, where it is a header of this name.
#[inline(always)]
pub fn named_value<'a>(msg: &'a Arena, at: u32, name: &[u8]) -> Option<&'a [u8]>
    requires { at < length msg.now.blocks }
    ensures { MatchOption result
        (is_header_named name.now (block_at msg.now.blocks at) ≡ false)
        (λ value. (is_header_named name.now (block_at msg.now.blocks at) ≡ true) × (value.now ≡ value_of (block_at msg.now.blocks at))) }
{
    match msg.kind(at) {
        Kind::Header => {
            if eq_fold(msg.name(at), name) {
                Some(msg.value(at))
            } else {
                None
            }
        }
        _ => None,
    }
}

/// Whether a header has this name, without regard to case.
pub fn has_named(msg: &Arena, name: &[u8]) -> bool
    ensures { result ≡ list_any (is_header_named name.now) msg.now.blocks }
{
    for at in 0..msg.len() {
        if is_named(msg, at, name) {
            return true;
        }
    }
    false
}
