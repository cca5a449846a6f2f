//! The headers that frame a message or speak of its connection.
ghost use Rattle.std.specs.Prelude.{◌≡◌, ◌<◌, length};
ghost use Rattle.htx_arena.specs.Blocks.{block_at};
ghost use Rattle.header_ops.specs.Headers.{is_framing_header};

use http_model::is_framing_name;
use htx_arena::{Arena, Kind};

/// Whether the block at an index is a header of a name that frames a message or speaks of its connection.
#[inline(always)]
pub fn is_framing(msg: &Arena, at: u32) -> bool
    requires { at < length msg.now.blocks }
    ensures { result ≡ is_framing_header (block_at msg.now.blocks at) }
{
    match msg.kind(at) {
        Kind::Header => is_framing_name(msg.name(at)),
        _ => false,
    }
}
