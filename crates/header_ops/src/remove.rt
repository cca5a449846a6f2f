//! Removals of headers, each in one pass over the list of blocks.
ghost use Rattle.std.specs.Prelude.{◌≡◌, ◌<◌, length, filter, count_by};
ghost use Rattle.htx_arena.specs.Blocks.{block_at};
ghost use Rattle.header_ops.specs.Headers.{is_header_named, is_framing_header, without_headers, without_framing, HasEnd};
ghost use Rattle.header_ops.specs.Matching.{is_header_matching, without_matching};
ghost use Rattle.header_ops.specs.Removal.{is_taken, without_taken};

use crate::framing::is_framing;
use crate::matching::{NameMatch, is_matching};
use crate::names::is_named;
use htx_arena::Arena;

/// The headers that go.
#[derive(Clone, Copy)]
enum Taken<'a> {
    Named(&'a [u8]),
    Framing,
    Matching(&'a NameMatch<'a>),
}

/// Whether the block at an index is one of the headers that go.
#[inline(always)]
fn is_taken(msg: &Arena, at: u32, taken: &Taken<'_>) -> bool
    requires { at < length msg.now.blocks }
    ensures { result ≡ is_taken taken.now (block_at msg.now.blocks at) }
{
    match taken {
        Taken::Named(name) => is_named(msg, at, name),
        Taken::Framing => is_framing(msg, at),
        Taken::Matching(which) => is_matching(msg, at, which),
    }
}

/// Removes these headers, and answers how many there were.
#[inline(always)]
#[tactic(auto, using(crate::proofs::Ends::ends))]
fn remove_taken(msg: &mut Arena, taken: &Taken<'_>) -> u32
    ensures blocks { msg.new.blocks ≡ without_taken taken.now msg.old.blocks }
    ensures count { result ≡ count_by (is_taken taken.now) msg.old.blocks }
    ensures end { HasEnd msg.old.blocks → HasEnd msg.new.blocks }
    ensures size { msg.new.size ≡ msg.old.size }
{
    let count = msg.len();
    let mut at = 0;
    while at < msg.len() {
        if is_taken(msg, at, taken) {
            msg.remove(at);
        } else {
            at += 1;
        }
    }
    count - msg.len()
}

/// Removes each header of this name, without regard to case, and answers how many there were.
pub fn remove_named(msg: &mut Arena, name: &[u8]) -> u32
    ensures blocks { msg.new.blocks ≡ without_headers name.now msg.old.blocks }
    ensures count { result ≡ count_by (is_header_named name.now) msg.old.blocks }
    ensures end { HasEnd msg.old.blocks → HasEnd msg.new.blocks }
    ensures size { msg.new.size ≡ msg.old.size }
{
    remove_taken(msg, &Taken::Named(name))
}

/// Removes each header whose name matches and is none of those that [`remove_framing`] removes, and answers how many
/// there were.
pub fn remove_where(msg: &mut Arena, which: &NameMatch<'_>) -> u32
    ensures blocks { msg.new.blocks ≡ without_matching which.now msg.old.blocks }
    ensures count { result ≡ count_by (is_header_matching which.now) msg.old.blocks }
    ensures framing { filter is_framing_header msg.new.blocks ≡ filter is_framing_header msg.old.blocks }
    ensures end { HasEnd msg.old.blocks → HasEnd msg.new.blocks }
    ensures size { msg.new.size ≡ msg.old.size }
{
    remove_taken(msg, &Taken::Matching(which))
}

/// Removes each header that frames the message or speaks of its connection (RFC 9110 section 7.6.1): `connection`,
/// `keep-alive`, `proxy-connection`, `te`, `upgrade`, `transfer-encoding` and `content-length`.
pub fn remove_framing(msg: &mut Arena)
    ensures blocks { msg.new.blocks ≡ without_framing msg.old.blocks }
    ensures end { HasEnd msg.old.blocks → HasEnd msg.new.blocks }
    ensures size { msg.new.size ≡ msg.old.size }
{
    remove_taken(msg, &Taken::Framing);
}
