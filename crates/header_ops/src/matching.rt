//! Header fields by a part of their name.
ghost use Rattle.std.specs.Prelude.{◌≡◌, ◌<◌, length};
ghost use Rattle.htx_arena.specs.Blocks.{block_at};
ghost use Rattle.header_ops.specs.Matching.{begins_with, ends_with, has_part, is_match, is_header_matching};

use http_model::is_framing_name;
use htx_arena::{Arena, Kind};
use px_bytes::eq_fold;

/// Which names are meant, without regard to case (RFC 9110 section 5.1). No bytes begin, end and are within each name.
#[derive(Clone, Copy)]
pub enum NameMatch<'a> {
    /// The name is these bytes.
    Str(&'a [u8]),
    /// The name begins with these bytes.
    Beg(&'a [u8]),
    /// The name ends with these bytes.
    End(&'a [u8]),
    /// The name has these bytes somewhere.
    Sub(&'a [u8]),
}

fn begins_with(name: &[u8], part: &[u8]) -> bool
    ensures { result ≡ begins_with name.now part.now }
{
    part.len() <= name.len() && eq_fold(&name[..part.len()], part)
}

fn ends_with(name: &[u8], part: &[u8]) -> bool
    ensures { result ≡ ends_with name.now part.now }
{
    part.len() <= name.len() && eq_fold(&name[name.len() - part.len()..], part)
}

fn has_part(name: &[u8], part: &[u8]) -> bool
    ensures { result ≡ has_part name.now part.now }
{
    for at in 0..name.len() {
        if begins_with(&name[at..], part) {
            return true;
        }
    }
    part.is_empty()
}

#[inline(always)]
fn is_match(which: &NameMatch<'_>, name: &[u8]) -> bool
    ensures { result ≡ is_match which.now name.now }
{
    match which {
        NameMatch::Str(text) => eq_fold(name, text),
        NameMatch::Beg(part) => begins_with(name, part),
        NameMatch::End(part) => ends_with(name, part),
        NameMatch::Sub(part) => has_part(name, part),
    }
}

/// Whether the block at an index is a header whose name matches, and none of the framing headers.
#[inline(always)]
pub fn is_matching(msg: &Arena, at: u32, which: &NameMatch<'_>) -> bool
    requires { at < length msg.now.blocks }
    ensures { result ≡ is_header_matching which.now (block_at msg.now.blocks at) }
{
    match msg.kind(at) {
        Kind::Header => is_match(which, msg.name(at)) && !is_framing_name(msg.name(at)),
        _ => false,
    }
}
