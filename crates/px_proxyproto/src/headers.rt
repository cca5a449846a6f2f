//! Writes a header of either version.
ghost use Rattle.std.specs.Prelude.{◌≡◌, ◌≤◌, take, option_copied};
ghost use Rattle.px_proxyproto.specs.Texts.{header_of};

use crate::line_text::text_header;
use crate::writing::binary_text;
use px_peer::Pair;

/// Writes a header at the front, and tells its length: of version 2, or else of version 1. Without a pair it is one that tells none.
/// The family is that of the source.
pub fn header_text(version: u32, pair: Option<&Pair>, into: &mut [u8; 107]) -> usize
    ensures within { result ≤ 107 }
    ensures front { take result into.new ≡ header_of version (option_copied pair.entry) }
{
    if version == 2 {
        return binary_text(pair, into);
    }
    text_header(pair, into)
}
