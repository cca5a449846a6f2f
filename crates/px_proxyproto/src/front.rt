//! The header in front of bytes that a stream begins with.
ghost use Rattle.std.specs.Prelude.{◌≡◌, ◌≤◌, ◌+◌, length, take, drop};
ghost use Rattle.px_proxyproto.specs.Reading.{StandsInFront};

use crate::reader::ProxyReader;
use crate::state::ProxyState;
use px_peer::Pair;

/// What stands in front of bytes.
#[derive(Clone, Copy)]
pub enum Front {
    /// A header of so many bytes, with this pair.
    Header(usize, Option<Pair>),
    /// No header, whatever follows.
    Other,
    /// No header ends in them, and one may begin so.
    Part,
}

/// So many of the bytes that stand there.
fn piece_at(bytes: &[u8], at: usize, most: usize) -> &[u8]
    requires { at + most ≤ length bytes.now }
    ensures { result.now ≡ take most (drop at bytes.now) }
{
    &bytes[at..][..most]
}

/// What stands in front of these bytes.
pub fn front_of(bytes: &[u8]) -> Front
    ensures { StandsInFront result bytes.now }
{
    let mut reader = ProxyReader::new();
    let mut at = 0;
    'pieces: loop {
        let most = (reader.wants() as usize).min(bytes.len() - at);
        if most == 0 {
            return Front::Part;
        }
        match reader.feed(piece_at(bytes, at, most)) {
            ProxyState::More => at += most,
            ProxyState::Got(pair) => return Front::Header(at + most, pair),
            ProxyState::Bad => return Front::Other,
        }
    }
}
