//! Who asks over a link that was accepted: by the header in front of its stream, or by what the link tells.
ghost use Rattle.std.specs.Prelude.{◌≡◌, ℕ, List};
ghost use Rattle.px_proxyproto.specs.Meeting.{Meets, source_in};

use crate::greeting::{Greeting, greet};
use crate::has_pair::HasPair;
use px_link::Link;
use px_peer::{Pair, Peer};

/// Who asks over a link.
#[derive(Clone, Copy)]
pub enum Met {
    /// The source of this pair, where one is told.
    Caller(Option<Pair>),
    /// Nobody who is heard: no header stands in front of the stream.
    Refused,
}

/// The end that a pair names as the source.
pub fn source_of(pair: Option<Pair>) -> Option<Peer>
    ensures { result ≡ source_in pair }
{
    match pair {
        Some(pair) => Some(pair.src),
        None => None,
    }
}

/// Who asks over a link that was accepted, of which nothing was read yet. Where its stream begins with a header, that is read, and no byte behind it, and
/// only what it says counts; over a link of the system that waits. Else it is what the link tells, and nothing is read.
pub fn meet<L: Link + HasPair>(link: &mut L, accepts_header: bool) -> Met
    ensures meets { Meets L.tells accepts_header link.old (L.seen link.old) (L.seen link.new) result }
    ensures wrote { (bytes : List ℕ) → L.wrote link.old bytes → L.wrote link.new bytes }
{
    if !accepts_header {
        return Met::Caller(link.pair());
    }
    match greet(link) {
        Greeting::Got(pair) => Met::Caller(pair),
        Greeting::Bad => Met::Refused,
    }
}
