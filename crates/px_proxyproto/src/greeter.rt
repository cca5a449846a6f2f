//! Reads the header in front of a client's stream piece by piece, as its bytes come.
ghost use Rattle.std.specs.Prelude.{◌≡◌, ◌<◌, ◌≤◌, ℕ, List, None};
ghost use Rattle.px_link.specs.Link.{Seen};
ghost use Rattle.px_proxyproto.specs.Greeting.{GreetsSoFar, ReadsOn, WentOn};
ghost use Rattle.px_proxyproto.specs.Reading.{HasRead};

use crate::greeting::Greeting;
use crate::reader::ProxyReader;
use crate::state::ProxyState;
use px_link::Link;
use std::marker::Model;

/// A greeting that is read as its bytes come. Contracts see what its reader was fed so far.
#[derive(Drop)]
pub struct Greeter {
    reader: ProxyReader,
}

impl Model for Greeter {
    ghost use Rattle.px_proxyproto.specs.Reading.{Read};

    ghost Value = { Read };

    ghost view = { λ g. g.reader };
}

/// One read of the link, of no byte behind the header.
fn read_piece<L: Link>(link: &mut L, reader: &mut ProxyReader) -> ProxyState
    ensures reads { (before : List ℕ) → HasRead reader.old before → ReadsOn before (L.seen link.old) (L.seen link.new) reader.new result }
    ensures further { result ≡ ProxyState.More → (reader.old.count < reader.new.count) × (reader.new.count ≤ 65551) }
    ensures wrote { (bytes : List ℕ) → L.wrote link.old bytes → L.wrote link.new bytes }
{
    let mut room = [0; 256];
    let most = (reader.wants() as usize).min(256);
    if most == 0 {
        return ProxyState::Bad;
    }
    let piece = &mut room[..most];
    let Ok(n) = link.read(piece) else {
        return ProxyState::Bad;
    };
    if n == 0 {
        return ProxyState::Bad;
    }
    reader.feed(&piece[..n])
}

impl Greeter {
    /// Nothing was read yet.
    pub fn new() -> Greeter
        ensures { (first : Seen) → GreetsSoFar result first first }
    {
        Greeter {
            reader: ProxyReader::new(),
        }
    }

    /// One read of the link, of no byte behind the header. None where the header goes on; behind a greeting it isn't called again. Over a link of the
    /// system it waits where nothing came.
    pub fn read_on<L: Link>(&mut self, link: &mut L) -> Option<Greeting>
        ensures goes { (first : Seen) → GreetsSoFar self.old first (L.seen link.old) → WentOn self.new first (L.seen link.new) result }
        ensures further { result ≡ None → (self.old.count < self.new.count) × (self.new.count ≤ 65551) }
        ensures wrote { (bytes : List ℕ) → L.wrote link.old bytes → L.wrote link.new bytes }
    {
        match read_piece(link, &mut self.reader) {
            ProxyState::More => None,
            ProxyState::Got(pair) => Some(Greeting::Got(pair)),
            ProxyState::Bad => Some(Greeting::Bad),
        }
    }
}
