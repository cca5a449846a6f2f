//! Reads the header in front of a client's stream.
ghost use Rattle.std.specs.Prelude.{ℕ, List};
ghost use Rattle.px_proxyproto.specs.Greeting.{Greets};

use crate::greeter::Greeter;
use px_link::Link;
use px_peer::Pair;

/// What stands in front of a stream.
#[derive(Clone, Copy)]
pub enum Greeting {
    /// A header with this pair.
    Got(Option<Pair>),
    /// No header.
    Bad,
}

/// Reads the header in front of a stream, and no byte behind it. Over a link of the system it waits.
pub fn greet<L: Link>(link: &mut L) -> Greeting
    ensures greets { Greets (L.seen link.old) (L.seen link.new) result }
    ensures wrote { (bytes : List ℕ) → L.wrote link.old bytes → L.wrote link.new bytes }
{
    let mut greeter = Greeter::new();
    'reads: loop {
        if let Some(greeting) = greeter.read_on(link) {
            return greeting;
        }
    }
}
