//! Who asks over a connection: what its link tells, or the header of the PROXY protocol that its client's stream begins with, which is read piece by piece.
ghost use Rattle.std.specs.Prelude.{◌≡◌, ℕ, List, true};
ghost use Rattle.px_link.specs.Link.{Seen};
ghost use Rattle.px_run.specs.Callers.{pair_of, is_greeted, is_refused, net_for, IsCallerOf, ReadSo, ReadMore};

use crate::Opening;
use px_link::Link;
use px_proxyproto::{Greeter, Greeting, HasPair, Introduces, Pair, heading_for};

/// Who asks over a connection.
#[derive(Drop)]
pub(crate) enum Caller {
    /// It isn't told yet: the header is read that says it.
    Greets(Greeter),
    /// Who asks, and where, where that is told.
    Known(Option<Pair>),
    /// Nobody who is heard: no header stood in front of the stream.
    Refused,
}

/// Who asks over a connection that was met, and where.
pub(crate) fn pair_of(caller: &Caller) -> Option<Pair>
    ensures { result ≡ pair_of caller.now }
{
    match caller {
        Caller::Greets(_) => None,
        Caller::Known(pair) => *pair,
        Caller::Refused => None,
    }
}

/// Whether a header is read still.
pub(crate) fn is_greeted(caller: &Caller) -> bool
    ensures { result ≡ is_greeted caller.now }
{
    match caller {
        Caller::Greets(_) => true,
        Caller::Known(_) => false,
        Caller::Refused => false,
    }
}

/// Whether there was no header where one was to come.
pub(crate) fn is_refused(caller: &Caller) -> bool
    ensures { result ≡ is_refused caller.now }
{
    match caller {
        Caller::Greets(_) => false,
        Caller::Known(_) => false,
        Caller::Refused => true,
    }
}

/// Who asks over a link that was accepted now. Where a header is to come only what it says counts.
pub(crate) fn caller_of<L: Link + HasPair>(link: &L, accepts_header: bool) -> Caller
    ensures { IsCallerOf L.tells accepts_header link.now result }
{
    if accepts_header {
        Caller::Greets(Greeter::new())
    } else {
        Caller::Known(link.pair())
    }
}

/// One read of the header that a client's stream begins with, of no byte behind it.
pub(crate) fn greet_on<L: Link>(caller: &mut Caller, client: &mut L)
    requires greeted { is_greeted caller.old ≡ true }
    ensures reads { (first : Seen) → ReadSo caller.old first (L.seen client.old) → ReadSo caller.new first (L.seen client.new) }
    ensures further { ReadMore caller.old caller.new }
    ensures wrote { (bytes : List ℕ) → L.wrote client.old bytes → L.wrote client.new bytes }
{
    let Caller::Greets(greeter) = caller else {
        unreachable!();
    };
    match greeter.read_on(client) {
        None => {}
        Some(Greeting::Got(pair)) => *caller = Caller::Known(pair),
        Some(Greeting::Bad) => *caller = Caller::Refused,
    }
}

/// Has the net of a connection introduce its caller to each server that it connects to, once it is known who asks.
pub(crate) fn introduce<N: Introduces>(caller: &Caller, net: &mut N, opening: &Opening<'_>)
    ensures { N.seen net.new ≡ net_for opening.now caller.now (N.seen net.old) }
{
    match caller {
        Caller::Greets(_) => {}
        Caller::Known(pair) => net.introduce(heading_for(opening.sends_header, *pair)),
        Caller::Refused => {}
    }
}
