//! The numbers by which a poll names what it watches: twice the place for a client, one more for its server, and the last of all for the listener.
ghost use Rattle.std.specs.Prelude.{◌≡◌};
ghost use Rattle.px_sock.specs.Tokens.{HasNumbers, watched_of};

use px_link::Watched;

const LISTENER: usize = usize::MAX;

/// The number of what is watched.
#[tactic(auto, using(crate::proofs::Sides::sides))]
pub fn token_of(whom: Watched) -> usize
    ensures own { HasNumbers whom → watched_of result ≡ whom }
{
    match whom {
        Watched::Listener => LISTENER,
        Watched::Client(place) => place.saturating_mul(2),
        Watched::Server(place) => place.saturating_mul(2).saturating_add(1),
    }
}

/// What has this number.
pub fn watched_of(token: usize) -> Watched
    ensures { result ≡ watched_of token }
{
    if token == LISTENER {
        return Watched::Listener;
    }
    let place = token / 2;
    if token % 2 == 0 {
        return Watched::Client(place);
    }
    Watched::Server(place)
}
