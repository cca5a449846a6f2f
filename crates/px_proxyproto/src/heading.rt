//! Which header a connected link begins with.
ghost use Rattle.std.specs.Prelude.{◌≡◌};
ghost use Rattle.px_proxyproto.specs.Nets.{heading_for};

use px_peer::Pair;

/// Which header a connected link begins with: its version, 1 or 2, and the pair that it tells.
#[derive(Clone, Copy)]
pub struct Heading {
    pub version: u32,
    pub pair: Option<Pair>,
}

/// The heading of this version, where there is one, with this pair.
pub fn heading_for(version: Option<u32>, pair: Option<Pair>) -> Option<Heading>
    ensures { result ≡ heading_for version pair }
{
    match version {
        Some(version) => Some(Heading { version, pair }),
        None => None,
    }
}
