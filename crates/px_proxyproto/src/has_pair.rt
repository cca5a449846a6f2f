//! Whose connection a link is.
ghost use Rattle.std.specs.Prelude.{◌≡◌, Option, None};
ghost use Rattle.px_peer.specs.declared.Pair.{Pair};

use px_link::{MemLink, Scripted};
use px_peer::Pair;

/// A link that was accepted, which may know who asks over it, and where.
pub trait HasPair {
    /// This may be told of it.
    ghost tells: { Self → Option Pair → Type 0 };

    /// Both ends, where they are known: the source is who asks, the destination where it was asked.
    fn pair(&self) -> Option<Pair>
        ensures { tells self.now result };
}

/// A link in memory has no ends.
impl HasPair for MemLink {
    ghost tells = { λ _ pair. pair ≡ None };

    fn pair(&self) -> Option<Pair> {
        None
    }
}

impl<L: HasPair> HasPair for Scripted<L> {
    ghost tells = { L.tells };

    fn pair(&self) -> Option<Pair> {
        self.link().pair()
    }
}
