//! Where links come from, and where they go.
ghost use Rattle.std.specs.Prelude.{◌≡◌, ℕ, ◌<◌, List, is_some};
ghost use Rattle.px_link.specs.Net.{NetSeen, Binds, Accepts, Connects, Keeps, address_of};

use crate::{Address, Fault, Link};

/// Where links come from, and where they go. Connects count their faults apart from binds and accepts.
pub trait Net {
    type Link: Link;

    /// What is told of the net.
    ghost seen: { Self → NetSeen };

    /// Listens at this address.
    fn bind(&mut self, at: &Address) -> Result<(), Fault>
        ensures binds { Binds (seen self.old) (seen self.new) (address_of at.now) result };

    /// The next link that comes in.
    fn accept(&mut self) -> Result<Self::Link, Fault>
        ensures accepts { Accepts Self.Link.seen Self.Link.wrote (seen self.old) (seen self.new) result };

    /// A link to this address.
    fn connect(&mut self, to: &Address) -> Result<Self::Link, Fault>
        ensures connects { Connects Self.Link.seen Self.Link.wrote (seen self.old) (seen self.new) (address_of to.now) result };

    /// Takes back a link that was closed. A net has the memory for it before it hands a link out.
    fn keep(&mut self, link: Self::Link)
        requires { 0 < (seen self.old).lent }
        ensures keeps { Keeps (Self.Link.wrote link) (seen self.old) (seen self.new) (Self.Link.seen link) };

    /// Whether it tells of the links that were kept.
    fn tells_kept(&self) -> bool
        ensures tells { result ≡ is_some (seen self.now).kept };
}
