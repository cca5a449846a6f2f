//! Nets whose connected links begin with a header, where one is told.
ghost use Rattle.std.specs.Prelude.{◌≡◌};
ghost use Rattle.px_proxyproto.specs.Nets.{introduced};

use crate::heading::Heading;
use px_link::Net;

/// A net that is told with which header the links begin that it connects.
pub trait Introduces: Net {
    /// Links that are connected from now on begin with this header, or pass on all as it is.
    fn introduce(&mut self, heading: Option<Heading>)
        ensures { Self.seen self.new ≡ introduced heading (Self.seen self.old) };
}
