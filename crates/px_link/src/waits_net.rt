//! Nets whose accepts and connects may have to wait.
ghost use Rattle.std.specs.Prelude.{◌≡◌};

use crate::{Address, Net};

/// A net that tells whether a call would wait. What contracts see of it stays.
pub trait WaitsNet: Net {
    /// Whether an accept can be made now: a link waits, or the accept fails at once, as where the system has no room for one more.
    fn can_accept(&mut self) -> bool
        ensures seen { Self.seen self.new ≡ Self.seen self.old };

    /// Whether a connect to this address can be made now: it has come to its end, well or not. The first question begins it, and later
    /// ones tell whether it is over. A connect that is made before its end fails, and gives up what was begun.
    fn can_connect(&mut self, to: &Address) -> bool
        ensures seen { Self.seen self.new ≡ Self.seen self.old };
}
