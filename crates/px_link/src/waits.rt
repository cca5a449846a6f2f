//! Links whose calls may have to wait.
ghost use Rattle.std.specs.Prelude.{◌≡◌, List, ℕ};

use crate::{Link, Readiness};

/// A link that tells whether a call would wait for its peer. What contracts see of it stays.
pub trait Waits: Link {
    /// Whether a read can be made now: bytes, the end or a failure are there, or its time is over.
    fn can_read(&mut self) -> bool
        ensures seen { Self.seen self.new ≡ Self.seen self.old }
        ensures wrote { (bytes : List ℕ) → Self.wrote self.old bytes → Self.wrote self.new bytes };

    /// Whether a write can be made now: a byte can be taken, the link has failed, or its time is over.
    fn can_write(&mut self) -> bool
        ensures seen { Self.seen self.new ≡ Self.seen self.old }
        ensures wrote { (bytes : List ℕ) → Self.wrote self.old bytes → Self.wrote self.new bytes };

    /// Has each later read fail: the peer's time is over. The read that fails is the one that is counted.
    fn expire_read(&mut self)
        ensures seen { Self.seen self.new ≡ Self.seen self.old }
        ensures wrote { (bytes : List ℕ) → Self.wrote self.old bytes → Self.wrote self.new bytes };

    /// The same of each later write.
    fn expire_write(&mut self)
        ensures seen { Self.seen self.new ≡ Self.seen self.old }
        ensures wrote { (bytes : List ℕ) → Self.wrote self.old bytes → Self.wrote self.new bytes };

    /// Takes in what a wait told of the link.
    fn note(&mut self, told: Readiness)
        ensures seen { Self.seen self.new ≡ Self.seen self.old }
        ensures wrote { (bytes : List ℕ) → Self.wrote self.old bytes → Self.wrote self.new bytes };

    /// Whether a piece is written now, and whether more follows it at once. A link may keep what it takes for what follows, but not where nothing is
    /// written and nothing follows. One that sends each piece by itself does nothing.
    fn cork(&mut self, writes: bool, follows: bool)
        ensures seen { Self.seen self.new ≡ Self.seen self.old }
        ensures wrote { (bytes : List ℕ) → Self.wrote self.old bytes → Self.wrote self.new bytes }
    {
        let _ = (writes, follows);
    }

    /// Whether a link that was closed can be given back now with nothing lost: its peer has ended too, or wants nothing more. What the
    /// peer still sends is thrown away here, and is no read (RFC 9112 section 9.6).
    fn can_keep(&mut self) -> bool
        ensures seen { Self.seen self.new ≡ Self.seen self.old }
        ensures wrote { (bytes : List ℕ) → Self.wrote self.old bytes → Self.wrote self.new bytes };
}
