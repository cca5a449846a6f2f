//! Cores that connections share, one after another.
ghost use Rattle.std.specs.Prelude.{◌≡◌, false, Option};
ghost use Rattle.px_peer.specs.declared.Peer.{Peer};
ghost use Rattle.session_core.specs.History.{Past, nothing_yet};

use crate::Machine;
use px_peer::Peer;

/// A core that can begin again in its own memory.
pub trait Resets: Machine {
    /// Nothing has happened to it. It takes no memory.
    fn reset(&mut self)
        requires sound { Self.sound self.old }
        ensures sound { Self.sound self.new }
        ensures idle { (Self.seen self.new).serving ≡ false }
        ensures stands { (cfg : Self.Settings) (past : Past) → Self.stands cfg self.old past → Self.stands cfg self.new nothing_yet };
}

/// A core that can begin again for a connection of another peer.
pub trait ResetsFor: Resets {
    /// The configuration, and who asks.
    ghost for_peer: { Self.Settings → Option Peer → Self.Settings };

    /// Nothing has happened to it, for the same configuration and a connection of this peer. It takes no memory.
    fn reset_for(&mut self, peer: Option<Peer>)
        requires sound { Self.sound self.old }
        ensures sound { Self.sound self.new }
        ensures idle { (Self.seen self.new).serving ≡ false }
        ensures stands { (cfg : Self.Settings) (other : Option Peer) (past : Past) → Self.stands (for_peer cfg other) self.old past → Self.stands (for_peer cfg peer) self.new nothing_yet };

    /// It goes on, for the same configuration and a connection of this peer, where one rested with so many exchanges: whatever that stood for, it stands for. It takes no memory.
    fn resume_for(&mut self, peer: Option<Peer>, exchanges: u32)
        requires sound { Self.sound self.old }
        ensures sound { Self.sound self.new }
        ensures idle { (Self.seen self.new).serving ≡ false }
        ensures stands { (cfg : Self.Settings) (other : Option Peer) (before : Past) → Self.stands (for_peer cfg other) self.old before → (rested : Self) (past : Past) → Self.stands (for_peer cfg peer) rested past → Self.rested rested
            → (Self.seen rested).exchanges ≡ exchanges → Self.stands (for_peer cfg peer) self.new past };
}
