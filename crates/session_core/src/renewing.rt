//! Two directions of a core that can begin again.
ghost use Rattle.std.specs.Prelude.{Option};
ghost use Rattle.px_peer.specs.declared.Peer.{Peer};
ghost use Rattle.session_core.specs.Sided.{Sided};
ghost use Rattle.session_core.specs.Place as place;
ghost use Rattle.session_core.specs.Place.{IsSomewhere};
ghost use Rattle.session_core.specs.Leads.{IsFresh};

use crate::sides::Works;
use px_peer::Peer;

/// Two directions that can begin again in the same memory.
pub trait Renewable: Works {
    /// As new ones, for the same configuration: by what they stand for nothing has happened yet. It takes no memory.
    fn renew(&mut self)
        requires placed { IsSomewhere (Self.placed self.old) }
        ensures placed { Self.placed self.new place.Reads }
        ensures stands { (cfg : Self.Settings) (p : Sided (Self.meaning cfg)) → Self.stands cfg self.old p
            → (q : Sided (Self.meaning cfg)) × Self.stands cfg self.new q × IsFresh (Self.meaning cfg) (Self.request self.new) (Self.answer self.new) q };
}

/// Two directions that can begin again for a connection of another peer.
pub trait RenewableFor: Renewable {
    /// The configuration, and who asks.
    ghost for_peer: { Self.Settings → Option Peer → Self.Settings };

    /// As new ones, for the same configuration and a connection of this peer: by what they stand for nothing has happened yet. It takes no memory.
    fn renew_for(&mut self, peer: Option<Peer>)
        requires placed { IsSomewhere (Self.placed self.old) }
        ensures placed { Self.placed self.new place.Reads }
        ensures stands { (cfg : Self.Settings) (other : Option Peer) (p : Sided (Self.meaning (for_peer cfg other))) → Self.stands (for_peer cfg other) self.old p
            → (q : Sided (Self.meaning (for_peer cfg peer))) × Self.stands (for_peer cfg peer) self.new q × IsFresh (Self.meaning (for_peer cfg peer)) (Self.request self.new) (Self.answer self.new) q };
}
