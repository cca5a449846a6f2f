//! A core: its two directions, and where it stands in its session.
ghost use Rattle.std.specs.Prelude.{◌≡◌, Option, Bool, true, false};
ghost use Rattle.session_core.specs.History.{Past, nothing_yet};
ghost use Rattle.session_core.specs.Waits.{is_serving, IsAtOnce};
ghost use Rattle.session_core.specs.Sided.{Sided, HoldsList};
ghost use Rattle.session_core.specs.Place as place;
ghost use Rattle.session_core.specs.Place.{IsPlaced};
ghost use Rattle.session_core.specs.Leads.{Stands, IsFresh};
ghost use Rattle.session_core.specs.Statuses.{status_in};
ghost use Rattle.session_core.specs.Resting.{IsRested};
ghost use Rattle.px_peer.specs.declared.Peer.{Peer};

use crate::Phase;
use crate::renewing::{Renewable, RenewableFor};
use crate::sides::Works;
use http_model::{Close, End};
use px_peer::Peer;

/// Where a core stands beside its directions.
#[derive(Clone, Copy)]
pub struct At {
    pub phase: Phase,
    /// Where a request was met as cut, whether the answer had begun.
    pub cut: Option<bool>,
    /// The exchanges that were begun. The count stays at its type's last value.
    pub exchanges: u32,
}

/// What a core wants of its driver.
#[derive(Clone, Copy)]
pub struct Wants {
    pub client_read: bool,
    pub client_write: bool,
    /// The client waits for a response head before it sends the body (RFC 9110 section 10.1.1).
    pub client_waits: bool,
    pub server_open: bool,
    pub server_read: bool,
    pub server_write: bool,
    pub server_close: Option<Close>,
    pub over: Option<End>,
}

/// A session over two directions. Its contracts say what each call makes of a core that stands for a history.
pub struct Core<S> {
    pub sides: S,
    pub at: At,
    /// Work found no memory: the core takes no further call.
    pub lost: bool,
}

impl<S: Drop> Drop for Core<S> {
    fn drop(self) {
        let Core {
            sides: _,
            at: _,
            lost: _,
        } = self;
    }
}

impl<S: Works> Core<S> {
    ghost use Rattle.std.specs.Borrow.{sem};
    ghost use Rattle.session_core.specs.Lending.{LendsText};
    ghost use Rattle.session_core.specs.contracts.machine.Core.{the_row};

    /// A core to which nothing has happened.
    pub fn new(sides: S) -> Core<S>
        requires placed { S.placed sides place.Reads }
        ensures placed { IsPlaced (S.placed result.sides) (S.answer result.sides) result.at.phase result.at.cut }
        ensures stands { (cfg : S.Settings) (p : Sided (S.meaning cfg)) → S.stands cfg sides p → IsFresh (S.meaning cfg) (S.request sides) (S.answer sides) p
            → Stands (S.meaning cfg) S.request S.answer (S.stands cfg) result.sides result.at nothing_yet }
        ensures idle { is_serving result.at.phase ≡ false }
        ensures sides { result.sides ≡ sides }
        ensures lost { result.lost ≡ false }
    {
        Core {
            sides,
            at: At {
                phase: Phase::Reading,
                cut: None,
                exchanges: 0,
            },
            lost: false,
        }
    }

    /// The answer of the exchange in hand has begun.
    pub fn begun(&self) -> bool
        requires placed { IsPlaced (S.placed self.now.sides) (S.answer self.now.sides) self.now.at.phase self.now.at.cut }
        ensures { result ≡ (S.answer self.now.sides).begun }
    {
        self.sides.is_begun()
    }

    /// Where a request was met as cut, whether the answer had begun.
    pub fn cut(&self) -> Option<bool>
        ensures { result ≡ self.now.at.cut }
    {
        self.at.cut
    }

    pub fn exchanges(&self) -> u32
        ensures { result ≡ self.now.at.exchanges }
    {
        self.at.exchanges
    }

    /// The bytes that wait for the client, to be read alone.
    pub fn to_client(&mut self) -> &mut [u8]
        requires placed { IsPlaced (S.placed self.old.sides) (S.answer self.old.sides) self.old.at.phase self.old.at.cut }
        ensures* back { sem 𝓛 (LendsText (the_row S.row) self.entry result (λ core text. record core { sides = S.with_to_client core.sides text })) }
        ensures value { result.now ≡ (S.answer self.old.sides).window }
    {
        self.sides.to_client()
    }

    /// The room for bytes of the client.
    pub fn client_room(&self) -> usize
        requires placed { IsPlaced (S.placed self.now.sides) (S.answer self.now.sides) self.now.at.phase self.now.at.cut }
        ensures { result ≡ (S.request self.now.sides).room }
    {
        self.sides.client_room()
    }

    /// The room for bytes of the server.
    pub fn server_room(&self) -> usize
        requires placed { IsPlaced (S.placed self.now.sides) (S.answer self.now.sides) self.now.at.phase self.now.at.cut }
        ensures { result ≡ (S.answer self.now.sides).room }
    {
        self.sides.server_room()
    }

    /// So many bytes of the server, whatever they are, go to the client at once where they come, and may be more than there is room for.
    pub fn at_once(&self) -> usize
        requires placed { IsPlaced (S.placed self.now.sides) (S.answer self.now.sides) self.now.at.phase self.now.at.cut }
        ensures goes { IsAtOnce (S.at_once self.now.sides) self.now.at.cut result }
    {
        if self.is_turned() {
            return 0;
        }
        self.sides.at_once()
    }

    /// The array on which request rules run.
    pub fn request_raw(&self) -> &[u8]
        requires placed { IsPlaced (S.placed self.now.sides) (S.answer self.now.sides) self.now.at.phase self.now.at.cut }
        ensures { HoldsList result.now (S.request self.now.sides).list }
    {
        self.sides.request_raw()
    }

    /// The method, one space and the target of the request in hand, as they were received. Where no head was read it is empty.
    pub fn request_line(&self) -> &[u8]
        requires placed { IsPlaced (S.placed self.now.sides) (S.answer self.now.sides) self.now.at.phase self.now.at.cut }
        ensures { result.now ≡ (S.request self.now.sides).line }
    {
        self.sides.request_line()
    }

    /// The status that the client is sent in the exchange in hand, while its answer goes out.
    pub fn status(&self) -> Option<u16>
        requires placed { IsPlaced (S.placed self.now.sides) (S.answer self.now.sides) self.now.at.phase self.now.at.cut }
        ensures { result ≡ status_in self.now.at.phase (S.answer self.now.sides).status }
    {
        match self.at.phase {
            Phase::Serving => self.sides.status(),
            Phase::Served => self.sides.status(),
            Phase::Refusing => self.sides.status(),
            Phase::Replying(_) => self.sides.status(),
            Phase::Reading => None,
            Phase::Opening => None,
            Phase::Unserved => None,
            Phase::Over(_) => None,
        }
    }

    /// Whether it rests between two exchanges, with nothing to be kept but its count of exchanges: one that is made anew with that count (`resume_for`)
    /// stands for its history.
    pub fn rests(&self) -> bool
        requires placed { IsPlaced (S.placed self.now.sides) (S.answer self.now.sides) self.now.at.phase self.now.at.cut }
        ensures rested { result ≡ true → IsRested S.meaning S.answer S.stands self.now.sides self.now.at }
        ensures idle { result ≡ true → is_serving self.now.at.phase ≡ false }
    {
        match self.at.phase {
            Phase::Reading => !self.sides.has_to_client() && self.sides.is_untouched(),
            Phase::Opening => false,
            Phase::Unserved => false,
            Phase::Serving => false,
            Phase::Served => false,
            Phase::Refusing => false,
            Phase::Replying(_) => false,
            Phase::Over(_) => false,
        }
    }

    /// The bytes that wait for the server, to be read alone.
    pub fn to_server(&mut self) -> &mut [u8]
        requires placed { IsPlaced (S.placed self.old.sides) (S.answer self.old.sides) self.old.at.phase self.old.at.cut }
        ensures* back { sem 𝓛 (LendsText (the_row S.row) self.entry result (λ core text. record core { sides = S.with_to_server core.sides text })) }
        ensures value { result.now ≡ (S.request self.old.sides).window }
    {
        self.sides.to_server()
    }
}

impl<S: Renewable> Core<S> {
    /// A core to which nothing has happened, in the same memory and for the same configuration. It takes no memory.
    pub fn reset(&mut self)
        requires placed { IsPlaced (S.placed self.old.sides) (S.answer self.old.sides) self.old.at.phase self.old.at.cut }
        ensures placed { IsPlaced (S.placed self.new.sides) (S.answer self.new.sides) self.new.at.phase self.new.at.cut }
        ensures stands { (cfg : S.Settings) (past : Past) → Stands (S.meaning cfg) S.request S.answer (S.stands cfg) self.old.sides self.old.at past
            → Stands (S.meaning cfg) S.request S.answer (S.stands cfg) self.new.sides self.new.at nothing_yet }
        ensures idle { is_serving self.new.at.phase ≡ false }
        ensures lost { self.new.lost ≡ self.old.lost }
    {
        self.sides.renew();
        self.at = At {
            phase: Phase::Reading,
            cut: None,
            exchanges: 0,
        };
    }
}

impl<S: RenewableFor> Core<S> {
    /// A core to which nothing has happened, in the same memory, for the same configuration and a connection of this peer. It takes no memory.
    pub fn reset_for(&mut self, peer: Option<Peer>)
        requires placed { IsPlaced (S.placed self.old.sides) (S.answer self.old.sides) self.old.at.phase self.old.at.cut }
        ensures placed { IsPlaced (S.placed self.new.sides) (S.answer self.new.sides) self.new.at.phase self.new.at.cut }
        ensures stands { (cfg : S.Settings) (other : Option Peer) (past : Past) → Stands (S.meaning (S.for_peer cfg other)) S.request S.answer (S.stands (S.for_peer cfg other)) self.old.sides self.old.at past
            → Stands (S.meaning (S.for_peer cfg peer)) S.request S.answer (S.stands (S.for_peer cfg peer)) self.new.sides self.new.at nothing_yet }
        ensures idle { is_serving self.new.at.phase ≡ false }
        ensures lost { self.new.lost ≡ self.old.lost }
    {
        self.sides.renew_for(peer);
        self.at = At {
            phase: Phase::Reading,
            cut: None,
            exchanges: 0,
        };
    }

    /// It stands for what a core stood for that rested, of a connection of this peer and with so many exchanges: in the same memory, for the same
    /// configuration. It takes no memory.
    pub fn resume_for(&mut self, peer: Option<Peer>, exchanges: u32)
        requires placed { IsPlaced (S.placed self.old.sides) (S.answer self.old.sides) self.old.at.phase self.old.at.cut }
        ensures placed { IsPlaced (S.placed self.new.sides) (S.answer self.new.sides) self.new.at.phase self.new.at.cut }
        ensures stands { (cfg : S.Settings) (other : Option Peer) (before : Past) → Stands (S.meaning (S.for_peer cfg other)) S.request S.answer (S.stands (S.for_peer cfg other)) self.old.sides self.old.at before
            → (rested : Core S) (past : Past) → Stands (S.meaning (S.for_peer cfg peer)) S.request S.answer (S.stands (S.for_peer cfg peer)) rested.sides rested.at past
            → IsRested S.meaning S.answer S.stands rested.sides rested.at → rested.at.exchanges ≡ exchanges
            → Stands (S.meaning (S.for_peer cfg peer)) S.request S.answer (S.stands (S.for_peer cfg peer)) self.new.sides self.new.at past }
        ensures idle { is_serving self.new.at.phase ≡ false }
        ensures lost { self.new.lost ≡ self.old.lost }
    {
        self.sides.renew_for(peer);
        self.at = At {
            phase: Phase::Reading,
            cut: None,
            exchanges,
        };
    }
}
