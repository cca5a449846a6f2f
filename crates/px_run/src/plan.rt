//! What the loop is told, what it asks of its caller, and why it stops.
ghost use Rattle.std.specs.Prelude.{◌≡◌, false, ⊤, IfOk};
ghost use Rattle.px_run.specs.Course.{IsNewNet};

use crate::Times;
use px_link::{Address, OutOfMemory, WaitsNet};
use serve_run::Responder;
use std::alloc::Global;

/// What each link to a server is told before anything is written to it.
#[derive(Drop)]
pub struct Opening<'a> {
    /// Of which version the header of the PROXY protocol is that goes to each server first, and tells it who asks and where; with none there is no header.
    pub sends_header: Option<u32>,
    /// How the servers are asked, where they are an application.
    pub responder: Option<Responder<'a>>,
}

/// What the loop is told.
#[derive(Drop)]
pub struct Plan<'a> {
    pub alloc: Global,
    /// Where the servers are.
    pub to: &'a Address,
    /// How long each is waited for.
    pub times: Times,
    /// After how many connections it ends; with none it goes on.
    pub connections: Option<u32>,
    /// Whether the stream of each client begins with a header of the PROXY protocol, which tells who asks.
    pub accepts_header: bool,
    /// Whether a line is written for each exchange.
    pub logs: bool,
    /// What each link to a server is told first.
    pub opening: Opening<'a>,
}

/// What the loop asks of its caller, besides a net that listens, a wait and an output.
pub trait Nets<N: WaitsNet> {
    /// No further connection is to be accepted, where that is told.
    ghost accepts_none: { Self → Type 0 } = { λ _. ⊤ };

    /// A net of its own for a connection: what that connects to its servers. Nothing was done with it yet, and it was told nothing.
    fn net(&mut self) -> Result<N, OutOfMemory>
        ensures new { IfOk result (λ net. IsNewNet (N.seen net)) };

    /// Whether a further connection may be accepted. Once it may not, what is in hand is finished, and the loop ends.
    fn accepts_more(&mut self) -> bool
        ensures told { result ≡ false → accepts_none self.new };
}

/// Why the loop stopped before its end.
#[derive(Clone, Copy)]
pub enum RunFault {
    /// A hundred accepts in a row failed while no connection was open, or the wait failed.
    Net,
    /// The machine has no memory left.
    OutOfMemory,
    /// So many rounds were made that no number counts them.
    Spent,
}
