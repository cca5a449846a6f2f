//! What a loop over many connections waits for: a wait for events of all of them at once, and a clock.
ghost use Rattle.std.specs.Prelude.{◌≡◌, List, ℕ};

use crate::{Fault, Net, OutOfMemory};

/// What an event tells of a stream: of both directions, as they are now.
#[derive(Clone, Copy)]
pub struct Readiness {
    /// A read is answered at once.
    pub reads: bool,
    /// A write is answered at once.
    pub writes: bool,
    /// The peer sends no more, or the stream has failed: no later event will tell of what is left to read.
    pub ended: bool,
}

/// Whom an event speaks of. A place is the loop's own number of a connection.
#[derive(Clone, Copy)]
pub enum Watched {
    /// A link waits to be accepted.
    Listener,
    /// The client's link of the connection at this place.
    Client(usize),
    /// The server's link of the connection at this place, or the connect to its server.
    Server(usize),
}

/// An event.
#[derive(Clone, Copy)]
pub struct Wake {
    pub whom: Watched,
    pub readiness: Readiness,
}

/// Waits for events of a net and its links. Nothing is promised of what it tells: it may name a place at which nothing is, and one at which
/// nothing has changed, and time may stand still.
pub trait Wakes<N: Net> {
    /// Has later waits tell of the listener of a net, and the next where a link waits already. One that can't be watched is named by each wait.
    fn watch_listener(&mut self, net: &mut N)
        ensures seen { N.seen net.new ≡ N.seen net.old };

    /// Has no later wait tell of the listener, until it is watched again.
    fn leave_listener(&mut self, net: &mut N)
        ensures seen { N.seen net.new ≡ N.seen net.old };

    /// Has later waits tell of the client's link at this place until it is given back, and the next where it is ready already. Each later call
    /// of one that can't be watched fails.
    fn watch_client(&mut self, place: usize, link: &mut N::Link)
        ensures seen { N.Link.seen link.new ≡ N.Link.seen link.old }
        ensures wrote { (bytes : List ℕ) → N.Link.wrote link.old bytes → N.Link.wrote link.new bytes };

    /// The same of the server's link.
    fn watch_server(&mut self, place: usize, link: &mut N::Link)
        ensures seen { N.Link.seen link.new ≡ N.Link.seen link.old }
        ensures wrote { (bytes : List ℕ) → N.Link.wrote link.old bytes → N.Link.wrote link.new bytes };

    /// Has later waits tell when the connect that this net has begun may have come to its end. One that can't be watched has failed.
    fn watch_connect(&mut self, place: usize, net: &mut N)
        ensures seen { N.seen net.new ≡ N.seen net.old };

    /// Waits for an event, and for at most so many milliseconds; with none for as long as it takes.
    fn wait(&mut self, at_most: Option<u64>) -> Result<(), Fault>;

    /// Puts what the last wait told behind what is there.
    fn woken(&mut self, into: &mut Vec<Wake>) -> Result<(), OutOfMemory>;

    /// The time in milliseconds, counted from some moment before the first call.
    fn now(&mut self) -> u64;
}
