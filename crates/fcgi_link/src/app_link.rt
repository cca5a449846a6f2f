//! A link over which an application is asked.
ghost use Rattle.std.specs.Prelude.{◌≡◌, ◌<◌, ℕ, List, None, Some, length};
ghost use Rattle.px_link.specs.Link.{Reads, Writes, AsItIs, with_close};
ghost use Rattle.fcgi_link.specs.Exchange.{seen_over, WroteOver, IsOver, note_of};

use crate::boxed_exchange::BoxedExchange;
use crate::note::Note;
use px_link::{Close, Failed, Fault, Link, Net, Readiness, Waits, Wakes};
use px_peer::Pair;
use px_proxyproto::HasPair;
use std::marker::Model;

/// A link that asks an application over the link below, or passes on all as it is. What is written to it is a request, of which the link below is written the
/// records; what is read is the HTTP stream that the records are which come from there. Contracts see the link below, and the request and the answer.
#[derive(Drop)]
pub struct AppLink<L: Link> {
    inner: L,
    exchange: Option<BoxedExchange>,
}

impl<L: Link> Model for AppLink<L> {
    ghost use Rattle.fcgi_link.specs.Exchange.{AppLinkSeen, IsOver};

    ghost Value = { AppLinkSeen L };

    ghost view = { λ link. record { inner = link.inner; exchange = link.exchange } };

    ghost invariant = { λ link. IsOver link.exchange (L.seen link.inner).manner };
}

impl<L: Link> AppLink<L> {
    /// A link that passes on all as it is.
    pub fn plain(inner: L) -> AppLink<L>
        ensures { result ≡ record { inner = inner; exchange = None } }
    {
        AppLink {
            inner,
            exchange: None,
        }
    }

    /// A link over which this is asked, where there is something. The link below passes on all as it is then.
    pub(crate) fn over(inner: L, exchange: Option<BoxedExchange>) -> AppLink<L>
        requires { IsOver exchange (L.seen inner).manner }
        ensures { result ≡ record { inner = inner; exchange = exchange } }
    {
        AppLink { inner, exchange }
    }

    /// The link below.
    pub fn inner(&self) -> &L
        ensures { result.now ≡ self.now.inner }
    {
        &self.inner
    }

    /// What is noted of it once it is kept.
    pub(crate) fn note(&self) -> Option<Note>
        ensures { result ≡ note_of self.now.exchange }
    {
        note_over(&self.exchange)
    }

    /// The link below, without what was asked over it.
    pub(crate) fn into_inner(self) -> L
        ensures is { result ≡ self.inner }
        ensures over { IsOver self.exchange (L.seen self.inner).manner }
    {
        self.inner
    }
}

/// What is noted of a link over which this was asked.
fn note_over(exchange: &Option<BoxedExchange>) -> Option<Note>
    ensures { result ≡ note_of exchange.now }
{
    match exchange {
        None => None,
        Some(one) => Some(one.note()),
    }
}

/// Reads the link below, or what an application answers over it.
fn read_over<L: Link>(
    inner: &mut L,
    exchange: &mut Option<BoxedExchange>,
    into: &mut [u8],
) -> Result<usize, Failed>
    requires some { 0 < length into.old }
    requires over { IsOver exchange.old (L.seen inner.old).manner }
    ensures over { IsOver exchange.new (L.seen inner.new).manner }
    ensures reads { Reads (seen_over exchange.old (L.seen inner.old)) (seen_over exchange.new (L.seen inner.new)) into.new result }
    ensures wrote { (bytes : List ℕ) → WroteOver exchange.old (L.wrote inner.old) bytes → WroteOver exchange.new (L.wrote inner.new) bytes }
{
    match exchange {
        None => inner.read(into),
        Some(one) => one.read(inner, into),
    }
}

/// Whether a read of the link below is answered at once, or one of what an application answers over it.
fn can_read_over<L: Waits>(inner: &mut L, exchange: &mut Option<BoxedExchange>) -> bool
    requires over { IsOver exchange.old (L.seen inner.old).manner }
    ensures over { IsOver exchange.new (L.seen inner.new).manner }
    ensures seen { seen_over exchange.new (L.seen inner.new) ≡ seen_over exchange.old (L.seen inner.old) }
    ensures wrote { (bytes : List ℕ) → WroteOver exchange.old (L.wrote inner.old) bytes → WroteOver exchange.new (L.wrote inner.new) bytes }
{
    match exchange {
        None => inner.can_read(),
        Some(one) => one.can_read(inner),
    }
}

/// Writes the link below, or the records of a request to it.
fn write_over<L: Link>(
    inner: &mut L,
    exchange: &mut Option<BoxedExchange>,
    piece: &[u8],
) -> Result<usize, Fault>
    requires some { 0 < length piece.now }
    requires over { IsOver exchange.old (L.seen inner.old).manner }
    ensures over { IsOver exchange.new (L.seen inner.new).manner }
    ensures writes { Writes (WroteOver exchange.old (L.wrote inner.old)) (WroteOver exchange.new (L.wrote inner.new)) (seen_over exchange.old (L.seen inner.old)) (seen_over exchange.new (L.seen inner.new)) piece.now result }
{
    match exchange {
        None => inner.write(piece),
        Some(one) => one.write(inner, piece),
    }
}

impl<L: Link> Link for AppLink<L> {
    ghost use Rattle.fcgi_link.specs.Exchange.{link_over, LinkWrote};

    ghost seen = { λ link. link_over L.seen link };

    ghost wrote = { λ link bytes. LinkWrote L.wrote link bytes };

    fn read(&mut self, into: &mut [u8]) -> Result<usize, Failed> {
        read_over(&mut self.inner, &mut self.exchange, into)
    }

    fn write(&mut self, piece: &[u8]) -> Result<usize, Fault> {
        write_over(&mut self.inner, &mut self.exchange, piece)
    }

    fn close(&mut self, how: Close) {
        self.inner.close(how);
    }
}

/// It waits where the link below does.
impl<L: Waits> Waits for AppLink<L> {
    /// Records that have come needn't give a byte of the answer: they are read until some do, or a read would wait.
    fn can_read(&mut self) -> bool {
        can_read_over(&mut self.inner, &mut self.exchange)
    }

    fn can_write(&mut self) -> bool {
        self.inner.can_write()
    }

    fn expire_read(&mut self) {
        self.inner.expire_read();
    }

    fn expire_write(&mut self) {
        self.inner.expire_write();
    }

    fn note(&mut self, told: Readiness) {
        self.inner.note(told);
    }

    fn cork(&mut self, writes: bool, follows: bool) {
        self.inner.cork(writes, follows);
    }

    fn can_keep(&mut self) -> bool {
        self.inner.can_keep()
    }
}

/// What the link below tells.
impl<L: Link + HasPair> HasPair for AppLink<L> {
    ghost tells = { λ link pair. L.tells link.inner pair };

    fn pair(&self) -> Option<Pair> {
        self.inner.pair()
    }
}

/// Has this wait watch the client's link below.
pub(crate) fn watch_client<N: Net, W: Wakes<N>>(
    wakes: &mut W,
    place: usize,
    link: &mut AppLink<N::Link>,
)
    ensures seen { ⟦<AppLink<N::Link> as Link>⟧.seen link.new ≡ ⟦<AppLink<N::Link> as Link>⟧.seen link.old }
    ensures wrote { (bytes : List ℕ) → ⟦<AppLink<N::Link> as Link>⟧.wrote link.old bytes → ⟦<AppLink<N::Link> as Link>⟧.wrote link.new bytes }
{
    wakes.watch_client(place, &mut link.inner);
}

/// Has this wait watch the server's link below.
pub(crate) fn watch_server<N: Net, W: Wakes<N>>(
    wakes: &mut W,
    place: usize,
    link: &mut AppLink<N::Link>,
)
    ensures seen { ⟦<AppLink<N::Link> as Link>⟧.seen link.new ≡ ⟦<AppLink<N::Link> as Link>⟧.seen link.old }
    ensures wrote { (bytes : List ℕ) → ⟦<AppLink<N::Link> as Link>⟧.wrote link.old bytes → ⟦<AppLink<N::Link> as Link>⟧.wrote link.new bytes }
{
    wakes.watch_server(place, &mut link.inner);
}
