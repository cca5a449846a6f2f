//! A net whose connected links write a header first.
ghost use Rattle.std.specs.Prelude.{◌≡◌, None};
ghost use Rattle.px_link.specs.Link.{AsItIs};
ghost use Rattle.px_proxyproto.specs.Sending.{begun};

use crate::heading::Heading;
use crate::introduces::Introduces;
use crate::send_link::SendLink;
use px_link::{Address, Fault, Net, WaitsNet, Wakes};
use std::marker::Model;

/// A net over one whose links pass on all as it is. Links that are connected write a header before their first piece, where it was told one; accepted
/// ones pass on all as it is. Contracts see the net below, and the header with which the links begin that are connected next.
#[derive(Drop)]
pub struct SendNet<N: Net> {
    inner: N,
    heading: Option<Heading>,
}

impl<N: Net> Model for SendNet<N> {
    ghost use Rattle.std.specs.Prelude.{◌≡◌};
    ghost use Rattle.px_link.specs.Link.{AsItIs};
    ghost use Rattle.px_proxyproto.specs.Nets.{SendNetSeen};

    ghost Value = { SendNetSeen N };

    ghost view = { λ net. record { inner = net.inner; heading = net.heading } };

    ghost invariant = { λ net. (N.seen net.inner).manner ≡ AsItIs };
}

impl<N: Net> SendNet<N> {
    /// Links that are connected pass on all as it is, until a header is told.
    pub fn new(inner: N) -> SendNet<N>
        requires { (N.seen inner).manner ≡ AsItIs }
        ensures is { result ≡ record { inner = inner; heading = None } }
        ensures seen { ⟦<SendNet<N> as Net>⟧.seen result ≡ N.seen inner }
    {
        SendNet {
            inner,
            heading: None,
        }
    }

    /// The net below.
    pub fn inner(&self) -> &N
        ensures { result.now ≡ self.now.inner }
    {
        &self.inner
    }

    /// Has this wait watch the listener of the net below.
    pub(crate) fn watch_listener<W: Wakes<N>>(&mut self, wakes: &mut W)
        ensures { ⟦<SendNet<N> as Net>⟧.seen self.new ≡ ⟦<SendNet<N> as Net>⟧.seen self.old }
    {
        wakes.watch_listener(&mut self.inner);
    }

    /// Has this wait leave the listener of the net below.
    pub(crate) fn leave_listener<W: Wakes<N>>(&mut self, wakes: &mut W)
        ensures { ⟦<SendNet<N> as Net>⟧.seen self.new ≡ ⟦<SendNet<N> as Net>⟧.seen self.old }
    {
        wakes.leave_listener(&mut self.inner);
    }

    /// Has this wait watch the connect that the net below has begun.
    pub(crate) fn watch_connect<W: Wakes<N>>(&mut self, wakes: &mut W, place: usize)
        ensures { ⟦<SendNet<N> as Net>⟧.seen self.new ≡ ⟦<SendNet<N> as Net>⟧.seen self.old }
    {
        wakes.watch_connect(place, &mut self.inner);
    }
}

/// This link, with this header in front or as it is.
fn begun<L>(inner: L, heading: Option<Heading>) -> SendLink<L>
    ensures { result ≡ begun inner heading }
{
    match heading {
        Some(heading) => SendLink::headed(inner, heading),
        None => SendLink::plain(inner),
    }
}

impl<N: Net> Net for SendNet<N> {
    ghost use Rattle.px_proxyproto.specs.Nets.{net_behind};

    type Link = SendLink<N::Link>;

    ghost seen = { λ net. net_behind N.seen net };

    fn bind(&mut self, at: &Address) -> Result<(), Fault> {
        self.inner.bind(at)
    }

    fn accept(&mut self) -> Result<SendLink<N::Link>, Fault> {
        match self.inner.accept() {
            Ok(link) => Ok(SendLink::plain(link)),
            Err(fault) => Err(fault),
        }
    }

    fn connect(&mut self, to: &Address) -> Result<SendLink<N::Link>, Fault> {
        match self.inner.connect(to) {
            Ok(link) => Ok(begun(link, self.heading)),
            Err(fault) => Err(fault),
        }
    }

    fn keep(&mut self, link: SendLink<N::Link>) {
        self.inner.keep(link.into_inner());
    }

    fn tells_kept(&self) -> bool {
        self.inner.tells_kept()
    }
}

impl<N: Net> Introduces for SendNet<N> {
    fn introduce(&mut self, heading: Option<Heading>) {
        self.heading = heading;
    }
}

impl<N: WaitsNet> WaitsNet for SendNet<N> {
    fn can_accept(&mut self) -> bool {
        self.inner.can_accept()
    }

    fn can_connect(&mut self, to: &Address) -> bool {
        self.inner.can_connect(to)
    }
}
