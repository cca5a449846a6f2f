//! A link that writes a header before the first piece.
ghost use Rattle.std.specs.Prelude.{◌≡◌, ◌≤◌, ◌<◌, ℕ, List, [], OnOk, length};
ghost use Rattle.px_link.specs.Link.{Writes};
ghost use Rattle.px_proxyproto.specs.Sending.{WroteBehind, seen_behind, Sends};
ghost use Rattle.px_proxyproto.specs.Texts.{header_of};

use crate::has_pair::HasPair;
use crate::headers::header_text;
use crate::heading::Heading;
use px_link::{Close, Failed, Fault, Link, Net, Readiness, Waits, Wakes};
use px_peer::Pair;
use std::marker::Model;

/// A link that writes a header before its first piece, or passes on all as it is. Contracts see the link below, the header, and how much of it is out.
#[derive(Drop)]
pub struct SendLink<L> {
    inner: L,
    header: [u8; 107],
    len: usize,
    sent: usize,
}

impl<L> Model for SendLink<L> {
    ghost use Rattle.std.specs.Prelude.{◌≤◌, take};
    ghost use Rattle.px_proxyproto.specs.Sending.{SendLinkSeen};

    ghost Value = { SendLinkSeen L };

    ghost view = { λ link. record { inner = link.inner; header = take link.len link.header; sent = link.sent } };

    ghost invariant = { λ link. (link.len ≤ 107) × (link.sent ≤ link.len) };
}

impl<L> SendLink<L> {
    /// A link that passes on all as it is.
    pub fn plain(inner: L) -> SendLink<L>
        ensures { result ≡ record { inner = inner; header = []; sent = 0 } }
    {
        SendLink {
            inner,
            header: [0; 107],
            len: 0,
            sent: 0,
        }
    }

    /// A link that writes a header before its first piece. Nothing is to be written to the link below so far.
    pub fn headed(inner: L, heading: Heading) -> SendLink<L>
        ensures { result ≡ record { inner = inner; header = header_of heading.version heading.pair; sent = 0 } }
    {
        let mut header = [0; 107];
        let len = header_text(heading.version, heading.pair.as_ref(), &mut header);
        SendLink {
            inner,
            header,
            len,
            sent: 0,
        }
    }

    /// The link below.
    pub fn inner(&self) -> &L
        ensures { result.now ≡ self.now.inner }
    {
        &self.inner
    }

    /// The link below, without its header.
    pub(crate) fn into_inner(self) -> L
        ensures is { result ≡ self.inner }
        ensures within { self.sent ≤ length self.header }
    {
        self.inner
    }
}

/// Writes what is left of a header, and tells in `sent` how much of it is out.
fn send_rest<L: Link>(inner: &mut L, header: &[u8], sent: &mut usize) -> Result<(), Fault>
    requires { sent.old ≤ length header.now }
    ensures within { sent.new ≤ length header.now }
    ensures all { OnOk result (sent.new ≡ length header.now) }
    ensures sends { Sends (WroteBehind header.now sent.old (L.wrote inner.old)) (WroteBehind header.now sent.new (L.wrote inner.new)) (seen_behind header.now (L.seen inner.old)) (seen_behind header.now (L.seen inner.new)) result }
{
    'pieces: while *sent < header.len() {
        match inner.write(&header[*sent..]) {
            Ok(n) => *sent += n,
            Err(fault) => return Err(fault),
        }
    }
    Ok(())
}

/// Writes a piece behind what is left of a header.
fn write_behind<L: Link>(
    inner: &mut L,
    header: &[u8],
    sent: &mut usize,
    piece: &[u8],
) -> Result<usize, Fault>
    requires within { sent.old ≤ length header.now }
    requires some { 0 < length piece.now }
    ensures within { sent.new ≤ length header.now }
    ensures writes { Writes (WroteBehind header.now sent.old (L.wrote inner.old)) (WroteBehind header.now sent.new (L.wrote inner.new)) (seen_behind header.now (L.seen inner.old)) (seen_behind header.now (L.seen inner.new)) piece.now result }
{
    match send_rest(inner, header, sent) {
        Ok(()) => inner.write(piece),
        Err(fault) => Err(fault),
    }
}

impl<L: Link> Link for SendLink<L> {
    ghost use Rattle.px_proxyproto.specs.Sending.{link_behind, LinkWrote};

    ghost seen = { λ link. link_behind L.seen link };

    ghost wrote = { λ link bytes. LinkWrote L.wrote link bytes };

    fn read(&mut self, into: &mut [u8]) -> Result<usize, Failed> {
        self.inner.read(into)
    }

    fn write(&mut self, piece: &[u8]) -> Result<usize, Fault> {
        write_behind(
            &mut self.inner,
            &self.header[..self.len],
            &mut self.sent,
            piece,
        )
    }

    fn close(&mut self, how: Close) {
        self.inner.close(how);
    }
}

impl<L: Waits> Waits for SendLink<L> {
    fn can_read(&mut self) -> bool {
        self.inner.can_read()
    }

    fn can_write(&mut self) -> bool {
        self.inner.can_write()
    }

    fn expire_read(&mut self) {
        self.inner.expire_read();
    }

    fn expire_write(&mut self) {
        self.inner.expire_write();
    }

    fn note(&mut self, told: Readiness) {
        self.inner.note(told);
    }

    fn cork(&mut self, writes: bool, follows: bool) {
        self.inner.cork(writes, follows);
    }

    fn can_keep(&mut self) -> bool {
        self.inner.can_keep()
    }
}

/// What the link below tells.
impl<L: HasPair> HasPair for SendLink<L> {
    ghost tells = { λ link pair. L.tells link.inner pair };

    fn pair(&self) -> Option<Pair> {
        self.inner.pair()
    }
}

/// Has this wait watch the client's link below.
pub(crate) fn watch_client<N: Net, W: Wakes<N>>(
    wakes: &mut W,
    place: usize,
    link: &mut SendLink<N::Link>,
)
    ensures seen { ⟦<SendLink<N::Link> as Link>⟧.seen link.new ≡ ⟦<SendLink<N::Link> as Link>⟧.seen link.old }
    ensures wrote { (bytes : List ℕ) → ⟦<SendLink<N::Link> as Link>⟧.wrote link.old bytes → ⟦<SendLink<N::Link> as Link>⟧.wrote link.new bytes }
{
    wakes.watch_client(place, &mut link.inner);
}

/// Has this wait watch the server's link below.
pub(crate) fn watch_server<N: Net, W: Wakes<N>>(
    wakes: &mut W,
    place: usize,
    link: &mut SendLink<N::Link>,
)
    ensures seen { ⟦<SendLink<N::Link> as Link>⟧.seen link.new ≡ ⟦<SendLink<N::Link> as Link>⟧.seen link.old }
    ensures wrote { (bytes : List ℕ) → ⟦<SendLink<N::Link> as Link>⟧.wrote link.old bytes → ⟦<SendLink<N::Link> as Link>⟧.wrote link.new bytes }
{
    wakes.watch_server(place, &mut link.inner);
}
