//! A request and its answer, in memory of their own.
ghost use Rattle.std.specs.Prelude.{◌≡◌, ◌<◌, ℕ, List, Some, length, IfOk};
ghost use Rattle.px_link.specs.Link.{Reads, Writes};
ghost use Rattle.fcgi_link.specs.Asking.{no_request, no_answer};
ghost use Rattle.fcgi_link.specs.Exchange.{seen_over, WroteOver, note_of};

use crate::exchange::Exchange;
use crate::note::Note;
use http_model::OutOfMemory;
use px_link::{Application, Failed, Fault, Link, Waits};
use std::alloc::Global;
use std::marker::Model;

/// A request of an application, and its answer. They stand in memory of their own, so that a link over which none is asked is small.
pub(crate) struct BoxedExchange {
    inside: Box<Exchange>,
}

impl Drop for BoxedExchange {
    fn drop(self) {
        let BoxedExchange { inside: _ } = self;
    }
}

impl Model for BoxedExchange {
    ghost use Rattle.fcgi_link.specs.declared.exchange.Exchange.{Exchange};

    ghost Value = { Exchange };

    ghost view = { λ one. one.inside.value };
}

impl BoxedExchange {
    /// One of this application that has not begun. The head of the answer may have so many bytes.
    pub fn new(
        alloc: Global,
        application: &Application,
        limit: u32,
    ) -> Result<BoxedExchange, OutOfMemory>
        ensures asks { IfOk result (λ one. one.asks ≡ no_request application.now) }
        ensures answers { IfOk result (λ one. one.answers ≡ no_answer limit) }
    {
        let exchange = Exchange::new(alloc, application, limit)?;
        Ok(BoxedExchange {
            inside: Box::new(alloc, exchange)?,
        })
    }

    /// As `Exchange::read`.
    pub fn read<L: Link>(&mut self, inner: &mut L, into: &mut [u8]) -> Result<usize, Failed>
        requires { 0 < length into.old }
        ensures reads { Reads (seen_over (Some self.old) (L.seen inner.old)) (seen_over (Some self.new) (L.seen inner.new)) into.new result }
        ensures manner { (L.seen inner.new).manner ≡ (L.seen inner.old).manner }
        ensures wrote { (bytes : List ℕ) → WroteOver (Some self.old) (L.wrote inner.old) bytes → WroteOver (Some self.new) (L.wrote inner.new) bytes }
    {
        self.inside.read(inner, into)
    }

    /// As `Exchange::can_read`.
    pub fn can_read<L: Waits>(&mut self, inner: &mut L) -> bool
        ensures seen { seen_over (Some self.new) (L.seen inner.new) ≡ seen_over (Some self.old) (L.seen inner.old) }
        ensures manner { (L.seen inner.new).manner ≡ (L.seen inner.old).manner }
        ensures wrote { (bytes : List ℕ) → WroteOver (Some self.old) (L.wrote inner.old) bytes → WroteOver (Some self.new) (L.wrote inner.new) bytes }
    {
        self.inside.can_read(inner)
    }

    /// As `Exchange::write`.
    pub fn write<L: Link>(&mut self, inner: &mut L, piece: &[u8]) -> Result<usize, Fault>
        requires { 0 < length piece.now }
        ensures writes { Writes (WroteOver (Some self.old) (L.wrote inner.old)) (WroteOver (Some self.new) (L.wrote inner.new)) (seen_over (Some self.old) (L.seen inner.old)) (seen_over (Some self.new) (L.seen inner.new)) piece.now result }
        ensures manner { (L.seen inner.new).manner ≡ (L.seen inner.old).manner }
    {
        self.inside.write(inner, piece)
    }

    /// As `Exchange::note`.
    pub fn note(&self) -> Note
        ensures { Some result ≡ note_of (Some self.now) }
    {
        self.inside.note()
    }
}
