//! A request and its answer over one link.
ghost use Rattle.std.specs.Prelude.{◌≡◌, ◌<◌, ℕ, List, Some, length, IfOk};
ghost use Rattle.px_link.specs.Link.{Reads, Writes};
ghost use Rattle.fcgi_link.specs.Asking.{no_request, no_answer};
ghost use Rattle.fcgi_link.specs.Exchange.{seen_over, WroteOver, note_of};

use crate::answers::Answers;
use crate::asks::Asks;
use crate::note::Note;
use http_model::OutOfMemory;
use px_link::{Application, Failed, Fault, Link, Waits};
use std::alloc::Global;

/// A request of an application, and its answer.
pub(crate) struct Exchange {
    pub asks: Asks,
    pub answers: Answers,
}

impl Drop for Exchange {
    fn drop(self) {
        let Exchange {
            asks: _,
            answers: _,
        } = self;
    }
}

impl Exchange {
    /// One of this application that has not begun. The head of the answer may have so many bytes.
    pub fn new(
        alloc: Global,
        application: &Application,
        limit: u32,
    ) -> Result<Exchange, OutOfMemory>
        ensures asks { IfOk result (λ one. one.asks ≡ no_request application.now) }
        ensures answers { IfOk result (λ one. one.answers ≡ no_answer limit) }
    {
        Ok(Exchange {
            asks: Asks::new(alloc, application.copy(alloc)?),
            answers: Answers::new(alloc, limit)?,
        })
    }

    /// Reads what the application answers over this link.
    pub fn read<L: Link>(&mut self, inner: &mut L, into: &mut [u8]) -> Result<usize, Failed>
        requires { 0 < length into.old }
        ensures reads { Reads (seen_over (Some self.old) (L.seen inner.old)) (seen_over (Some self.new) (L.seen inner.new)) into.new result }
        ensures manner { (L.seen inner.new).manner ≡ (L.seen inner.old).manner }
        ensures wrote { (bytes : List ℕ) → WroteOver (Some self.old) (L.wrote inner.old) bytes → WroteOver (Some self.new) (L.wrote inner.new) bytes }
    {
        self.answers.read(inner, into)
    }

    /// Whether such a read is answered at once.
    pub fn can_read<L: Waits>(&mut self, inner: &mut L) -> bool
        ensures seen { seen_over (Some self.new) (L.seen inner.new) ≡ seen_over (Some self.old) (L.seen inner.old) }
        ensures manner { (L.seen inner.new).manner ≡ (L.seen inner.old).manner }
        ensures wrote { (bytes : List ℕ) → WroteOver (Some self.old) (L.wrote inner.old) bytes → WroteOver (Some self.new) (L.wrote inner.new) bytes }
    {
        self.answers.can_read(inner)
    }

    /// Writes the records of a piece of the request to this link.
    pub fn write<L: Link>(&mut self, inner: &mut L, piece: &[u8]) -> Result<usize, Fault>
        requires { 0 < length piece.now }
        ensures writes { Writes (WroteOver (Some self.old) (L.wrote inner.old)) (WroteOver (Some self.new) (L.wrote inner.new)) (seen_over (Some self.old) (L.seen inner.old)) (seen_over (Some self.new) (L.seen inner.new)) piece.now result }
        ensures manner { (L.seen inner.new).manner ≡ (L.seen inner.old).manner }
    {
        self.asks.write(inner, piece)
    }

    /// What is noted of its link once that is kept.
    pub fn note(&self) -> Note
        ensures { Some result ≡ note_of (Some self.now) }
    {
        Note {
            given: self.answers.given(),
            read_faults: self.answers.faults(),
            write_faults: self.asks.faults(),
        }
    }
}
