//! A link that tells by a script what can be done now.
ghost use Rattle.std.specs.Prelude.{◌≡◌};

use crate::{Close, Failed, Fault, Link, Readiness, Script, Waits};
use std::marker::Model;

/// A link of which scripts say when a read and when a write can be made. Calls are the link's own matter: it knows which fail, also where their
/// time is over. Contracts see that link.
#[derive(Drop)]
pub struct Scripted<L> {
    link: L,
    reads: Script,
    writes: Script,
}

impl<L> Model for Scripted<L> {
    ghost Value = { L };

    ghost view = { λ scripted. scripted.link };
}

impl<L> Scripted<L> {
    /// This link under these answers to `can_read` and to `can_write`.
    pub fn new(link: L, reads: Script, writes: Script) -> Self
        ensures { result ≡ link }
    {
        Scripted {
            link,
            reads,
            writes,
        }
    }

    /// The link.
    pub fn link(&self) -> &L
        ensures { result.now ≡ self.now }
    {
        &self.link
    }

    /// The link, without its scripts.
    pub(crate) fn into_link(self) -> L
        ensures { result ≡ self }
    {
        self.link
    }
}

impl<L: Link> Link for Scripted<L> {
    ghost seen = { λ link. L.seen link };

    ghost wrote = { λ link. L.wrote link };

    fn read(&mut self, into: &mut [u8]) -> Result<usize, Failed> {
        self.link.read(into)
    }

    fn write(&mut self, piece: &[u8]) -> Result<usize, Fault> {
        self.link.write(piece)
    }

    fn close(&mut self, how: Close) {
        self.link.close(how);
    }
}

impl<L: Link> Waits for Scripted<L> {
    fn can_read(&mut self) -> bool {
        self.reads.answer()
    }

    fn can_write(&mut self) -> bool {
        self.writes.answer()
    }

    /// Reads can be made from now on.
    fn expire_read(&mut self) {
        self.reads.end();
    }

    /// Writes can be made from now on.
    fn expire_write(&mut self) {
        self.writes.end();
    }

    /// Nothing: the script knows.
    fn note(&mut self, _: Readiness) {}

    /// Always: no peer loses anything.
    fn can_keep(&mut self) -> bool {
        true
    }
}
