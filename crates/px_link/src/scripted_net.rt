//! A net that tells by a script what can be done now.
ghost use Rattle.std.specs.Prelude.{◌≡◌};

use crate::{Address, Fault, Net, Script, Scripted, WaitsNet};
use std::alloc::Global;
use std::collections::VecDeque;
use std::marker::Model;

/// The scripts of a link that is to come: the answers to `can_read` and to `can_write`.
#[derive(Drop)]
pub struct LinkScripts {
    pub reads: Script,
    pub writes: Script,
}

/// A net of which scripts say when an accept and when a connect can be made, and whose links have scripts too. Calls are the net's own matter.
/// Contracts see that net.
#[derive(Drop)]
pub struct ScriptedNet<N> {
    alloc: Global,
    net: N,
    accepts: Script,
    connects: Script,
    links: VecDeque<LinkScripts>,
}

impl<N> Model for ScriptedNet<N> {
    ghost Value = { N };

    ghost view = { λ scripted. scripted.net };
}

impl<N> ScriptedNet<N> {
    /// This net under these answers to `can_accept` and to `can_connect`. Its links have these scripts in the order in which they are given, and
    /// those behind the last have no script.
    pub fn new(
        alloc: Global,
        net: N,
        accepts: Script,
        connects: Script,
        links: Vec<LinkScripts>,
    ) -> Self
        ensures { result ≡ net }
    {
        ScriptedNet {
            alloc,
            net,
            accepts,
            connects,
            links: VecDeque::from(links),
        }
    }

    /// The net.
    pub fn net(&self) -> &N
        ensures { result.now ≡ self.now }
    {
        &self.net
    }
}

/// The link under the next scripts.
fn under_next<L>(alloc: Global, scripts: &mut VecDeque<LinkScripts>, link: L) -> Scripted<L>
    ensures { result ≡ link }
{
    match scripts.pop_front() {
        Some(next) => Scripted::new(link, next.reads, next.writes),
        None => Scripted::new(
            link,
            Script::new(Vec::new(alloc)),
            Script::new(Vec::new(alloc)),
        ),
    }
}

impl<N: Net> Net for ScriptedNet<N> {
    type Link = Scripted<N::Link>;

    ghost seen = { λ net. N.seen net };

    fn bind(&mut self, at: &Address) -> Result<(), Fault> {
        self.net.bind(at)
    }

    fn accept(&mut self) -> Result<Scripted<N::Link>, Fault> {
        match self.net.accept() {
            Ok(link) => Ok(under_next(self.alloc, &mut self.links, link)),
            Err(Fault::Failed) => Err(Fault::Failed),
            Err(Fault::OutOfMemory) => Err(Fault::OutOfMemory),
        }
    }

    fn connect(&mut self, to: &Address) -> Result<Scripted<N::Link>, Fault> {
        match self.net.connect(to) {
            Ok(link) => Ok(under_next(self.alloc, &mut self.links, link)),
            Err(Fault::Failed) => Err(Fault::Failed),
            Err(Fault::OutOfMemory) => Err(Fault::OutOfMemory),
        }
    }

    fn keep(&mut self, link: Scripted<N::Link>) {
        self.net.keep(link.into_link());
    }

    fn tells_kept(&self) -> bool {
        self.net.tells_kept()
    }
}

impl<N: Net> WaitsNet for ScriptedNet<N> {
    fn can_accept(&mut self) -> bool {
        self.accepts.answer()
    }

    fn can_connect(&mut self, _: &Address) -> bool {
        self.connects.answer()
    }
}
