//! Sessions that the driver runs, each over a core of its own, once it is known who asks. The net is told of the application and introduced by that first.
ghost use Rattle.std.specs.Prelude.{◌≡◌, ℕ, [], false, List, Option, IfOk, OnOk};
ghost use Rattle.px_peer.specs.declared.Peer.{Peer};
ghost use Rattle.session_core.specs.History.{Past, nothing_yet};
ghost use Rattle.px_link.specs.Link.{with_close};
ghost use Rattle.px_link.specs.Net.{address_of};
ghost use Rattle.serve_run.specs.Drove.{DrivesFor, Drove};
ghost use Rattle.serve_run.specs.Met.{MeetsAndServes, unheard};

use crate::responder::{Responder, ask_for};
use crate::{Ran, SessionFault, Sessions};
use fcgi_link::AsksApplication;
use htx_drive::weave::ResetsFor;
use htx_drive::{MOST_READ, Machine, Resources, run_session};
use px_link::{Address, Application, Close, End, Link, Net, OutOfMemory, Turn, Turns};
use px_peer::{Pair, Peer};
use px_proxyproto::{HasPair, Introduces, Met, heading_for, meet, source_of};
use std::marker::PhantomData;

/// Makes a core for each connection, and takes it back where its session came to its end.
pub trait Opens<C: ResetsFor> {
    /// The configuration of the cores.
    ghost settings: { Self → C.Settings };

    /// A core to which nothing has happened yet, for a connection of this peer.
    fn open(&mut self, peer: Option<Peer>) -> Result<C, OutOfMemory>
        ensures stands { IfOk result (λ core. C.stands (C.for_peer (settings self.old) peer) core nothing_yet) }
        ensures idle { IfOk result (λ core. (C.seen core).serving ≡ false) }
        ensures sound { IfOk result (λ core. C.sound core) }
        ensures settings { settings self.new ≡ settings self.old };

    /// Takes back a core whose session is over. The next one may have its memory, and nothing else of it.
    fn keep(&mut self, core: C)
        requires sound { C.sound core }
        requires stands { (peer : Option Peer) × (past : Past) × C.stands (C.for_peer (settings self.old) peer) core past }
        ensures settings { settings self.new ≡ settings self.old };
}

/// Sessions of the driver, with the servers at one address.
#[derive(Drop)]
pub struct Driven<'a, C, O> {
    /// Makes the core of each session.
    pub opener: O,
    /// Where the servers are.
    pub to: &'a Address,
    /// Whether each client's stream begins with a header of the PROXY protocol, which then says who asks.
    pub accepts_header: bool,
    /// The version of the header of the PROXY protocol that each connected link begins with, where one is sent. It tells the client's pair.
    pub sends_header: Option<u32>,
    /// How the servers are asked, where they are an application.
    pub responder: Option<Responder<'a>>,
    /// What each session reads into, with a budget of its own.
    resources: Resources,
    core: PhantomData<C>,
}

impl<'a, C: ResetsFor, O: Opens<C>> Driven<'a, C, O> {
    /// Sessions over cores of this opener.
    pub fn new(
        opener: O,
        to: &'a Address,
        accepts_header: bool,
        sends_header: Option<u32>,
        responder: Option<Responder<'a>>,
    ) -> Self
        ensures opener { result.opener ≡ opener }
        ensures to { result.to.now ≡ to.now }
        ensures accepts_header { result.accepts_header ≡ accepts_header }
        ensures sends_header { result.sends_header ≡ sends_header }
        ensures responder { result.responder ≡ responder.entry }
    {
        Driven {
            opener,
            to,
            accepts_header,
            sends_header,
            responder,
            resources: Resources {
                left: BUDGET,
                buffer: [0; MOST_READ],
            },
            core: PhantomData,
        }
    }
}

/// How many turns that move something, and openings, a connection may take.
const BUDGET: u64 = 1 << 63;

/// No turns: the first want that stands is met.
#[derive(Drop)]
struct NoTurns;

impl Turns for NoTurns {
    ghost left = { λ _. [] };

    fn next(&mut self) -> Option<Turn> {
        None
    }
}

/// Runs the session of a core to which nothing has happened yet.
fn drive<C: Machine, N: Net>(
    core: &mut C,
    to: &Address,
    client: &mut N::Link,
    net: &mut N,
    resources: &mut Resources,
) -> Result<Ran, SessionFault>
    requires idle { (C.seen core.old).serving ≡ false }
    requires sound { C.sound core.old }
    ensures drove { (cfg : C.Settings) → C.stands cfg core.old nothing_yet
        → Drove C.meaning C.stands C.seen N.Link.seen N.Link.wrote cfg (address_of to.now) client.old client.new (N.seen net.old) (N.seen net.new) result }
    ensures sound { OnOk result (C.sound core.new) }
    ensures stands { OnOk result ((cfg : C.Settings) → C.stands cfg core.old nothing_yet → (past : Past) × C.stands cfg core.new past) }
{
    resources.left = BUDGET;
    run_session(core, to, client, net, &mut NoTurns, resources)
}

/// The same, and gives the core back to its opener where the session came to its end.
fn drive_and_keep<C: ResetsFor + Drop, N: Net, O: Opens<C>>(
    opener: &mut O,
    core: C,
    to: &Address,
    client: &mut N::Link,
    net: &mut N,
    resources: &mut Resources,
) -> Result<Ran, SessionFault>
    requires stands { (peer : Option Peer) × C.stands (C.for_peer (O.settings opener.old) peer) core nothing_yet }
    requires idle { (C.seen core).serving ≡ false }
    requires sound { C.sound core }
    ensures drove { (peer : Option Peer) → C.stands (C.for_peer (O.settings opener.old) peer) core nothing_yet
        → Drove C.meaning C.stands C.seen N.Link.seen N.Link.wrote (C.for_peer (O.settings opener.old) peer) (address_of to.now) client.old client.new (N.seen net.old) (N.seen net.new) result }
    ensures settings { O.settings opener.new ≡ O.settings opener.old }
{
    let mut running = core;
    match drive(&mut running, to, client, net, resources) {
        Ok(ran) => {
            opener.keep(running);
            Ok(ran)
        }
        Err(fault) => Err(fault),
    }
}

/// Closes the link of a client for whose session there is no memory, and answers that.
fn give_up<L: Link>(client: &mut L) -> SessionFault
    ensures fault { result ≡ SessionFault.OutOfMemory }
    ensures closed { L.seen client.new ≡ with_close (L.seen client.old) Close.Failed }
    ensures wrote { (bytes : List ℕ) → L.wrote client.old bytes → L.wrote client.new bytes }
{
    client.close(Close::Failed);
    SessionFault::OutOfMemory
}

/// Runs the session of a caller of this peer, over a core that the opener makes.
fn serve_caller<C: ResetsFor + Drop, N: Net, O: Opens<C>>(
    opener: &mut O,
    to: &Address,
    peer: Option<Peer>,
    client: &mut N::Link,
    net: &mut N,
    resources: &mut Resources,
) -> Result<Ran, SessionFault>
    ensures drove { Drove C.meaning C.stands C.seen N.Link.seen N.Link.wrote (C.for_peer (O.settings opener.old) peer) (address_of to.now) client.old client.new (N.seen net.old) (N.seen net.new) result }
    ensures settings { O.settings opener.new ≡ O.settings opener.old }
{
    match opener.open(peer) {
        Ok(core) => drive_and_keep(opener, core, to, client, net, resources),
        Err(OutOfMemory) => Err(give_up(client)),
    }
}

/// Closes the link of a client that isn't heard. Nothing is sent to anybody.
fn turn_away<L: Link>(client: &mut L) -> Ran
    ensures ran { result ≡ unheard }
    ensures closed { L.seen client.new ≡ with_close (L.seen client.old) Close.Failed }
    ensures wrote { (bytes : List ℕ) → L.wrote client.old bytes → L.wrote client.new bytes }
{
    client.close(Close::Failed);
    Ran {
        end: End::Closed,
        exchanges: 0,
        begun_cut: None,
    }
}

impl<'a, C: ResetsFor + Drop, O: Opens<C>> Driven<'a, C, O> {
    /// Serves the caller of this pair: its net is told of the application and of the header first, and then its session runs.
    fn serve_pair<N: Net + Introduces + AsksApplication>(
        &mut self,
        pair: Option<Pair>,
        client: &mut N::Link,
        net: &mut N,
    ) -> Result<Ran, SessionFault>
        ensures drives { DrivesFor C.meaning C.stands C.seen N.Link.seen N.Link.wrote (C.for_peer (O.settings self.old.opener)) self.old.sends_header self.old.responder (address_of self.old.to.now)
            pair client.old client.new (N.seen net.old) (N.seen net.new) result }
        ensures settings { O.settings self.new.opener ≡ O.settings self.old.opener }
        ensures to { self.new.to ≡ self.old.to }
        ensures accepts_header { self.new.accepts_header ≡ self.old.accepts_header }
        ensures sends_header { self.new.sends_header ≡ self.old.sends_header }
        ensures responder { self.new.responder ≡ self.old.responder }
    {
        match ask_for(net, &self.responder) {
            Ok(()) => {}
            Err(OutOfMemory) => return Err(give_up(client)),
        }
        net.introduce(heading_for(self.sends_header, pair));
        serve_caller::<C, N, O>(
            &mut self.opener,
            self.to,
            source_of(pair),
            client,
            net,
            &mut self.resources,
        )
    }
}

impl<
    'a,
    L: Link + HasPair,
    N: Net<Link = L> + Introduces + AsksApplication,
    C: ResetsFor + Drop,
    O: Opens<C>,
> Sessions<N> for Driven<'a, C, O> {
    type Settings = (
        C::Settings,
        Address,
        bool,
        Option<u32>,
        Option<(Application, u32)>,
    );

    ghost settings = { λ sessions. (O.settings sessions.opener, sessions.to.now, sessions.accepts_header, sessions.sends_header, sessions.responder) };

    ghost to = { λ settings. address_of settings.1 };

    ghost session = { λ settings first client first_net net result.
        MeetsAndServes L.tells settings.2 L.seen L.wrote
        (DrivesFor C.meaning C.stands C.seen L.seen L.wrote (C.for_peer settings.0) settings.3 settings.4 (address_of settings.1))
        first client (N.seen first_net) (N.seen net) result };

    fn run(&mut self, client: &mut L, net: &mut N) -> Result<Ran, SessionFault> {
        match meet(client, self.accepts_header) {
            Met::Caller(pair) => self.serve_pair(pair, client, net),
            Met::Refused => Ok(turn_away(client)),
        }
    }
}
