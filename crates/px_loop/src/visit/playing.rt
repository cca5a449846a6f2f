//! The clients and the origin, played against a process that serves.
ghost use Rattle.std.specs.Prelude.{◌≡◌, ◌<◌, IfOk};

use crate::visit::PLAY;
use crate::visit::ports::{Ports, loopback};
use crate::{PlayFault, connect_patiently, forwarded, redirected};
use proxy_commands::Status;
use px_link::{Address, Close, Fault, Link, Net, OutOfMemory};
use px_sock::RealNet;
use std::io::Eprint;
use std::process::ExitCode;
use std::time::{Clock, Duration};
use std::{net, thread};

/// How often a client connects while nobody listens, and how long it waits between.
const TRIES: u32 = 6000;

const PAUSE_MILLIS: u64 = 5;

/// Whom a client's request comes to.
#[derive(Clone, Copy)]
enum Visit {
    /// The origin, which answers it through the program.
    Origin,
    /// The program, which answers it itself.
    Program,
}

/// Why the visits stopped.
#[derive(Clone, Copy, Debug)]
enum Stop {
    /// The origin's port is taken.
    Taken,
    /// A visit stopped.
    Stopped(PlayFault),
    /// What a visit came to could not be written.
    Output,
}

impl Stop {
    /// What the process ends with: where a port is taken, what the program ends with too.
    fn status(self) -> ExitCode {
        match self {
            Stop::Taken => ExitCode::from(Status::NetFault.number()),
            Stop::Stopped(_) => ExitCode::FAILURE,
            Stop::Output => ExitCode::FAILURE,
        }
    }
}

impl From<PlayFault> for Stop {
    fn from(fault: PlayFault) -> Self {
        Stop::Stopped(fault)
    }
}

impl From<OutOfMemory> for Stop {
    fn from(_: OutOfMemory) -> Self {
        Stop::Stopped(PlayFault::OutOfMemory)
    }
}

/// Connects to the program, which may not listen yet.
fn connect<C: Clock, N: Net>(
    clock: &C,
    net: &mut N,
    program: &Address,
) -> Result<N::Link, PlayFault>
    ensures { IfOk result (λ _. 0 < (N.seen net.new).lent) }
{
    for _ in 0..TRIES {
        match connect_patiently(net, program, 1) {
            Ok(link) => return Ok(link),
            Err(PlayFault::OutOfMemory) => return Err(PlayFault::OutOfMemory),
            Err(_) => thread::sleep(clock, Duration::from_millis(PAUSE_MILLIS)),
        }
    }
    Err(PlayFault::Broken)
}

/// What a client does once it is connected.
fn meet<N: Net>(visit: Visit, client: &mut N::Link, net: &mut N) -> Result<(), PlayFault>
    ensures { (N.seen net.new).lent ≡ (N.seen net.old).lent }
{
    match visit {
        Visit::Origin => forwarded(client, net),
        Visit::Program => redirected(client),
    }
}

/// One client's visit to the program.
fn make<C: Clock, N: Net>(
    visit: Visit,
    clock: &C,
    net: &mut N,
    program: &Address,
) -> Result<(), PlayFault> {
    let mut client = connect(clock, net, program)?;
    let went = meet(visit, &mut client, net);
    client.close(Close::Clean);
    net.keep(client);
    went
}

/// Listens as the origin.
fn listen<N: Net>(net: &mut N, at: &Address) -> Result<(), Stop> {
    match net.bind(at) {
        Ok(()) => Ok(()),
        Err(Fault::Failed) => Err(Stop::Taken),
        Err(Fault::OutOfMemory) => Err(Stop::Stopped(PlayFault::OutOfMemory)),
    }
}

/// Says that a visit went as it has to.
fn say<R: Print>(rt: &R) -> Result<(), Stop> {
    match println!(rt; "ok") {
        Ok(()) => Ok(()),
        Err(_) => Err(Stop::Output),
    }
}

/// The two visits, of which each is told as it went.
fn visits<R: net::Net + Clock + Print + Eprint + AllocGlobal>(
    rt: &R,
    ports: Ports,
) -> Result<(), Stop> {
    let program = loopback(rt.alloc(), ports.front)?;
    let origin = loopback(rt.alloc(), ports.back)?;
    let mut net = RealNet::new(rt.alloc(), rt);
    listen(&mut net, &origin)?;
    for visit in [Visit::Origin, Visit::Program] {
        make(visit, rt, &mut net, &program)?;
        say(rt)?;
    }
    Ok(())
}

/// Makes the visits, and writes `ok` for each that went as it has to.
pub fn play<R: net::Net + Clock + Print + Eprint + AllocGlobal>(rt: &R, ports: Ports) -> ExitCode {
    match visits(rt, ports) {
        Ok(()) => ExitCode::SUCCESS,
        Err(stop) => {
            let _ = eprintln!(rt; "{PLAY}: {stop:?}");
            stop.status()
        }
    }
}
