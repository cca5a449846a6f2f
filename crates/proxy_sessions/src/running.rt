//! Clients that are served at once, and their sessions.
ghost use Rattle.std.specs.Prelude.{◌≡◌, ◌≤◌, ◌⊎◌, OnOk};
ghost use Rattle.http_rules.specs.Valid.{IsValid};
ghost use Rattle.px_link.specs.Net.{Bound, address_of};
ghost use Rattle.px_link.specs.Told.{GainsFront};
ghost use Rattle.proxy_sessions.specs.Lines.{listening_line};
ghost use Rattle.proxy_sessions.specs.Running.{Runs, RanLoop, NotBegun, WroteListening, wide_window};

use crate::cores::RecordCores;
use crate::lines::listening_line;
use crate::opening::opening_of;
use fcgi_link::AsksApplication;
use forward_core::bounds::bounded;
use forward_core::request::laws::total;
use http_rules::{Config, Timeouts};
use htx_drive::weave::cores_for;
use px_command::RunOptions;
use px_link::{Fault, OutOfMemory, Sink, Waits, WaitsNet, Wakes};
use px_proxyproto::{HasPair, Introduces};
use px_run::{Nets, Plan, RunFault, Times, run};
use std::alloc::Global;

/// What serving many at once is handed: a net that listens, what makes a net for each connection, and the wait for all of them.
#[derive(Drop)]
pub struct Many<N, S, W> {
    pub net: N,
    pub nets: S,
    pub wakes: W,
}

/// How many connections have a core at once, where the words don't say.
const SETS: u32 = 256;

/// A switch that the caller has, which turns further connections off.
pub trait Switch {
    /// Whether it is looked at. Where it isn't, further connections are accepted.
    fn heed(&mut self, heeds: bool);
}

/// Processes of this program that serve at the listener of a net, each as `run` does, with cores of its own.
pub trait Workers<N> {
    /// Starts so many, by the words of this process.
    fn start(&mut self, net: &N, count: u32) -> Result<(), Fault>;

    /// Writes the lines of all, each whole, and starts another in place of one that has ended, until no number counts the lines.
    fn pass_on<K: Sink>(&mut self, net: &N, out: &mut K) -> Result<(), Fault>;
}

/// The times of a configuration.
fn times_of(timeouts: &Timeouts) -> Times
    ensures client { result.client ≡ timeouts.now.client }
    ensures server { result.server ≡ timeouts.now.server }
    ensures connect { result.connect ≡ timeouts.now.connect }
    ensures http_request { result.http_request ≡ timeouts.now.http_request }
    ensures http_keep_alive { result.http_keep_alive ≡ timeouts.now.http_keep_alive }
{
    Times {
        client: timeouts.client,
        server: timeouts.server,
        connect: timeouts.connect,
        http_request: timeouts.http_request,
        http_keep_alive: timeouts.http_keep_alive,
    }
}

/// Writes that it listens, and where. An output that is gone is in nobody's way.
fn write_listening<K: Sink>(alloc: Global, config: &Config, out: &mut K) -> Result<(), OutOfMemory>
    ensures wrote { OnOk result (WroteListening (address_of config.now.bind) (K.faults out.old) (K.faults out.new) (K.written out.old) (K.written out.new)) }
    ensures front { GainsFront (K.written out.old) (K.written out.new) (listening_line (address_of config.now.bind)) }
{
    let line = match listening_line(alloc, &config.bind) {
        Ok(line) => line,
        Err(OutOfMemory) => return Err(OutOfMemory),
    };
    match out.write_all(line.as_slice()) {
        Ok(()) => Ok(()),
        Err(Fault::Failed) => Ok(()),
        Err(Fault::OutOfMemory) => Err(OutOfMemory),
    }
}

/// How many bytes an output window has: four buffers.
fn wide_window(config: &Config) -> u32
    requires valid { IsValid config.now }
    ensures size { result ≡ wide_window config.now }
    ensures least { 64 ≤ result }
{
    4 * config.limits.bufsize
}

/// Serves many clients at once with cores of this process. The net is bound already.
fn serve_here<
    L: Waits + HasPair + Drop,
    N: WaitsNet<Link = L> + Introduces + AsksApplication + Drop,
    S: Nets<N> + Switch,
    W: Wakes<N>,
    K: Sink,
>(
    alloc: Global,
    config: &Config,
    options: RunOptions,
    many: &mut Many<N, S, W>,
    out: &mut K,
) -> Result<(), RunFault>
    requires valid { IsValid config.now }
    ensures lent { (N.seen many.new.net).lent ≡ (N.seen many.old.net).lent }
    ensures bound { (N.seen many.new.net).bound ≡ (N.seen many.old.net).bound }
    ensures did { (first : N) → Bound (N.seen first) (N.seen many.old.net) (address_of config.now.bind)
        → RanLoop L.seen L.wrote L.tells N.seen (S.accepts_none many.new.nets) first many.new.net (K.faults out.old) (K.faults out.new) (K.written out.old) (K.written out.new) config.now options result
        ⊎ NotBegun (N.seen first) (N.seen many.new.net) (K.written out.old) (K.written out.new) (address_of config.now.bind) result }
{
    bounded();
    total();
    let cores = RecordCores {
        config,
        window: wide_window(config),
        peer: config.peer,
    };
    let Ok(sets) = cores_for(alloc, &cores, options.sets.unwrap_or(SETS)) else {
        return Err(RunFault::OutOfMemory);
    };
    match write_listening(alloc, config, out) {
        Ok(()) => {}
        Err(OutOfMemory) => return Err(RunFault::OutOfMemory),
    }
    many.nets.heed(options.until_input_ends);
    let plan = Plan {
        alloc,
        to: &config.server,
        times: times_of(&config.timeouts),
        connections: options.connections,
        accepts_header: config.accept_proxy,
        logs: options.logs,
        opening: opening_of(config),
    };
    run(
        &mut many.net,
        &mut many.nets,
        &mut many.wakes,
        out,
        sets,
        &plan,
    )
}

/// Why the loop stopped, by the fault of a call.
fn stopped(fault: Fault) -> RunFault {
    match fault {
        Fault::Failed => RunFault::Net,
        Fault::OutOfMemory => RunFault::OutOfMemory,
    }
}

/// Has so many other processes serve, and passes their lines on. The net is bound already.
fn serve_by_workers<N, S: Workers<N>, W, K: Sink>(
    alloc: Global,
    config: &Config,
    count: u32,
    many: &mut Many<N, S, W>,
    out: &mut K,
) -> Result<(), RunFault>
    ensures { many.new.net ≡ many.old.net }
{
    if let Err(fault) = many.nets.start(&many.net, count) {
        return Err(stopped(fault));
    }
    if write_listening(alloc, config, out).is_err() {
        return Err(RunFault::OutOfMemory);
    }
    match many.nets.pass_on(&many.net, out) {
        Ok(()) => Ok(()),
        Err(fault) => Err(stopped(fault)),
    }
}

/// Listens where the configuration says, and serves many clients at once.
pub fn run_clients<
    L: Waits + HasPair + Drop,
    N: WaitsNet<Link = L> + Introduces + AsksApplication + Drop,
    S: Nets<N> + Switch + Workers<N>,
    W: Wakes<N>,
    K: Sink,
>(
    alloc: Global,
    config: &Config,
    options: RunOptions,
    many: &mut Many<N, S, W>,
    out: &mut K,
) -> Result<(), RunFault>
    requires valid { IsValid config.now }
    ensures { Runs L.seen L.wrote L.tells N.seen (S.accepts_none many.new.nets) many.old.net many.new.net (K.faults out.old) (K.faults out.new) (K.written out.old) (K.written out.new) config.now options result }
{
    match many.net.bind(&config.bind) {
        Ok(()) => {}
        Err(Fault::Failed) => return Err(RunFault::Net),
        Err(Fault::OutOfMemory) => return Err(RunFault::OutOfMemory),
    }
    match options.workers {
        Some(count) => serve_by_workers(alloc, config, count, many, out),
        None => serve_here(alloc, config, options, many, out),
    }
}
