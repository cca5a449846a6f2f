//! The log of exchanges: a line for each, once all that its client is sent was put out, or a write to its client failed.
ghost use Rattle.std.specs.Prelude.{◌≡◌, ◌++◌, ℕ, List, true, OnOk, OnErr};
ghost use Rattle.px_run.specs.Log.{entry_line, entry_of, TellsOf, LogsMore};

use crate::entry::{Told, line_of_entry, peer_text};
use htx_drive::Machine;
use px_link::OutOfMemory;
use px_peer::Peer;
use std::alloc::Global;

/// What is counted of a connection for its log. No contract speaks of it.
#[derive(Clone, Copy)]
pub(crate) struct Tally {
    /// How many of its exchanges were told.
    pub told: u32,
    /// How many were seen, and since when the last of them is in hand, in milliseconds.
    pub begun: u32,
    pub since: u64,
    /// How many bytes its client has taken, and how many it was sent in the exchanges that were told.
    pub taken: u64,
    pub before: u64,
}

impl Tally {
    /// Of a connection that was accepted now.
    pub fn new() -> Tally {
        Tally {
            told: 0,
            begun: 0,
            since: 0,
            taken: 0,
            before: 0,
        }
    }

    /// So many exchanges were begun by now.
    pub fn sees(&mut self, exchanges: u32, now: u64) {
        if exchanges > self.begun {
            self.begun = exchanges;
            self.since = now;
        }
    }

    /// Its client took bytes, where fewer wait for it than before.
    pub fn takes(&mut self, before: usize, waiting: usize) {
        let taken = before.saturating_sub(waiting) as u64;
        self.taken = self.taken.saturating_add(taken);
    }

    /// So many bytes that wait for its client go nowhere.
    pub fn loses(&mut self, waiting: usize) {
        self.before = self.before.saturating_add(waiting as u64);
    }

    /// An exchange is told, while so many bytes wait for its client: how many that was sent in it.
    pub fn tells(&mut self, exchanges: u32, waiting: usize) -> u64 {
        let sent = self.taken.saturating_add(waiting as u64);
        let bytes = sent.saturating_sub(self.before);
        self.before = sent;
        self.told = exchanges;
        bytes
    }
}

/// The lines of the connection that is looked at, which are to be written behind that look.
#[derive(Drop)]
pub(crate) struct Log {
    pub alloc: Global,
    /// Whether there are any.
    pub logs: bool,
    /// Its number.
    pub connection: u32,
    /// Who asks.
    pub peer: Option<Peer>,
    pub tally: Tally,
    pub text: Vec<u8>,
    /// A line found no memory.
    pub lacks: bool,
}

impl Log {
    /// A log without lines.
    pub fn new(alloc: Global) -> Log {
        Log {
            alloc,
            logs: false,
            connection: 0,
            peer: None,
            tally: Tally::new(),
            text: Vec::new(alloc),
            lacks: false,
        }
    }

    /// What is told from now on is of the connection of this number.
    pub fn begin(&mut self, logs: bool, connection: u32, peer: Option<Peer>, tally: Tally)
        ensures logs { self.new.logs ≡ logs }
        ensures connection { self.new.connection ≡ connection }
        ensures text { self.new.text.items ≡ self.old.text.items }
    {
        self.logs = logs;
        self.connection = connection;
        self.peer = peer;
        self.tally = tally;
    }
}

/// How many bytes wait for the client of a core.
pub(crate) fn waiting<C: Machine>(core: &mut C) -> usize
    requires sound { C.sound core.old }
    ensures same { core.new ≡ core.old }
{
    let window: &[u8] = core.to_client();
    window.len()
}

/// Puts a line behind the others. Where it finds no memory they stay as they are.
fn put(log: &mut Log, told: &Told, words: &[u8]) -> Result<(), OutOfMemory>
    ensures put { OnOk result ((peer : List ℕ) × (log.new.text.items ≡ log.old.text.items ++ entry_line (entry_of told.now peer words.now))) }
    ensures kept { OnErr result (log.new.text.items ≡ log.old.text.items) }
    ensures logs { log.new.logs ≡ log.old.logs }
    ensures connection { log.new.connection ≡ log.old.connection }
{
    let peer = peer_text(log.alloc, &log.peer)?;
    let line = line_of_entry(log.alloc, told, peer.as_slice(), words)?;
    log.text.extend_from_slice(line.as_slice())?;
    Ok(())
}

/// What is told of the exchange that a core has in hand.
fn told_of<C: Machine>(core: &C, connection: u32, bytes: u64, milliseconds: u64) -> Told
    requires sound { C.sound core.now }
    ensures connection { result.connection ≡ connection }
    ensures exchange { result.exchange ≡ (C.seen core.now).exchanges }
    ensures status { result.status ≡ (C.seen core.now).status }
{
    Told {
        connection,
        exchange: core.exchanges(),
        status: core.status(),
        bytes,
        milliseconds,
    }
}

/// Tells the exchange that a core has in hand.
fn tell_now<C: Machine>(core: &mut C, log: &mut Log, now: u64)
    requires asked { log.old.logs ≡ true }
    requires sound { C.sound core.old }
    ensures same { core.new ≡ core.old }
    ensures logs { LogsMore (TellsOf (C.seen core.old)) log.old log.new }
{
    let waits = waiting(core);
    let bytes = log.tally.tells(core.exchanges(), waits);
    let lasted = now.saturating_sub(log.tally.since);
    let told = told_of(core, log.connection, bytes, lasted);
    let words = core.request_line();
    match put(log, &told, words) {
        Ok(()) => {}
        Err(OutOfMemory) => log.lacks = true,
    }
}

/// The same, where it is asked for and that exchange wasn't told yet.
pub(crate) fn tell<C: Machine>(core: &mut C, log: &mut Log, now: u64)
    requires sound { C.sound core.old }
    ensures same { core.new ≡ core.old }
    ensures logs { LogsMore (TellsOf (C.seen core.old)) log.old log.new }
{
    if !log.logs {
        return;
    }
    log.tally.sees(core.exchanges(), now);
    if core.exchanges() > log.tally.told {
        tell_now(core, log, now);
    }
}
