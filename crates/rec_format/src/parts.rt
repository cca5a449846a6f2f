//! The loops of the reader: servers, connections and turns, each with what stands behind it.
ghost use Rattle.std.specs.Prelude.{◌≡◌, ◌∷◌, ℕ, IfOk, option_map};
ghost use Rattle.rec_format.specs.Read.{Gives};
ghost use Rattle.rec_format.specs.Parts.{servers_read, visit_read, visits_read, turns_read, visit_before, visit_last, turns_seen, moves_of};
ghost use Rattle.rec_format.specs.Recorded.{servers_of, visit_of, visits_of, turns_of, next_client, last_turns};
ghost use Rattle.rec_format.specs.Lent.{slice_of};

use crate::read::{client, is_server, refusal, server, word};
use crate::record::{Connection, RecFault, RecKind, ServerSpec};
use crate::{counts, entries, pieces};
use px_link::Turn;
use std::alloc::Global;

/// The most servers of a record.
const MOST_SERVERS: u32 = 65536;

/// Servers, how many more there may be, and what stands behind them.
#[derive(Drop)]
pub(crate) struct ServersRead<'a> {
    pub(crate) servers: Vec<Option<ServerSpec>>,
    pub(crate) room: u32,
    pub(crate) rest: &'a [u8],
}

/// A connection, how many more servers there may be, and what stands behind it.
#[derive(Drop)]
pub(crate) struct VisitRead<'a> {
    pub(crate) conn: Connection,
    pub(crate) room: u32,
    pub(crate) rest: &'a [u8],
}

/// Connections, and what stands behind them.
#[derive(Drop)]
pub(crate) struct VisitsRead<'a> {
    pub(crate) conns: Vec<Connection>,
    pub(crate) rest: &'a [u8],
}

/// Turns, and what stands behind them.
#[derive(Drop)]
pub(crate) struct TurnsRead<'a> {
    pub(crate) turns: Vec<(u32, Turn)>,
    pub(crate) rest: &'a [u8],
}

/// The servers in front, as long as lines begin with `server`.
fn servers(alloc: Global, total: u32, most: u32, text: &[u8]) -> Result<ServersRead<'_>, RecFault>
    ensures { Gives servers_read result (servers_of total most text.now) }
{
    let mut servers = Vec::new(alloc);
    let mut room = most;
    let mut rest = text;
    while is_server(rest) {
        if room == 0 {
            return Err(refusal(total, rest, RecKind::Limit));
        }
        match server(alloc, total, rest) {
            Err(fault) => return Err(fault),
            Ok((entry, behind)) => match servers.push(entry) {
                Err(_) => return Err(RecFault::OutOfMemory),
                Ok(()) => {
                    room -= 1;
                    rest = behind;
                }
            },
        }
    }
    Ok(ServersRead {
        servers,
        room,
        rest,
    })
}

/// A client's entry and those of its servers.
fn visit(alloc: Global, total: u32, room: u32, text: &[u8]) -> Result<VisitRead<'_>, RecFault>
    ensures { Gives visit_read result (visit_of total room text.now) }
{
    match client(alloc, total, text) {
        Err(fault) => Err(fault),
        Ok((client, behind)) => match servers(alloc, total, room, behind) {
            Err(fault) => Err(fault),
            Ok(read) => Ok(VisitRead {
                conn: Connection {
                    client,
                    servers: read.servers,
                },
                room: read.room,
                rest: read.rest,
            }),
        },
    }
}

/// Looks for a client in front.
fn next_client(total: u32, text: &[u8]) -> Result<&[u8], RecFault>
    ensures { Gives slice_of result (next_client total text.now) }
{
    let word = word(text);
    if pieces::is_word(word, b"client") {
        return Ok(text);
    }
    if pieces::is_word(word, b"turns") {
        return Err(refusal(total, text, RecKind::Count));
    }
    Err(refusal(total, text, RecKind::Turn))
}

/// Looks for the turns in front.
fn last_turns(total: u32, numbered: bool, text: &[u8]) -> Result<&[u8], RecFault>
    ensures { Gives slice_of result (last_turns total numbered text.now) }
{
    let word = word(text);
    if pieces::is_word(word, b"turns") {
        return Ok(text);
    }
    if numbered && pieces::is_word(word, b"client") {
        return Err(refusal(total, text, RecKind::Count));
    }
    Err(refusal(total, text, RecKind::Turn))
}

/// A connection with a client behind it.
fn visit_before(
    alloc: Global,
    total: u32,
    room: u32,
    text: &[u8],
) -> Result<VisitRead<'_>, RecFault>
    ensures { Gives visit_read result (visit_before total room text.now) }
{
    match visit(alloc, total, room, text) {
        Err(fault) => Err(fault),
        Ok(read) => match next_client(total, read.rest) {
            Err(fault) => Err(fault),
            Ok(rest) => Ok(VisitRead {
                conn: read.conn,
                room: read.room,
                rest,
            }),
        },
    }
}

/// A connection with the turns behind it.
fn visit_last(
    alloc: Global,
    total: u32,
    numbered: bool,
    room: u32,
    text: &[u8],
) -> Result<VisitRead<'_>, RecFault>
    ensures { Gives visit_read result (visit_last total numbered room text.now) }
{
    match visit(alloc, total, room, text) {
        Err(fault) => Err(fault),
        Ok(read) => match last_turns(total, numbered, read.rest) {
            Err(fault) => Err(fault),
            Ok(rest) => Ok(VisitRead {
                conn: read.conn,
                room: read.room,
                rest,
            }),
        },
    }
}

/// A connection, and so many more behind it.
pub(crate) fn visits(
    alloc: Global,
    total: u32,
    numbered: bool,
    more: u32,
    text: &[u8],
) -> Result<VisitsRead<'_>, RecFault>
    ensures { Gives visits_read result (visits_of total numbered more 65536 text.now) }
{
    let mut conns = Vec::new(alloc);
    let mut room = MOST_SERVERS;
    let mut rest = text;
    for _left in 0..more {
        match visit_before(alloc, total, room, rest) {
            Err(fault) => return Err(fault),
            Ok(read) => match conns.push(read.conn) {
                Err(_) => return Err(RecFault::OutOfMemory),
                Ok(()) => {
                    room = read.room;
                    rest = read.rest;
                }
            },
        }
    }
    match visit_last(alloc, total, numbered, room, rest) {
        Err(fault) => Err(fault),
        Ok(read) => match conns.push(read.conn) {
            Err(_) => Err(RecFault::OutOfMemory),
            Ok(()) => Ok(VisitsRead {
                conns,
                rest: read.rest,
            }),
        },
    }
}

/// So many turns of so many connections.
fn turns(
    alloc: Global,
    total: u32,
    numbered: bool,
    connections: u32,
    count: u32,
    text: &[u8],
) -> Result<TurnsRead<'_>, RecFault>
    ensures { Gives turns_read result (turns_of total numbered connections count text.now) }
{
    let mut turns = Vec::new(alloc);
    let mut rest = text;
    for _left in 0..count {
        match entries::turn(numbered, connections, rest) {
            None => return Err(refusal(total, rest, RecKind::Turn)),
            Some((turn, behind)) => match turns.push(turn) {
                Err(_) => return Err(RecFault::OutOfMemory),
                Ok(()) => rest = behind,
            },
        }
    }
    Ok(TurnsRead { turns, rest })
}

/// The turns, with their number in front and the end behind them.
pub(crate) fn moves(
    alloc: Global,
    total: u32,
    numbered: bool,
    connections: u32,
    text: &[u8],
) -> Result<Vec<(u32, Turn)>, RecFault>
    ensures { Gives turns_seen result (moves_of total numbered connections text.now) }
{
    match counts::turn_count(total, text) {
        Err(fault) => Err(fault),
        Ok((count, rest)) => match turns(alloc, total, numbered, connections, count, rest) {
            Err(fault) => Err(fault),
            Ok(read) => match counts::end(total, read.rest) {
                Err(fault) => Err(fault),
                Ok(()) => Ok(read.turns),
            },
        },
    }
}
