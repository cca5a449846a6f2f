//! Sessions at output windows of several sizes, with all bytes at once and with one and seven bytes a turn.
ghost use Rattle.std.specs.Prelude.{◌≤◌, IfOk};
ghost use Rattle.http_rules.specs.Valid.{IsValid};

use crate::session::{facts_of, record_in};
use case_rows::{Answers, Fault};
use cfg_parse::{CfgFault, load};
use http_rules::Config;
use proxy_sessions::session_report;
use px_link::Turn;
use px_pattern::RealPatterns;
use rec_format::{Connection, write_report};
use std::alloc::Global;

/// How many times each peer gives and takes a piece.
const ROUNDS: u32 = 3000;

/// A size of the output windows.
#[derive(Clone, Copy)]
enum Window {
    Bytes64,
    Bytes65,
    Bytes100,
    Bytes16384,
}

impl Window {
    fn bytes(self) -> u32
        ensures { 64 ≤ result }
    {
        match self {
            Window::Bytes64 => 64,
            Window::Bytes65 => 65,
            Window::Bytes100 => 100,
            Window::Bytes16384 => 16384,
        }
    }
}

/// A size of the output windows, the most bytes of a turn, all where there is none, and how the line begins that tells of them.
#[derive(Clone, Copy)]
struct Place<'a> {
    name: &'a [u8],
    window: Window,
    piece: Option<u32>,
}

impl<'a> Place<'a> {
    fn new(name: &'a [u8], window: Window, piece: Option<u32>) -> Self {
        Place {
            name,
            window,
            piece,
        }
    }
}

/// Turns of so many bytes, each peer in its turn; no turns where all bytes move at once.
fn turns_of(alloc: Global, piece: Option<u32>) -> Result<Vec<Turn>, Fault> {
    let mut turns = Vec::new(alloc);
    let Some(piece) = piece else {
        return Ok(turns);
    };
    for _ in 0..ROUNDS {
        turns.push(Turn::ClientGives(piece))?;
        turns.push(Turn::ServerTakes(piece))?;
        turns.push(Turn::ServerGives(piece))?;
        turns.push(Turn::ClientTakes(piece))?;
    }
    Ok(turns)
}

/// The configuration of a file that is accepted.
pub(crate) fn config_in(alloc: Global, text: &[u8]) -> Result<Config, Fault>
    ensures valid { IfOk result IsValid }
{
    let mut pats = RealPatterns::new();
    match load(alloc, text, &mut pats) {
        Ok(config) => Ok(config),
        Err(CfgFault::Refused { .. }) => Err(Fault::Malformed),
        Err(CfgFault::OutOfMemory) => Err(Fault::OutOfMemory),
    }
}

/// The facts of what a connection comes to.
fn facts_at(
    alloc: Global,
    config: &Config,
    window: u32,
    conn: &Connection,
    turns: Vec<Turn>,
) -> Result<Vec<u8>, Fault>
    requires valid { IsValid config.now }
    requires window { 64 ≤ window }
{
    let report = session_report(alloc, config, window, conn, turns)?;
    facts_of(alloc, write_report(alloc, &report)?.as_slice())
}

/// Says of a window and a piece whether the facts are those that are wanted, and else what they are.
fn compare(
    alloc: Global,
    config: &Config,
    place: &Place<'_>,
    conn: &Connection,
    wanted: &[u8],
    answers: &mut Answers,
) -> Result<(), Fault>
    requires valid { IsValid config.now }
{
    let turns = turns_of(alloc, place.piece)?;
    let facts = facts_at(alloc, config, place.window.bytes(), conn, turns)?;
    answers.more(place.name);
    if facts.as_slice() == wanted {
        answers.more(b": same\n");
    } else {
        answers.more(b": ");
        answers.more(&facts);
    }
    Ok(())
}

/// What the first connection of a record comes to at windows of 64, 65, 100 and 16384 bytes, with all bytes at once and with one or
/// seven bytes a turn: `same` where its facts are those at a window of as many bytes as a buffer has.
pub fn windows_made(alloc: Global, cfg: &[u8], rec: &[u8]) -> Result<Vec<u8>, Fault> {
    let config = config_in(alloc, cfg)?;
    let record = record_in(alloc, rec)?;
    let conn = record.conns.first().ok_or(Fault::Malformed)?;
    let wanted = facts_at(alloc, &config, 262144, conn, Vec::new(alloc))?;
    let mut answers = Answers::new(alloc);
    let places = [
        Place::new(b"64, all", Window::Bytes64, None),
        Place::new(b"64, one", Window::Bytes64, Some(1)),
        Place::new(b"64, seven", Window::Bytes64, Some(7)),
        Place::new(b"65, one", Window::Bytes65, Some(1)),
        Place::new(b"65, seven", Window::Bytes65, Some(7)),
        Place::new(b"100, all", Window::Bytes100, None),
        Place::new(b"100, one", Window::Bytes100, Some(1)),
        Place::new(b"16384, all", Window::Bytes16384, None),
        Place::new(b"16384, one", Window::Bytes16384, Some(1)),
    ];
    for place in &places {
        compare(alloc, &config, place, conn, &wanted, &mut answers)?;
    }
    answers.into_text()
}
