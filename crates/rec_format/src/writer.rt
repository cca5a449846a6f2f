//! The writer of a record, in the second format.
ghost use Rattle.std.specs.Prelude.{◌≡◌, ◌++◌, ◌∷◌, [], length, codes, decimal, map, option_map, Some, IfOk, OnOk};
ghost use Rattle.std.specs.List.{flat_map};
ghost use Rattle.rec_format.specs.Read.{stream, server, servers, visit, visits, meaning_of};
ghost use Rattle.rec_format.specs.Written.{ending_word, takes_word, client_text, server_text, visit_text, letter_of, moved_of, turn_text, numbered_text, visits_text, turns_text, written};

use crate::record::{Connection, Record, ServerSpec, Stream};
use crate::report::put_line;
use itoa::Buffer;
use px_link::{Bytes, Ending, OutOfMemory, Turn};
use std::alloc::Global;

/// Most of what an entry has beside its bytes.
const ENTRY_ROOM: usize = 64;

fn ending_word(ending: Ending) -> &'static [u8]
    ensures { result.now ≡ ending_word ending }
{
    match ending {
        Ending::Closed => b"closed",
        Ending::Broke => b"broke",
    }
}

/// Writes a number and a byte behind it.
fn put_number(text: &mut Vec<u8>, number: u64, last: u8) -> Result<(), OutOfMemory>
    ensures { OnOk result (text.new.items ≡ text.old.items ++ (decimal number ++ last ∷ [])) }
{
    let mut buffer = Buffer::new();
    text.extend_from_slice(buffer.format(number).as_bytes())?;
    text.push(last)?;
    Ok(())
}

/// Writes the entry of a client.
fn put_client(text: &mut Vec<u8>, client: &Stream) -> Result<(), OutOfMemory>
    ensures { OnOk result (text.new.items ≡ text.old.items ++ client_text (stream client.now)) }
{
    let bytes = client.bytes.as_slice();
    text.extend_from_slice(b"client ")?;
    put_number(text, bytes.len() as u64, b' ')?;
    put_line(text, ending_word(client.ending), b"")?;
    put_line(text, bytes, b"")
}

/// Writes how much a server takes.
fn put_takes(text: &mut Vec<u8>, takes: Option<u64>) -> Result<(), OutOfMemory>
    ensures { OnOk result (text.new.items ≡ text.old.items ++ (takes_word takes ++ 10 ∷ [])) }
{
    match takes {
        None => put_line(text, b"all", b""),
        Some(number) => put_number(text, number, b'\n'),
    }
}

/// Writes the entry of a server that is there.
fn put_served(text: &mut Vec<u8>, served: &ServerSpec) -> Result<(), OutOfMemory>
    ensures { OnOk result (text.new.items ≡ text.old.items ++ server_text (option_map server (Some served.now))) }
{
    let bytes = served.stream.bytes.as_slice();
    text.extend_from_slice(b"server ")?;
    put_number(text, bytes.len() as u64, b' ')?;
    text.extend_from_slice(ending_word(served.stream.ending))?;
    text.push(b' ')?;
    put_takes(text, served.takes)?;
    put_line(text, bytes, b"")
}

/// Writes the entry of a server.
fn put_server(text: &mut Vec<u8>, entry: &Option<ServerSpec>) -> Result<(), OutOfMemory>
    ensures { OnOk result (text.new.items ≡ text.old.items ++ server_text (option_map server entry.now)) }
{
    match entry {
        None => put_line(text, b"server refused", b""),
        Some(served) => put_served(text, served),
    }
}

/// Writes the entries of servers.
fn put_servers(text: &mut Vec<u8>, entries: &[Option<ServerSpec>]) -> Result<(), OutOfMemory>
    ensures { OnOk result (text.new.items ≡ text.old.items ++ flat_map server_text (servers entries.now)) }
{
    for entry in entries {
        put_server(text, entry)?;
    }
    Ok(())
}

/// Writes the entries of a connection.
fn put_visit(text: &mut Vec<u8>, conn: &Connection) -> Result<(), OutOfMemory>
    ensures { OnOk result (text.new.items ≡ text.old.items ++ visit_text (visit conn.now)) }
{
    put_client(text, &conn.client)?;
    put_servers(text, &conn.servers)
}

/// Writes connections.
fn put_each(text: &mut Vec<u8>, conns: &[Connection]) -> Result<(), OutOfMemory>
    ensures { OnOk result (text.new.items ≡ text.old.items ++ flat_map visit_text (visits conns.now)) }
{
    for conn in conns {
        put_visit(text, conn)?;
    }
    Ok(())
}

/// Writes connections, with their number in front.
fn put_numbered(text: &mut Vec<u8>, conns: &[Connection]) -> Result<(), OutOfMemory>
    ensures { OnOk result (text.new.items ≡ text.old.items ++ numbered_text (length conns.now) (visits conns.now)) }
{
    text.extend_from_slice(b"connections ")?;
    put_number(text, conns.len() as u64, b'\n')?;
    put_each(text, conns)
}

/// Writes the format and the connections.
fn put_visits(text: &mut Vec<u8>, conns: &[Connection]) -> Result<(), OutOfMemory>
    ensures { OnOk result (text.new.items ≡ text.old.items ++ (codes "PXREC 2\n" ++ visits_text (visits conns.now))) }
{
    text.extend_from_slice(b"PXREC 2\n")?;
    put_numbered(text, conns)
}

/// Who moves, and at most how many bytes.
fn parts_of(turn: Turn) -> (u8, u32)
    ensures letter { result.0 ∷ [] ≡ letter_of turn }
    ensures moved { result.1 ≡ moved_of turn }
{
    match turn {
        Turn::ClientGives(n) => (b'c', n),
        Turn::ClientTakes(n) => (b'C', n),
        Turn::ServerGives(n) => (b's', n),
        Turn::ServerTakes(n) => (b'S', n),
    }
}

/// Writes a turn.
fn put_turn(text: &mut Vec<u8>, owner: u32, turn: Turn) -> Result<(), OutOfMemory>
    ensures { OnOk result (text.new.items ≡ text.old.items ++ turn_text (owner, turn)) }
{
    let (letter, moved) = parts_of(turn);
    put_number(text, owner as u64, b' ')?;
    text.push(letter)?;
    text.push(b' ')?;
    put_number(text, moved as u64, b'\n')
}

/// Writes turns.
fn put_moves(text: &mut Vec<u8>, turns: &[(u32, Turn)]) -> Result<(), OutOfMemory>
    ensures { OnOk result (text.new.items ≡ text.old.items ++ flat_map turn_text turns.now) }
{
    for turn in turns {
        put_turn(text, turn.0, turn.1)?;
    }
    Ok(())
}

/// Writes the turns, with their number in front.
fn put_turns(text: &mut Vec<u8>, turns: &[(u32, Turn)]) -> Result<(), OutOfMemory>
    ensures { OnOk result (text.new.items ≡ text.old.items ++ turns_text turns.now) }
{
    text.extend_from_slice(b"turns ")?;
    put_number(text, turns.len() as u64, b'\n')?;
    put_moves(text, turns)
}

/// About how long the entries of servers are.
fn room_for_servers(servers: &[Option<ServerSpec>]) -> usize {
    let mut room = servers.len().saturating_mul(ENTRY_ROOM);
    for served in servers.iter().flatten() {
        room = room.saturating_add(served.stream.bytes.as_slice().len());
    }
    room
}

/// About how long the text is, so that its memory is taken at once.
fn room_for(rec: &Record) -> usize {
    let mut room = rec.turns.len().saturating_mul(ENTRY_ROOM / 2);
    for conn in &rec.conns {
        room = room.saturating_add(ENTRY_ROOM);
        room = room.saturating_add(conn.client.bytes.as_slice().len());
        room = room.saturating_add(room_for_servers(&conn.servers));
    }
    room
}

/// Writes a record in the second format, whatever its own is. Want of memory is its only error.
#[tactic(auto, unfolding(crate::specs::Written::written))]
pub fn write_record(alloc: Global, rec: &Record) -> Result<Bytes, OutOfMemory>
    ensures { IfOk result (λ text. text ≡ written (meaning_of rec.now)) }
{
    let mut text = Vec::with_capacity(alloc, room_for(rec))?;
    put_visits(&mut text, &rec.conns)?;
    put_turns(&mut text, &rec.turns)?;
    put_line(&mut text, b"end", b"")?;
    Ok(Bytes::from(text))
}
