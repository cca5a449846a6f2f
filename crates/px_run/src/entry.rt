//! The line of an exchange.
ghost use Rattle.std.specs.Prelude.{◌≡◌, ◌++◌, IfOk, OnOk};
ghost use Rattle.px_run.specs.Log.{or_dash, status_text, entry_head, entry_end, entry_line, entry_of};

use px_link::{Bytes, OutOfMemory};
use px_peer::Peer;
use px_proxyproto::address_text;
use std::alloc::Global;

/// What the line of an exchange tells, besides who asks and the words of its request line.
#[derive(Clone, Copy)]
pub(crate) struct Told {
    pub connection: u32,
    pub exchange: u32,
    pub status: Option<u16>,
    pub bytes: u64,
    pub milliseconds: u64,
}

/// The address and the port of who asks, and nothing where that isn't known. An address of IPv6 stands in brackets.
pub(crate) fn peer_text(alloc: Global, peer: &Option<Peer>) -> Result<Bytes, OutOfMemory> {
    let Some(peer) = peer else {
        return Bytes::copy(alloc, b"");
    };
    let mut address = [0; 107];
    let len = address_text(peer, &mut address);
    let mut text = Bytes::copy(alloc, if peer.v6 { b"[" } else { b"" })?;
    text.push(&address[..len])?;
    text.push(if peer.v6 { b"]:" } else { b":" })?;
    text.push(peer.port.to_string(alloc)?.as_bytes())?;
    Ok(text)
}

/// This text, and `-` in place of none.
fn or_dash(text: &[u8]) -> &[u8]
    ensures { result.now ≡ or_dash text.now }
{
    if text.is_empty() { b"-" } else { text }
}

/// Puts a status behind a line.
fn put_status(alloc: Global, line: &mut Bytes, status: Option<u16>) -> Result<(), OutOfMemory>
    ensures { OnOk result (line.new ≡ line.old ++ status_text status) }
{
    match status {
        Some(code) => line.push(code.to_string(alloc)?.as_bytes()),
        None => line.push(b"-"),
    }
}

/// What stands in front of who asks.
#[tactic(auto, unfolding(crate::specs::Log::entry_head))]
fn head_of_entry(alloc: Global, told: &Told) -> Result<Bytes, OutOfMemory>
    ensures { IfOk result (λ line. line ≡ entry_head told.now.connection told.now.exchange) }
{
    let mut line = Bytes::copy(alloc, b"connection ")?;
    line.push(told.connection.to_string(alloc)?.as_bytes())?;
    line.push(b" exchange ")?;
    line.push(told.exchange.to_string(alloc)?.as_bytes())?;
    line.push(b": ")?;
    Ok(line)
}

/// What stands behind the words of the request line.
#[tactic(auto, unfolding(crate::specs::Log::entry_end))]
fn end_of_entry(alloc: Global, told: &Told) -> Result<Bytes, OutOfMemory>
    ensures { IfOk result (λ line. line ≡ entry_end told.now.status told.now.bytes told.now.milliseconds) }
{
    let mut line = Bytes::copy(alloc, b" status ")?;
    put_status(alloc, &mut line, told.status)?;
    line.push(b" bytes ")?;
    line.push(told.bytes.to_string(alloc)?.as_bytes())?;
    line.push(b" ms ")?;
    line.push(told.milliseconds.to_string(alloc)?.as_bytes())?;
    line.push(b"\n")?;
    Ok(line)
}

/// The line of an exchange, of this peer and with these words.
#[tactic(auto, unfolding(crate::specs::Log::entry_line))]
pub(crate) fn line_of_entry(
    alloc: Global,
    told: &Told,
    peer: &[u8],
    words: &[u8],
) -> Result<Bytes, OutOfMemory>
    ensures { IfOk result (λ line. line ≡ entry_line (entry_of told.now peer.now words.now)) }
{
    let mut line = head_of_entry(alloc, told)?;
    line.push(or_dash(peer))?;
    line.push(b" ")?;
    line.push(or_dash(words))?;
    line.push(end_of_entry(alloc, told)?.as_slice())?;
    Ok(line)
}
