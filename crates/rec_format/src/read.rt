//! The connections of a record.
ghost use Rattle.std.specs.Prelude.{◌≡◌, ◌∷◌, ℕ, IfOk, option_map};
ghost use Rattle.rec_format.specs.Lent.{stream_seen, server_seen};
ghost use Rattle.rec_format.specs.Pieces.{before};
ghost use Rattle.rec_format.specs.Read.{Gives, fault_of, stream, server, stream_behind, server_behind};
ghost use Rattle.rec_format.specs.Recorded.{word_of, client_of, server_of, is_server, refusal_at};

use crate::entries::{LentServer, LentStream};
use crate::record::{RecFault, RecKind, ServerSpec, Stream};
use crate::{entries, pieces};
use px_link::{Bytes, OutOfMemory};
use std::alloc::Global;

/// The refusal of the line in front of a text, which is the end of a record of so many bytes.
pub(crate) fn refusal(total: u32, text: &[u8], kind: RecKind) -> RecFault
    ensures { result ≡ fault_of (refusal_at total text.now kind) }
{
    let place = (total as usize).saturating_sub(text.len()) as u32;
    RecFault::Refused { place, kind }
}

/// The first word of the line in front.
pub(crate) fn word(text: &[u8]) -> &[u8]
    ensures { result.now ≡ word_of text.now }
{
    let (line, _) = pieces::split(text, b'\n');
    let (word, _) = pieces::split(line, b' ');
    word
}

/// A stream of its own.
fn own_stream(alloc: Global, lent: LentStream<'_>) -> Result<Stream, OutOfMemory>
    ensures { IfOk result (λ own. stream own ≡ stream_seen lent.entry) }
{
    Ok(Stream {
        bytes: Bytes::copy(alloc, lent.bytes)?,
        ending: lent.ending,
    })
}

/// A server of its own.
fn own_server(
    alloc: Global,
    lent: Option<LentServer<'_>>,
) -> Result<Option<ServerSpec>, OutOfMemory>
    ensures { IfOk result (λ own. option_map server own ≡ option_map server_seen lent.entry) }
{
    match lent {
        None => Ok(None),
        Some(lent) => {
            let stream = own_stream(alloc, lent.stream)?;
            Ok(Some(ServerSpec {
                stream,
                takes: lent.takes,
            }))
        }
    }
}

/// The client's entry in front.
pub(crate) fn client(alloc: Global, total: u32, text: &[u8]) -> Result<(Stream, &[u8]), RecFault>
    ensures { Gives stream_behind result (client_of total text.now) }
{
    match entries::client(text) {
        None => Err(refusal(total, text, RecKind::Length)),
        Some((lent, rest)) => match own_stream(alloc, lent) {
            Ok(own) => Ok((own, rest)),
            Err(OutOfMemory) => Err(RecFault::OutOfMemory),
        },
    }
}

/// The server's entry in front.
pub(crate) fn server(
    alloc: Global,
    total: u32,
    text: &[u8],
) -> Result<(Option<ServerSpec>, &[u8]), RecFault>
    ensures { Gives server_behind result (server_of total text.now) }
{
    match entries::server(text) {
        None => Err(refusal(total, text, RecKind::Length)),
        Some((lent, rest)) => match own_server(alloc, lent) {
            Ok(own) => Ok((own, rest)),
            Err(OutOfMemory) => Err(RecFault::OutOfMemory),
        },
    }
}

/// Whether the line in front begins with `server`.
pub(crate) fn is_server(text: &[u8]) -> bool
    ensures { result ≡ is_server text.now }
{
    pieces::is_word(word(text), b"server")
}
