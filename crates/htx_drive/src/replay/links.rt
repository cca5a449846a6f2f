//! The client and the servers of a connection, as links in memory.
ghost use Rattle.std.specs.Prelude.{◌≡◌, None, Some, true, option_map, map, IfOk};
ghost use Rattle.std.specs.List.{list_all};
ghost use Rattle.px_link.specs.MemLink.{is_unused_or_none};
ghost use Rattle.px_link.specs.MemNet.{coming};
ghost use Rattle.rec_format.specs.Read.{stream, server, servers};
ghost use Rattle.htx_drive.specs.Replay.Memory.{answer_of};
ghost use Rattle.htx_drive.specs.Replay.Seen.{IsFresh, IsFreshNet};

use crate::OutOfMemory;
use crate::replay::record_net::RecordNet;
use px_link::{MemLink, MemNet};
use rec_format::{ServerSpec, Stream};
use std::alloc::Global;

/// The link of a client, or of a server that takes so much.
fn link_for(alloc: Global, side: &Stream, takes: Option<u64>) -> Result<MemLink, OutOfMemory>
    ensures { IfOk result (λ link. IsFresh (stream side.now) takes link) }
{
    MemLink::new(alloc, side.bytes.as_slice(), side.ending, takes)
}

/// The link of a client, which takes all that it is sent.
pub(crate) fn client_link(alloc: Global, client: &Stream) -> Result<MemLink, OutOfMemory>
    ensures { IfOk result (λ link. IsFresh (stream client.now) None link) }
{
    link_for(alloc, client, None)
}

/// The link of a server, none for a refused one.
fn server_link(alloc: Global, entry: &Option<ServerSpec>) -> Result<Option<MemLink>, OutOfMemory>
    ensures answer { IfOk result (λ link. option_map coming link ≡ answer_of (option_map server entry.now)) }
    ensures unused { IfOk result (λ link. is_unused_or_none link ≡ true) }
{
    match entry {
        None => Ok(None),
        Some(server) => Ok(Some(link_for(alloc, &server.stream, server.takes)?)),
    }
}

/// The links of servers.
fn server_links(
    alloc: Global,
    entries: &[Option<ServerSpec>],
) -> Result<Vec<Option<MemLink>>, OutOfMemory>
    ensures answers { IfOk result (λ links. map (option_map coming) links.items ≡ map answer_of (servers entries.now)) }
    ensures unused { IfOk result (λ links. list_all is_unused_or_none links.items ≡ true) }
{
    let mut links = Vec::new(alloc);
    for entry in entries {
        let link = server_link(alloc, entry)?;
        links.push(link)?;
    }
    Ok(links)
}

/// The net on which the connects find these servers in their order, and are refused past them.
pub(crate) fn net_for(
    alloc: Global,
    entries: &[Option<ServerSpec>],
) -> Result<RecordNet, OutOfMemory>
    ensures { IfOk result (λ net. IsFreshNet (servers entries.now) net.net net.refused) }
{
    let links = server_links(alloc, entries)?;
    let net = MemNet::new(alloc, Vec::new(alloc), links)?;
    Ok(RecordNet { net, refused: 0 })
}
