//! The links of a record's clients and servers, and the net on which they stand.
ghost use Rattle.std.specs.Prelude.{◌≡◌, true, IfOk};
ghost use Rattle.std.specs.List.{list_all};
ghost use Rattle.px_link.specs.MemLink.{is_unused, is_unused_or_none};

use crate::served::failing::{calls_of, calls_of_link};
use case_rows::{Call, Fault};
use px_link::{MemLink, MemNet};
use rec_format::{Connection, Record, ServerSpec, Stream};
use std::alloc::Global;

/// A link of which the calls of these numbers fail.
fn link(
    alloc: Global,
    stream: &Stream,
    takes: Option<u64>,
    reads: Vec<u64>,
    writes: Vec<u64>,
) -> Result<MemLink, Fault>
    ensures { IfOk result (λ link. is_unused link ≡ true) }
{
    let mut link = MemLink::new(alloc, stream.bytes.as_slice(), stream.ending, takes)?;
    link.fail_at(reads);
    link.fail_writes_at(writes);
    Ok(link)
}

/// The link of a client, behind so many others.
pub(crate) fn client(
    alloc: Global,
    conn: &Connection,
    failing: &Call<'_>,
    before: usize,
) -> Result<MemLink, Fault>
    ensures { IfOk result (λ link. is_unused link ≡ true) }
{
    let reads = calls_of_link(alloc, failing, "client_read", before)?;
    let writes = calls_of_link(alloc, failing, "client_write", before)?;
    link(alloc, &conn.client, None, reads, writes)
}

/// The link of a server, behind so many others; none for a refused one.
fn server(
    alloc: Global,
    entry: &Option<ServerSpec>,
    failing: &Call<'_>,
    before: usize,
) -> Result<Option<MemLink>, Fault>
    ensures { IfOk result (λ link. is_unused_or_none link ≡ true) }
{
    let Some(server) = entry else {
        return Ok(None);
    };
    let reads = calls_of_link(alloc, failing, "server_read", before)?;
    let writes = calls_of_link(alloc, failing, "server_write", before)?;
    Ok(Some(link(alloc, &server.stream, server.takes, reads, writes)?))
}

/// The links of the clients.
fn clients(alloc: Global, conns: &[Connection], failing: &Call<'_>) -> Result<Vec<MemLink>, Fault>
    ensures { IfOk result (λ links. list_all is_unused links.items ≡ true) }
{
    let mut links = Vec::new(alloc);
    for conn in conns {
        let link = client(alloc, conn, failing, links.len())?;
        links.push(link)?;
    }
    Ok(links)
}

/// The links of the servers of one connection, behind others.
pub(crate) fn put_servers(
    alloc: Global,
    entries: &[Option<ServerSpec>],
    failing: &Call<'_>,
    links: &mut Vec<Option<MemLink>>,
) -> Result<(), Fault>
    requires { list_all is_unused_or_none links.old.items ≡ true }
    ensures { list_all is_unused_or_none links.new.items ≡ true }
{
    for entry in entries {
        let link = server(alloc, entry, failing, links.len())?;
        links.push(link)?;
    }
    Ok(())
}

/// The links of the servers of all connections.
fn servers(
    alloc: Global,
    conns: &[Connection],
    failing: &Call<'_>,
) -> Result<Vec<Option<MemLink>>, Fault>
    ensures { IfOk result (λ links. list_all is_unused_or_none links.items ≡ true) }
{
    let mut links = Vec::new(alloc);
    for conn in conns {
        put_servers(alloc, &conn.servers, failing, &mut links)?;
    }
    Ok(links)
}

/// The net on which the clients of a record come, and its servers stand.
pub(crate) fn net_of(alloc: Global, record: &Record, failing: &Call<'_>) -> Result<MemNet, Fault>
    ensures { IfOk result (λ net. net.lent ≡ 0) }
{
    let clients = clients(alloc, &record.conns, failing)?;
    let servers = servers(alloc, &record.conns, failing)?;
    let mut net = MemNet::new(alloc, clients, servers)?;
    net.fail_at(calls_of(alloc, failing, "net")?);
    Ok(net)
}
