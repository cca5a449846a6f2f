//! How many turns the session of a connection may take.
ghost use Rattle.std.specs.Prelude.{◌≡◌, ℕ, IfSome, sum_by};
ghost use Rattle.htx_drive.specs.Budget.{enough};
ghost use Rattle.rec_format.specs.Read.{visit, servers};
ghost use Rattle.htx_drive.specs.Replay.Memory.{size_of, needed_by, IsEnough};
ghost use Rattle.htx_drive.specs.Replay.Asked.{visit_asked};
ghost use Rattle.htx_drive.specs.Replay.Streams.{visit_in};

use crate::replay::streams::Streams;
use fcgi_lane::answer::laws::stream_is_short;
use rec_format::{Connection, ServerSpec};

/// How many bytes servers give together; none where it is more than a number can say.
fn servers_size(entries: &[Option<ServerSpec>]) -> Option<u64>
    ensures { IfSome result (λ size. size ≡ sum_by size_of (servers entries.now)) }
{
    let mut size = 0u64;
    for entry in entries {
        if let Some(server) = entry {
            size = size.checked_add(server.stream.bytes.as_slice().len() as u64)?;
        }
    }
    Some(size)
}

/// So many turns are enough for so many bytes of a client and of servers, with buffers of this size; none where it is more than a
/// number can say.
fn turns_for(client: u64, servers: u64, bufsize: u32) -> Option<u64>
    ensures { IfSome result (λ budget. budget ≡ enough client servers client bufsize) }
{
    let buffers = client.checked_add(1)?.checked_mul(u64::from(bufsize))?;
    let bytes = client.checked_add(servers)?;
    let room = bytes.checked_add(buffers)?;
    room.checked_mul(2048)
}

/// So many turns are enough for the session of a connection. The client's bytes stand in the place of its requests.
pub(crate) fn budget_of(conn: &Connection, bufsize: u32) -> Option<u64>
    ensures { IfSome result (λ budget. budget ≡ needed_by (visit conn.now) bufsize) }
{
    let servers = servers_size(&conn.servers)?;
    turns_for(conn.client.bytes.as_slice().len() as u64, servers, bufsize)
}

/// The same for the session of these streams.
pub(crate) fn budget_for(streams: &Streams<'_>, bufsize: u32) -> Option<u64>
    ensures { IfSome result (λ budget. budget ≡ needed_by (visit_in streams.now) bufsize) }
{
    let servers = servers_size(streams.servers)?;
    turns_for(
        streams.client.bytes.as_slice().len() as u64,
        servers,
        bufsize,
    )
}

/// The same for the session of these streams, whose servers are applications: the HTTP stream of each may be longer than its own.
pub(crate) fn budget_asking(streams: &Streams<'_>, bufsize: u32) -> Option<u64>
    ensures { IfSome result (λ budget. (limit : ℕ) → IsEnough (visit_asked limit (visit_in streams.now)) bufsize budget) }
{
    stream_is_short();
    let own = servers_size(streams.servers)?;
    let more = (streams.servers.len() as u64).checked_mul(1024)?;
    turns_for(
        streams.client.bytes.as_slice().len() as u64,
        own.checked_add(more)?,
        bufsize,
    )
}
