//! The connections of a record, each on a net of its own, on which no call fails.
ghost use Rattle.std.specs.Prelude.{◌≡◌, None, length, IfOk};
ghost use Rattle.rec_format.specs.Read.{visits};
ghost use Rattle.htx_drive.specs.Weave.Outcome.{AreNew};

use crate::served::links::{client, put_servers};
use case_rows::{Call, Fault};
use htx_drive::weave::Conn;
use px_link::{MemLink, MemNet};
use rec_format::Connection;
use std::alloc::Global;

/// A connection of a record.
fn conn_of(alloc: Global, conn: &Connection) -> Result<Conn<MemLink, MemNet>, Fault>
    ensures { IfOk result (λ conn. (conn.server ≡ None) × (conn.ran ≡ None)) }
{
    let (nothing, _) = Call::first(b"nothing");
    let client = client(alloc, conn, &nothing, 0)?;
    let mut servers = Vec::new(alloc);
    put_servers(alloc, &conn.servers, &nothing, &mut servers)?;
    let net = MemNet::new(alloc, Vec::new(alloc), servers)?;
    Ok(Conn::new(client, net))
}

/// The connections of a record, in their order.
pub(crate) fn conns_of(
    alloc: Global,
    conns: &[Connection],
) -> Result<Vec<Conn<MemLink, MemNet>>, Fault>
    ensures new { IfOk result (λ all. AreNew all.items) }
    ensures count { IfOk result (λ all. length all.items ≡ length (visits conns.now)) }
{
    let mut all = Vec::new(alloc);
    for conn in conns {
        let one = conn_of(alloc, conn)?;
        all.push(one)?;
    }
    Ok(all)
}
