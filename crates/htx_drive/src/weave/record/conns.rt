//! The connections of a record, over links and nets in memory.
ghost use Rattle.std.specs.Prelude.{IfOk};
ghost use Rattle.rec_format.specs.Read.{visit, visits};
ghost use Rattle.htx_drive.specs.Weave.Memory.{IsFreshConn, AreFreshConns};

use crate::OutOfMemory;
use crate::replay::links::{client_link, net_for};
use crate::replay::record_net::RecordNet;
use crate::weave::conn::Conn;
use px_link::MemLink;
use rec_format::Connection;
use std::alloc::Global;

/// A connection of a record.
fn conn_for(alloc: Global, conn: &Connection) -> Result<Conn<MemLink, RecordNet>, OutOfMemory>
    ensures { IfOk result (IsFreshConn (visit conn.now)) }
{
    let client = client_link(alloc, &conn.client)?;
    let net = net_for(alloc, &conn.servers)?;
    Ok(Conn::new(client, net))
}

/// The connections of a record, in their order.
pub(crate) fn conns_for(
    alloc: Global,
    conns: &[Connection],
) -> Result<Vec<Conn<MemLink, RecordNet>>, OutOfMemory>
    ensures { IfOk result (λ all. AreFreshConns (visits conns.now) all.items) }
{
    let mut all = Vec::new(alloc);
    for conn in conns {
        let one = conn_for(alloc, conn)?;
        all.push(one)?;
    }
    Ok(all)
}
