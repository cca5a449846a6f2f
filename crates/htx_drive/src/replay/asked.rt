//! Sessions whose servers are FastCGI applications.
ghost use Rattle.std.specs.Prelude.{IfOk};
ghost use Rattle.rec_format.specs.ReportParts.{out_of};
ghost use Rattle.htx_drive.specs.Replay.Asked.{ReplaysAsking};
ghost use Rattle.htx_drive.specs.Replay.Streams.{visit_in};

use crate::replay::budget::budget_asking;
use crate::replay::cores::Cores;
use crate::replay::links::{client_link, net_for};
use crate::replay::outcome::report_of;
use crate::replay::sessions::run_over;
use crate::replay::streams::Streams;
use crate::weave::Conn;
use crate::{Address, Machine, OutOfMemory, Turn};
use fcgi_link::{AppLink, AppNet};
use px_link::{Application, ListTurns};
use rec_format::Report;
use std::alloc::Global;

/// How the servers of a connection are asked.
#[derive(Drop)]
pub struct Asked {
    pub application: Application,
    /// The head of an answer may have so many bytes.
    pub limit: u32,
}

/// Runs the session of these streams by these turns, where the bytes of each server are records of this application, and reports it: of each server the
/// records that it was sent. How many bytes a server takes counts those. Records take no turn. Want of memory is the only error.
pub fn replay_asking<C: Machine + Drop, K: Cores<C>>(
    alloc: Global,
    cores: &K,
    to: &Address,
    streams: Streams<'_>,
    turns: Vec<Turn>,
    asked: Asked,
) -> Result<Report, OutOfMemory>
    requires ready { K.ready cores.now }
    ensures { IfOk result (λ report. ReplaysAsking asked.application asked.limit (C.meaning (K.settings cores.now)) (C.stands (K.settings cores.now)) C.seen turns.items (visit_in streams.entry) (out_of report)) }
{
    let Some(budget) = budget_asking(&streams, cores.bufsize()) else {
        return Err(OutOfMemory);
    };
    let client = client_link(alloc, streams.client)?;
    let found = net_for(alloc, streams.servers)?;
    let mut over = Conn {
        client: AppLink::plain(client),
        net: AppNet::asking(alloc, found, asked.application, asked.limit),
        server: None,
        ran: None,
    };
    let mut turns = ListTurns::new(turns);
    let mut core = cores.core(alloc)?;
    let ran = run_over(cores, &mut core, to, budget, &mut over, &mut turns)?;
    report_of(alloc, ran, over.client.inner(), over.net.inner())
}
