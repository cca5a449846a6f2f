//! Sessions whose servers are sent a header first.
ghost use Rattle.std.specs.Prelude.{Some, IfOk};
ghost use Rattle.px_proxyproto.specs.Nets.{manner_of};
ghost use Rattle.rec_format.specs.ReportParts.{out_of};
ghost use Rattle.htx_drive.specs.Replay.Headed.{ReplaysIn};
ghost use Rattle.htx_drive.specs.Replay.Streams.{visit_in};

use crate::replay::budget::budget_for;
use crate::replay::cores::Cores;
use crate::replay::links::{client_link, net_for};
use crate::replay::outcome::report_of;
use crate::replay::sessions::run_over;
use crate::replay::streams::Streams;
use crate::weave::Conn;
use crate::{Address, Machine, OutOfMemory, Turn};
use px_link::ListTurns;
use px_proxyproto::{Heading, Introduces, SendLink, SendNet};
use rec_format::Report;
use std::alloc::Global;

/// Runs the session of these streams by these turns, where each server is sent this header in front of its text, and reports it: of each server what it was
/// sent, header and all, which are the bytes that its number counts. A header takes no turn. Want of memory is the only error.
pub fn replay_headed<C: Machine + Drop, K: Cores<C>>(
    alloc: Global,
    cores: &K,
    to: &Address,
    streams: Streams<'_>,
    turns: Vec<Turn>,
    heading: Heading,
) -> Result<Report, OutOfMemory>
    requires ready { K.ready cores.now }
    ensures { IfOk result (λ report. ReplaysIn (manner_of (Some heading)) (C.meaning (K.settings cores.now)) (C.stands (K.settings cores.now)) C.seen turns.items (visit_in streams.entry) (out_of report)) }
{
    let Some(budget) = budget_for(&streams, cores.bufsize()) else {
        return Err(OutOfMemory);
    };
    let client = client_link(alloc, streams.client)?;
    let found = net_for(alloc, streams.servers)?;
    let mut net = SendNet::new(found);
    net.introduce(Some(heading));
    let mut over = Conn {
        client: SendLink::plain(client),
        net,
        server: None,
        ran: None,
    };
    let mut turns = ListTurns::new(turns);
    let mut core = cores.core(alloc)?;
    let ran = run_over(cores, &mut core, to, budget, &mut over, &mut turns)?;
    report_of(alloc, ran, over.client.inner(), over.net.inner())
}
