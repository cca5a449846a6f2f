//! The sessions of a record.
ghost use Rattle.std.specs.Prelude.{◌≡◌, false, map, IfOk};
ghost use Rattle.session_core.specs.History.{nothing_yet};
ghost use Rattle.px_link.specs.Net.{address_of};
ghost use Rattle.rec_format.specs.Recorded.{Visit};
ghost use Rattle.rec_format.specs.Read.{visit, visits};
ghost use Rattle.rec_format.specs.ReportParts.{out_of};
ghost use Rattle.htx_drive.specs.Replay.Replayed.{Replays, ReplaysAll};
ghost use Rattle.htx_drive.specs.Replay.Seen.{IsPaid, IsUntouched, IsUntouchedNet, RanByTurns};
ghost use Rattle.htx_drive.specs.Replay.Streams.{visit_in};

use crate::replay::budget::budget_for;
use crate::replay::cores::Cores;
use crate::replay::laws::only_want_of_memory_gives_up;
use crate::replay::links::{client_link, net_for};
use crate::replay::outcome::report_of;
use crate::replay::over_cores::OverCores;
use crate::replay::reports::reports_by;
use crate::replay::streams::Streams;
use crate::weave::Conn;
use crate::{
    Address, Link, MOST_READ, Machine, Net, OutOfMemory, Ran, Resources, SessionFault, Turn,
    run_session,
};
use px_link::ListTurns;
use rec_format::{Connection, Record, Report};
use std::alloc::Global;

/// The one fault that a session over such links has: with a budget that is enough it is never spent, and no write to the client
/// fails.
fn only_memory(fault: SessionFault) -> OutOfMemory
    requires { fault ≡ SessionFault.OutOfMemory }
{
    let _ = fault;
    OutOfMemory
}

/// Runs the session of a connection over its link and its net, of which this budget is enough.
pub(crate) fn run_over<C: Machine, K: Cores<C>, L: Link, N: Net<Link = L>>(
    cores: &K,
    core: &mut C,
    to: &Address,
    budget: u64,
    over: &mut Conn<L, N>,
    turns: &mut ListTurns,
) -> Result<Ran, OutOfMemory>
    requires ready { K.ready cores.now }
    requires stands { C.stands (K.settings cores.now) core.old nothing_yet }
    requires idle { (C.seen core.old).serving ≡ false }
    requires sound { C.sound core.old }
    requires paid { IsPaid L.seen L.wrote over.old.client (N.seen over.old.net) (C.meaning (K.settings cores.now)).limits.bufsize budget }
    ensures { IfOk result (λ ran. (visit : Visit) → IsUntouched L.seen L.wrote visit.client over.old.client → IsUntouchedNet visit.servers (N.seen over.old.net)
        → RanByTurns (C.meaning (K.settings cores.now)) (C.stands (K.settings cores.now)) C.seen turns.old turns.new visit L.seen L.wrote over.old.client over.new.client (address_of to.now) (N.seen over.old.net) (N.seen over.new.net) ran) }
{
    only_want_of_memory_gives_up::<C, K, L, N>();
    let mut resources = Resources {
        left: budget,
        buffer: [0; MOST_READ],
    };
    match run_session(
        core,
        to,
        &mut over.client,
        &mut over.net,
        turns,
        &mut resources,
    ) {
        Ok(ran) => Ok(ran),
        Err(fault) => Err(only_memory(fault)),
    }
}

/// Runs the session of these streams by these turns, and reports it. Want of memory is the only error.
pub fn replay_streams<C: Machine + Drop, K: Cores<C>>(
    alloc: Global,
    cores: &K,
    to: &Address,
    streams: Streams<'_>,
    turns: Vec<Turn>,
) -> Result<Report, OutOfMemory>
    requires ready { K.ready cores.now }
    ensures { IfOk result (λ report. Replays (C.meaning (K.settings cores.now)) (C.stands (K.settings cores.now)) C.seen turns.items (visit_in streams.entry) (out_of report)) }
{
    let Some(budget) = budget_for(&streams, cores.bufsize()) else {
        return Err(OutOfMemory);
    };
    let client = client_link(alloc, streams.client)?;
    let net = net_for(alloc, streams.servers)?;
    let mut over = Conn {
        client,
        net,
        server: None,
        ran: None,
    };
    let mut turns = ListTurns::new(turns);
    let mut core = cores.core(alloc)?;
    let ran = run_over(cores, &mut core, to, budget, &mut over, &mut turns)?;
    report_of(alloc, ran, &over.client, &over.net)
}

/// The same of a connection of a record.
pub fn replay_connection<C: Machine + Drop, K: Cores<C>>(
    alloc: Global,
    cores: &K,
    to: &Address,
    conn: &Connection,
    turns: Vec<Turn>,
) -> Result<Report, OutOfMemory>
    requires ready { K.ready cores.now }
    ensures { IfOk result (λ report. Replays (C.meaning (K.settings cores.now)) (C.stands (K.settings cores.now)) C.seen turns.items (visit conn.now) (out_of report)) }
{
    let streams = Streams {
        client: &conn.client,
        servers: &conn.servers,
    };
    replay_streams(alloc, cores, to, streams, turns)
}

/// Runs the sessions of a record one after another, each with a core of its own and by the turns of its number. Want of memory is the
/// only error.
pub fn replay<C: Machine + Drop, K: Cores<C>>(
    alloc: Global,
    cores: &K,
    to: &Address,
    recorded: &Record,
) -> Result<Vec<Report>, OutOfMemory>
    requires ready { K.ready cores.now }
    ensures { IfOk result (λ reports. ReplaysAll (C.meaning (K.settings cores.now)) (C.stands (K.settings cores.now)) C.seen recorded.now.turns.items (visits recorded.now.conns.items) (map out_of reports.items)) }
{
    let over = OverCores::new(cores, to);
    reports_by(alloc, &over, recorded)
}
