//! What is written of the sessions of a record, and of a generated session.
ghost use Rattle.std.specs.Prelude.{vec_len, IfOk};
ghost use Rattle.rec_format.specs.Read.{meaning_of};
ghost use Rattle.rec_format.specs.Reports.{Reportable};
ghost use Rattle.htx_drive.specs.Replay.Written.{IsReplayOf, IsDrillOf};

use crate::drill::{drill, write_lines};
use crate::replay::cores::Cores;
use crate::replay::over_cores::OverCores;
use crate::replay::reports::report_text;
use crate::replay::sessions::replay_connection;
use crate::{Address, Machine, OutOfMemory};
use px_link::Bytes;
use rec_format::Record;
use std::alloc::Global;

/// The report of a record: its sessions are run one after another. Want of memory is the only error.
pub fn replay_text<C: Machine + Drop, K: Cores<C>>(
    alloc: Global,
    cores: &K,
    to: &Address,
    recorded: &Record,
) -> Result<Bytes, OutOfMemory>
    requires ready { K.ready cores.now }
    requires reportable { Reportable recorded.now.version (vec_len recorded.now.conns) }
    ensures { IfOk result (IsReplayOf (C.meaning (K.settings cores.now)) (C.stands (K.settings cores.now)) C.seen (meaning_of recorded.now)) }
{
    let over = OverCores::new(cores, to);
    report_text(alloc, &over, recorded)
}

/// The lines of the generated session of a seed and a number of exchanges. Want of memory is the only error.
pub fn drill_text<C: Machine + Drop, K: Cores<C>>(
    alloc: Global,
    cores: &K,
    to: &Address,
    seed: u32,
    exchanges: u32,
) -> Result<Bytes, OutOfMemory>
    requires ready { K.ready cores.now }
    ensures { IfOk result (IsDrillOf (C.meaning (K.settings cores.now)) (C.stands (K.settings cores.now)) C.seen seed exchanges) }
{
    let conn = drill(alloc, seed, exchanges)?;
    let replayed = replay_connection(alloc, cores, to, &conn, Vec::new(alloc));
    drop(conn);
    let report = replayed?;
    let lines = write_lines(alloc, &report);
    drop(report);
    lines
}
