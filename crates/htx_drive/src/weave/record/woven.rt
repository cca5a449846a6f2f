//! The connections of a record over so many cores.
ghost use Rattle.std.specs.Prelude.{◌≡◌, ◌<◌, ◌≤◌, length, map, IfOk, OnOk};
ghost use Rattle.px_link.specs.Net.{address_of};
ghost use Rattle.px_link.specs.MemLink.{link_of};
ghost use Rattle.rec_format.specs.Read.{visits, meaning_of};
ghost use Rattle.rec_format.specs.ReportParts.{out_of};
ghost use Rattle.rec_format.specs.Numbered.{IsNumbered};
ghost use Rattle.htx_drive.specs.Replay.Replayed.{ReplaysAll};
ghost use Rattle.htx_drive.specs.Replay.Seen.{wrote_by};
ghost use Rattle.htx_drive.specs.Weave.Outcome.{AllEnded, AllEndedAtOnce};
ghost use Rattle.htx_drive.specs.Weave.Memory.{AreFreshConns, sees_net};
ghost use Rattle.htx_drive.specs.Weave.Recorded.{WeavesAll};

use crate::replay::Cores;
use crate::replay::record_net::RecordNet;
use crate::weave::conn::Conn;
use crate::weave::fault::WeaveFault;
use crate::weave::record::budget::budget_for;
use crate::weave::record::conns::conns_for;
use crate::weave::record::laws::each_pays_less;
use crate::weave::record::reports::reports_for;
use crate::weave::record::sets::pool_of;
use crate::weave::record::turns::RecordTurns;
use crate::weave::resets::Resets;
use crate::weave::sessions::weave;
use crate::{Address, OutOfMemory};
use px_link::MemLink;
use rec_format::{Record, Report};
use std::alloc::Global;

/// The one fault that connections over links in memory have: a budget that is enough for all is never spent.
fn only_memory(fault: WeaveFault) -> OutOfMemory
    requires { fault ≡ WeaveFault.OutOfMemory }
{
    let _ = fault;
    OutOfMemory
}

/// Runs the connections of a record over their links and nets, and over so many cores.
fn weave_over<C: Resets + Drop, K: Cores<C>>(
    alloc: Global,
    cores: &K,
    to: &Address,
    recorded: &Record,
    sets: u32,
    conns: &mut [Conn<MemLink, RecordNet>],
) -> Result<(), OutOfMemory>
    requires ready { K.ready cores.now }
    requires some { 0 < sets }
    requires new { AreFreshConns (visits recorded.now.conns.items) conns.old }
    requires numbered { IsNumbered (meaning_of recorded.now) }
    ensures length { length conns.new ≡ length conns.old }
    ensures ended { OnOk result (AllEnded (C.meaning (K.settings cores.now)) (C.stands (K.settings cores.now)) C.seen link_of wrote_by sees_net (address_of to.now) recorded.now.turns.items conns.old conns.new) }
    ensures at_once { length conns.old ≤ sets → OnOk result (AllEndedAtOnce (C.meaning (K.settings cores.now)) (C.stands (K.settings cores.now)) C.seen link_of wrote_by sees_net (address_of to.now) recorded.now.turns.items conns.old conns.new) }
{
    let Some(budget) = budget_for(&recorded.conns, cores.bufsize()) else {
        return Err(OutOfMemory);
    };
    let mut pool = pool_of(alloc, cores, sets)?;
    let mut turns = RecordTurns::new(&recorded.turns);
    each_pays_less::<C, K>();
    match weave(&mut pool, to, conns, &mut turns, budget) {
        Ok(()) => Ok(()),
        Err(fault) => Err(only_memory(fault)),
    }
}

/// Runs the connections of a record over so many cores, interleaved by its turns. With a core for each connection no turn waits. Want of memory
/// is the only error.
pub fn weave_record<C: Resets + Drop, K: Cores<C>>(
    alloc: Global,
    cores: &K,
    to: &Address,
    recorded: &Record,
    sets: u32,
) -> Result<Vec<Report>, OutOfMemory>
    requires ready { K.ready cores.now }
    requires some { 0 < sets }
    requires numbered { IsNumbered (meaning_of recorded.now) }
    ensures woven { IfOk result (λ reports. WeavesAll (C.meaning (K.settings cores.now)) (C.stands (K.settings cores.now)) C.seen recorded.now.turns.items (visits recorded.now.conns.items) (map out_of reports.items)) }
    ensures at_once { length (meaning_of recorded.now).connections ≤ sets → IfOk result (λ reports. ReplaysAll (C.meaning (K.settings cores.now)) (C.stands (K.settings cores.now)) C.seen recorded.now.turns.items (visits recorded.now.conns.items) (map out_of reports.items)) }
{
    let mut conns = conns_for(alloc, &recorded.conns)?;
    weave_over(alloc, cores, to, recorded, sets, &mut conns)?;
    reports_for(alloc, &conns)
}
