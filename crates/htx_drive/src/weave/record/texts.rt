//! What is written of the connections of a record that shared cores.
ghost use Rattle.std.specs.Prelude.{◌<◌, ◌≤◌, length, IfOk};
ghost use Rattle.rec_format.specs.Read.{meaning_of};
ghost use Rattle.rec_format.specs.Numbered.{IsNumbered};
ghost use Rattle.htx_drive.specs.Replay.Written.{IsReplayOf};
ghost use Rattle.htx_drive.specs.Weave.Recorded.{IsWeaveOf};

use crate::replay::Cores;
use crate::weave::record::woven::weave_record;
use crate::weave::resets::Resets;
use crate::{Address, OutOfMemory};
use px_link::Bytes;
use rec_format::{Record, write_reports};
use std::alloc::Global;

/// The report of a record, always in the second format: its connections run over so many cores. With a core for each connection it
/// is what `replay` writes of the record in that format. Want of memory is the only error.
pub fn weave_text<C: Resets + Drop, K: Cores<C>>(
    alloc: Global,
    cores: &K,
    to: &Address,
    recorded: &Record,
    sets: u32,
) -> Result<Bytes, OutOfMemory>
    requires ready { K.ready cores.now }
    requires some { 0 < sets }
    requires numbered { IsNumbered (meaning_of recorded.now) }
    ensures woven { IfOk result (IsWeaveOf (C.meaning (K.settings cores.now)) (C.stands (K.settings cores.now)) C.seen (meaning_of recorded.now)) }
    ensures at_once { length (meaning_of recorded.now).connections ≤ sets → IfOk result (IsReplayOf (C.meaning (K.settings cores.now)) (C.stands (K.settings cores.now)) C.seen (record (meaning_of recorded.now) { version = 2 })) }
{
    let reports = weave_record(alloc, cores, to, recorded, sets)?;
    let text = write_reports(alloc, 2, &reports);
    drop(reports);
    text
}
