//! The report of a record, by whatever runs its connections.
ghost use Rattle.std.specs.Prelude.{map, vec_len, IfOk};
ghost use Rattle.rec_format.specs.Read.{meaning_of, visits};
ghost use Rattle.rec_format.specs.ReportParts.{out_of};
ghost use Rattle.rec_format.specs.Reports.{Reportable};
ghost use Rattle.htx_drive.specs.Replay.Replayed.{EachFrom};
ghost use Rattle.htx_drive.specs.Replay.Written.{IsReportOf};

use crate::OutOfMemory;
use crate::replay::replayer::Replayer;
use crate::replay::turns::turns_of;
use px_link::Bytes;
use rec_format::{Record, Report, write_reports};
use std::alloc::Global;

/// Runs the connections of a record one after another, each by the turns of its number. Want of memory is the only error.
pub(crate) fn reports_by<R: Replayer>(
    alloc: Global,
    replayer: &R,
    recorded: &Record,
) -> Result<Vec<Report>, OutOfMemory>
    requires ready { R.ready replayer.now }
    ensures { IfOk result (λ reports. EachFrom (R.comes_to replayer.now) recorded.now.turns.items 1 (visits recorded.now.conns.items) (map out_of reports.items)) }
{
    let mut reports = Vec::new(alloc);
    let mut owner = 0u64;
    for conn in &recorded.conns {
        owner += 1;
        let turns = turns_of(alloc, owner, &recorded.turns)?;
        let report = replayer.run(alloc, conn, turns)?;
        reports.push(report)?;
    }
    Ok(reports)
}

/// The report of a record, in its format, of what its connections came to. Want of memory is the only error.
pub fn report_text<R: Replayer>(
    alloc: Global,
    replayer: &R,
    recorded: &Record,
) -> Result<Bytes, OutOfMemory>
    requires ready { R.ready replayer.now }
    requires reportable { Reportable recorded.now.version (vec_len recorded.now.conns) }
    ensures { IfOk result (IsReportOf (R.comes_to replayer.now) (meaning_of recorded.now)) }
{
    let reports = reports_by(alloc, replayer, recorded)?;
    let text = write_reports(alloc, recorded.version, &reports);
    drop(reports);
    text
}
