//! The reports of connections that have ended.
ghost use Rattle.std.specs.Prelude.{map, IfOk};
ghost use Rattle.std.specs.List.{AllByRecursion, AllZip};
ghost use Rattle.rec_format.specs.ReportParts.{out_of};
ghost use Rattle.htx_drive.specs.Weave.Memory.{HasRun, ComesTo};

use crate::OutOfMemory;
use crate::replay::outcome::report_of;
use crate::replay::record_net::RecordNet;
use crate::weave::conn::Conn;
use px_link::MemLink;
use rec_format::Report;
use std::alloc::Global;

/// The report of a connection.
fn report_for(alloc: Global, conn: &Conn<MemLink, RecordNet>) -> Result<Report, OutOfMemory>
    requires { HasRun conn.now }
    ensures { IfOk result (λ report. ComesTo conn.now (out_of report)) }
{
    match conn.ran() {
        Some(Ok(ran)) => report_of(alloc, ran, conn.client(), conn.net()),
        Some(Err(_)) => unreachable!(),
        None => unreachable!(),
    }
}

/// The reports of connections, in their order.
pub(crate) fn reports_for(
    alloc: Global,
    conns: &[Conn<MemLink, RecordNet>],
) -> Result<Vec<Report>, OutOfMemory>
    requires { AllByRecursion HasRun conns.now }
    ensures { IfOk result (λ reports. AllZip ComesTo conns.now (map out_of reports.items)) }
{
    let mut reports = Vec::new(alloc);
    for conn in conns {
        let report = report_for(alloc, conn)?;
        reports.push(report)?;
    }
    Ok(reports)
}
