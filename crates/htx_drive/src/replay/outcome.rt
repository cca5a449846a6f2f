//! The report of a session that was run over links and a net in memory.
ghost use Rattle.std.specs.Prelude.{◌≡◌, map, Some, IfOk};
ghost use Rattle.px_link.specs.MemLink.{MemLinkSeen};
ghost use Rattle.rec_format.specs.ReportParts.{out_of, sent_of, servers_of};
ghost use Rattle.htx_drive.specs.Replay.Outcome.{sent_on, servers_sent, outcome};

use crate::replay::record_net::RecordNet;
use crate::{Close, OutOfMemory, Ran};
use px_link::{Bytes, MemLink};
use rec_format::{Report, Sent};
use std::alloc::Global;

/// What was sent over a link.
fn sent_on(alloc: Global, link: &MemLink) -> Result<Sent, OutOfMemory>
    ensures { IfOk result (λ sent. sent_of sent ≡ sent_on link.now) }
{
    let bytes = Bytes::copy(alloc, link.written())?;
    Ok(Sent {
        bytes,
        close: link.closed().unwrap_or(Close::Failed),
    })
}

/// What was sent over links.
fn links_sent(alloc: Global, links: &[MemLink]) -> Result<Vec<Option<Sent>>, OutOfMemory>
    ensures { IfOk result (λ sent. servers_of sent.items ≡ map (λ (l : MemLinkSeen). Some (sent_on l)) links.now) }
{
    let mut all = Vec::new(alloc);
    for link in links {
        let sent = sent_on(alloc, link)?;
        all.push(Some(sent))?;
    }
    Ok(all)
}

/// What was sent to the servers of a net, in the order of the connects.
fn servers_sent(alloc: Global, net: &RecordNet) -> Result<Vec<Option<Sent>>, OutOfMemory>
    ensures { IfOk result (λ sent. servers_of sent.items ≡ servers_sent net.now.net net.now.refused) }
{
    let mut all = links_sent(alloc, net.net.kept())?;
    if net.refused > 0 {
        all.push(None)?;
    }
    Ok(all)
}

/// The report of a session that ran so.
pub(crate) fn report_of(
    alloc: Global,
    ran: Ran,
    client: &MemLink,
    net: &RecordNet,
) -> Result<Report, OutOfMemory>
    ensures { IfOk result (λ report. out_of report ≡ outcome ran client.now net.now.net net.now.refused) }
{
    let servers = servers_sent(alloc, net)?;
    let client = sent_on(alloc, client)?;
    Ok(Report {
        exchanges: ran.exchanges,
        end: ran.end,
        cut: ran.begun_cut,
        client,
        servers,
    })
}
