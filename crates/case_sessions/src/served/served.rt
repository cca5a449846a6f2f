//! `serve` and `run` over links and nets in memory, one of whose calls may fail.
ghost use Rattle.std.specs.Prelude.{◌≡◌, IfOk};

use crate::program::Program;
use crate::served::failing::calls_of;
use crate::served::links::net_of;
use crate::served::many::many_of;
use crate::session::record_in;
use case_rows::{Answers, Call, Fault, Row, decoded, words_of};
use fcgi_link::AppNet;
use proxy_commands::{Networks, Status};
use px_link::{MemFiles, MemNet, MemSink};
use px_pattern::RealPatterns;
use px_proxyproto::SendNet;
use std::alloc::Global;

/// The file `c`.
fn files_of(alloc: Global, cfg: &[u8], failing: &Call<'_>) -> Result<MemFiles, Fault> {
    let mut files = MemFiles::new(alloc);
    files.add("c", cfg)?;
    files.fail_at(calls_of(alloc, failing, "file")?);
    Ok(files)
}

/// An output to which nothing is written yet.
fn output_of(alloc: Global, failing: &Call<'_>) -> Result<MemSink, Fault> {
    let mut out = MemSink::new(alloc);
    out.fail_at(calls_of(alloc, failing, "output")?);
    Ok(out)
}

/// Tells the status, what was written, and each link that was kept: how it was closed, and what it was sent.
fn tell(alloc: Global, status: Status, out: &MemSink, net: &MemNet) -> Result<Vec<u8>, Fault> {
    let mut answers = Answers::new(alloc);
    answers.say(b"");
    answers.more_name(&status);
    answers.quote(out.written());
    for link in net.kept() {
        answers.say(b"");
        answers.more_name(&link.closed());
        answers.quote(link.written());
    }
    answers.into_text()
}

/// NAME, the call that fails, words, the file `c`, the record whose clients come, and what comes of it.
fn served<P: Program>(alloc: Global, row: Row<'_>) -> Result<Vec<u8>, Fault> {
    let (failing, _) = Call::first(row.field(1).as_bytes());
    let words = words_of(alloc, row.field(2))?;
    let cfg = decoded(alloc, row.field(3).as_bytes())?;
    let record = record_in(alloc, &decoded(alloc, row.field(4).as_bytes())?)?;
    let mut files = files_of(alloc, &cfg, &failing)?;
    let mut nets = Networks {
        serve: AppNet::new(alloc, SendNet::new(net_of(alloc, &record, &failing)?)),
        run: many_of(alloc, no_net(alloc)?, &[]),
    };
    let mut out = output_of(alloc, &failing)?;
    let mut pats = RealPatterns::new();
    let status = P::call(alloc, &words, &mut files, &mut nets, &mut out, &mut pats);
    tell(alloc, status, &out, nets.serve.inner().inner())
}

/// A net to which no client comes.
pub fn no_net(alloc: Global) -> Result<MemNet, Fault>
    ensures { IfOk result (λ net. net.lent ≡ 0) }
{
    Ok(MemNet::new(alloc, Vec::new(alloc), Vec::new(alloc))?)
}

/// NAME, the call of the net that fails, words of `run`, the file `c`, the record whose clients come, and what comes of it: the clients' links alone.
fn ran<P: Program>(alloc: Global, row: Row<'_>) -> Result<Vec<u8>, Fault> {
    let (failing, _) = Call::first(row.field(1).as_bytes());
    let words = words_of(alloc, row.field(2))?;
    let cfg = decoded(alloc, row.field(3).as_bytes())?;
    let record = record_in(alloc, &decoded(alloc, row.field(4).as_bytes())?)?;
    let mut files = files_of(alloc, &cfg, &failing)?;
    let mut nets = Networks {
        serve: AppNet::new(alloc, SendNet::new(no_net(alloc)?)),
        run: many_of(alloc, net_of(alloc, &record, &failing)?, &record.conns),
    };
    let mut out = output_of(alloc, &failing)?;
    let mut pats = RealPatterns::new();
    let status = P::call(alloc, &words, &mut files, &mut nets, &mut out, &mut pats);
    tell(alloc, status, &out, nets.run.net.inner().inner().net())
}

/// What a row of `served` or `ran` comes to; none of another kind.
pub fn made<P: Program>(alloc: Global, kind: &str, row: Row<'_>) -> Option<Result<Vec<u8>, Fault>> {
    match kind {
        "served" => Some(served::<P>(alloc, row)),
        "ran" => Some(ran::<P>(alloc, row)),
        _ => None,
    }
}
