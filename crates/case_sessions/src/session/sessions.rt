//! Sessions: rows of the program's words over the files `c` and `r`, and files of a configuration and a record with
//! what must be written. Each goes through the program's one call.
use crate::program::Program;
use crate::served::{many_of, no_net};
use crate::session::facts::facts_of;
use case_rows::{Answers, Call, Fault, Row, decoded, words_of};
use fcgi_link::AppNet;
use proxy_commands::{Networks, Status};
use px_link::{MemFiles, MemSink};
use px_pattern::RealPatterns;
use px_proxyproto::SendNet;
use std::alloc::Global;

/// How the program ended, and what it wrote.
#[derive(Drop)]
pub(crate) struct Reply {
    pub(crate) status: Status,
    pub(crate) out: MemSink,
}

/// What the program does with words over the files `c` and `r`, and a net to which no client comes. Its output fails at the writes
/// of these numbers.
pub(crate) fn reply_to<P: Program>(
    alloc: Global,
    words: &str,
    cfg: &[u8],
    rec: &[u8],
    failing: Vec<u64>,
) -> Result<Reply, Fault> {
    let words = words_of(alloc, words)?;
    let mut files = MemFiles::new(alloc);
    files.add("c", cfg)?;
    files.add("r", rec)?;
    let mut out = MemSink::new(alloc);
    out.fail_at(failing);
    let mut pats = RealPatterns::new();
    let mut nets = Networks {
        serve: AppNet::new(alloc, SendNet::new(no_net(alloc)?)),
        run: many_of(alloc, no_net(alloc)?, &[]),
    };
    let status = P::call(alloc, &words, &mut files, &mut nets, &mut out, &mut pats);
    Ok(Reply { status, out })
}

/// Says one fact of a reply: the status, that nothing was written, the text, or so many bytes of it.
fn say_fact(fact: &str, reply: &Reply, answers: &mut Answers) -> Result<(), Fault> {
    let text = reply.out.written();
    match fact {
        "status" => {
            answers.say(b"");
            answers.more_name(&reply.status);
        }
        "silent" => answers.truth(text.is_empty()),
        "text" => answers.quote(text),
        _ => {
            let (call, _) = Call::first(fact.as_bytes());
            answers.quote(&text[..call.count(0)?.min(text.len())]);
        }
    }
    Ok(())
}

/// The facts of a reply with blanks between them.
fn say_facts(alloc: Global, facts: &str, reply: &Reply) -> Result<Vec<u8>, Fault> {
    let mut answers = Answers::new(alloc);
    for fact in facts.split(' ') {
        say_fact(fact, reply, &mut answers)?;
    }
    answers.into_text()
}

/// NAME, words, the files `c` and `r`, which facts the row states, and these facts.
fn replied<P: Program>(alloc: Global, row: Row<'_>, failing: Vec<u64>) -> Result<Vec<u8>, Fault> {
    let cfg = decoded(alloc, row.field(2).as_bytes())?;
    let rec = decoded(alloc, row.field(3).as_bytes())?;
    let reply = reply_to::<P>(alloc, row.field(1), &cfg, &rec, failing)?;
    say_facts(alloc, row.field(4), &reply)
}

/// What a row of one of these kinds comes to. In `failed_outputs` the first write fails.
pub fn made<P: Program>(alloc: Global, kind: &str, row: Row<'_>) -> Option<Result<Vec<u8>, Fault>> {
    match kind {
        "replies" => Some(replied::<P>(alloc, row, Vec::new(alloc))),
        "failed_outputs" => Some(replied_failing::<P>(alloc, row)),
        _ => None,
    }
}

/// The same where the first write fails.
fn replied_failing<P: Program>(alloc: Global, row: Row<'_>) -> Result<Vec<u8>, Fault> {
    let mut failing = Vec::new(alloc);
    failing.push(1)?;
    replied::<P>(alloc, row, failing)
}

/// What a session of files comes to, as a file of this ending tells it: `report` the exact report, `expected` facts of
/// it, `record` the line of a refused record, `check` the line of `check`, `rewritten` what `check --record` writes.
pub fn session_made<P: Program>(
    alloc: Global,
    ending: &str,
    cfg: &[u8],
    rec: &[u8],
) -> Result<Vec<u8>, Fault> {
    let words = match ending {
        "check" => "check;c;",
        "rewritten" => "check;--record;r;",
        _ => "replay;c;r;",
    };
    let reply = reply_to::<P>(alloc, words, cfg, rec, Vec::new(alloc))?;
    if ending == "expected" {
        return facts_of(alloc, reply.out.written());
    }
    Ok(Vec::from_slice(alloc, reply.out.written())?)
}
