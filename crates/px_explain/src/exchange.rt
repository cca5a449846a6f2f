//! The first exchange of a connection, explained.
ghost use Rattle.std.specs.Prelude.{IfOk};
ghost use Rattle.http_rules.specs.Valid.{IsValid};
ghost use Rattle.rec_format.specs.Read.{visit};
ghost use Rattle.px_explain.specs.Walked.{IsTraced, IsTrace, IsBlockTrace};

use crate::asking::ask;
use crate::text::push_answer;
use crate::trace::Trace;
use crate::trail::Trail;
use crate::walk::begin;
use http_rules::{Config, OutOfMemory};
use px_link::Bytes;
use rec_format::Connection;
use std::alloc::Global;

/// What was told of an exchange, and the status that its client is sent.
#[derive(Drop)]
struct Explained {
    trail: Trail,
    answer: Option<u16>,
}

/// Walks through the first exchange of a connection. What is told of it goes behind what was told.
fn walked(
    alloc: Global,
    config: &Config,
    conn: &Connection,
    trail: Trail,
) -> Result<Explained, OutOfMemory>
    requires { IsValid config.now }
    ensures { IfOk result (λ told. IsTraced config.now trail told.trail told.answer (visit conn.now)) }
{
    let mut walk = begin(alloc, config, trail)?;
    let answer = ask(config, &mut walk, conn)?;
    Ok(Explained {
        trail: walk.teller.trail,
        answer,
    })
}

/// What the rules do to the first exchange of a connection, and the status that its client is sent. The request is taken as one that comes
/// whole, and a server that isn't in the list as one that refuses.
pub fn explain(alloc: Global, config: &Config, conn: &Connection) -> Result<Trace, OutOfMemory>
    requires { IsValid config.now }
    ensures { IfOk result (IsTrace config.now (visit conn.now)) }
{
    let told = walked(alloc, config, conn, Trail::new(alloc, false)?)?;
    let Explained { trail, answer } = told;
    Ok(Trace {
        lines: trail.lines,
        answer,
    })
}

/// The text of the same, where behind the line of each rule that ran the array follows as the rule left it.
pub fn explain_blocks(
    alloc: Global,
    config: &Config,
    conn: &Connection,
) -> Result<Bytes, OutOfMemory>
    requires { IsValid config.now }
    ensures { IfOk result (IsBlockTrace config.now (visit conn.now)) }
{
    let told = walked(alloc, config, conn, Trail::new(alloc, true)?)?;
    let Explained { trail, answer } = told;
    let mut text = trail.text;
    push_answer(alloc, &mut text, answer)?;
    Ok(text)
}
