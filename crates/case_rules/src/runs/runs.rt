//! Rules on a head: NAME, the size of buffers, of responses and of all that the client is sent the method of the request, the lines
//! of `acl` and of rules, the head, and the verdict with the list that it leaves.
ghost use Rattle.std.specs.Prelude.{◌≡◌, ◌≤◌, ◌+◌, length, IfOk, []};
ghost use Rattle.http_model.specs.Sizes.{least_size, most_size, least_head};
ghost use Rattle.http_rules.specs.Run.{IsHead};
ghost use Rattle.http_rules.specs.Valid.{IsValid};

use crate::runs::configs::config_of;
use crate::runs::verdicts::say_verdict;
use case_rows::{Answers, Fault, Row, decoded};
use h1_head::{HeadRead, Side, read_head};
use http_model::Limits;
use http_rules::{
    Config, OutOfMemory, Scratch, Vars, Verdict, run_after, run_request, run_response,
};
use htx_arena::{Arena, LateArena};
use std::alloc::Global;

/// A head that is read as an answer to another method than HEAD.
const ANSWER: Side = Side::Response { head_asked: false };

/// The bytes of a head, at most so many.
fn head_of(alloc: Global, text: &str, most: u32) -> Result<Vec<u8>, Fault>
    ensures { IfOk result (λ head. length head.items ≤ most) }
{
    let head = decoded(alloc, text.as_bytes())?;
    if head.len() > most as usize {
        return Err(Fault::Malformed);
    }
    Ok(head)
}

/// The head of a request or of an answer in an array.
#[tactic(auto, using(crate::proofs::RunsLemmas::Heads::heads))]
fn head_in(alloc: Global, text: &str, side: Side, limits: Limits) -> Result<Arena, Fault>
    requires least { least_size ≤ limits.bufsize }
    requires most { limits.bufsize ≤ most_size }
    requires reserve { limits.maxrewrite + least_head ≤ limits.bufsize }
    ensures head { IfOk result (λ msg. IsHead msg.blocks) }
    ensures size { IfOk result (λ msg. msg.size ≡ limits.bufsize) }
{
    let head = head_of(alloc, text, limits.bufsize)?;
    let mut msg = Arena::new(alloc, limits.bufsize)?;
    match read_head(&head, true, side, limits, &mut msg) {
        HeadRead::Head { .. } => Ok(msg),
        HeadRead::More { .. } | HeadRead::Refuse { .. } => Err(Fault::Malformed),
    }
}

/// On what rules run: a request, or an answer to one of this method, before or behind the rules of responses.
#[derive(Clone, Copy)]
enum Run<'a> {
    Request,
    Response(&'a [u8]),
    After(&'a [u8]),
}

/// Runs the rules of a configuration on a head.
#[tactic(auto, using(crate::proofs::RunsLemmas::Heads::heads))]
fn run_rules(
    alloc: Global,
    cfg: &Config,
    run: Run<'_>,
    msg: &mut Arena,
    reply: &mut LateArena,
) -> Result<Verdict, OutOfMemory>
    requires valid { IsValid cfg.now }
    requires head { IsHead msg.old.blocks }
    requires size { msg.old.size ≡ cfg.now.limits.bufsize }
    requires reply_size { reply.old.size ≡ msg.old.size }
    requires no_reply { reply.old.blocks ≡ [] }
{
    let mut vars = Vars::new(alloc)?;
    let mut scratch = Scratch::new(alloc, cfg.limits.bufsize)?;
    let scratch = &mut scratch;
    match run {
        Run::Request => run_request(&cfg.request, msg, &mut vars, scratch, reply),
        Run::Response(method) => run_response(
            &cfg.response,
            method,
            msg,
            &mut vars,
            scratch,
            reply,
        ),
        Run::After(method) => run_after(&cfg.after, method, msg, &mut vars, scratch),
    }
}

/// What the rules of a configuration come to on a head.
fn came_to(alloc: Global, cfg: &Config, run: Run<'_>, head: Arena) -> Result<Vec<u8>, Fault>
    requires valid { IsValid cfg.now }
    requires head { IsHead head.blocks }
    requires size { head.size ≡ cfg.now.limits.bufsize }
{
    let mut msg = head;
    let mut reply = LateArena::new(alloc, cfg.limits.bufsize)?;
    let verdict = run_rules(alloc, cfg, run, &mut msg, &mut reply)?;
    let mut answers = Answers::new(alloc);
    say_verdict(verdict, &msg, reply.arena(), &mut answers);
    answers.into_text()
}

/// What a row of rules of requests comes to.
pub fn of_request(alloc: Global, row: Row<'_>) -> Result<Vec<u8>, Fault> {
    let cfg = config_of(alloc, row.field(1), row.field(2))?;
    let head = head_in(alloc, row.field(3), Side::Request, cfg.limits)?;
    came_to(alloc, &cfg, Run::Request, head)
}

/// What a row of rules of responses comes to.
pub fn of_response(alloc: Global, row: Row<'_>) -> Result<Vec<u8>, Fault> {
    let cfg = config_of(alloc, row.field(1), row.field(3))?;
    let head = head_in(alloc, row.field(4), ANSWER, cfg.limits)?;
    came_to(alloc, &cfg, Run::Response(row.field(2).as_bytes()), head)
}

/// What a row of rules on all that the client is sent comes to.
pub fn of_after(alloc: Global, row: Row<'_>) -> Result<Vec<u8>, Fault> {
    let cfg = config_of(alloc, row.field(1), row.field(3))?;
    let head = head_in(alloc, row.field(4), ANSWER, cfg.limits)?;
    came_to(alloc, &cfg, Run::After(row.field(2).as_bytes()), head)
}
