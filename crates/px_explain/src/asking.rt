//! What a client's stream asks for, and the rules that run on it.
ghost use Rattle.std.specs.Prelude.{◌≡◌, ◌≤◌, [], IfOk};
ghost use Rattle.http_model.specs.Finish as finish;
ghost use Rattle.http_model.specs.Reading.{Received};
ghost use Rattle.http_model.specs.Head.{Head as SpecHead, head_blocks};
ghost use Rattle.session_model.specs.Env.{method_of};
ghost use Rattle.session_model.specs.Meaning.{declares_too_much};
ghost use Rattle.session_model.specs.Asking.{Forwarded, asker_of, forwards};
ghost use Rattle.session_model.specs.Stream.{Stream};
ghost use Rattle.h1_head.specs.Lines.{IsRequestLine};
ghost use Rattle.http_rules.specs.Lives.{answering};
ghost use Rattle.http_rules.specs.Run.{IsHead};
ghost use Rattle.px_sample.specs.Variables.{Variables};
ghost use Rattle.forward_core.specs.Meaning.Product.{filters_of, meaning_of};
ghost use Rattle.forward_core.specs.Request.Kept.{IsKept};
ghost use Rattle.rec_format.specs.Read.{servers as entries, visit};
ghost use Rattle.px_explain.specs.Found.{StandsAs};
ghost use Rattle.px_explain.specs.Traced.{refused, Serves, Answers, TraceOf};
ghost use Rattle.px_explain.specs.Walked.{IsReady, IsBegun, IsTraced, Tells, IsTold, IsToldBehind, IsAsker, method_in, IsMeant};

use crate::answering::answer;
use crate::heads::{Found, Head, find_head};
use crate::saying::{refuse, say};
use crate::telling::{RuleList, tell_rules};
use crate::trace::Which;
use crate::walk::Walk;
use forward_core::meaning::{passes_limit, replaces};
use forward_core::request::{Kept, kept_of};
use h1_head::Side as Reader;
use h1_head::laws::is_received;
use header_ops::laws::edits_of_heads;
use http_model::Framing;
use http_rules::action::Side;
use http_rules::{
    Config, Filters, OutOfMemory, Verdict, begin_answer, body_stays, replies_are_plain,
};
use htx_arena::{Arena, Full};
use htx_view::request_parts;
use px_reply::finish_request;
use px_sample::Buf;
use rec_format::{Connection, ServerSpec};

/// The framing in which the body of a request is sent: where a filter replaces bytes, no length is known before its end.
fn request_framing(replaces: bool, framing: Framing) -> Framing
    ensures { result ≡ finish.request_framing replaces framing }
{
    match framing {
        Framing::Length(n) => {
            if replaces {
                return Framing::Chunked;
            }
            Framing::Length(n)
        }
        Framing::Absent => Framing::Absent,
        Framing::Chunked => Framing::Chunked,
        Framing::ToClose => Framing::ToClose,
    }
}

/// Keeps the method of the head that stands in an array.
fn keep_method(method: &mut Buf, msg: &Arena)
    requires { msg.now.size ≤ method.old.cap }
    ensures kept { method.new.bytes ≡ method_in msg.now.blocks }
    ensures cap { method.new.cap ≡ method.old.cap }
{
    method.clear();
    // called for its clause alone: the blocks weigh no more than the array, so the buffer has room for the method
    let _room = msg.room();
    match request_parts(msg) {
        Some(line) => {
            // so it is all kept
            let _fits = method.push(line.a);
        }
        None => {}
    }
}

/// The declared length passes a limit.
fn declares_too_much(filters: &Filters, declared: Option<u64>) -> bool
    ensures { result ≡ declares_too_much (filters_of filters.now) declared }
{
    match declared {
        Some(length) => passes_limit(filters, length),
        None => false,
    }
}

/// The client is refused with this code, and no server is asked.
fn refuse_asked(config: &Config, walk: &mut Walk, code: u16) -> Result<u16, OutOfMemory>
    requires { IsReady config.now walk.old }
    ensures { IfOk result (λ answer. Tells walk.old walk.new answer (refused config.now code walk.old.method.bytes (answering walk.old.teller.vars))) }
{
    begin_answer(&mut walk.teller.vars);
    refuse(config, walk, code)
}

/// The first of the servers answers, or the client is refused where it isn't there.
fn serve(
    config: &Config,
    walk: &mut Walk,
    kept: Kept,
    servers: &[Option<ServerSpec>],
) -> Result<u16, OutOfMemory>
    requires { IsReady config.now walk.old }
    ensures { IfOk result (λ answer. (f : Forwarded Variables) → IsAsker (asker_of f.received f.head) kept → walk.old.method.bytes ≡ method_of f.head.line → walk.old.teller.vars ≡ f.vars
        → IsTold walk.old walk.new answer (Serves config.now f (entries servers.now))) }
{
    match servers.first() {
        Some(Some(server)) => answer(config, walk, kept, server.stream.bytes.as_slice()),
        Some(None) => refuse_asked(config, walk, 503),
        None => refuse_asked(config, walk, 503),
    }
}

/// A request that its rules passed goes to a server, where its length is within the limits and it fits as it is finished.
fn forward(
    config: &Config,
    walk: &mut Walk,
    kept: Kept,
    head: Head,
    servers: &[Option<ServerSpec>],
) -> Result<u16, OutOfMemory>
    requires ready { IsReady config.now walk.old }
    requires head { IsHead walk.old.msg.blocks }
    ensures { IfOk result (λ answer. (received : Received) (left : SpecHead) (rest : Stream) → IsKept received kept → IsMeant received head → walk.old.msg.blocks ≡ head_blocks left → walk.old.method.bytes ≡ method_of left.line
        → IsTold walk.old walk.new answer (Answers config.now (forwards (meaning_of config.now) received left walk.old.teller.vars rest) (entries servers.now))) }
{
    edits_of_heads();
    if declares_too_much(&config.req_filters, head.declared) {
        return refuse_asked(config, walk, 413);
    }
    let framing = request_framing(replaces(&config.req_filters), head.framing);
    match finish_request(&mut walk.msg, framing) {
        Ok(()) => serve(config, walk, kept, servers),
        Err(Full) => refuse_asked(config, walk, 500),
    }
}

/// The head of the request stands in the array, and the rules run on it.
fn ask_behind(
    config: &Config,
    walk: &mut Walk,
    head: Head,
    servers: &[Option<ServerSpec>],
) -> Result<u16, OutOfMemory>
    requires ready { IsReady config.now walk.old }
    requires head { IsHead walk.old.msg.blocks }
    requires silent { walk.old.said.blocks ≡ [] }
    ensures { IfOk result (λ answer. (received : Received) (rest : Stream) → IsRequestLine received.head.line → StandsAs received head walk.old.msg.blocks
        → IsToldBehind config.now walk.old walk.new answer received rest (entries servers.now)) }
{
    body_stays();
    replies_are_plain();
    let kept = kept_of(&walk.msg, head.framing, head.close);
    let side = Side::Request;
    let list = RuleList {
        which: Which::Request,
        rules: &config.request,
    };
    let verdict = tell_rules(list, side, &mut walk.teller, &mut walk.msg, &mut walk.said)?;
    keep_method(&mut walk.method, &walk.msg);
    match verdict {
        Verdict::Pass => forward(config, walk, kept, head, servers),
        Verdict::Deny(code) => refuse_asked(config, walk, code),
        Verdict::Fail(_) => refuse_asked(config, walk, 500),
        Verdict::Reply => {
            begin_answer(&mut walk.teller.vars);
            say(config, walk)
        }
    }
}

/// Walks through the exchange of this connection. Answers the status that the client is sent.
pub(crate) fn ask(
    config: &Config,
    walk: &mut Walk,
    conn: &Connection,
) -> Result<Option<u16>, OutOfMemory>
    requires { IsBegun config.now walk.old.teller.trail walk.old }
    ensures { IfOk result (λ answer. IsTraced config.now walk.old.teller.trail walk.new.teller.trail answer (visit conn.now)) }
{
    is_received();
    match find_head(
        conn.client.bytes.as_slice(),
        Reader::Request,
        config.limits,
        &mut walk.msg,
    ) {
        Found::Nothing => Ok(None),
        Found::Refused(code) => Ok(Some(refuse_asked(config, walk, code)?)),
        Found::Head(head) => Ok(Some(ask_behind(config, walk, head, conn.servers.as_slice())?)),
    }
}
