//! What a server's stream answers, and the rules that run on it.
ghost use Rattle.std.specs.Prelude.{◌≡◌, ◌&&◌, ◌||◌, [], not, false, codes, if◌then◌else◌, None, IfOk};
ghost use Rattle.std.specs.Str.{bytes_eq};
ghost use Rattle.http_model.specs.Finish as finish;
ghost use Rattle.http_model.specs.Head.{Head as SpecHead, head_blocks};
ghost use Rattle.http_model.specs.Reading.{Received};
ghost use Rattle.session_model.specs.Asking.{Asker};
ghost use Rattle.session_model.specs.Env.{response_env};
ghost use Rattle.session_model.specs.Meaning.{declares_too_much, is_bodiless, status_of as spec_status};
ghost use Rattle.http_rules.specs.Run.{IsHead};
ghost use Rattle.http_rules.specs.Action.Given.{Env};
ghost use Rattle.forward_core.specs.Meaning.Product.{filters_of};
ghost use Rattle.px_explain.specs.Found.{StandsAs};
ghost use Rattle.px_explain.specs.Traced.{passed as spec_passed, ruled, AnswerOf};
ghost use Rattle.px_explain.specs.Walked.{IsReady, Tells, IsTold, IsMeant, IsAsker, IsLeft, Finishes};

use crate::heads::{Found, Head, find_final};
use crate::saying::{code_of, plain_code, refuse, say};
use crate::telling::{RuleList, passed, tell_rules};
use crate::trace::Which;
use crate::walk::Walk;
use forward_core::meaning::{passes_limit, replaces};
use forward_core::request::Kept;
use header_ops::laws::edits_of_heads;
use http_model::Framing;
use http_rules::action::Side;
use http_rules::{
    Config, Filters, OutOfMemory, Verdict, begin_answer, body_stays, replies_are_plain,
};
use htx_arena::{Arena, Full};
use htx_view::response_parts;
use px_reply::finish_response;

/// How a response is finished for its client.
#[derive(Clone, Copy)]
pub(crate) struct Finish {
    framing: Framing,
    declared: Option<u64>,
    close: bool,
}

/// How a body is framed whose length isn't known: chunks, or bytes up to the close.
fn framing_of_open(knows_chunks: bool) -> Framing
    ensures { result ≡ finish.response_framing false knows_chunks Framing.Chunked }
{
    if knows_chunks {
        return Framing::Chunked;
    }
    Framing::ToClose
}

/// In which framing a body is sent to a client, by the framing in which it comes.
fn response_framing(replaces: bool, knows_chunks: bool, framing: Framing) -> Framing
    ensures { result ≡ finish.response_framing replaces knows_chunks framing }
{
    match framing {
        Framing::Absent => Framing::Absent,
        Framing::Length(length) => {
            if replaces {
                return framing_of_open(knows_chunks);
            }
            Framing::Length(length)
        }
        Framing::Chunked => framing_of_open(knows_chunks),
        Framing::ToClose => framing_of_open(knows_chunks),
    }
}

/// Whether its status is 304: the length that it declares is told, though no body follows (RFC 9110 section 8.6).
fn is_not_modified(msg: &Arena) -> bool
    ensures { (head : SpecHead) → msg.now.blocks ≡ head_blocks head → result ≡ bytes_eq (spec_status head.line) (codes "304") }
{
    match response_parts(msg) {
        Some(line) => line.b == b"304".as_slice(),
        None => false,
    }
}

/// The length that a response without a body tells all the same: the one that was declared to a HEAD, or with status 304.
fn declared_for(
    head_asked: bool,
    replaces: bool,
    declared: Option<u64>,
    not_modified: bool,
) -> Option<u64>
    ensures { result ≡ (if not replaces && (head_asked || not_modified) then declared else None) }
{
    if replaces {
        return None;
    }
    if head_asked {
        return declared;
    }
    if not_modified {
        return declared;
    }
    None
}

/// How the response whose head stands in the array is finished, by its filters.
fn finish_by(config: &Config, kept: Kept, head: Head, msg: &Arena) -> Finish
    ensures { (asker : Asker) (received : Received) → IsAsker asker kept → StandsAs received head msg.now.blocks → Finishes config.now asker received result }
{
    let replaced = replaces(&config.res_filters);
    Finish {
        framing: response_framing(replaced, kept.is_http_11, head.framing),
        declared: declared_for(
            kept.head_asked,
            replaced,
            head.declared,
            is_not_modified(msg),
        ),
        close: !kept.keep,
    }
}

/// Whether no body follows.
fn is_bodiless(framing: Framing) -> bool
    ensures { result ≡ is_bodiless framing }
{
    match framing {
        Framing::Absent => true,
        Framing::Length(length) => length == 0,
        Framing::Chunked => false,
        Framing::ToClose => false,
    }
}

/// Whether the declared length of a body passes a limit.
fn is_too_long(filters: &Filters, head: Head) -> bool
    ensures { result ≡ (declares_too_much (filters_of filters.now) head.declared && not (is_bodiless head.framing)) }
{
    match head.declared {
        None => false,
        Some(length) => passes_limit(filters, length) && !is_bodiless(head.framing),
    }
}

/// A response that its rules passed. Answers the status that the client is sent.
fn amend(config: &Config, walk: &mut Walk, head: Head, finish: Finish) -> Result<u16, OutOfMemory>
    requires ready { IsReady config.now walk.old }
    requires head { IsHead walk.old.msg.blocks }
    requires silent { walk.old.said.blocks ≡ [] }
    ensures { IfOk result (λ answer. (asker : Asker) (received : Received) (env : Env) → walk.old.method.bytes ≡ asker.method → IsMeant received head → Finishes config.now asker received finish
        → IsLeft asker env walk.old → Tells walk.old walk.new answer (spec_passed config.now asker received env)) }
{
    body_stays();
    edits_of_heads();
    if is_too_long(&config.res_filters, head) {
        return refuse(config, walk, 502);
    }
    let side = Side::Answer(walk.method.bytes());
    let list = RuleList {
        which: Which::After,
        rules: &config.after,
    };
    let verdict = tell_rules(list, side, &mut walk.teller, &mut walk.msg, &mut walk.said)?;
    if !passed(verdict) {
        return Ok(plain_code(&mut walk.said));
    }
    match finish_response(&mut walk.msg, finish.framing, finish.declared, finish.close) {
        Ok(()) => Ok(code_of(&walk.msg)),
        Err(Full) => Ok(plain_code(&mut walk.said)),
    }
}

/// A server's final head stands in the array, and the rules run on it.
fn judge(config: &Config, walk: &mut Walk, kept: Kept, head: Head) -> Result<u16, OutOfMemory>
    requires ready { IsReady config.now walk.old }
    requires head { IsHead walk.old.msg.blocks }
    ensures { IfOk result (λ answer. (asker : Asker) (received : Received) → IsAsker asker kept → walk.old.method.bytes ≡ asker.method → StandsAs received head walk.old.msg.blocks
        → Tells walk.old walk.new answer (ruled config.now asker walk.old.teller.vars received)) }
{
    body_stays();
    replies_are_plain();
    let finish = finish_by(config, kept, head, &walk.msg);
    walk.said.clear();
    let side = Side::Answer(walk.method.bytes());
    let list = RuleList {
        which: Which::Response,
        rules: &config.response,
    };
    let verdict = tell_rules(list, side, &mut walk.teller, &mut walk.msg, &mut walk.said)?;
    match verdict {
        Verdict::Pass => amend(config, walk, head, finish),
        Verdict::Deny(code) => refuse(config, walk, code),
        Verdict::Fail(_) => refuse(config, walk, 500),
        Verdict::Reply => say(config, walk),
    }
}

/// A server that gives this stream answers. Answers the status that the client is sent.
pub(crate) fn answer(
    config: &Config,
    walk: &mut Walk,
    kept: Kept,
    stream: &[u8],
) -> Result<u16, OutOfMemory>
    requires { IsReady config.now walk.old }
    ensures { IfOk result (λ answer. (asker : Asker) → IsAsker asker kept → walk.old.method.bytes ≡ asker.method
        → IsTold walk.old walk.new answer (AnswerOf config.now asker walk.old.teller.vars stream.now)) }
{
    begin_answer(&mut walk.teller.vars);
    match find_final(stream, kept.head_asked, config.limits, &mut walk.msg) {
        Found::Head(head) => judge(config, walk, kept, head),
        Found::Nothing => refuse(config, walk, 502),
        Found::Refused(_) => refuse(config, walk, 502),
    }
}
