//! What the client's next request asks for: its head is read, the rules run on it, and it is finished for its server.
ghost use Rattle.std.specs.Prelude.{◌≡◌, ◌≤◌, ◌&&◌, false, IfOk, IsOk};
ghost use Rattle.http_model.specs.Finish as finish;
ghost use Rattle.http_model.specs.Reading.{Received};
ghost use Rattle.http_rules.specs.declared.verdict.Verdict.TheVariants as verdicts;
ghost use Rattle.session_model.specs.Meaning.{declares_too_much};
ghost use Rattle.forward_core.specs.Rules.Ruling.{holds_pattern, HasReply};
ghost use Rattle.session_core.specs.Place as at;
ghost use Rattle.forward_core.specs.Meaning.Product.{filters_of, replaces};
ghost use Rattle.forward_core.specs.Request.Edits.{framing_of, declared_of};
ghost use Rattle.http_rules.specs.Run.{IsHead};
ghost use Rattle.h1_head.specs.Lines.{IsRequestLine};
ghost use Rattle.forward_core.specs.Request.Reads.{Holds, HasHead};
ghost use Rattle.forward_core.specs.Request.Kept.{IsKept};
ghost use Rattle.forward_core.specs.Request.Seen.{list_of, place_of};
ghost use Rattle.forward_core.specs.declared.request.place.Place.TheVariants as place;
ghost use Rattle.forward_core.specs.Joined.Asks.{IsSilent, HasRead, RulesRan, RefusesSo, FinishesHead, AsksOn, AsksBehind, AsksSo, asker_for, method_at};
ghost use Rattle.forward_core.specs.Joined.Joined.{Placed, settings_of};

use crate::answer::Asker;
use crate::joined::directions::Directions;
use crate::joined::saying::{refuse, reply};
use crate::meaning::{passes_limit, replaces};
use crate::request::laws::{edited, requests};
use crate::request::{Kept, RequestSide, kept_of};
use header_ops::laws::edits_of_heads;
use http_model::{Framing, OutOfMemory};
use http_rules::{Filters, Verdict, body_stays, replies_are_plain};
use htx_arena::{Arena, Full};
use htx_view::request_parts;
use lane::LaneHead;
use px_reply::finish_request;
use px_sample::Buf;
use session_core::Asked;

/// The framing in which the body of a request is sent: where a filter replaces bytes, no length is known before its end.
fn request_framing(replaces: bool, framing: Framing) -> Framing
    ensures { result ≡ finish.request_framing replaces framing }
{
    match framing {
        Framing::Length(n) => {
            if replaces {
                Framing::Chunked
            } else {
                Framing::Length(n)
            }
        }
        Framing::Absent => Framing::Absent,
        Framing::Chunked => Framing::Chunked,
        Framing::ToClose => Framing::ToClose,
    }
}

/// Keeps the method of the head that stands in an array.
fn keep_method(method: &mut Buf, msg: &Arena)
    requires { msg.now.size ≤ method.old.cap }
    ensures kept { method.new.bytes ≡ method_at msg.now.blocks }
    ensures cap { method.new.cap ≡ method.old.cap }
{
    method.clear();
    // called for its clause alone: the blocks weigh no more than the array, so the buffer has room for the method
    let _room = msg.room();
    match request_parts(msg) {
        Some(line) => {
            // so it is all kept
            let _fits = method.push(line.a);
        }
        None => {}
    }
}

/// What an answer has to know of the request.
fn asker_of(kept: &Kept) -> Asker
    ensures { result ≡ asker_for kept.now }
{
    Asker {
        head_asked: kept.head_asked,
        is_http_11: kept.is_http_11,
        keep: kept.keep,
    }
}

/// Whether the connection may be kept behind a reply: no body follows the request.
fn may_keep(kept: &Kept) -> bool
    ensures { result ≡ (kept.now.keep && kept.now.is_bodiless) }
{
    kept.keep && kept.is_bodiless
}

/// What is kept of the head that stands in the array, as it was received.
fn keep_head(request: &mut RequestSide) -> Kept
    ensures kept { (received : Received) → Holds request.old received → IsRequestLine received.head.line → IsKept received result }
    ensures same { request.new ≡ request.old }
{
    let framing = request.framing();
    let close = request.close();
    kept_of(request.head(), framing, close)
}

/// The framing in which the body of the request is sent, behind these filters.
fn sent_framing(request: &RequestSide, filters: &Filters) -> Framing
    ensures { result ≡ finish.request_framing (replaces filters.now) (framing_of request.now) }
{
    request_framing(replaces(filters), request.framing())
}

/// The length that the head declared passes a limit of these filters.
fn declares_too_much(request: &RequestSide, filters: &Filters) -> bool
    ensures { result ≡ declares_too_much (filters_of filters.now) (declared_of request.now) }
{
    match request.declared() {
        Some(length) => passes_limit(filters, length),
        None => false,
    }
}

/// Finishes the head for its server: false where it would not fit, and then nothing changes.
fn finish_head(request: &mut RequestSide, framing: Framing) -> bool
    requires idle { place_of request.old ≡ place.Idle }
    requires has { HasHead request.old }
    requires head { IsHead (list_of request.old) }
    ensures { FinishesHead request.old request.new framing result }
{
    edited();
    edits_of_heads();
    match finish_request(request.head(), framing) {
        Ok(()) => true,
        Err(Full) => false,
    }
}

impl<'c> Directions<'c> {
    /// Reads the next request, runs its rules and finishes it.
    pub(crate) fn ask_next(&mut self) -> Result<Asked, OutOfMemory>
        requires { Placed self.old at.Reads }
        ensures so { IfOk result (AsksSo self.old self.new) }
        ensures succeeds { holds_pattern (settings_of self.old) ≡ false → IsOk result }
    {
        match self.request.read_head() {
            LaneHead::More => Ok(Asked::More),
            LaneHead::Nothing => Ok(Asked::Nothing),
            LaneHead::Refuse(code) => {
                // no head was read, so there is no method
                self.method.clear();
                self.refuse_asked(code, false)
            }
            LaneHead::Head => self.ask_behind(),
        }
    }

    /// Runs the rules on the head that came, and does what they ask for.
    fn ask_behind(&mut self) -> Result<Asked, OutOfMemory>
        requires read { HasRead self.old }
        requires head { IsHead (list_of self.old.request) }
        ensures asks { IfOk result (AsksBehind self.old self.new) }
        ensures succeeds { holds_pattern (settings_of self.old) ≡ false → IsOk result }
    {
        let kept = keep_head(&mut self.request);
        let verdict = self.run_rules()?;
        match verdict {
            Verdict::Pass => self.forward(kept),
            Verdict::Deny(code) => self.refuse_asked(code, kept.head_asked),
            Verdict::Fail(_) => self.refuse_asked(500, kept.head_asked),
            Verdict::Reply => self.reply_asked(kept),
        }
    }

    /// Runs the rules of requests on the head that was read, and keeps its method as they leave it.
    fn run_rules(&mut self) -> Result<Verdict, OutOfMemory>
        requires read { HasRead self.old }
        requires head { IsHead (list_of self.old.request) }
        ensures ran { IfOk result (RulesRan self.old self.new) }
        ensures succeeds { holds_pattern (settings_of self.old) ≡ false → IsOk result }
    {
        edited();
        body_stays();
        replies_are_plain();
        let verdict = self.rules.on_request(self.request.head())?;
        keep_method(&mut self.method, self.request.head());
        Ok(verdict)
    }

    /// The head goes to a server, where its length is within the limits and it fits as it is finished.
    fn forward(&mut self, kept: Kept) -> Result<Asked, OutOfMemory>
        requires read { HasRead self.old }
        requires head { IsHead (list_of self.old.request) }
        ensures asks { IfOk result (AsksOn self.old self.new kept verdicts.Pass) }
        ensures succeeds { holds_pattern (settings_of self.old) ≡ false → IsOk result }
    {
        body_stays();
        requests();
        let filters = &self.rules.config().req_filters;
        if declares_too_much(&self.request, filters) {
            return self.refuse_asked(413, kept.head_asked);
        }
        let framing = sent_framing(&self.request, filters);
        if finish_head(&mut self.request, framing) {
            self.answer.begin(asker_of(&kept));
            self.request.send(framing, kept.awaits);
            Ok(Asked::Send)
        } else {
            self.refuse_asked(500, kept.head_asked)
        }
    }

    /// No server is asked, and this refusal is said.
    fn refuse_asked(&mut self, code: u16, no_body: bool) -> Result<Asked, OutOfMemory>
        requires { IsSilent self.old }
        ensures refuses { IfOk result (λ asked. (asked ≡ Asked.Refuse) × RefusesSo self.old self.new code self.old.method.bytes no_body) }
        ensures succeeds { holds_pattern (settings_of self.old) ≡ false → IsOk result }
    {
        refuse(
            &mut self.answer,
            &mut self.rules,
            self.method.bytes(),
            code,
            no_body,
        )?;
        Ok(Asked::Refuse)
    }

    /// The rules reply, with no server.
    fn reply_asked(&mut self, kept: Kept) -> Result<Asked, OutOfMemory>
        requires read { HasRead self.old }
        requires reply { HasReply self.old.rules.said.blocks }
        ensures asks { IfOk result (AsksOn self.old self.new kept verdicts.Reply) }
        ensures succeeds { holds_pattern (settings_of self.old) ≡ false → IsOk result }
    {
        replies_are_plain();
        let keep = may_keep(&kept);
        let going = reply(
            &mut self.answer,
            &mut self.rules,
            self.method.bytes(),
            kept.head_asked,
            keep,
        )?;
        self.request.reply();
        Ok(Asked::Reply(going))
    }
}
