//! Start lines that rules make (RFC 9112 sections 3 and 4).
ghost use Rattle.std.specs.Prelude.{◌≡◌, ℕ, List, ◌≤◌, ◌++◌, ◌↔◌, length, IsTrue, Some};
ghost use Rattle.htx_view.specs.Lines.{request_in};
ghost use Rattle.std.specs.Bool.{OnTrue};
ghost use Rattle.http_model.specs.Head.{RequestLine};
ghost use Rattle.px_sample.specs.Variables.{Variables};
ghost use Rattle.http_rules.specs.declared.action.side.Side.{Side as On};
ghost use Rattle.http_rules.specs.Action.Given.{Env};
ghost use Rattle.http_rules.specs.Action.Edits.{edited};
ghost use Rattle.http_rules.specs.Action.Lines as spec;
ghost use Rattle.http_rules.specs.Action.Outcome.{IsAt, Came, IsFront, IsTargetMade};

use crate::action::fields::{hold, step_of};
use crate::action::part::TargetPart;
use crate::action::stepped::Stepped;
use crate::action::target::{around, before_query};
use crate::action::word::is_word;
use http_model::Why;
use htx_arena::Arena;
use htx_view::request_parts;
use px_bytes::is_token;
use px_sample::Buf;

/// Whether a method may take the place of another.
fn may_become(old: &[u8], new: &[u8]) -> bool
    ensures { result ≡ spec.may_become old.now new.now }
{
    let was_head = is_word(old, b"HEAD");
    let is_head = is_word(new, b"HEAD");
    is_token(new) && !is_word(new, b"CONNECT") && was_head == is_head
}

/// Whether each byte may stand in a target.
fn are_target_bytes(text: &[u8]) -> bool
    ensures { result ≡ spec.are_target_bytes text.now }
{
    text.iter().all(|b| *b > 32 && *b != 127)
}

/// Whether each byte of three pieces may stand in a target.
fn are_all_target_bytes(front: &[u8], text: &[u8], back: &[u8]) -> bool
    ensures { result ≡ spec.are_target_bytes (front.now ++ (text.now ++ back.now)) }
{
    are_target_bytes(front) && (are_target_bytes(text) && are_target_bytes(back))
}

/// Joins three pieces over what a buffer holds; false where they do not fit.
pub(crate) fn join(front: &[u8], text: &[u8], back: &[u8], into: &mut Buf) -> bool
    ensures fits { IsTrue result ↔ (length (front.now ++ (text.now ++ back.now)) ≤ into.old.cap) }
    ensures joined { OnTrue result (into.new.bytes ≡ front.now ++ (text.now ++ back.now)) }
    ensures cap { into.new.cap ≡ into.old.cap }
{
    into.clear();
    if !into.push(front) {
        return false;
    }
    if !into.push(text) {
        return false;
    }
    into.push(back)
}

/// Joins three pieces to a target that may be sent.
fn make_target(front: &[u8], text: &[u8], back: &[u8], into: &mut Buf) -> Stepped
    ensures made { IsTargetMade into.old.cap (front.now ++ (text.now ++ back.now)) result into.new.bytes }
    ensures cap { into.new.cap ≡ into.old.cap }
{
    if !are_all_target_bytes(front, text, back) {
        return Stepped::Failed(Why::Bytes);
    }
    if !join(front, text, back, into) {
        return Stepped::Failed(Why::Room);
    }
    if into.bytes().is_empty() {
        return Stepped::Failed(Why::Bytes);
    }
    Stepped::Done
}

/// Another method in a request line.
pub(crate) fn put_method(msg: &mut Arena, text: &[u8], buf: &mut Buf, spare: &mut Buf) -> Stepped
    requires front { IsFront msg.old.blocks }
    requires buf { buf.old.cap ≡ msg.old.size }
    requires spare { spare.old.cap ≡ msg.old.size }
    ensures came { (side : On) (env : Env) (vars : Variables) → IsAt side env msg.old.blocks vars
        → Came side env (spec.remethoded msg.old.size env text.now) result msg.new.blocks vars }
    ensures size { msg.new.size ≡ msg.old.size }
    ensures buf { buf.new.cap ≡ buf.old.cap }
    ensures spare { spare.new.cap ≡ spare.old.cap }
{
    let _room = msg.room();
    let Some(line) = request_parts(msg) else {
        return Stepped::Done;
    };
    if !may_become(line.a, text) {
        return Stepped::Failed(Why::Bytes);
    }
    hold(line.b, buf);
    hold(line.c, spare);
    step_of(msg.replace_line(0, text, buf.bytes(), spare.bytes()))
}

/// Another target in a request line.
fn put_target(msg: &mut Arena, target: &[u8], buf: &mut Buf, spare: &mut Buf) -> Stepped
    requires front { IsFront msg.old.blocks }
    requires buf { buf.old.cap ≡ msg.old.size }
    requires spare { spare.old.cap ≡ msg.old.size }
    ensures came { (side : On) (env : Env) (vars : Variables) (method old version : List ℕ) → IsAt side env msg.old.blocks vars → request_in msg.old.blocks ≡ Some (method, old, version)
        → Came side env (edited msg.old.size env (spec.with_line env.head (RequestLine method target.now version))) result msg.new.blocks vars }
    ensures size { msg.new.size ≡ msg.old.size }
    ensures buf { buf.new.cap ≡ buf.old.cap }
    ensures spare { spare.new.cap ≡ spare.old.cap }
{
    let _room = msg.room();
    let Some(line) = request_parts(msg) else {
        return Stepped::Done;
    };
    hold(line.a, buf);
    hold(line.c, spare);
    step_of(msg.replace_line(0, buf.bytes(), target, spare.bytes()))
}

/// A part of the target becomes a text. `joined` takes the new target.
pub(crate) fn put_part(
    msg: &mut Arena,
    part: TargetPart,
    text: &[u8],
    joined: &mut Buf,
    buf: &mut Buf,
    spare: &mut Buf,
) -> Stepped
    requires front { IsFront msg.old.blocks }
    requires joined { joined.old.cap ≡ msg.old.size }
    requires buf { buf.old.cap ≡ msg.old.size }
    requires spare { spare.old.cap ≡ msg.old.size }
    ensures came { (side : On) (env : Env) (vars : Variables) → IsAt side env msg.old.blocks vars
        → Came side env (spec.retargeted msg.old.size env (λ target. spec.with_part part target text.now)) result msg.new.blocks vars }
    ensures size { msg.new.size ≡ msg.old.size }
    ensures joined { joined.new.cap ≡ joined.old.cap }
    ensures buf { buf.new.cap ≡ buf.old.cap }
    ensures spare { spare.new.cap ≡ spare.old.cap }
{
    let Some(line) = request_parts(msg) else {
        return Stepped::Done;
    };
    let (front, back) = around(part, line.b);
    match make_target(front, text, back, joined) {
        Stepped::Failed(why) => Stepped::Failed(why),
        Stepped::Done => put_target(msg, joined.bytes(), buf, spare),
    }
}

/// The query of the target becomes a text.
pub(crate) fn put_query(
    msg: &mut Arena,
    text: &[u8],
    joined: &mut Buf,
    buf: &mut Buf,
    spare: &mut Buf,
) -> Stepped
    requires front { IsFront msg.old.blocks }
    requires joined { joined.old.cap ≡ msg.old.size }
    requires buf { buf.old.cap ≡ msg.old.size }
    requires spare { spare.old.cap ≡ msg.old.size }
    ensures came { (side : On) (env : Env) (vars : Variables) → IsAt side env msg.old.blocks vars
        → Came side env (spec.retargeted msg.old.size env (λ target. spec.with_query target text.now)) result msg.new.blocks vars }
    ensures size { msg.new.size ≡ msg.old.size }
    ensures joined { joined.new.cap ≡ joined.old.cap }
    ensures buf { buf.new.cap ≡ buf.old.cap }
    ensures spare { spare.new.cap ≡ spare.old.cap }
{
    let Some(line) = request_parts(msg) else {
        return Stepped::Done;
    };
    let (front, mark) = before_query(line.b, text);
    match make_target(front, mark, text, joined) {
        Stepped::Failed(why) => Stepped::Failed(why),
        Stepped::Done => put_target(msg, joined.bytes(), buf, spare),
    }
}
