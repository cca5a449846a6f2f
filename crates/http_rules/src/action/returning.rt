//! `return`: a reply with a type, a payload and fields of its own.
ghost use Rattle.std.specs.Prelude.{◌≡◌, [], false, ◌||◌, length, List, ℕ, Option, option_map, option_copied, IsOk, IfOk, Result};
ghost use Rattle.std.specs.Bool.{OnTrue};
ghost use Rattle.std.specs.List.{AllByRecursion, list_any};
ghost use Rattle.http_model.specs.declared.Why.{Why as Reason};
ghost use Rattle.http_model.specs.Head.{Head, Message, head_blocks};
ghost use Rattle.http_model.specs.Reply.{reply_head};
ghost use Rattle.px_bytes.specs.Blanks.{trimmed};
ghost use Rattle.http_rules.specs.Rule.Actions.{payload_holds_pattern, hdr_holds_pattern};
ghost use Rattle.http_rules.specs.Rule.Valid.{IsMadeName};
ghost use Rattle.http_rules.specs.Action.Given.{Env};
ghost use Rattle.http_rules.specs.Action.Replies.{length_by};
ghost use Rattle.http_rules.specs.Action.Told.{reply_of};
ghost use Rattle.http_rules.specs.Action.Outcome.{IsScratch, IsPlaceOf, Answers};
ghost use Rattle.http_rules.specs.Action.Written.{IsHead, IsPut, IsEnded, IsReply, IsWritten, body_by};

use crate::action::payload::{
    body_by, is_good_type, length_by, make_payload, trimmed_type, type_by,
};
use crate::action::place::Place;
use crate::action::reply_fields::put_fields;
use crate::action::scratch::Scratch;
use crate::action::stepped::Stepped;
use crate::rule::{HdrList, Payload};
use http_model::Why;
use htx_arena::Arena;
use px_expr::Text;
use px_reply::{add_payload, begin_reply, has_room_to_close};
use px_sample::OutOfMemory;

/// What a `return` sends.
#[derive(Clone, Copy)]
pub(crate) struct Returned<'a> {
    pub(crate) status: u16,
    pub(crate) content_type: &'a Option<Text>,
    pub(crate) payload: &'a Option<Payload>,
    pub(crate) hdrs: &'a HdrList,
}

/// Begins a reply in an empty array; false where its head does not fit.
fn begin(status: u16, content_type: Option<&[u8]>, length: Option<u64>, reply: &mut Arena) -> bool
    requires { reply.old.blocks ≡ [] }
    ensures put { IsPut reply.old.size (reply_head status (option_map trimmed (option_copied content_type.entry)) length) [] result reply.new.blocks }
    ensures head { OnTrue result (IsHead reply.new.blocks) }
    ensures size { reply.new.size ≡ reply.old.size }
{
    match begin_reply(status, trimmed_type(content_type), length, reply) {
        Ok(()) => true,
        Err(_) => false,
    }
}

/// Puts the body behind the head of a reply, where `connection: close` fits too.
fn end(body: &[u8], reply: &mut Arena) -> Stepped
    requires { IsHead reply.old.blocks }
    ensures ended { (head : Head) → reply.old.blocks ≡ head_blocks head → IsEnded reply.old.size head body.now result reply.new.blocks }
    ensures size { reply.new.size ≡ reply.old.size }
{
    match add_payload(reply, body) {
        Ok(()) => {
            if has_room_to_close(reply) {
                Stepped::Done
            } else {
                Stepped::Failed(Why::Room)
            }
        }
        Err(_) => Stepped::Failed(Why::Room),
    }
}

/// The reply of a payload whose text `scratch.text` holds, or some of its blocks where it fails. The text of each field is made, and tested before the room is.
fn write_parts(
    returned: Returned<'_>,
    content_type: Option<&[u8]>,
    place: Place<'_>,
    scratch: &mut Scratch,
    reply: &mut Arena,
) -> Result<Stepped, OutOfMemory>
    requires scratch { IsScratch place.msg.now.size scratch.old }
    requires empty { reply.old.blocks ≡ [] }
    requires names { AllByRecursion (λ hdr. IsMadeName hdr.name) returned.hdrs.now }
    ensures put { IfOk result (λ step. (env : Env) → IsPlaceOf env place.entry
        → IsReply place.entry.msg.now.size reply.old.size env (reply_head returned.entry.status (option_map trimmed (option_copied content_type.entry)) (length_by returned.entry.status (length (body_by returned.entry.payload.now scratch.old.text.bytes)))) returned.entry.hdrs.now (body_by returned.entry.payload.now scratch.old.text.bytes) step reply.new.blocks) }
    ensures succeeds { list_any hdr_holds_pattern returned.entry.hdrs.now ≡ false → IsOk result }
    ensures size { reply.new.size ≡ reply.old.size }
    ensures scratch { IsScratch place.entry.msg.now.size scratch.new }
{
    let (status, payload, hdrs) = (returned.status, returned.payload, returned.hdrs);
    let length = length_by(status, payload, scratch.text.bytes());
    let begun = begin(status, content_type, length, reply);
    let step = put_fields(hdrs, place, begun, scratch, reply)?;
    match step {
        Stepped::Done => Ok(end(body_by(payload, scratch.text.bytes()), reply)),
        Stepped::Failed(why) => Ok(Stepped::Failed(why)),
    }
}

/// The reply, or some of its blocks where it fails. Each text is made once, and tested before the room is.
fn write_reply(
    returned: Returned<'_>,
    place: Place<'_>,
    scratch: &mut Scratch,
    reply: &mut Arena,
) -> Result<Stepped, OutOfMemory>
    requires scratch { IsScratch place.msg.now.size scratch.old }
    requires sizes { reply.old.size ≡ place.msg.now.size }
    requires empty { reply.old.blocks ≡ [] }
    requires names { AllByRecursion (λ hdr. IsMadeName hdr.name) returned.hdrs.now }
    ensures written { IfOk result (λ step. (env : Env) → IsPlaceOf env place.entry
        → IsWritten (reply_of place.entry.msg.now.size returned.entry env) step reply.new.blocks) }
    ensures succeeds { payload_holds_pattern returned.entry.payload.now || list_any hdr_holds_pattern returned.entry.hdrs.now ≡ false → IsOk result }
    ensures size { reply.new.size ≡ reply.old.size }
    ensures scratch { IsScratch place.entry.msg.now.size scratch.new }
{
    let content_type = type_by(returned.payload, returned.content_type);
    if !is_good_type(content_type) {
        return Ok(Stepped::Failed(Why::Bytes));
    }
    if !make_payload(returned.payload, place, scratch)? {
        return Ok(Stepped::Failed(Why::Bytes));
    }
    write_parts(returned, content_type, place, scratch, reply)
}

/// Leaves nothing of a reply that failed.
fn whole(step: Stepped, reply: &mut Arena) -> Stepped
    ensures whole { (r : Result Message Reason) → IsWritten r step reply.old.blocks → Answers r result reply.new.blocks }
    ensures size { reply.new.size ≡ reply.old.size }
{
    match step {
        Stepped::Done => Stepped::Done,
        Stepped::Failed(why) => {
            reply.clear();
            Stepped::Failed(why)
        }
    }
}

/// `return`. The reply is without a field that speaks of the connection, and one with `connection: close` would fit.
pub(crate) fn return_reply(
    returned: Returned<'_>,
    place: Place<'_>,
    scratch: &mut Scratch,
    reply: &mut Arena,
) -> Result<Stepped, OutOfMemory>
    requires scratch { IsScratch place.msg.now.size scratch.old }
    requires sizes { reply.old.size ≡ place.msg.now.size }
    requires empty { reply.old.blocks ≡ [] }
    requires names { AllByRecursion (λ hdr. IsMadeName hdr.name) returned.hdrs.now }
    ensures came { IfOk result (λ step. (env : Env) → IsPlaceOf env place.entry
        → Answers (reply_of place.entry.msg.now.size returned.entry env) step reply.new.blocks) }
    ensures succeeds { payload_holds_pattern returned.entry.payload.now || list_any hdr_holds_pattern returned.entry.hdrs.now ≡ false → IsOk result }
    ensures size { reply.new.size ≡ reply.old.size }
    ensures scratch { IsScratch place.entry.msg.now.size scratch.new }
{
    let step = write_reply(returned, place, scratch, reply)?;
    Ok(whole(step, reply))
}
