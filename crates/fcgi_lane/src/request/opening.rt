//! The end of a request's head, and the records in front of its body.
ghost use Rattle.std.specs.Prelude.{◌≡◌, ◌<◌, ◌≤◌, ◌+◌, ◌++◌, length, take, true, IfSome, IsNone, IfOk, OnOk};
ghost use Rattle.fcgi_model.specs.Head.{ends_head, NoEnd};
ghost use Rattle.fcgi_model.specs.Records.{begin_record};
ghost use Rattle.fcgi_lane.specs.Request.Stages.{place_of, IsStage};
ghost use Rattle.fcgi_lane.specs.Request.Opening.{IsOpened, IsBodyOpened};

use crate::request::body::{continue_body, push_end};
use crate::request::body_stages::{BodyStage, body_at};
use crate::request::head_reading::{framing_of, head_of};
use crate::request::pairs::params;
use crate::request::records::push_record;
use fcgi_model::Refusal;
use fcgi_record::RecordKind;
use http_model::OutOfMemory;
use px_link::Application;
use std::alloc::Global;

/// What a whole head becomes.
#[derive(Drop)]
pub(crate) enum Opened {
    /// The body stands there, behind these records.
    Body { stage: BodyStage, left: Vec<u8> },
    /// Nothing is asked.
    Refused(Refusal),
}

/// Where the head ends that so many bytes of a text don't end; none where it doesn't.
pub(crate) fn head_end(text: &[u8], seen: usize) -> Option<usize>
    requires { seen ≤ length text.now }
    ensures within { IfSome result (λ end. (seen < end) × (end ≤ length text.now)) }
    ensures ends { IfSome result (λ end. ends_head (take end text.now) ≡ true) }
    ensures first { IfSome result (λ end. NoEnd seen end text.now) }
    ensures none { IsNone result → NoEnd seen (length text.now + 1) text.now }
{
    for end in seen..text.len() {
        if text[..end + 1].ends_with(b"\r\n\r\n") {
            return Some(end + 1);
        }
    }
    None
}

/// Puts the records in front of a body behind a text: the first one, and those of the pairs.
fn push_front(left: &mut Vec<u8>, params: &[u8]) -> Result<(), OutOfMemory>
    ensures { OnOk result (left.new.items ≡ left.old.items ++ (begin_record ++ params.now)) }
{
    push_record(left, RecordKind::BeginRequest, &[0, 1, 0, 0, 0, 0, 0, 0])?;
    left.extend_from_slice(params)?;
    Ok(())
}

/// The records in front of a body, and of the bytes of the body that follow the head.
fn open_body(
    alloc: Global,
    stage: BodyStage,
    params: &[u8],
    rest: &[u8],
) -> Result<Opened, OutOfMemory>
    requires { IsStage stage }
    ensures { IfOk result (λ opened. IsBodyOpened (place_of stage) params.now rest.now opened) }
{
    let mut left = Vec::new(alloc);
    push_front(&mut left, params)?;
    push_end(&mut left, stage)?;
    let (stage, made) = continue_body(alloc, stage, rest)?;
    left.extend_from_slice(&made)?;
    Ok(Opened::Body { stage, left })
}

/// What the text of a head becomes, with these bytes behind it.
pub(crate) fn open_request(
    alloc: Global,
    application: &Application,
    text: &[u8],
    rest: &[u8],
) -> Result<Opened, OutOfMemory>
    ensures { IfOk result (λ opened. IsOpened application.now text.now rest.now opened) }
{
    let Some(head) = head_of(alloc, text)? else {
        return Ok(Opened::Refused(Refusal::BadHead));
    };
    let Some(framing) = framing_of(&head.fields) else {
        return Ok(Opened::Refused(Refusal::BadHead));
    };
    let Some(params) = params(alloc, application, &head, framing)? else {
        return Ok(Opened::Refused(Refusal::LongPair));
    };
    let opened = open_body(alloc, body_at(framing), &params, rest)?;
    Ok(opened)
}
