//! The records of the body of a request.
ghost use Rattle.std.specs.Prelude.{◌≡◌, ◌<◌, ◌≤◌, ◌++◌, length, take, IfOk, OnOk};
ghost use Rattle.fcgi_model.specs.Flow.{body_end};
ghost use Rattle.fcgi_lane.specs.Request.Stages.{place_of, IsStage};
ghost use Rattle.fcgi_lane.specs.Request.Sending.{Sends, Continues};

use crate::request::body_stages::{BodyRun, BodyStage, is_whole, read_run};
use crate::request::records::push_record;
use fcgi_record::RecordKind;
use http_model::OutOfMemory;
use std::alloc::Global;

/// Reads bytes at the front, puts a record behind the others where they are of the body, and answers how many they are.
fn put_run(
    made: &mut Vec<u8>,
    stage: BodyStage,
    bytes: &[u8],
) -> Result<(BodyStage, usize), OutOfMemory>
    requires some { 0 < length bytes.now }
    requires stage { IsStage stage }
    ensures within { IfOk result (λ r. (0 < r.1) × (r.1 ≤ length bytes.now)) }
    ensures stage { IfOk result (λ r. IsStage r.0) }
    ensures sends { IfOk result (λ r. Sends (place_of stage) (take r.1 bytes.now) (place_of r.0) made.old.items made.new.items) }
{
    let (next, run) = read_run(stage, bytes);
    match run {
        BodyRun::Body(count) => {
            push_record(made, RecordKind::Stdin, &bytes[..count])?;
            Ok((next, count))
        }
        BodyRun::Frame => Ok((next, 1)),
    }
}

/// Reads bytes, and puts the records of what is of the body behind the others.
fn put_body(made: &mut Vec<u8>, stage: BodyStage, bytes: &[u8]) -> Result<BodyStage, OutOfMemory>
    requires { IsStage stage }
    ensures stage { IfOk result (λ s. IsStage s) }
    ensures sends { IfOk result (λ s. Sends (place_of stage) bytes.now (place_of s) made.old.items made.new.items) }
{
    let (mut stage, mut used) = (stage, 0);
    while used < bytes.len() {
        let (next, count) = put_run(made, stage, &bytes[used..])?;
        stage = next;
        used += count;
    }
    Ok(stage)
}

/// Puts the last record behind the others, where the body is whole.
pub(crate) fn push_end(made: &mut Vec<u8>, stage: BodyStage) -> Result<(), OutOfMemory>
    ensures { OnOk result (made.new.items ≡ made.old.items ++ body_end (place_of stage)) }
{
    if !is_whole(stage) {
        return Ok(());
    }
    push_record(made, RecordKind::Stdin, b"")
}

/// Reads more bytes of a body, and answers where it stands behind them and the records that they add.
pub(crate) fn continue_body(
    alloc: Global,
    stage: BodyStage,
    bytes: &[u8],
) -> Result<(BodyStage, Vec<u8>), OutOfMemory>
    requires { IsStage stage }
    ensures stage { IfOk result (λ r. IsStage r.0) }
    ensures continues { IfOk result (λ r. Continues (place_of stage) bytes.now (place_of r.0) r.1.items) }
{
    let mut made = Vec::new(alloc);
    if is_whole(stage) {
        return Ok((stage, made));
    }
    let next = put_body(&mut made, stage, bytes)?;
    push_end(&mut made, next)?;
    Ok((next, made))
}
