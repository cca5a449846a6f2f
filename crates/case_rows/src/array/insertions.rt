//! Blocks that a step puts in, and lines and values that it replaces.
ghost use Rattle.std.specs.Prelude.{◌≤◌, length, IfOk};

use crate::{Answers, Fault, Step};
use htx_arena::{Arena, Full, Kind};

/// Says that an edit found no room.
pub fn say_full(done: Result<(), Full>, answers: &mut Answers) {
    match done {
        Ok(()) => {}
        Err(Full) => answers.say(b"full"),
    }
}

/// A place where a block may be put in.
fn place_in(step: &Step<'_>, msg: &Arena) -> Result<u32, Fault>
    ensures { IfOk result (λ at. at ≤ length msg.now.blocks) }
{
    let at = step.place(1)?;
    if at > msg.len() {
        return Err(Fault::Malformed);
    }
    Ok(at)
}

/// Puts a request line in, or a response line.
fn insert_line(
    step: &Step<'_>,
    responds: bool,
    msg: &mut Arena,
) -> Result<Result<(), Full>, Fault> {
    let at = place_in(step, msg)?;
    let (first, second, third) = (step.bytes(2), step.bytes(3), step.bytes(4));
    if responds {
        return Ok(msg.insert_line(at, Kind::ResponseLine, first, second, third));
    }
    Ok(msg.insert_line(at, Kind::RequestLine, first, second, third))
}

/// Puts a header in, or a trailer.
fn insert_field(step: &Step<'_>, trails: bool, msg: &mut Arena) -> Result<Result<(), Full>, Fault> {
    let at = place_in(step, msg)?;
    let (name, value) = (step.bytes(2), step.bytes(3));
    if name.is_empty() || name.len() > 255 {
        return Err(Fault::Malformed);
    }
    if trails {
        return Ok(msg.insert_field(at, Kind::Trailer, name, value));
    }
    Ok(msg.insert_field(at, Kind::Header, name, value))
}

/// Puts an end of headers in, or one of trailers.
fn insert_end(step: &Step<'_>, trails: bool, msg: &mut Arena) -> Result<Result<(), Full>, Fault> {
    let at = place_in(step, msg)?;
    if trails {
        return Ok(msg.insert_end(at, Kind::EndTrailers));
    }
    Ok(msg.insert_end(at, Kind::EndHeaders))
}

/// Puts a block in.
fn inserted(step: &Step<'_>, msg: &mut Arena) -> Result<Result<(), Full>, Fault> {
    match step.word(0) {
        "request_line" => insert_line(step, false, msg),
        "response_line" => insert_line(step, true, msg),
        "header" => insert_field(step, false, msg),
        "trailer" => insert_field(step, true, msg),
        "end_headers" => insert_end(step, false, msg),
        "end_trailers" => insert_end(step, true, msg),
        "value" => replace_value(step, msg),
        _ => replace_line(step, msg),
    }
}

/// Replaces the value of a field.
fn replace_value(step: &Step<'_>, msg: &mut Arena) -> Result<Result<(), Full>, Fault> {
    let at = step.place(1)?;
    if at >= msg.len() {
        return Err(Fault::Malformed);
    }
    match msg.kind(at) {
        Kind::Header => Ok(msg.replace_value(at, step.bytes(2))),
        _ => Err(Fault::Malformed),
    }
}

/// Replaces a start line.
fn replace_line(step: &Step<'_>, msg: &mut Arena) -> Result<Result<(), Full>, Fault> {
    let at = step.place(1)?;
    if at >= msg.len() {
        return Err(Fault::Malformed);
    }
    match msg.kind(at) {
        Kind::RequestLine => {
            Ok(msg.replace_line(at, step.bytes(2), step.bytes(3), step.bytes(4)))
        }
        Kind::ResponseLine => {
            Ok(msg.replace_line(at, step.bytes(2), step.bytes(3), step.bytes(4)))
        }
        _ => Err(Fault::Malformed),
    }
}

/// Takes a step that puts a block in or replaces one's parts.
pub fn step_insert(step: &Step<'_>, msg: &mut Arena, answers: &mut Answers) -> Result<(), Fault> {
    say_full(inserted(step, msg)?, answers);
    Ok(())
}
