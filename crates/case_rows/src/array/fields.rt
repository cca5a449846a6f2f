//! Edits of header fields, and parts of a message.
ghost use Rattle.std.specs.Bool.{OnTrue};
ghost use Rattle.header_ops.specs.Headers.{HasEnd};

use crate::array::insertions::say_full;
use crate::array::messages::{say_field, say_line};
use crate::{Answers, Fault, Step};
use header_ops::{
    NameMatch, add_field, count_fulls, count_values, has_named, nth_full, nth_value,
    remove_framing, remove_named, remove_where, set_field,
};
use htx_arena::{Arena, Kind, Line};
use htx_view::{first_value, request_parts, response_parts, status_of};

/// Whether a message has an end of headers.
fn has_end(msg: &Arena) -> bool
    ensures { OnTrue result (HasEnd msg.now.blocks) }
{
    for at in 0..msg.len() {
        match msg.kind(at) {
            Kind::EndHeaders => return true,
            _ => {}
        }
    }
    false
}

/// Sets a field, or puts one more in.
fn put_field(
    step: &Step<'_>,
    sets: bool,
    msg: &mut Arena,
    answers: &mut Answers,
) -> Result<(), Fault> {
    let (name, value) = (step.bytes(1), step.bytes(2));
    if name.is_empty() || name.len() > 255 {
        return Err(Fault::Malformed);
    }
    if !has_end(msg) {
        return Err(Fault::Malformed);
    }
    let done = if sets {
        set_field(msg, name, value)
    } else {
        add_field(msg, name, value)
    };
    say_full(done, answers);
    Ok(())
}

/// How names are to match.
fn match_of<'a>(how: &str, part: &'a [u8]) -> Result<NameMatch<'a>, Fault> {
    match how {
        "str" => Ok(NameMatch::Str(part)),
        "beg" => Ok(NameMatch::Beg(part)),
        "end" => Ok(NameMatch::End(part)),
        "sub" => Ok(NameMatch::Sub(part)),
        _ => Err(Fault::Malformed),
    }
}

/// Takes out the fields whose names match, and says how many.
fn remove_matching(step: &Step<'_>, msg: &mut Arena, answers: &mut Answers) -> Result<(), Fault> {
    let how = match_of(step.word(1), step.bytes(2))?;
    answers.count(u64::from(remove_where(msg, &how)));
    Ok(())
}

/// Takes a step that edits fields; none where it is no such step.
pub fn step_fields(
    step: &Step<'_>,
    msg: &mut Arena,
    answers: &mut Answers,
) -> Option<Result<(), Fault>> {
    match step.word(0) {
        "set" => return Some(put_field(step, true, msg, answers)),
        "add" => return Some(put_field(step, false, msg, answers)),
        "remove_where" => return Some(remove_matching(step, msg, answers)),
        "remove_named" => answers.count(u64::from(remove_named(msg, step.bytes(1)))),
        "remove_framing" => remove_framing(msg),
        _ => return None,
    }
    Some(Ok(()))
}

/// Says the headers.
fn say_headers(msg: &Arena, answers: &mut Answers) {
    for (_, name, value) in msg.fields() {
        say_field(name, value, answers);
    }
}

/// Says the parts of a start line, if there is one.
fn say_some_line(line: Option<Line<'_>>, answers: &mut Answers) {
    match line {
        Some(line) => say_line(&line, answers),
        None => answers.say(b"none"),
    }
}

/// Says one of the values of a name, whole or between commas.
fn say_nth(step: &Step<'_>, whole: bool, msg: &Arena, answers: &mut Answers) -> Result<(), Fault> {
    let n = step.place(2)?;
    if whole {
        answers.some_quote(nth_full(msg, step.bytes(1), n));
    } else {
        answers.some_quote(nth_value(msg, step.bytes(1), n));
    }
    Ok(())
}

/// Says what is read by a name; none where the step doesn't ask for it.
fn say_named(step: &Step<'_>, msg: &Arena, answers: &mut Answers) -> Option<Result<(), Fault>> {
    let name = step.bytes(1);
    match step.word(0) {
        "nth" => return Some(say_nth(step, false, msg, answers)),
        "full" => return Some(say_nth(step, true, msg, answers)),
        "has" => answers.truth(has_named(msg, name)),
        "count" => answers.count(u64::from(count_values(msg, name))),
        "fulls" => answers.count(u64::from(count_fulls(msg, name))),
        "first" => answers.some_quote(first_value(msg, name)),
        _ => return None,
    }
    Some(Ok(()))
}

/// Says a part of a message; none where the step doesn't ask for one.
pub fn say_part(step: &Step<'_>, msg: &Arena, answers: &mut Answers) -> Option<Result<(), Fault>> {
    match step.word(0) {
        "headers" => say_headers(msg, answers),
        "request" => say_some_line(request_parts(msg), answers),
        "response" => say_some_line(response_parts(msg), answers),
        "status" => answers.some_count(status_of(msg).map(u64::from)),
        _ => return say_named(step, msg, answers),
    }
    Some(Ok(()))
}
