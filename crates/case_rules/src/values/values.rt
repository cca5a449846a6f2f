//! Casts of samples, buffers and variables.
use crate::values::expressions::buffer_of;
use crate::values::samples::say_sample;
use case_rows::{Answers, Fault, Held, Row, Step, held_in};
use px_expr::{Buf, Sample, Scope};
use px_sample::{Vars, into_text, number_in, truth_in};
use std::alloc::Global;

/// Puts what a row gives into a buffer, over what that holds: the sample beside it.
fn sample_into(held: &Held, buf: &mut Buf) -> Sample {
    match held {
        Held::Absent => Sample::Absent,
        Held::Truth(truth) => Sample::Truth(*truth),
        Held::Number(number) => Sample::Number(*number),
        Held::Bytes(bytes) => {
            buf.clear();
            if buf.push(bytes) {
                Sample::InBuf
            } else {
                Sample::Absent
            }
        }
    }
}

/// What a sample is as another kind.
fn cast(kind: &str, sample: Sample, buf: &mut Buf) -> Result<Sample, Fault> {
    match kind {
        "number" => Ok(number_in(sample, buf).map_or(Sample::Absent, Sample::Number)),
        "truth" => Ok(truth_in(sample, buf).map_or(Sample::Absent, Sample::Truth)),
        "bytes" => Ok(into_text(sample, buf)),
        _ => Err(Fault::Malformed),
    }
}

/// NAME, how many bytes a buffer may hold, a sample, `number`, `truth` or `bytes`, and the sample as this.
pub fn casted(alloc: Global, row: Row<'_>) -> Result<Vec<u8>, Fault> {
    let mut buf = buffer_of(alloc, row.field(1))?;
    let _ = buf.push(b"old");
    let sample = sample_into(&held_in(alloc, row.field(2))?, &mut buf);
    let made = cast(row.field(3), sample, &mut buf)?;
    let mut answers = Answers::new(alloc);
    say_sample(made, &buf, &mut answers);
    answers.into_text()
}

/// Takes a step that changes a buffer's bytes. Whether it is one.
fn change_buffer(step: &Step<'_>, buf: &mut Buf) -> bool {
    match step.word(0) {
        "clear" => buf.clear(),
        "reverse" => buf.bytes_mut().reverse(),
        "upper" => buf.make_upper(),
        _ => return false,
    }
    true
}

/// Takes a step with a buffer.
fn step_buffer(step: &Step<'_>, buf: &mut Buf, answers: &mut Answers) -> Result<(), Fault> {
    if change_buffer(step, buf) {
        return Ok(());
    }
    match step.word(0) {
        "push" => answers.truth(buf.push(step.bytes(1))),
        "push_byte" => match step.bytes(1).first() {
            Some(byte) => answers.truth(buf.push_byte(*byte)),
            None => return Err(Fault::Malformed),
        },
        "resize" => answers.truth(buf.resize(step.count(1)?)),
        "truncate" => buf.truncate(step.count(1)?),
        "bytes" => answers.quote(buf.bytes()),
        "cap" => answers.count(buf.cap() as u64),
        _ => return Err(Fault::Malformed),
    }
    Ok(())
}

/// Takes steps with a buffer, with semicolons between them.
fn steps_buffer(
    alloc: Global,
    steps: &str,
    buf: &mut Buf,
    answers: &mut Answers,
) -> Result<(), Fault> {
    for step in steps.split(';') {
        step_buffer(&Step::read(alloc, step)?, buf, answers)?;
    }
    Ok(())
}

/// NAME, how many bytes the buffer may hold, steps, and what they say.
pub fn buffered(alloc: Global, row: Row<'_>) -> Result<Vec<u8>, Fault> {
    let mut buf = buffer_of(alloc, row.field(1))?;
    let mut answers = Answers::new(alloc);
    steps_buffer(alloc, row.field(2), &mut buf, &mut answers)?;
    answers.into_text()
}

/// The scope of this name.
fn scope_of(name: &str) -> Result<Scope, Fault> {
    match name {
        "sess" => Ok(Scope::Sess),
        "txn" => Ok(Scope::Txn),
        "req" => Ok(Scope::Req),
        "res" => Ok(Scope::Res),
        _ => Err(Fault::Malformed),
    }
}

/// Sets a variable.
fn set(alloc: Global, step: &Step<'_>, scope: Scope, vars: &mut Vars) -> Result<(), Fault> {
    let mut buf = Buf::new(alloc, 5000)?;
    let sample = sample_into(&held_in(alloc, step.word(3))?, &mut buf);
    vars.set(scope, step.bytes(2), sample, &buf);
    Ok(())
}

/// Says the value of a variable, read into a buffer of so many bytes.
fn get(
    alloc: Global,
    step: &Step<'_>,
    scope: Scope,
    vars: &Vars,
    answers: &mut Answers,
) -> Result<(), Fault> {
    let mut buf = buffer_of(alloc, step.word(3))?;
    let _ = buf.push(b"zz");
    let sample = vars.get(scope, step.bytes(2), &mut buf);
    say_sample(sample, &buf, answers);
    Ok(())
}

/// Takes a step with variables.
fn step_vars(
    alloc: Global,
    step: &Step<'_>,
    vars: &mut Vars,
    answers: &mut Answers,
) -> Result<(), Fault> {
    let scope = scope_of(step.word(1))?;
    match step.word(0) {
        "set" => set(alloc, step, scope, vars)?,
        "get" => get(alloc, step, scope, vars, answers)?,
        "unset" => vars.unset(scope, step.bytes(2)),
        "clear" => vars.clear(scope),
        _ => return Err(Fault::Malformed),
    }
    Ok(())
}

/// Takes steps with variables, with semicolons between them.
fn steps_vars(
    alloc: Global,
    steps: &str,
    vars: &mut Vars,
    answers: &mut Answers,
) -> Result<(), Fault> {
    for step in steps.split(';') {
        step_vars(alloc, &Step::read(alloc, step)?, vars, answers)?;
    }
    Ok(())
}

/// NAME, steps (`set SCOPE NAME SAMPLE`, `get SCOPE NAME SIZE`, `unset SCOPE NAME`, `clear SCOPE`), and what they say.
pub fn variables(alloc: Global, row: Row<'_>) -> Result<Vec<u8>, Fault> {
    let mut vars = Vars::new(alloc)?;
    let mut answers = Answers::new(alloc);
    steps_vars(alloc, row.field(1), &mut vars, &mut answers)?;
    answers.into_text()
}
