//! Edits of an array of blocks, and copies of its blocks.
ghost use Rattle.std.specs.Prelude.{◌≤◌, IfOk};

use crate::array::blocks::{say_raw, step_blocks};
use crate::array::fields::{say_part, step_fields};
use crate::array::insertions::{say_full, step_insert};
use crate::array::messages::{say_blocks, say_places};
use crate::{Answers, Fault, Row, Step, Steps, place_of};
use htx_arena::Arena;
use std::alloc::Global;

/// Says what stands in the array; none where the step doesn't ask for it.
fn say_array(step: &Step<'_>, msg: &Arena, answers: &mut Answers) -> Option<Result<(), Fault>> {
    match step.word(0) {
        "places" => say_places(msg, answers),
        "blocks" => say_blocks(msg, answers),
        "room" => answers.count(u64::from(msg.room())),
        "raw" => return Some(say_raw(step, msg, answers)),
        _ => return say_part(step, msg, answers),
    }
    Some(Ok(()))
}

/// Takes a step that edits fields or puts a block in.
fn step_edit(step: &Step<'_>, msg: &mut Arena, answers: &mut Answers) -> Result<(), Fault> {
    match step_fields(step, msg, answers) {
        Some(taken) => taken,
        None => step_insert(step, msg, answers),
    }
}

/// Takes a step that changes the array.
fn step_change(step: &Step<'_>, msg: &mut Arena, answers: &mut Answers) -> Result<(), Fault> {
    match step_blocks(step, msg) {
        Some(taken) => taken,
        None => step_edit(step, msg, answers),
    }
}

/// Takes a step.
pub fn step_message(step: &Step<'_>, msg: &mut Arena, answers: &mut Answers) -> Result<(), Fault> {
    match say_array(step, msg, answers) {
        Some(said) => said,
        None => step_change(step, msg, answers),
    }
}

/// The size of an array that a text says.
fn size_of(text: &str) -> Result<u32, Fault>
    ensures { IfOk result (λ size. (1024 ≤ size) × (size ≤ 262144)) }
{
    let size = place_of(text.as_bytes())?;
    if size < 1024 || size > 262144 {
        return Err(Fault::Malformed);
    }
    Ok(size)
}

/// Takes each of the steps.
fn step_each(steps: &[Step<'_>], msg: &mut Arena, answers: &mut Answers) -> Result<(), Fault> {
    for step in steps {
        step_message(step, msg, answers)?;
    }
    Ok(())
}

/// Takes steps, with semicolons between them.
pub fn step_all(
    alloc: Global,
    steps: &str,
    msg: &mut Arena,
    answers: &mut Answers,
) -> Result<(), Fault> {
    let steps = Steps::read(alloc, steps)?;
    step_each(steps.as_slice(), msg, answers)
}

/// NAME, the size of the array, steps, and what they say.
fn edited(alloc: Global, row: Row<'_>, answers: &mut Answers) -> Result<(), Fault> {
    let size = size_of(row.field(1))?;
    let mut msg = Arena::new(alloc, size)?;
    let said = step_all(alloc, row.field(2), &mut msg, answers);
    drop(msg);
    said
}

/// Copies each block behind those of another array.
fn copy_all(from: &Arena, to: &mut Arena, answers: &mut Answers) {
    for at in 0..from.len() {
        say_full(to.add_copy(from, at), answers);
    }
}

/// Takes the steps of a row with an array, and then those with another that has got a copy of each block.
fn step_both(
    alloc: Global,
    row: Row<'_>,
    from: &mut Arena,
    to: &mut Arena,
    answers: &mut Answers,
) -> Result<(), Fault> {
    step_all(alloc, row.field(2), from, answers)?;
    copy_all(from, to, answers);
    step_all(alloc, row.field(3), to, answers)
}

/// The same with an array that is empty, and another of this size.
fn copied_from(
    alloc: Global,
    row: Row<'_>,
    size: u32,
    from: &mut Arena,
    answers: &mut Answers,
) -> Result<(), Fault>
    requires least { 1024 ≤ size }
    requires most { size ≤ 262144 }
{
    let mut to = Arena::new(alloc, size)?;
    step_both(alloc, row, from, &mut to, answers)
}

/// NAME, the size of an array, steps with it, and steps with another of the same size that has got a copy of each block.
fn copied(alloc: Global, row: Row<'_>, answers: &mut Answers) -> Result<(), Fault> {
    let size = size_of(row.field(1))?;
    let mut from = Arena::new(alloc, size)?;
    let said = copied_from(alloc, row, size, &mut from, answers);
    drop(from);
    said
}

/// Says what a row of one of these kinds comes to; none of another kind.
fn say(
    alloc: Global,
    kind: &str,
    row: Row<'_>,
    answers: &mut Answers,
) -> Option<Result<(), Fault>> {
    match kind {
        "edits" => Some(edited(alloc, row, answers)),
        "copies" => Some(copied(alloc, row, answers)),
        _ => None,
    }
}

/// What a row of one of these kinds comes to; none of another kind.
pub fn made(alloc: Global, kind: &str, row: Row<'_>) -> Option<Result<Vec<u8>, Fault>> {
    let mut answers = Answers::new(alloc);
    let said = say(alloc, kind, row, &mut answers);
    answers.told_some(said)
}
