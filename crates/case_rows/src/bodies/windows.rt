//! Windows of bytes that are kept between reads: NAME, how many bytes the window may hold, steps, and what they say.
use crate::array::overwrite;
use crate::{Answers, Fault, Row, Step, Steps, place_of};
use std::alloc::Global;
use wire_buf::Window;

/// Drops bytes in front.
fn drop_front(step: &Step<'_>, window: &mut Window) -> Result<(), Fault> {
    let count = step.count(1)?;
    if count > window.len() {
        return Err(Fault::Malformed);
    }
    window.drop_front(count);
    Ok(())
}

/// Writes a byte through the slice that is lent.
fn write(step: &Step<'_>, window: &mut Window) -> Result<(), Fault> {
    let place = step.count(1)?;
    overwrite(window.bytes(), place, step.bytes(2))
}

/// Takes a step.
fn step_window(step: &Step<'_>, window: &mut Window, answers: &mut Answers) -> Result<(), Fault> {
    match step.word(0) {
        "drop" => return drop_front(step, window),
        "write" => return write(step, window),
        "push" => answers.count(window.push(step.bytes(1)) as u64),
        "bytes" => answers.quote(window.bytes()),
        "len" => answers.count(window.len() as u64),
        "room" => answers.count(window.room() as u64),
        _ => return Err(Fault::Malformed),
    }
    Ok(())
}

/// The size of a window that a text says.
fn size_of(text: &str) -> Result<u32, Fault> {
    let size = place_of(text.as_bytes())?;
    if size > 262144 {
        return Err(Fault::Malformed);
    }
    Ok(size)
}

/// Takes each of the steps.
fn step_each(steps: &[Step<'_>], window: &mut Window, answers: &mut Answers) -> Result<(), Fault> {
    for step in steps {
        step_window(step, window, answers)?;
    }
    Ok(())
}

/// Takes each of the steps with a new window of this size.
fn step_new(
    alloc: Global,
    size: u32,
    steps: &[Step<'_>],
    answers: &mut Answers,
) -> Result<(), Fault> {
    let mut window = Window::new(alloc, size)?;
    step_each(steps, &mut window, answers)
}

/// What a row comes to.
pub fn windowed(alloc: Global, row: Row<'_>, answers: &mut Answers) -> Result<(), Fault> {
    let size = size_of(row.field(1))?;
    let steps = Steps::read(alloc, row.field(2))?;
    step_new(alloc, size, steps.as_slice(), answers)
}
