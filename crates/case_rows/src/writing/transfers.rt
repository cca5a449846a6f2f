//! Transfers between two arrays of 1024 bytes: NAME, steps of the first array, steps of the second, the limit, and how
//! many bytes go over; behind `from` the blocks of the first array then, and behind `to` those of the second.
use crate::array::{say_blocks, step_all};
use crate::{Answers, Fault, Row, place_of};
use htx_arena::Arena;
use htx_xfer::xfer;
use std::alloc::Global;

/// Fills an array by steps, of which there may be none.
fn fill(alloc: Global, steps: &str, msg: &mut Arena, answers: &mut Answers) -> Result<(), Fault> {
    if steps.is_empty() {
        return Ok(());
    }
    step_all(alloc, steps, msg, answers)
}

/// Says what goes from one array to another.
fn say_transfer(limit: u32, from: &mut Arena, to: &mut Arena, answers: &mut Answers) {
    answers.count(u64::from(xfer(from, to, limit)));
    answers.say(b"from");
    say_blocks(from, answers);
    answers.say(b"to");
    say_blocks(to, answers);
}

/// Fills two arrays by the steps of a row, and says what goes over.
fn fill_both(
    alloc: Global,
    row: Row<'_>,
    from: &mut Arena,
    to: &mut Arena,
    answers: &mut Answers,
) -> Result<(), Fault> {
    fill(alloc, row.field(1), from, answers)?;
    fill(alloc, row.field(2), to, answers)?;
    let limit = place_of(row.field(3).as_bytes())?;
    say_transfer(limit, from, to, answers);
    Ok(())
}

/// The same from this array to a new one.
fn transferred_from(
    alloc: Global,
    row: Row<'_>,
    from: &mut Arena,
    answers: &mut Answers,
) -> Result<(), Fault> {
    let mut to = Arena::new(alloc, 1024)?;
    fill_both(alloc, row, from, &mut to, answers)
}

/// What a row comes to.
pub fn transferred(alloc: Global, row: Row<'_>, answers: &mut Answers) -> Result<(), Fault> {
    let mut from = Arena::new(alloc, 1024)?;
    transferred_from(alloc, row, &mut from, answers)
}
