//! Which interpreter a kind of rows has.
use crate::bodies::{bodies, filters, heads, targets, windows};
use crate::{Answers, Fault, Row};
use std::alloc::Global;

/// Says what a row of one of these kinds comes to; none of another kind.
fn say(
    alloc: Global,
    kind: &str,
    row: Row<'_>,
    answers: &mut Answers,
) -> Option<Result<(), Fault>> {
    match kind {
        "bodies" => Some(bodies::body_read(alloc, row, answers)),
        "filters" => Some(filters::filtered(alloc, row, answers)),
        "heads" => Some(heads::head_read(alloc, row, answers)),
        "response_heads" => Some(heads::response_read(alloc, row, answers)),
        "targets" => Some(targets::cut(alloc, row, answers)),
        "windows" => Some(windows::windowed(alloc, row, answers)),
        _ => None,
    }
}

/// What a row of one of these kinds comes to; none of another kind.
pub fn made(alloc: Global, kind: &str, row: Row<'_>) -> Option<Result<Vec<u8>, Fault>> {
    let mut answers = Answers::new(alloc);
    let said = say(alloc, kind, row, &mut answers);
    answers.told_some(said)
}
