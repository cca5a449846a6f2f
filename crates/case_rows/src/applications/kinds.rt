//! Which interpreter a kind of rows has.
use crate::applications::{answers, requests};
use crate::{Answers, Fault, Row};
use std::alloc::Global;

/// Says what a row of one of these kinds comes to; none of another kind.
fn say(
    alloc: Global,
    kind: &str,
    row: Row<'_>,
    answers: &mut Answers,
) -> Option<Result<(), Fault>> {
    match kind {
        "fastcgi_answers" => Some(answers::answered(alloc, row, answers)),
        "fastcgi_requests" => Some(requests::asked(alloc, row, answers)),
        _ => None,
    }
}

/// What a row of one of these kinds comes to; none of another kind.
pub fn made(alloc: Global, kind: &str, row: Row<'_>) -> Option<Result<Vec<u8>, Fault>> {
    let mut answers = Answers::new(alloc);
    let said = say(alloc, kind, row, &mut answers);
    answers.told_some(said)
}
