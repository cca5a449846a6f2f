//! Targets: NAME, a target, and its scheme, its authority, its path and its query, each in double quotes, or `none`.
use crate::{Answers, Fault, Row, decoded};
use std::alloc::Global;
use uri_parts::{Parts, cut_target};

/// Says the parts of a target.
fn say_parts(parts: Parts<'_>, answers: &mut Answers) {
    answers.some_quote(parts.scheme);
    answers.some_quote(parts.authority);
    answers.quote(parts.path);
    answers.some_quote(parts.query);
}

/// What a row comes to.
pub fn cut(alloc: Global, row: Row<'_>, answers: &mut Answers) -> Result<(), Fault> {
    let target = decoded(alloc, row.field(1).as_bytes())?;
    say_parts(cut_target(&target), answers);
    Ok(())
}
