//! Which interpreter a kind of rows has.
use crate::text::{commands, lines, records, texts};
use case_rows::{Fault, Row};
use std::alloc::Global;

/// What a row of one of these kinds comes to.
pub fn made(alloc: Global, kind: &str, row: Row<'_>) -> Option<Result<Vec<u8>, Fault>> {
    match kind {
        "bytes" => Some(texts::called(alloc, row)),
        "lines" => Some(lines::words_in(alloc, row)),
        "configurations" => Some(lines::configured(alloc, row)),
        "refused_builds" => Some(lines::configured_refusing(alloc, row)),
        "refused_lines" => Some(lines::judged(alloc, row)),
        "commands" => Some(commands::asked(alloc, row)),
        "help" => Some(commands::help_has(alloc, row)),
        "records" | "malformed_records" => Some(records::recorded(alloc, row)),
        "reports" => Some(records::reported(alloc, row)),
        _ => None,
    }
}
