//! Which interpreter a kind of rows has.
use crate::{conditions, readings};
use case_rows::{Fault, Row};
use std::alloc::Global;

/// What a row of one of these kinds comes to.
pub fn made(alloc: Global, kind: &str, row: Row<'_>) -> Option<Result<Vec<u8>, Fault>> {
    match kind {
        "conditions" => Some(conditions::of_request(alloc, row)),
        "response_conditions" => Some(conditions::of_response(alloc, row)),
        "acl_lines" => Some(readings::acl_line(alloc, row)),
        "read_expressions" => Some(readings::expression(alloc, row)),
        "read_formats" => Some(readings::format(alloc, row)),
        _ => None,
    }
}
