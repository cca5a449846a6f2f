//! Which interpreter a kind of rows has.
use crate::runs::{lent, runs};
use case_rows::{Fault, Row};
use std::alloc::Global;

/// What a row of one of these kinds comes to.
pub fn made(alloc: Global, kind: &str, row: Row<'_>) -> Option<Result<Vec<u8>, Fault>> {
    match kind {
        "request_rules" => Some(runs::of_request(alloc, row)),
        "response_rules" => Some(runs::of_response(alloc, row)),
        "after_rules" => Some(runs::of_after(alloc, row)),
        "lent_requests" => Some(lent::of_lent(alloc, row)),
        _ => None,
    }
}
