//! Which interpreter a kind of rows has.
use crate::values::{expressions, formats, patterns, values};
use case_rows::{Fault, Row};
use std::alloc::Global;

/// What a row of one of these kinds comes to.
pub fn made(alloc: Global, kind: &str, row: Row<'_>) -> Option<Result<Vec<u8>, Fault>> {
    match kind {
        "expressions" => Some(expressions::one_sample(alloc, row)),
        "each_sample" => Some(expressions::each_sample(alloc, row)),
        "formats" => Some(formats::formatted(alloc, row)),
        "templates" => Some(formats::expanded(alloc, row)),
        "patterns" => Some(patterns::searched(alloc, row)),
        "casts" => Some(values::casted(alloc, row)),
        "buffers" => Some(values::buffered(alloc, row)),
        "variables" => Some(values::variables(alloc, row)),
        _ => None,
    }
}
