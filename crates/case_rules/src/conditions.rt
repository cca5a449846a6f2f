//! Conditions: what ends a rule, for a message: whether it holds, `none` where nothing stands there, or its refusal.
ghost use Rattle.std.specs.Prelude.{◌≤◌, vec_len, IfOk};

use crate::lines::{RuleEnd, rule_end};
use crate::messages::{holds_for_request, holds_for_response};
use case_rows::{Fault, Row, decoded};
use cfg_expr::condition::Side;
use std::alloc::Global;

/// The head whose lines a text says, with the empty line behind them.
fn head_of(alloc: Global, text: &str) -> Result<Vec<u8>, Fault>
    ensures { IfOk result (λ head. vec_len head ≤ 4096) }
{
    let mut head = decoded(alloc, text.as_bytes())?;
    head.push(b'\n')?;
    if head.len() > 4096 {
        return Err(Fault::Malformed);
    }
    Ok(head)
}

/// What ends a rule, where `acl` lines stand above it.
fn end_of(alloc: Global, side: Side, lines: &str, end: &str) -> Result<RuleEnd, Fault> {
    let lines = decoded(alloc, lines.as_bytes())?;
    let end = decoded(alloc, end.as_bytes())?;
    rule_end(alloc, side, &lines, &end)
}

/// How a truth is said.
fn said(truth: bool) -> &'static [u8] {
    if truth { b"true" } else { b"false" }
}

/// NAME, the request line and the fields, each with a line feed behind it, the `acl` lines above, and what ends a rule.
pub fn of_request(alloc: Global, row: Row<'_>) -> Result<Vec<u8>, Fault> {
    let head = head_of(alloc, row.field(1))?;
    let end = end_of(alloc, Side::Request, row.field(2), row.field(3))?;
    let answer = match &end {
        RuleEnd::Absent => b"none".as_slice(),
        RuleEnd::Condition(cond) => said(holds_for_request(alloc, cond, &head)?),
        RuleEnd::Refused(name) => *name,
    };
    Ok(Vec::from_slice(alloc, answer)?)
}

/// NAME, the method of the request, the status line and the fields, each with a line feed behind it, the `acl` lines above, and
/// what ends a rule.
pub fn of_response(alloc: Global, row: Row<'_>) -> Result<Vec<u8>, Fault> {
    let head = head_of(alloc, row.field(2))?;
    let end = end_of(alloc, Side::Response, row.field(3), row.field(4))?;
    let method = row.field(1).as_bytes();
    let answer = match &end {
        RuleEnd::Absent => b"none".as_slice(),
        RuleEnd::Condition(cond) => said(holds_for_response(alloc, cond, method, &head)?),
        RuleEnd::Refused(name) => *name,
    };
    Ok(Vec::from_slice(alloc, answer)?)
}
