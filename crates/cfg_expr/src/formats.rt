//! Formats from their texts.
ghost use Rattle.std.specs.Prelude.{◌≡◌, ◌≤◌, length, IfOk};
ghost use Rattle.cfg_expr.specs.Faults.{Gives, ReadsText};
ghost use Rattle.cfg_expr.specs.Formats.{piece_len, literal_in, sample_at, percent_at, part_at, parts_at, format_of};

use crate::expressions::expr_at;
use crate::{Side, TextFault, TextKind};
use log_format::{Fmt, Part, PartList};
use px_pattern::Patterns;
use px_sample::{OutOfMemory, Text};
use std::alloc::Global;

/// The most parts of a format.
const MAX_PARTS: u32 = 64;

/// How many bytes stand for the first byte of a text: none where a `%` is not doubled.
fn piece_len(text: &[u8]) -> usize
    ensures len { result ≡ piece_len text.now }
    ensures within { result ≤ length text.now }
{
    if text.is_empty() {
        return 0;
    }
    if text[0] != b'%' {
        return 1;
    }
    if text.len() > 1 && text[1] == b'%' {
        2
    } else {
        0
    }
}

/// The longest text at the front in which each `%` is doubled, with one for two, and what is behind it.
fn literal_in(alloc: Global, text: &[u8]) -> Result<(Text, &[u8]), OutOfMemory>
    ensures { IfOk result (λ found. literal_in text.now ≡ (found.0, found.1.now)) }
{
    let mut literal = Text::copy(alloc, b"")?;
    let mut rest = text;
    'each: loop {
        let len = piece_len(rest);
        if len == 0 {
            return Ok((literal, rest));
        }
        literal.push(&rest[..1])?;
        rest = rest.split_at(len).1;
    }
}

/// An expression behind `%[`, and what is behind its `]`.
#[tactic(auto, unfolding(crate::specs::Formats::sample_at))]
fn sample_at<'t, P: Patterns>(
    alloc: Global,
    side: Side,
    text: &'t [u8],
    pats: &mut P,
) -> Result<(Part, &'t [u8]), TextFault>
    ensures { ReadsText (λ found. (found.0, found.1.now)) (sample_at side text.now) (P.refusals pats.old) (P.refusals pats.new) (P.last_refused pats.new) result }
{
    let (expr, rest) = expr_at(alloc, side, text, pats)?;
    match rest.split_first() {
        Some((b']', rest)) => Ok((Part::Sample(expr), rest)),
        _ => {
            drop(expr);
            Err(TextFault::Refused(TextKind::Expr))
        }
    }
}

/// Behind a `%` that is not doubled stands `[`.
fn percent_at<'t, P: Patterns>(
    alloc: Global,
    side: Side,
    text: &'t [u8],
    pats: &mut P,
) -> Result<(Part, &'t [u8]), TextFault>
    ensures { ReadsText (λ found. (found.0, found.1.now)) (percent_at side text.now) (P.refusals pats.old) (P.refusals pats.new) (P.last_refused pats.new) result }
{
    match text.split_first() {
        Some((b'[', rest)) => sample_at(alloc, side, rest, pats),
        _ => Err(TextFault::Refused(TextKind::Expr)),
    }
}

/// The part at the front, and what is behind it.
#[tactic(auto, unfolding(crate::specs::Formats::part_at))]
fn part_at<'t, P: Patterns>(
    alloc: Global,
    side: Side,
    text: &'t [u8],
    pats: &mut P,
) -> Result<(Part, &'t [u8]), TextFault>
    ensures { ReadsText (λ found. (found.0, found.1.now)) (part_at side text.now) (P.refusals pats.old) (P.refusals pats.new) (P.last_refused pats.new) result }
{
    let (literal, rest) = literal_in(alloc, text)?;
    if !literal.as_slice().is_empty() {
        return Ok((Part::Literal(literal), rest));
    }
    drop(literal);
    match rest.split_first() {
        Some((_, rest)) => percent_at(alloc, side, rest, pats),
        None => Err(TextFault::Refused(TextKind::Expr)),
    }
}

/// The parts of a text.
fn read_parts<P: Patterns>(
    alloc: Global,
    side: Side,
    text: &[u8],
    pats: &mut P,
) -> Result<PartList, TextFault>
    ensures { ReadsText (λ parts. parts) (parts_at side text.now) (P.refusals pats.old) (P.refusals pats.new) (P.last_refused pats.new) result }
{
    let mut parts = PartList::new(alloc);
    let mut rest = text;
    'each: while !rest.is_empty() {
        if parts.len() == MAX_PARTS {
            drop(parts);
            return Err(TextFault::Refused(TextKind::Limit));
        }
        match part_at(alloc, side, rest, pats) {
            Ok((part, behind)) => {
                parts.push(part)?;
                rest = behind;
            }
            Err(fault) => {
                drop(parts);
                return Err(fault);
            }
        }
    }
    Ok(parts)
}

/// A text as a format of a direction. Refused with Expr at a `%` that is neither doubled nor in front of an expression in
/// brackets, or where such an expression is; with Limit at a 65th part; the leftmost fault decides.
#[tactic(auto, unfolding(crate::specs::Formats::format_of))]
pub fn read_format<P: Patterns>(
    alloc: Global,
    side: Side,
    text: &[u8],
    pats: &mut P,
) -> Result<Fmt, TextFault>
    ensures { ReadsText (λ fmt. fmt) (format_of side text.now) (P.refusals pats.old) (P.refusals pats.new) (P.last_refused pats.new) result }
{
    let parts = read_parts(alloc, side, text, pats)?;
    Ok(Fmt { parts })
}
