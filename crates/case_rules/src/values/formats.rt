//! Formats and templates.
ghost use Rattle.std.specs.Prelude.{◌≡◌};

use crate::values::convs::{pattern_of, text_of};
use crate::values::expressions::{buffer_of, expr_of};
use crate::values::samples::given_list;
use case_rows::{Answers, Call, Fault, Held, Row, decoded, held_list};
use log_format::{Fmt, Part, PartList, format};
use px_conv::expand;
use px_expr::{Buf, MemEnv};
use px_pattern::Searchers;
use std::alloc::Global;

/// The part that a text says: `text(..)` stands for itself, anything else is an expression.
fn part_of(alloc: Global, text: &[u8]) -> Result<Part, Fault> {
    let (call, _) = Call::first(text);
    if call.name() == "text" {
        return Ok(Part::Literal(text_of(alloc, &call, 0)?));
    }
    Ok(Part::Sample(expr_of(alloc, text)?))
}

/// Puts these parts, with semicolons between them, behind a list.
fn push_parts(alloc: Global, text: &str, parts: &mut PartList) -> Result<(), Fault> {
    if text.is_empty() {
        return Ok(());
    }
    for piece in text.split(';') {
        if parts.len() == u32::MAX {
            return Err(Fault::Malformed);
        }
        parts.push(part_of(alloc, piece.trim().as_bytes())?)?;
    }
    Ok(())
}

/// The format of these parts, with semicolons between them.
fn format_of(alloc: Global, text: &str) -> Result<Fmt, Fault> {
    let mut parts = PartList::new(alloc);
    push_parts(alloc, text, &mut parts)?;
    Ok(Fmt { parts })
}

/// Writes a format, with samples in two buffers. Whether it fits.
fn fits_with(
    alloc: Global,
    fmt: &Fmt,
    env: &MemEnv<'_>,
    into: &mut Buf,
    buf: &mut Buf,
    spare: &mut Buf,
) -> Result<bool, Fault>
    requires { spare.old.cap ≡ buf.old.cap }
{
    let mut searchers = Searchers::new(alloc);
    match format(&mut searchers, fmt, env, into, buf, spare) {
        Ok(fits) => Ok(fits),
        Err(_) => Err(Fault::OutOfMemory),
    }
}

/// Writes a format, with samples in buffers of 8 bytes. Whether it fits.
fn fits(alloc: Global, fmt: &Fmt, env: &MemEnv<'_>, into: &mut Buf) -> Result<bool, Fault> {
    let mut buf = Buf::new(alloc, 8)?;
    let mut spare = Buf::new(alloc, 8)?;
    let _ = buf.push(b"left");
    fits_with(alloc, fmt, env, into, &mut buf, &mut spare)
}

/// Writes a format, with what a row gives. Whether it fits.
fn fits_held(alloc: Global, fmt: &Fmt, held: &[Held], into: &mut Buf) -> Result<bool, Fault> {
    let given = given_list(alloc, held)?;
    fits(alloc, fmt, &MemEnv { given: &given }, into)
}

/// Writes the format of a row. Whether it fits.
fn fits_row(alloc: Global, row: Row<'_>, into: &mut Buf) -> Result<bool, Fault> {
    let fmt = format_of(alloc, row.field(3))?;
    let held = held_list(alloc, row.field(2))?;
    fits_held(alloc, &fmt, &held, into)
}

/// NAME, how many bytes the text may have, samples of path, parts, the text or `none`.
pub fn formatted(alloc: Global, row: Row<'_>) -> Result<Vec<u8>, Fault> {
    let mut into = buffer_of(alloc, row.field(1))?;
    // What stood there before goes.
    let _ = into.push(b"o");
    let mut answers = Answers::new(alloc);
    if fits_row(alloc, row, &mut into)? {
        answers.quote(into.bytes());
    } else {
        answers.say(b"none");
        answers.more(into.bytes());
    }
    answers.into_text()
}

/// Puts a template for the match of a pattern in a text behind what a buffer holds. Whether it fits.
fn puts(
    alloc: Global,
    pattern: &[u8],
    text: &[u8],
    template: &[u8],
    into: &mut Buf,
) -> Result<bool, Fault> {
    let pat = pattern_of(alloc, pattern)?;
    match pat.find_groups(alloc, text)? {
        Some(groups) => Ok(expand(template, &groups, text, into)),
        None => Err(Fault::Malformed),
    }
}

/// Puts a template behind what a buffer holds. Whether it fits.
fn expands(alloc: Global, row: Row<'_>, into: &mut Buf) -> Result<bool, Fault> {
    let pattern = decoded(alloc, row.field(3).as_bytes())?;
    let text = decoded(alloc, row.field(4).as_bytes())?;
    let template = decoded(alloc, row.field(5).as_bytes())?;
    puts(alloc, &pattern, &text, &template, into)
}

/// NAME, how many bytes the buffer may hold, those that it holds, a pattern, the text that it matches, a template, and
/// whether it fits with what the buffer holds then.
pub fn expanded(alloc: Global, row: Row<'_>) -> Result<Vec<u8>, Fault> {
    let mut into = buffer_of(alloc, row.field(1))?;
    let _ = into.push(&decoded(alloc, row.field(2).as_bytes())?);
    let mut answers = Answers::new(alloc);
    answers.truth(expands(alloc, row, &mut into)?);
    answers.quote(into.bytes());
    answers.into_text()
}
