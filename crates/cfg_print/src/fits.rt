//! Whether a text is as long as a configuration's text may be.
ghost use Rattle.std.specs.Prelude.{◌≡◌, ◌&&◌, nat_le, IfOk};
ghost use Rattle.cfg_expr.specs.Condition.Lines.{most_lines};
ghost use Rattle.cfg_print.specs.Fits.{has_words, is_readable};

use crate::table::MAX_LINES;
use cfg_lex::{LineFault, words_of_line};
use cfg_parse::{MAX_TEXT, first_line};
use px_link::OutOfMemory;
use std::alloc::Global;

/// A line has words: it is not too long, and has not too many.
fn has_words(alloc: Global, line: &[u8]) -> Result<bool, OutOfMemory>
    ensures { IfOk result (λ so. so ≡ has_words line.now) }
{
    match words_of_line(alloc, line) {
        Ok(_) => Ok(true),
        Err(LineFault::Word) => Ok(false),
        Err(LineFault::Limit) => Ok(false),
        Err(LineFault::OutOfMemory) => Err(OutOfMemory),
    }
}

/// A text is not too long in all, and in no line.
#[tactic(auto, unfolding(crate::specs::Fits::is_readable))]
fn is_readable(alloc: Global, text: &[u8]) -> Result<bool, OutOfMemory>
    ensures { IfOk result (λ so. so ≡ is_readable text.now) }
{
    if text.len() > MAX_TEXT {
        return Ok(false);
    }
    let mut rest = text;
    while !rest.is_empty() {
        let (line, others) = first_line(rest);
        if !has_words(alloc, line)? {
            return Ok(false);
        }
        rest = others;
    }
    Ok(true)
}

/// A text is, and has no more `acl` lines than there may be.
pub(crate) fn fits(alloc: Global, text: &[u8], lines: u32) -> Result<bool, OutOfMemory>
    ensures { IfOk result (λ so. so ≡ (nat_le lines most_lines && is_readable text.now)) }
{
    if lines > MAX_LINES {
        return Ok(false);
    }
    is_readable(alloc, text)
}
