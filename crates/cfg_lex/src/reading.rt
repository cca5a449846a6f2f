//! A line is read from left to right, part by part.
ghost use Rattle.std.specs.Prelude.{◌≡◌, IfOk};
ghost use Rattle.cfg_lex.specs.Words.{words_of, read_line, Gives};

use crate::draft::Draft;
use crate::fault::LineFault;
use crate::item::{Quotes, item_at};
use crate::words::Words;
use htx_model::OutOfMemory;
use std::alloc::Global;

/// The most bytes of a line, without its line feed and the carriage return in front of that.
pub const MAX_LINE: usize = 4096;

/// The most words of a line.
pub const MAX_WORDS: usize = 64;

/// What all parts of a line come to.
fn read(alloc: Global, line: &[u8]) -> Result<Draft, OutOfMemory>
    ensures { IfOk result (λ draft. draft ≡ read_line line.now) }
{
    let mut draft = Draft::new(alloc, line.len())?;
    let mut quotes = Quotes::Outside;
    let mut at = 0;
    while at < line.len() {
        let item = item_at(quotes, line[at], &line[at + 1..]);
        draft.add(item.part)?;
        quotes = item.quotes;
        at += item.used;
    }
    draft.end(quotes)?;
    Ok(draft)
}

/// The words of a line, which is given without its line feed and the carriage return in front of that. A line
/// without words gives the empty list. The limit on bytes comes before all else, and the limit on words,
/// which counts the words behind a malformed one too, comes before a word fault.
#[tactic(auto, unfolding(crate::specs::Words::words_of))]
pub fn words_of_line(alloc: Global, line: &[u8]) -> Result<Words, LineFault>
    ensures { Gives result (words_of line.now) }
{
    if line.len() > MAX_LINE {
        return Err(LineFault::Limit);
    }
    read(alloc, line)?.finish()
}
