//! The lines of connections that have ended and of exchanges, until the output is gone.
ghost use Rattle.std.specs.Prelude.{◌++◌, ℕ, List, Option, is_ok, true};
ghost use Rattle.serve_run.specs.Lines.{line_of};
ghost use Rattle.px_run.specs.Lines.{Writes};

use crate::log::Log;
use px_link::{Fault, OutOfMemory, Sink};
use serve_run::{Outcome, line_of};
use std::alloc::Global;

/// Whether lines are still written.
#[derive(Clone, Copy)]
pub(crate) enum Output {
    Open,
    /// A line couldn't be written, and no further one is.
    Gone,
}

/// Writes a text.
fn write_text<K: Sink>(text: &[u8], output: &mut Output, out: &mut K) -> Result<(), OutOfMemory>
    // `before` was written before, and `said` was to be.
    ensures writes { (writes : ℕ) (before : Option (List ℕ)) (said : List ℕ) → Writes true output.old writes (K.faults out.old) before (K.written out.old) said
        → Writes (is_ok result) output.new writes (K.faults out.new) before (K.written out.new) (said ++ text.now) }
{
    match *output {
        Output::Gone => return Ok(()),
        Output::Open => {}
    }
    match out.write_all(text) {
        Ok(()) => Ok(()),
        Err(Fault::Failed) => {
            *output = Output::Gone;
            Ok(())
        }
        Err(Fault::OutOfMemory) => Err(OutOfMemory),
    }
}

/// Writes the line of the connection of this number that ended so.
pub(crate) fn write_line<K: Sink>(
    alloc: Global,
    number: u32,
    outcome: &Outcome,
    output: &mut Output,
    out: &mut K,
) -> Result<(), OutOfMemory>
    // `text` is what was to be written before.
    ensures writes { (writes : ℕ) (before : Option (List ℕ)) (text : List ℕ) → Writes true output.old writes (K.faults out.old) before (K.written out.old) text
        → Writes (is_ok result) output.new writes (K.faults out.new) before (K.written out.new) (text ++ line_of number outcome.now) }
{
    match *output {
        Output::Gone => return Ok(()),
        Output::Open => {}
    }
    match line_of(alloc, number, outcome) {
        Ok(line) => write_text(line.as_slice(), output, out),
        Err(OutOfMemory) => Err(OutOfMemory),
    }
}

/// Writes the lines of exchanges that were told in a look.
pub(crate) fn write_log<K: Sink>(
    log: &Log,
    output: &mut Output,
    out: &mut K,
) -> Result<(), OutOfMemory>
    // `text` is what was to be written before.
    ensures writes { (writes : ℕ) (before : Option (List ℕ)) (text : List ℕ) → Writes true output.old writes (K.faults out.old) before (K.written out.old) text
        → Writes (is_ok result) output.new writes (K.faults out.new) before (K.written out.new) (text ++ log.now.text.items) }
{
    if log.lacks {
        return Err(OutOfMemory);
    }
    if log.text.is_empty() {
        return Ok(());
    }
    write_text(log.text.as_slice(), output, out)
}
