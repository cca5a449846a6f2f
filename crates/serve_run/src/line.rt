//! The line of a connection.
ghost use Rattle.std.specs.Prelude.{◌≡◌, IfOk};
ghost use Rattle.serve_run.specs.Lines.{end_word, line_of, outcome_words};

use crate::Outcome;
use px_link::{Bytes, End, OutOfMemory};
use std::alloc::Global;

fn end_word(end: End) -> &'static [u8]
    ensures { result.now ≡ end_word end }
{
    match end {
        End::Done => b"done",
        End::Closed => b"closed",
        End::Cut => b"cut",
    }
}

/// How a session ended, and after how many exchanges.
#[tactic(auto, unfolding(crate::specs::Lines::outcome_words))]
fn outcome_words(alloc: Global, outcome: &Outcome) -> Result<Bytes, OutOfMemory>
    ensures { IfOk result (λ words. words ≡ outcome_words outcome.now) }
{
    match outcome {
        Outcome::Ended(ran) => {
            let mut words = Bytes::copy(alloc, b"end ")?;
            words.push(end_word(ran.end))?;
            words.push(b" exchanges ")?;
            words.push(ran.exchanges.to_string(alloc)?.as_bytes())?;
            Ok(words)
        }
        Outcome::ClientWrite => Bytes::copy(alloc, b"client write fault"),
        Outcome::Spent => Bytes::copy(alloc, b"spent"),
    }
}

/// The line of the connection of this number.
#[tactic(auto, unfolding(crate::specs::Lines::line_of))]
pub fn line_of(alloc: Global, number: u32, outcome: &Outcome) -> Result<Bytes, OutOfMemory>
    ensures { IfOk result (λ line. line ≡ line_of number outcome.now) }
{
    let mut line = Bytes::copy(alloc, b"connection ")?;
    line.push(number.to_string(alloc)?.as_bytes())?;
    line.push(b": ")?;
    line.push(outcome_words(alloc, outcome)?.as_slice())?;
    line.push(b"\n")?;
    Ok(line)
}
