//! The text of what is told of an exchange.
ghost use Rattle.std.specs.Prelude.{◌≡◌, ◌++◌, [], Option, ℕ, IfOk, OnOk};
ghost use Rattle.std.specs.List.{flat_map};
ghost use Rattle.px_explain.specs.Lines.{which_name, step_text, line_text};
ghost use Rattle.px_explain.specs.Text.{answer_line, lines_text};

use crate::trace::{Trace, TraceLine, Which};
use http_rules::{OutOfMemory, Step};
use px_link::Bytes;
use std::alloc::Global;

/// The word of a list.
fn which_name(which: Which) -> &'static str
    ensures { result.now ≡ which_name which }
{
    match which {
        Which::Request => "request",
        Which::Response => "response",
        Which::After => "after",
    }
}

/// Puts what a rule came to behind a text.
fn push_step(alloc: Global, text: &mut Bytes, step: Step) -> Result<(), OutOfMemory>
    ensures { OnOk result (text.new ≡ text.old ++ step_text step) }
{
    match step {
        Step::Passed => text.push(b"passed"),
        Step::Next => text.push(b"done"),
        Step::Skipped(_) => text.push(b"skipped"),
        Step::Stop => text.push(b"stop"),
        Step::Reply => text.push(b"reply"),
        Step::Deny(code) => {
            text.push(b"deny ")?;
            text.push(code.to_string(alloc)?.as_bytes())
        }
        Step::Fail(_) => text.push(b"fail"),
    }
}

/// Puts the line of a rule behind a text.
#[tactic(auto, unfolding(crate::specs::Lines::line_text))]
pub(crate) fn push_line(alloc: Global, text: &mut Bytes, line: TraceLine) -> Result<(), OutOfMemory>
    ensures { OnOk result (text.new ≡ text.old ++ line_text line) }
{
    text.push(which_name(line.which).as_bytes())?;
    text.push(b" rule ")?;
    text.push(line.rule.to_string(alloc)?.as_bytes())?;
    text.push(b" ")?;
    push_step(alloc, text, line.step)?;
    text.push(b"\n")
}

/// Puts the lines of rules behind a text.
fn push_lines(alloc: Global, text: &mut Bytes, lines: &[TraceLine]) -> Result<(), OutOfMemory>
    ensures { OnOk result (text.new ≡ text.old ++ flat_map line_text lines.now) }
{
    for line in lines {
        push_line(alloc, text, *line)?;
    }
    Ok(())
}

/// Puts the last line behind a text.
pub(crate) fn push_answer(
    alloc: Global,
    text: &mut Bytes,
    answer: Option<u16>,
) -> Result<(), OutOfMemory>
    ensures { OnOk result (text.new ≡ text.old ++ answer_line answer) }
{
    match answer {
        Some(code) => {
            text.push(b"answer ")?;
            text.push(code.to_string(alloc)?.as_bytes())?;
            text.push(b"\n")
        }
        None => text.push(b"answer none\n"),
    }
}

/// A line for each rule that was reached, and one for the status that the client is sent.
pub fn trace_text(alloc: Global, trace: &Trace) -> Result<Bytes, OutOfMemory>
    ensures { IfOk result (λ text. text ≡ lines_text trace.now.lines.items trace.now.answer) }
{
    let mut text = Bytes::copy(alloc, b"")?;
    push_lines(alloc, &mut text, trace.lines.as_slice())?;
    push_answer(alloc, &mut text, trace.answer)?;
    Ok(text)
}
