//! What was told so far: the lines of rules, and where it is asked for the text that has the arrays too.
ghost use Rattle.std.specs.Prelude.{◌≡◌, ◌<◌, ◌-◌, ◌^◌, ◌++◌, ◌∷◌, [], ℕ, Option, true, false, IfOk, OnOk};
ghost use Rattle.px_explain.specs.Told.{line_of};
ghost use Rattle.px_explain.specs.Shown.{wanted_text, view_text, entry_text, text_behind, Adds};
ghost use Rattle.px_explain.specs.Wanted.{IsAsMeant};

use crate::array::push_array;
use crate::text::push_line;
use crate::trace::{TraceLine, Which};
use http_rules::{OutOfMemory, Step};
use htx_arena::Arena;
use px_link::Bytes;
use std::alloc::Global;

/// What was told so far.
#[derive(Drop)]
pub(crate) struct Trail {
    pub(crate) alloc: Global,
    pub(crate) lines: Vec<TraceLine>,
    /// Whether the text is written.
    pub(crate) shows: bool,
    /// The lines with the arrays behind them.
    pub(crate) text: Bytes,
}

ghost use Rattle.px_explain.specs.Walked.{IsEmpty, entry_in};

impl Trail {
    /// Nothing was told.
    pub(crate) fn new(alloc: Global, shows: bool) -> Result<Trail, OutOfMemory>
        ensures { IfOk result (IsEmpty shows) }
    {
        Ok(Trail {
            alloc,
            lines: Vec::new(alloc),
            shows,
            text: Bytes::copy(alloc, b"")?,
        })
    }
}

/// Puts the load that a rule would have needed behind its line, where one is told.
fn push_wanted(alloc: Global, text: &mut Bytes, wanted: Option<u32>) -> Result<(), OutOfMemory>
    ensures { OnOk result (text.new ≡ text.old ++ wanted_text wanted) }
{
    match wanted {
        None => Ok(()),
        Some(needed) => {
            text.push(b"wanted ")?;
            text.push(needed.to_string(alloc)?.as_bytes())?;
            text.push(b"\n")
        }
    }
}

/// Puts the array behind the line of a rule that ran.
fn push_view(alloc: Global, text: &mut Bytes, step: Step, msg: &Arena) -> Result<(), OutOfMemory>
    ensures { OnOk result (text.new ≡ text.old ++ view_text step msg.now) }
{
    match step {
        Step::Passed => Ok(()),
        Step::Next => push_array(alloc, text, msg),
        Step::Skipped(_) => push_array(alloc, text, msg),
        Step::Stop => push_array(alloc, text, msg),
        Step::Reply => push_array(alloc, text, msg),
        Step::Deny(_) => push_array(alloc, text, msg),
        Step::Fail(_) => push_array(alloc, text, msg),
    }
}

/// Puts the line of a rule behind a text, and behind that the load that it would have needed, and the array where it ran.
fn push_entry(
    alloc: Global,
    text: &mut Bytes,
    line: TraceLine,
    wanted: Option<u32>,
    msg: &Arena,
) -> Result<(), OutOfMemory>
    ensures { OnOk result (text.new ≡ text.old ++ entry_text line wanted msg.now) }
{
    push_line(alloc, text, line)?;
    push_wanted(alloc, text, wanted)?;
    push_view(alloc, text, line.step, msg)
}

/// The same, where the text is written.
fn show(
    trail: &mut Trail,
    line: TraceLine,
    wanted: Option<u32>,
    msg: &Arena,
) -> Result<(), OutOfMemory>
    ensures text { OnOk result (trail.new.text ≡ text_behind trail.old.shows trail.old.text (entry_text line wanted msg.now)) }
    ensures shows { trail.new.shows ≡ trail.old.shows }
    ensures lines { trail.new.lines ≡ trail.old.lines }
{
    if !trail.shows {
        return Ok(());
    }
    push_entry(trail.alloc, &mut trail.text, line, wanted, msg)
}

/// Tells what the rule at an index came to, which left this array, and what it would have needed, where texts are written.
pub(crate) fn tell(
    trail: &mut Trail,
    which: Which,
    at: u32,
    step: Step,
    wanted: Option<u32>,
    msg: &Arena,
) -> Result<(), OutOfMemory>
    requires { at < 2 ^ 32 - 1 }
    ensures { OnOk result ((meant : Option ℕ) → IsAsMeant trail.old.shows wanted meant → Adds trail.old trail.new (entry_in (line_of which at step) meant msg.now ∷ [])) }
{
    // called for its clause alone: the blocks stand in the bytes of the array
    let _raw = msg.raw();
    let line = TraceLine {
        which,
        rule: at + 1,
        step,
    };
    show(trail, line, wanted, msg)?;
    trail.lines.push(line)?;
    Ok(())
}
