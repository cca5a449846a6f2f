//! The refused lines of a text, of which the first are kept with what they say, and all are counted.
ghost use Rattle.std.specs.Prelude.{◌≡◌, ◌+◌, ◌<◌, ◌≤◌, ◌∷◌, ◌++◌, [], List, take, OnOk};
ghost use Rattle.cfg_parse.specs.Limits.{most_kept};
ghost use Rattle.cfg_parse.specs.Judged.{Lists};

use crate::fault::CfgKind;
use crate::limits::MAX_KEPT;
use http_rules::Config;
use px_link::{Bytes, ItemList, OutOfMemory};
use std::alloc::Global;

/// A refused line, counted from 1, what is wrong there, and its bytes without the end of the line; line 0 is the text as a whole, and
/// has none.
pub struct RefusedLine {
    pub line: u32,
    pub kind: CfgKind,
    pub text: Bytes,
}

impl Drop for RefusedLine {
    fn drop(self) {
        let RefusedLine {
            line: _,
            kind: _,
            text: _,
        } = self;
    }
}

/// The first `MAX_KEPT` refused lines of a text, and how many there are.
pub struct RefusedLines {
    pub first: ItemList<RefusedLine>,
    pub count: u32,
}

impl Drop for RefusedLines {
    fn drop(self) {
        let RefusedLines { first: _, count: _ } = self;
    }
}

/// What all lines of a text come to.
#[derive(Drop)]
pub enum Verdict {
    Accepted(Config),
    /// One line at least.
    Refused(RefusedLines),
}

/// No line.
pub fn none_refused(alloc: Global) -> RefusedLines
    ensures { Lists result [] }
{
    RefusedLines {
        first: ItemList::new(alloc),
        count: 0,
    }
}

/// One more line behind those that are kept, where few enough are.
#[tactic(auto, using(crate::proofs::JudgingLemmas::judging))]
fn keep(
    alloc: Global,
    first: &mut ItemList<RefusedLine>,
    line: u32,
    kind: CfgKind,
    text: &[u8],
) -> Result<(), OutOfMemory>
    ensures { (all : List RefusedLine) → first.old ≡ take most_kept all → OnOk result (first.new ≡ take most_kept (all ++ record { line = line; kind = kind; text = text.now } ∷ [])) }
{
    if first.len() >= MAX_KEPT {
        return Ok(());
    }
    let text = Bytes::copy(alloc, text)?;
    first.push(RefusedLine { line, kind, text })
}

/// One more line behind the others.
#[tactic(auto, using(crate::proofs::JudgingLemmas::judging))]
pub fn add_refused(
    alloc: Global,
    refused: &mut RefusedLines,
    line: u32,
    kind: CfgKind,
    text: &[u8],
) -> Result<(), OutOfMemory>
    requires { refused.old.count < 4294967295 }
    ensures lists { (all : List RefusedLine) → Lists refused.old all → OnOk result (Lists refused.new (all ++ record { line = line; kind = kind; text = text.now } ∷ [])) }
    ensures few { refused.new.count ≤ refused.old.count + 1 }
{
    keep(alloc, &mut refused.first, line, kind, text)?;
    refused.count += 1;
    Ok(())
}
