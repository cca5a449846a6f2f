//! Every refused line of a text: its lines in turn, of which a refused one changes nothing. Nothing here knows what a line says.
ghost use Rattle.std.specs.Prelude.{◌<◌, ◌≤◌, length, [], List, Ok, Err, IfOk, OnOk};
ghost use Rattle.http_rules.specs.Valid.{IsValid};
ghost use Rattle.cfg_parse.specs.declared.fault.CfgKind.TheVariants.{Limit};
ghost use Rattle.cfg_parse.specs.declared.refused.RefusedLine.{RefusedLine};
ghost use Rattle.cfg_parse.specs.Limits.{most_text};
ghost use Rattle.cfg_parse.specs.Sound.{IsSound};
ghost use Rattle.cfg_parse.specs.Whole.{whole};
ghost use Rattle.cfg_parse.specs.Judged.{Lists, Judges, IsTold, IsLineJudged, EndsSo, IfAccepted};

use crate::draft::Draft;
use crate::fault::{CfgKind, LineRefusal};
use crate::finish::{start, whole};
use crate::limits::MAX_TEXT;
use crate::lines::read_line;
use crate::refused::{RefusedLines, Verdict, add_refused, none_refused};
use crate::text::first_line;
use http_rules::Config;
use px_link::OutOfMemory;
use px_pattern::Patterns;
use std::alloc::Global;

/// What is wrong in a refused line.
fn kind_of(refusal: LineRefusal) -> Result<CfgKind, OutOfMemory>
    ensures { IfOk result (IsTold refusal) }
{
    match refusal {
        LineRefusal::Refused(kind) => Ok(kind),
        LineRefusal::Pattern => Ok(CfgKind::Pattern),
        LineRefusal::OutOfMemory => Err(OutOfMemory),
    }
}

/// Reads a line of this number, or keeps that it is refused.
#[tactic(auto, using(crate::proofs::JudgingLemmas::judging))]
fn judge_line<P: Patterns>(
    alloc: Global,
    draft: &mut Draft,
    refused: &mut RefusedLines,
    number: u32,
    line: &[u8],
    pats: &mut P,
) -> Result<(), OutOfMemory>
    requires { refused.old.count < 4294967295 }
    ensures judged { OnOk result (IsLineJudged number line.now draft.old draft.new refused.old refused.new (P.refusals pats.old) (P.refusals pats.new)) }
    ensures sound { IsSound draft.old → OnOk result (IsSound draft.new) }
{
    match read_line(alloc, draft, line, pats) {
        Ok(()) => Ok(()),
        Err(refusal) => {
            let kind = kind_of(refusal)?;
            add_refused(alloc, refused, number, kind, line)
        }
    }
}

/// The configuration, unless a line is refused.
#[tactic(auto, using(crate::proofs::JudgingLemmas::judging))]
fn unless_refused(config: Config, refused: RefusedLines) -> Verdict
    ensures ends { (all : List RefusedLine) → Lists refused all → EndsSo all (Ok config) result }
    ensures valid { IsValid config → IfAccepted IsValid result }
{
    if refused.count == 0 {
        drop(refused);
        return Verdict::Accepted(config);
    }
    drop(config);
    Verdict::Refused(refused)
}

/// What the lines come to that are not refused, and the refused ones.
#[tactic(auto, using(crate::proofs::JudgingLemmas::judging))]
fn verdict_at_end(
    alloc: Global,
    draft: Draft,
    mut refused: RefusedLines,
) -> Result<Verdict, OutOfMemory>
    requires { refused.count < 4294967295 }
    ensures ends { (all : List RefusedLine) → Lists refused all → IfOk result (EndsSo all (whole draft)) }
    ensures valid { IsSound draft → IfOk result (IfAccepted IsValid) }
{
    match whole(alloc, draft) {
        Ok(config) => Ok(unless_refused(config, refused)),
        Err(refusal) => {
            let kind = kind_of(refusal)?;
            add_refused(alloc, &mut refused, 0, kind, b"")?;
            Ok(Verdict::Refused(refused))
        }
    }
}

/// All lines in turn, and what they come to.
fn judge_lines<P: Patterns>(
    alloc: Global,
    text: &[u8],
    pats: &mut P,
) -> Result<Verdict, OutOfMemory>
    requires { length text.now ≤ most_text }
    ensures judges { IfOk result (Judges text.now (P.refusals pats.old) (P.refusals pats.new)) }
    ensures valid { IfOk result (IfAccepted IsValid) }
{
    let mut draft = start(alloc);
    let mut refused = none_refused(alloc);
    let mut rest = text;
    let mut number = 1;
    while !rest.is_empty() {
        let (line, others) = first_line(rest);
        judge_line(alloc, &mut draft, &mut refused, number, line, pats)?;
        number += 1;
        rest = others;
    }
    verdict_at_end(alloc, draft, refused)
}

/// The refused line of a text that is too long.
#[tactic(auto, using(crate::proofs::JudgingLemmas::judging))]
fn too_long(alloc: Global) -> Result<Verdict, OutOfMemory>
    ensures { IfOk result (EndsSo [] (Err Limit)) }
{
    let mut refused = none_refused(alloc);
    add_refused(alloc, &mut refused, 0, CfgKind::Limit, b"")?;
    Ok(Verdict::Refused(refused))
}

/// The configuration of a text, or each of its refused lines. A refused line is taken as blank, so the lines behind it are judged as if it
/// weren't there; what is asked of all lines together comes last, as line 0. A text of more than 1048576 bytes is refused before any
/// line is looked at.
#[tactic(auto, using(crate::proofs::JudgingLemmas::judging))]
pub fn verdict_of<P: Patterns>(
    alloc: Global,
    text: &[u8],
    pats: &mut P,
) -> Result<Verdict, OutOfMemory>
    ensures judges { IfOk result (Judges text.now (P.refusals pats.old) (P.refusals pats.new)) }
    ensures valid { IfOk result (IfAccepted IsValid) }
{
    if text.len() > MAX_TEXT {
        return too_long(alloc);
    }
    judge_lines(alloc, text, pats)
}
