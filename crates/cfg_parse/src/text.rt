//! A configuration's text: its lines in turn, and what they come to, or the first refused line with its number. Nothing here knows what
//! a line says.
ghost use Rattle.std.specs.Prelude.{◌≡◌, ◌∷◌, ◌==◌, ◌<◌, ◌≤◌, length, IfOk};
ghost use Rattle.std.specs.List.{position_or_len};
ghost use Rattle.std.specs.Str.Lines.{lines, strip_carriage_return};
ghost use Rattle.http_rules.specs.Valid.{IsValid};
ghost use Rattle.cfg_parse.specs.Limits.{most_text};
ghost use Rattle.cfg_parse.specs.Sound.{IsSound};
ghost use Rattle.cfg_parse.specs.Whole.{whole, of_text, fault_at, Configures, Loads};

use crate::draft::Draft;
use crate::fault::{CfgFault, CfgKind, LineRefusal};
use crate::finish::{start, whole};
use crate::limits::MAX_TEXT;
use crate::lines::read_line;
use http_rules::Config;
use px_pattern::Patterns;
use std::alloc::Global;

/// The refusal of a line, or of the text as line 0.
fn at_line(line: u32, refusal: LineRefusal) -> CfgFault
    ensures { result ≡ fault_at line refusal }
{
    match refusal {
        LineRefusal::Refused(kind) => CfgFault::Refused { line, kind },
        LineRefusal::Pattern => CfgFault::Refused {
            line,
            kind: CfgKind::Pattern,
        },
        LineRefusal::OutOfMemory => CfgFault::OutOfMemory,
    }
}

/// How many bytes stand in front of the first line feed.
fn line_len(text: &[u8]) -> usize
    ensures count { result ≡ position_or_len (λ b. b == 10) text.now }
    ensures within { result ≤ length text.now }
{
    for (i, byte) in text.iter().enumerate() {
        if *byte == b'\n' {
            return i;
        }
    }
    text.len()
}

fn without_carriage_return(line: &[u8]) -> &[u8]
    ensures { result.now ≡ strip_carriage_return line.now }
{
    match line {
        [front @ .., b'\r'] => front,
        _ => line,
    }
}

/// The first line and the text behind it.
pub fn first_line(text: &[u8]) -> (&[u8], &[u8])
    requires { 0 < length text.now }
    ensures lines { lines text.now ≡ result.0.now ∷ lines result.1.now }
    ensures shorter { length result.1.now < length text.now }
{
    let len = line_len(text);
    if len == text.len() {
        return (text, &text[len..]);
    }
    (without_carriage_return(&text[..len]), &text[len + 1..])
}

/// What all lines come to.
#[tactic(auto, using(crate::proofs::TextLemmas::endings))]
fn whole_at_end(alloc: Global, draft: Draft) -> Result<Config, CfgFault>
    ensures configures { Configures result (of_text (whole draft)) }
    ensures valid { IsSound draft → IfOk result IsValid }
{
    match whole(alloc, draft) {
        Ok(config) => Ok(config),
        Err(refusal) => Err(at_line(0, refusal)),
    }
}

/// All lines in turn, and what they come to.
fn read_lines<P: Patterns>(alloc: Global, text: &[u8], pats: &mut P) -> Result<Config, CfgFault>
    requires { length text.now ≤ most_text }
    ensures loads { Loads text.now (P.refusals pats.old) (P.refusals pats.new) (P.last_refused pats.new) result }
    ensures valid { IfOk result IsValid }
{
    let mut draft = start(alloc);
    let mut rest = text;
    let mut number = 1;
    while !rest.is_empty() {
        let (line, others) = first_line(rest);
        if let Err(refusal) = read_line(alloc, &mut draft, line, pats) {
            return Err(at_line(number, refusal));
        }
        number += 1;
        rest = others;
    }
    whole_at_end(alloc, draft)
}

/// The configuration of a text. The first refused line decides, and in it the first refused word; a text of more
/// than 1048576 bytes is refused before any line is looked at. The kind `Pattern` comes only where `pats` refused a pattern
/// of that line in this call, and keeps it.
#[tactic(auto, using(crate::proofs::TextLemmas::endings))]
pub fn load<P: Patterns>(alloc: Global, text: &[u8], pats: &mut P) -> Result<Config, CfgFault>
    ensures loads { Loads text.now (P.refusals pats.old) (P.refusals pats.new) (P.last_refused pats.new) result }
    ensures valid { IfOk result IsValid }
{
    if text.len() > MAX_TEXT {
        return Err(CfgFault::Refused {
            line: 0,
            kind: CfgKind::Limit,
        });
    }
    read_lines(alloc, text, pats)
}
