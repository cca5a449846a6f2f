//! The words of a line, the `acl` lines that stand above a rule, and what ends the rule.
use case_rows::{Fault, split_at_first};
use cfg_expr::condition::{
    AclList, Cond, Side, TextFault, TextKind, WordsLeft, read_acl, read_rule_end,
};
use cfg_lex::{LineFault, Words, words_of_line};
use px_pattern::RealPatterns;
use std::alloc::Global;

/// What ends a rule.
pub enum RuleEnd {
    /// Nothing stands there.
    Absent,
    Condition(Cond),
    /// It is refused, for a reason with this name.
    Refused(&'static [u8]),
}

impl Drop for RuleEnd {
    fn drop(self) {
        match self {
            RuleEnd::Absent => {}
            RuleEnd::Condition(_) => {}
            RuleEnd::Refused(_) => {}
        }
    }
}

/// The words of a line.
pub fn words_in(alloc: Global, line: &[u8]) -> Result<Words, Fault> {
    match words_of_line(alloc, line) {
        Ok(words) => Ok(words),
        Err(LineFault::OutOfMemory) => Err(Fault::OutOfMemory),
        Err(_) => Err(Fault::Malformed),
    }
}

/// What a row comes to where a line above its rule is refused.
fn above(fault: TextFault) -> Fault {
    match fault {
        TextFault::OutOfMemory => Fault::OutOfMemory,
        _ => Fault::Malformed,
    }
}

/// Puts an `acl` line behind the others.
fn add_line(
    alloc: Global,
    line: &[u8],
    lines: &mut AclList,
    pats: &mut RealPatterns,
) -> Result<(), Fault> {
    let words = words_in(alloc, line)?;
    if words.len() == 0 {
        return Err(Fault::Malformed);
    }
    match read_acl(alloc, WordsLeft::from(&words, 1), lines, pats) {
        Ok(()) => Ok(()),
        Err(fault) => Err(above(fault)),
    }
}

/// The `acl` lines of a text, each with a line feed behind it.
pub fn lines_in(alloc: Global, text: &[u8], pats: &mut RealPatterns) -> Result<AclList, Fault> {
    let mut lines = AclList::new(alloc);
    let mut rest = text;
    for _ in 0..text.len() {
        let Some((line, behind)) = split_at_first(rest, b'\n') else {
            break;
        };
        add_line(alloc, line, &mut lines, pats)?;
        rest = behind;
    }
    Ok(lines)
}

/// The name of a reason to refuse a text.
fn refusal(kind: TextKind) -> &'static [u8] {
    match kind {
        TextKind::Argument => b"Argument",
        TextKind::Expr => b"Expr",
        TextKind::Acl => b"Acl",
        TextKind::Limit => b"Limit",
    }
}

/// The name of a refusal.
pub fn refused(fault: TextFault) -> Result<&'static [u8], Fault> {
    match fault {
        TextFault::Refused(kind) => Ok(refusal(kind)),
        TextFault::Pattern => Ok(b"Pattern"),
        TextFault::OutOfMemory => Err(Fault::OutOfMemory),
    }
}

/// What ends a rule on this side, where these `acl` lines stand above it.
pub fn rule_end(alloc: Global, side: Side, lines: &[u8], end: &[u8]) -> Result<RuleEnd, Fault> {
    let mut pats = RealPatterns::new();
    let lines = lines_in(alloc, lines, &mut pats)?;
    let words = words_in(alloc, end)?;
    match read_rule_end(alloc, side, &lines, WordsLeft::from(&words, 0), &mut pats) {
        Ok(None) => Ok(RuleEnd::Absent),
        Ok(Some(cond)) => Ok(RuleEnd::Condition(cond)),
        Err(fault) => Ok(RuleEnd::Refused(refused(fault)?)),
    }
}
