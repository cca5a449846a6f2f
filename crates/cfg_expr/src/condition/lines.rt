//! `acl` lines.
ghost use Rattle.std.specs.Prelude.{◌≡◌, count_by, OnErr};
ghost use Rattle.cfg_expr.specs.Faults.{Gives, ReadsText};
ghost use Rattle.cfg_expr.specs.Condition.Lines.{is_named, with_line};
ghost use Rattle.cfg_expr.specs.Condition.Conditions.{acl_line, line_read};

use crate::condition::names::{check_name, is_named};
use crate::condition::test::read_test;
use crate::condition::{AclLine, AclList, WordsLeft};
use crate::{TextFault, TextKind};
use px_pattern::Patterns;
use px_sample::Text;
use std::alloc::Global;

/// The most `acl` lines.
const MAX_LINES: u32 = 1024;

/// The most lines of one name.
const MAX_LINES_OF_A_NAME: u32 = 64;

/// How many lines have this name.
fn count_named(lines: &AclList, name: &[u8]) -> u32
    ensures { result ≡ count_by (is_named name.now) lines.now }
{
    let mut count = 0;
    'each: for at in 0..lines.len() {
        if !is_named(lines.get(at), name) {
            continue;
        }
        count += 1;
    }
    count
}

/// One more line, unless there are too many of all or of its name.
fn push_line(lines: &mut AclList, line: AclLine) -> Result<(), TextFault>
    ensures pushes { Gives (λ nothing. lines.new) result (with_line lines.old line) }
    ensures unchanged { OnErr result (lines.new ≡ lines.old) }
{
    let full = lines.len() >= MAX_LINES;
    if full || count_named(lines, line.name.as_slice()) >= MAX_LINES_OF_A_NAME {
        drop(line);
        return Err(TextFault::Refused(TextKind::Limit));
    }
    lines.push(line)?;
    Ok(())
}

/// The line that the words behind `acl` say.
#[tactic(auto, unfolding(crate::specs::Condition::Conditions::line_read))]
fn read_line<P: Patterns>(
    alloc: Global,
    words: WordsLeft<'_>,
    pats: &mut P,
) -> Result<AclLine, TextFault>
    ensures { ReadsText (λ line. line) (line_read words.entry) (P.refusals pats.old) (P.refusals pats.new) (P.last_refused pats.new) result }
{
    let (name, words) = words.word_or(TextKind::Argument)?;
    check_name(name)?;
    let (criterion, words) = words.word_or(TextKind::Argument)?;
    let name = Text::copy(alloc, name)?;
    match read_test(alloc, None, criterion, words, pats) {
        Ok(test) => Ok(AclLine { name, test }),
        Err(fault) => {
            drop(name);
            Err(fault)
        }
    }
}

/// The words behind `acl`: one more line. Refused with Argument where the name is missing or malformed, or where the
/// criterion is missing; with Acl where the name is predefined, or a flag, a match or a value is malformed; with Expr where
/// the criterion is; with Limit, last, at a 1025th line or a 65th of one name. The first refused word decides.
#[tactic(auto, unfolding(crate::specs::Condition::Conditions::acl_line))]
pub fn read_acl<P: Patterns>(
    alloc: Global,
    words: WordsLeft<'_>,
    lines: &mut AclList,
    pats: &mut P,
) -> Result<(), TextFault>
    ensures reads { ReadsText (λ nothing. lines.new) (acl_line lines.old words.entry) (P.refusals pats.old) (P.refusals pats.new) (P.last_refused pats.new) result }
    ensures unchanged { OnErr result (lines.new ≡ lines.old) }
{
    let line = read_line(alloc, words, pats)?;
    push_line(lines, line)
}
