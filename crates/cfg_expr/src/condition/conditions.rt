//! Conditions: groups of terms behind `if` or `unless`.
ghost use Rattle.std.specs.Prelude.{◌≡◌, ◌+◌, ◌<◌, ◌≤◌, ◌++◌, ◌∷◌, [], length, IfOk};
ghost use Rattle.cfg_expr.specs.Faults.{Gives, ReadsText};
ghost use Rattle.cfg_expr.specs.Condition.Conditions.{is_or, is_open, braces, tests_at, negated_or_not, marked, term_at, with_group, with_word, groups_of, condition_of, rule_end};

use crate::condition::copies::move_on;
use crate::condition::names::{alone, named_tests};
use crate::condition::test::read_test;
use crate::condition::{AclList, WordsLeft};
use crate::{Side, TextFault, TextKind, is_word};
use acl_eval::{Cond, GroupList, Term, TermList, TestList};
use px_pattern::Patterns;
use px_sample::OutOfMemory;
use std::alloc::Global;

#[tactic(auto, unfolding(crate::specs::Condition::Conditions::is_or))]
fn is_or(word: &[u8]) -> bool
    ensures { result ≡ is_or word.now }
{
    is_word(word, b"or") || is_word(word, b"||")
}

#[tactic(auto, unfolding(crate::specs::Condition::Conditions::is_open))]
fn is_open(word: &[u8]) -> bool
    ensures { result ≡ is_open word.now }
{
    is_word(word, b"{")
}

/// The test in braces, and the words behind them.
#[tactic(auto, unfolding(crate::specs::Condition::Conditions::braces))]
fn read_braces<'w, P: Patterns>(
    alloc: Global,
    side: Side,
    words: WordsLeft<'w>,
    pats: &mut P,
) -> Result<(TestList, WordsLeft<'w>), TextFault>
    ensures { ReadsText (λ found. found) (braces side words.entry) (P.refusals pats.old) (P.refusals pats.new) (P.last_refused pats.new) result }
{
    let (inside, behind) = words.up_to_close();
    let (criterion, inside) = inside.word_or(TextKind::Acl)?;
    let written = read_test(alloc, Some(side), criterion, inside, pats)?;
    let test = move_on(side, written)?;
    match behind {
        Some(behind) => {
            let tests = alone(alloc, test)?;
            Ok((tests, behind))
        }
        None => {
            drop(test);
            Err(TextFault::Refused(TextKind::Acl))
        }
    }
}

/// The `acl` lines above a rule of a direction.
#[derive(Clone, Copy)]
struct Acls<'l> {
    side: Side,
    lines: &'l AclList,
}

/// The tests of a name or of braces, and the words behind.
fn tests_at<'w, P: Patterns>(
    alloc: Global,
    acls: Acls<'_>,
    word: &[u8],
    others: WordsLeft<'w>,
    pats: &mut P,
) -> Result<(TestList, WordsLeft<'w>), TextFault>
    ensures { ReadsText (λ found. found) (tests_at acls.entry.side acls.entry.lines.now word.now others.entry) (P.refusals pats.old) (P.refusals pats.new) (P.last_refused pats.new) result }
{
    if is_open(word) {
        return read_braces(alloc, acls.side, others, pats);
    }
    let tests = named_tests(alloc, acls.side, acls.lines, word)?;
    Ok((tests, others))
}

/// A term, of which it is known whether it is negated.
fn term_of<'w, P: Patterns>(
    alloc: Global,
    not: bool,
    acls: Acls<'_>,
    word: &[u8],
    others: WordsLeft<'w>,
    pats: &mut P,
) -> Result<(Term, WordsLeft<'w>), TextFault>
    ensures { ReadsText (λ found. found) (negated_or_not not acls.entry.side acls.entry.lines.now word.now others.entry) (P.refusals pats.old) (P.refusals pats.new) (P.last_refused pats.new) result }
{
    let (tests, others) = tests_at(alloc, acls, word, others, pats)?;
    Ok((Term { not, tests }, others))
}

/// A negated term, of which the `!` is its own word or is joined to what follows.
fn marked<'w, P: Patterns>(
    alloc: Global,
    acls: Acls<'_>,
    joined: &[u8],
    others: WordsLeft<'w>,
    pats: &mut P,
) -> Result<(Term, WordsLeft<'w>), TextFault>
    ensures { ReadsText (λ found. found) (marked acls.entry.side acls.entry.lines.now joined.now others.entry) (P.refusals pats.old) (P.refusals pats.new) (P.last_refused pats.new) result }
{
    if !joined.is_empty() {
        return term_of(alloc, true, acls, joined, others, pats);
    }
    let (word, others) = others.word_or(TextKind::Acl)?;
    term_of(alloc, true, acls, word, others, pats)
}

/// A term that begins with this word, and the words behind it.
#[tactic(auto, unfolding(crate::specs::Condition::Conditions::term_at))]
fn term_at<'w, P: Patterns>(
    alloc: Global,
    acls: Acls<'_>,
    word: &[u8],
    others: WordsLeft<'w>,
    pats: &mut P,
) -> Result<(Term, WordsLeft<'w>), TextFault>
    ensures { ReadsText (λ found. found) (term_at acls.entry.side acls.entry.lines.now word.now others.entry) (P.refusals pats.old) (P.refusals pats.new) (P.last_refused pats.new) result }
{
    match word.split_first() {
        Some((b'!', joined)) => marked(alloc, acls, joined, others, pats),
        _ => term_of(alloc, false, acls, word, others, pats),
    }
}

/// The groups so far, and the terms of the group that goes on.
#[derive(Drop)]
struct Groups {
    whole: GroupList,
    terms: TermList,
}

impl Groups {
    /// With one more group, which has a term.
    fn closed(self) -> Result<GroupList, TextFault>
        requires { length self.whole < 1000 }
        ensures groups { Gives (λ groups. groups) result (with_group self.whole self.terms) }
        ensures few { IfOk result (λ groups. length groups ≤ length self.whole + 1) }
    {
        let Groups { mut whole, terms } = self;
        if terms.is_empty() {
            drop(whole);
            return Err(TextFault::Refused(TextKind::Acl));
        }
        whole.push(terms)?;
        Ok(whole)
    }

    /// With one more term in the group that goes on.
    fn with_term(self, term: Term) -> Result<Groups, OutOfMemory>
        requires { length self.terms < 1000 }
        ensures { IfOk result (λ groups. groups ≡ record { whole = self.whole; terms = self.terms ++ term ∷ [] }) }
    {
        let Groups { whole, mut terms } = self;
        match terms.push(term) {
            Ok(()) => Ok(Groups { whole, terms }),
            Err(fault) => {
                drop(whole);
                drop(terms);
                Err(fault)
            }
        }
    }
}

/// With a word, and those behind it that its term takes.
#[tactic(auto, unfolding(crate::specs::Condition::Conditions::with_word))]
fn with_word<'w, P: Patterns>(
    alloc: Global,
    acls: Acls<'_>,
    so_far: Groups,
    word: &[u8],
    others: WordsLeft<'w>,
    pats: &mut P,
) -> Result<(Groups, WordsLeft<'w>), TextFault>
    requires { length so_far.whole + length so_far.terms < 1000 }
    ensures reads { ReadsText (λ found. found) (with_word acls.entry.side acls.entry.lines.now so_far word.now others.entry) (P.refusals pats.old) (P.refusals pats.new) (P.last_refused pats.new) result }
    ensures few { IfOk result (λ found. length found.0.whole + length found.0.terms ≤ length so_far.whole + length so_far.terms + 1) }
{
    if is_or(word) {
        let whole = so_far.closed()?;
        let terms = TermList::new(alloc);
        return Ok((Groups { whole, terms }, others));
    }
    match term_at(alloc, acls, word, others, pats) {
        Ok((term, behind)) => {
            let groups = so_far.with_term(term)?;
            Ok((groups, behind))
        }
        Err(fault) => {
            drop(so_far);
            Err(fault)
        }
    }
}

/// Groups of terms, which `or` or `||` joins.
fn read_groups<P: Patterns>(
    alloc: Global,
    acls: Acls<'_>,
    words: WordsLeft<'_>,
    pats: &mut P,
) -> Result<GroupList, TextFault>
    ensures { ReadsText (λ groups. groups) (groups_of acls.entry.side acls.entry.lines.now words.entry) (P.refusals pats.old) (P.refusals pats.new) (P.last_refused pats.new) result }
{
    let mut groups = Groups {
        whole: GroupList::new(alloc),
        terms: TermList::new(alloc),
    };
    let count = words.len();
    let mut left = words;
    'each: for _at in 0..count {
        let Some(word) = left.next() else {
            return groups.closed();
        };
        match with_word(alloc, acls, groups, word, left, pats) {
            Ok((next, behind)) => {
                groups = next;
                left = behind;
            }
            Err(fault) => return Err(fault),
        }
    }
    if left.len() > 0 {
        drop(groups);
        return Err(TextFault::Refused(TextKind::Acl));
    }
    groups.closed()
}

/// The condition behind `if` or `unless`.
#[tactic(auto, unfolding(crate::specs::Condition::Conditions::condition_of))]
fn read_condition<P: Patterns>(
    alloc: Global,
    acls: Acls<'_>,
    unless: bool,
    words: WordsLeft<'_>,
    pats: &mut P,
) -> Result<Option<Cond>, TextFault>
    ensures { ReadsText (λ cond. cond) (condition_of acls.entry.side acls.entry.lines.now unless words.entry) (P.refusals pats.old) (P.refusals pats.new) (P.last_refused pats.new) result }
{
    let groups = read_groups(alloc, acls, words, pats)?;
    Ok(Some(Cond { unless, groups }))
}

/// What ends a rule of a direction: nothing, or `if` or `unless` and a condition over the `acl` lines above. Refused with
/// Argument where another word stands there; with Acl where the condition is malformed, or a name has no line above or a
/// fetch that the direction does not have; with Expr where an expression in braces is. The first refused word decides, and
/// a missing one counts as behind the last.
#[tactic(auto, unfolding(crate::specs::Condition::Conditions::rule_end))]
pub fn read_rule_end<P: Patterns>(
    alloc: Global,
    side: Side,
    lines: &AclList,
    words: WordsLeft<'_>,
    pats: &mut P,
) -> Result<Option<Cond>, TextFault>
    ensures { ReadsText (λ cond. cond) (rule_end side lines.now words.entry) (P.refusals pats.old) (P.refusals pats.new) (P.last_refused pats.new) result }
{
    let acls = Acls { side, lines };
    let mut others = words;
    let Some(word) = others.next() else {
        return Ok(None);
    };
    if is_word(word, b"if") {
        return read_condition(alloc, acls, false, others, pats);
    }
    if is_word(word, b"unless") {
        return read_condition(alloc, acls, true, others, pats);
    }
    Err(TextFault::Refused(TextKind::Argument))
}
