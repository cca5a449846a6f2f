//! The values of a test.
ghost use Rattle.std.specs.Prelude.{◌≡◌, ◌+◌, ◌<◌, ◌≤◌, ◌++◌, ◌∷◌, [], length, Some, None, Ok, IfOk};
ghost use Rattle.cfg_expr.specs.Faults.{Gives, ReadsText};
ghost use Rattle.cfg_expr.specs.Condition.Values.{operator_of, numbers_by, number, bound, range, number_value, with_word, no_ranges, ranges_from, literals};
ghost use Rattle.cfg_expr.specs.Condition.Tests.{patterns_from, needs_none, some_values, values_of};

use crate::condition::WordsLeft;
use crate::{TextFault, TextKind, around, build, first_of, is_word};
use acl_eval::{Match, TestValue, ValueList};
use px_pattern::Patterns;
use px_sample::{OutOfMemory, Text, number_of_bytes};
use std::alloc::Global;

/// What holds for the single numbers that follow.
#[derive(Clone, Copy)]
enum Operator {
    Eq,
    Ge,
    Gt,
    Le,
    Lt,
}

#[tactic(auto, unfolding(crate::specs::Condition::Values::operator_of))]
fn operator_of(word: &[u8]) -> Option<Operator>
    ensures { result ≡ operator_of word.now }
{
    if is_word(word, b"eq") {
        Some(Operator::Eq)
    } else if is_word(word, b"ge") {
        Some(Operator::Ge)
    } else if is_word(word, b"gt") {
        Some(Operator::Gt)
    } else if is_word(word, b"le") {
        Some(Operator::Le)
    } else if is_word(word, b"lt") {
        Some(Operator::Lt)
    } else {
        None
    }
}

fn at_least(low: i64) -> TestValue
    ensures { result ≡ TestValue.Range (Some low) None }
{
    TestValue::Range {
        low: Some(low),
        high: None,
    }
}

fn at_most(high: i64) -> TestValue
    ensures { result ≡ TestValue.Range None (Some high) }
{
    TestValue::Range {
        low: None,
        high: Some(high),
    }
}

fn between(low: i64, high: i64) -> TestValue
    ensures { result ≡ TestValue.Range (Some low) (Some high) }
{
    TestValue::Range {
        low: Some(low),
        high: Some(high),
    }
}

/// The numbers that stand so to a number; the range from 1 to 0 where there is none.
fn numbers_by(operator: Operator, n: i64) -> TestValue
    ensures { result ≡ numbers_by operator n }
{
    match operator {
        Operator::Eq => between(n, n),
        Operator::Ge => at_least(n),
        Operator::Gt => {
            if n == i64::MAX {
                between(1, 0)
            } else {
                at_least(n + 1)
            }
        }
        Operator::Le => at_most(n),
        Operator::Lt => {
            if n == i64::MIN {
                between(1, 0)
            } else {
                at_most(n - 1)
            }
        }
    }
}

fn number(text: &[u8]) -> Result<i64, TextFault>
    ensures { Gives (λ n. n) result (number text.now) }
{
    match number_of_bytes(text) {
        Some(n) => Ok(n),
        None => Err(TextFault::Refused(TextKind::Acl)),
    }
}

/// A bound of a range, or nothing.
fn bound(text: &[u8]) -> Result<Option<i64>, TextFault>
    ensures { Gives (λ n. n) result (bound text.now) }
{
    if text.is_empty() {
        return Ok(None);
    }
    Ok(Some(number(text)?))
}

/// Both bounds, of which there is one at least.
fn range(low: Option<i64>, high: Option<i64>) -> Result<TestValue, TextFault>
    ensures { Gives (λ value. value) result (range low high) }
{
    match low {
        Some(least) => Ok(TestValue::Range {
            low: Some(least),
            high,
        }),
        None => match high {
            Some(most) => Ok(at_most(most)),
            None => Err(TextFault::Refused(TextKind::Acl)),
        },
    }
}

/// A value of `int` or `len`, and whether the operator still lacks a number.
#[tactic(auto, unfolding(crate::specs::Condition::Values::number_value))]
fn number_value(
    operator: Operator,
    lacking: bool,
    word: &[u8],
) -> Result<(TestValue, bool), TextFault>
    ensures { Gives (λ found. found) result (number_value operator lacking word.now) }
{
    match first_of(b':', word) {
        Some(at) => {
            let (front, behind) = around(at, word);
            let low = bound(front)?;
            let high = bound(behind)?;
            Ok((range(low, high)?, lacking))
        }
        None => Ok((numbers_by(operator, number(word)?), false)),
    }
}

/// The values so far, the operator that holds, and whether it lacks a number.
#[derive(Drop)]
struct Ranges {
    values: ValueList,
    operator: Operator,
    lacking: bool,
}

impl Ranges {
    /// With a word that is an operator, or else a value.
    #[tactic(auto, unfolding(crate::specs::Condition::Values::with_word))]
    fn with_word(self, word: &[u8]) -> Result<Ranges, TextFault>
        requires { length self.values < 64 }
        ensures few { IfOk result (λ next. length next.values ≤ length self.values + 1) }
        ensures words { Gives (λ next. next) result (with_word self word.now) }
    {
        let Ranges {
            mut values,
            operator,
            lacking,
        } = self;
        match operator_of(word) {
            Some(operator) => {
                if lacking {
                    drop(values);
                    return Err(TextFault::Refused(TextKind::Acl));
                }
                Ok(Ranges {
                    values,
                    operator,
                    lacking: true,
                })
            }
            None => match number_value(operator, lacking, word) {
                Ok((value, lacking)) => {
                    values.push(value)?;
                    Ok(Ranges {
                        values,
                        operator,
                        lacking,
                    })
                }
                Err(fault) => {
                    drop(values);
                    Err(fault)
                }
            },
        }
    }
}

/// The values of `int` and `len`.
fn read_ranges(alloc: Global, mut words: WordsLeft<'_>) -> Result<ValueList, TextFault>
    requires { length words ≤ 64 }
    ensures { Gives (λ values. values) result (ranges_from no_ranges words.entry) }
{
    let mut ranges = Ranges {
        values: ValueList::new(alloc),
        operator: Operator::Eq,
        lacking: false,
    };
    'each: while let Some(word) = words.next() {
        match ranges.with_word(word) {
            Ok(next) => ranges = next,
            Err(fault) => return Err(fault),
        }
    }
    if ranges.lacking {
        drop(ranges);
        return Err(TextFault::Refused(TextKind::Acl));
    }
    Ok(ranges.values)
}

/// One more value, which is a text.
pub(crate) fn push_text(
    alloc: Global,
    values: &mut ValueList,
    text: &[u8],
) -> Result<(), OutOfMemory>
    requires { length values.old < 4294967295 }
    ensures { IfOk result (λ nothing. values.new ≡ values.old ++ literals (text.now ∷ [])) }
{
    let text = Text::copy(alloc, text)?;
    values.push(TestValue::Literal(text))
}

/// Texts, as they stand.
fn read_literals(alloc: Global, mut words: WordsLeft<'_>) -> Result<ValueList, TextFault>
    requires { length words ≤ 64 }
    ensures { Gives (λ values. values) result (Ok (literals words.entry)) }
{
    let mut values = ValueList::new(alloc);
    'each: while let Some(word) = words.next() {
        push_text(alloc, &mut values, word)?;
    }
    Ok(values)
}

/// Patterns, which ignore case where `-i` stands in front.
fn read_patterns<P: Patterns>(
    alloc: Global,
    icase: bool,
    mut words: WordsLeft<'_>,
    pats: &mut P,
) -> Result<ValueList, TextFault>
    requires { length words ≤ 64 }
    ensures { ReadsText (λ values. values) (patterns_from icase [] words.entry) (P.refusals pats.old) (P.refusals pats.new) (P.last_refused pats.new) result }
{
    let mut values = ValueList::new(alloc);
    'each: while let Some(word) = words.next() {
        match build(alloc, word, icase, pats) {
            Ok(pat) => values.push(TestValue::Pattern(pat))?,
            Err(fault) => {
                drop(values);
                return Err(fault);
            }
        }
    }
    Ok(values)
}

/// One value or more.
fn some_values<P: Patterns>(
    alloc: Global,
    how: Match,
    icase: bool,
    words: WordsLeft<'_>,
    pats: &mut P,
) -> Result<ValueList, TextFault>
    requires { length words ≤ 64 }
    ensures { ReadsText (λ values. values) (some_values how icase words.entry) (P.refusals pats.old) (P.refusals pats.new) (P.last_refused pats.new) result }
{
    match how {
        Match::Found | Match::Bool => Err(TextFault::Refused(TextKind::Acl)),
        Match::Int | Match::Len => read_ranges(alloc, words),
        Match::Str | Match::Beg | Match::End | Match::Sub => read_literals(alloc, words),
        Match::Reg => read_patterns(alloc, icase, words, pats),
    }
}

fn needs_none(how: Match) -> bool
    ensures { result ≡ needs_none how }
{
    match how {
        Match::Found | Match::Bool => true,
        _ => false,
    }
}

/// The values of a match.
#[tactic(auto, unfolding(crate::specs::Condition::Tests::values_of))]
pub(crate) fn read_values<P: Patterns>(
    alloc: Global,
    how: Match,
    icase: bool,
    words: WordsLeft<'_>,
    pats: &mut P,
) -> Result<ValueList, TextFault>
    ensures { ReadsText (λ values. values) (values_of how icase words.entry) (P.refusals pats.old) (P.refusals pats.new) (P.last_refused pats.new) result }
{
    if words.len() > 0 {
        return some_values(alloc, how, icase, words, pats);
    }
    if needs_none(how) {
        Ok(ValueList::new(alloc))
    } else {
        Err(TextFault::Refused(TextKind::Acl))
    }
}
