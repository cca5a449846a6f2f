//! One sample against the values of a test.
ghost use Rattle.std.specs.Prelude.{◌≡◌, false, IsOk, IfOk};
ghost use Rattle.std.specs.List.{list_any};
ghost use Rattle.px_sample.specs.Sample.{value_in};
ghost use Rattle.acl_eval.specs.Matches.{is_in_range, number_matches, length_matches, pattern_matches, text_matches, sample_matches, is_pattern};

use crate::condition::{Match, Test, TestValue, ValueList};
use crate::literal::matches_literal;
use px_expr::{Pat, Searchers};
use px_sample::{Buf, OutOfMemory, Sample, into_text, number_in, truth_in};

/// Whether a number lies between two bounds, each of which may lack.
fn lies_between(low: Option<i64>, high: Option<i64>, number: i64) -> bool
    ensures { result ≡ is_in_range low high number }
{
    low.map_or(true, |low| low <= number) && high.map_or(true, |high| number <= high)
}

/// Whether a number matches a value.
fn matches_number(number: i64, value: &TestValue) -> bool
    ensures { result ≡ number_matches number value.now }
{
    match value {
        TestValue::Range { low, high } => lies_between(*low, *high, number),
        TestValue::Literal(_) => false,
        TestValue::Pattern(_) => false,
    }
}

/// Whether it matches one of the values.
fn matches_a_number(number: i64, values: &ValueList) -> bool
    ensures { result ≡ list_any (number_matches number) values.now }
{
    for at in 0..values.len() {
        if matches_number(number, values.get(at)) {
            return true;
        }
    }
    false
}

/// Whether the length of a text is between two bounds.
fn matches_length(how: Match, low: Option<i64>, high: Option<i64>, text: &[u8]) -> bool
    ensures { result ≡ length_matches how low high text.now }
{
    match how {
        Match::Len => lies_between(low, high, text.len() as i64),
        _ => false,
    }
}

/// Whether a pattern matches somewhere in a text.
fn matches_pattern(
    searchers: &mut Searchers,
    how: Match,
    pat: &Pat,
    text: &[u8],
) -> Result<bool, OutOfMemory>
    ensures { IfOk result (λ found. found ≡ pattern_matches how pat.now text.now) }
{
    match how {
        Match::Reg => searchers.is_match(pat, text),
        _ => Ok(false),
    }
}

/// Whether a text matches a value.
fn matches_text(
    searchers: &mut Searchers,
    how: Match,
    icase: bool,
    value: &TestValue,
    text: &[u8],
) -> Result<bool, OutOfMemory>
    ensures value { IfOk result (λ found. found ≡ text_matches how icase text.now value.now) }
    ensures succeeds { is_pattern value.now ≡ false → IsOk result }
{
    match value {
        TestValue::Range { low, high } => Ok(matches_length(how, *low, *high, text)),
        TestValue::Literal(literal) => Ok(matches_literal(how, icase, literal.as_slice(), text)),
        TestValue::Pattern(pat) => matches_pattern(searchers, how, pat, text),
    }
}

/// Whether it matches one of the test's values.
fn matches_a_text(searchers: &mut Searchers, test: &Test, text: &[u8]) -> Result<bool, OutOfMemory>
    ensures value { IfOk result (λ found. found ≡ list_any (text_matches test.now.how test.now.icase text.now) test.now.values) }
    ensures succeeds { list_any is_pattern test.now.values ≡ false → IsOk result }
{
    for at in 0..test.values.len() {
        if matches_text(searchers, test.how, test.icase, test.values.get(at), text)? {
            return Ok(true);
        }
    }
    Ok(false)
}

/// Whether a sample matches the test. What `buf` holds afterwards is left open.
pub fn matches_sample(
    searchers: &mut Searchers,
    test: &Test,
    sample: Sample,
    buf: &mut Buf,
) -> Result<bool, OutOfMemory>
    ensures value { IfOk result (λ found. found ≡ sample_matches buf.old.cap test.now (value_in sample buf.old.bytes)) }
    ensures succeeds { list_any is_pattern test.now.values ≡ false → IsOk result }
    ensures cap { buf.new.cap ≡ buf.old.cap }
{
    match test.how {
        Match::Found => Ok(sample != Sample::Absent),
        Match::Bool => Ok(truth_in(sample, buf).unwrap_or(false)),
        Match::Int => match number_in(sample, buf) {
            Some(number) => Ok(matches_a_number(number, &test.values)),
            None => Ok(false),
        },
        _ => match into_text(sample, buf) {
            Sample::InBuf => matches_a_text(searchers, test, buf.bytes()),
            _ => Ok(false),
        },
    }
}
