//! The words of a test: its criterion, its flags and its values.
ghost use Rattle.std.specs.Prelude.{◌≡◌, ◌++◌, ◌∷◌, [], OnOk};
ghost use Rattle.cfg_print.specs.Words.{spaced, words_text};
ghost use Rattle.cfg_print.specs.Conditions.{match_text, bound_text, is_one_number, range_text, value_word, value_words, is_dashed, behind_flags, icase_words, test_words};

use crate::numbers::put_signed;
use crate::page::Page;
use crate::words::{put, put_spaced};
use acl_eval::{Match, Test, TestValue};
use px_link::OutOfMemory;

/// The name of a match.
fn match_text(how: Match) -> &'static [u8]
    ensures { result.now ≡ match_text how }
{
    match how {
        Match::Found => b"found",
        Match::Bool => b"bool",
        Match::Int => b"int",
        Match::Len => b"len",
        Match::Str => b"str",
        Match::Beg => b"beg",
        Match::End => b"end",
        Match::Sub => b"sub",
        Match::Reg => b"reg",
    }
}

/// Puts a bound behind a text, where there is one.
fn put_bound(out: &mut Vec<u8>, bound: Option<i64>) -> Result<(), OutOfMemory>
    ensures { OnOk result (out.new.items ≡ out.old.items ++ bound_text bound) }
{
    match bound {
        None => Ok(()),
        Some(n) => put_signed(out, n),
    }
}

/// Both bounds are one number.
fn is_one_number(low: Option<i64>, high: Option<i64>) -> bool
    ensures { result ≡ is_one_number low high }
{
    match low {
        None => false,
        Some(low) => match high {
            None => false,
            Some(high) => low == high,
        },
    }
}

/// Puts a range behind a text.
#[tactic(auto, unfolding(crate::specs::Conditions::range_text))]
fn put_range(out: &mut Vec<u8>, low: Option<i64>, high: Option<i64>) -> Result<(), OutOfMemory>
    ensures { OnOk result (out.new.items ≡ out.old.items ++ range_text low high) }
{
    if is_one_number(low, high) {
        return put_bound(out, low);
    }
    put_bound(out, low)?;
    put(out, b":")?;
    put_bound(out, high)
}

/// Puts the word of a value behind a text.
#[tactic(auto, unfolding(crate::specs::Conditions::value_word))]
fn put_value_word(out: &mut Vec<u8>, value: &TestValue) -> Result<(), OutOfMemory>
    ensures { OnOk result (out.new.items ≡ out.old.items ++ value_word value.now) }
{
    match value {
        TestValue::Range { low, high } => put_range(out, *low, *high),
        TestValue::Literal(text) => put(out, text.as_slice()),
        TestValue::Pattern(pat) => put(out, pat.text()),
    }
}

/// Puts a value behind the words of its line.
fn put_value(page: &mut Page, value: &TestValue) -> Result<(), OutOfMemory>
    ensures { OnOk result (page.new.text.items ≡ page.old.text.items ++ spaced (value_word value.now)) }
{
    page.word.clear();
    put_value_word(&mut page.word, value)?;
    put_spaced(&mut page.text, &page.word)
}

/// A word begins as a flag does.
fn is_dashed(word: &[u8]) -> bool
    ensures { result ≡ is_dashed word.now }
{
    match word {
        [] => false,
        [first, ..] => *first == b'-',
    }
}

/// Puts the first value behind the flags, with `--` in front of it where it looks like one of them.
fn put_first_value(page: &mut Page, value: &TestValue) -> Result<(), OutOfMemory>
    ensures { OnOk result (page.new.text.items ≡ page.old.text.items ++ words_text (behind_flags (value_word value.now ∷ []))) }
{
    page.word.clear();
    put_value_word(&mut page.word, value)?;
    if is_dashed(&page.word) {
        put_spaced(&mut page.text, b"--")?;
    }
    put_spaced(&mut page.text, &page.word)
}

/// Puts values behind the words of their line.
fn put_other_values(page: &mut Page, values: &[TestValue]) -> Result<(), OutOfMemory>
    ensures { OnOk result (page.new.text.items ≡ page.old.text.items ++ words_text (value_words values.now)) }
{
    for value in values {
        put_value(page, value)?;
    }
    Ok(())
}

/// Puts all values behind the flags.
fn put_values(page: &mut Page, values: &[TestValue]) -> Result<(), OutOfMemory>
    ensures { OnOk result (page.new.text.items ≡ page.old.text.items ++ words_text (behind_flags (value_words values.now))) }
{
    match values {
        [] => Ok(()),
        [first, others @ ..] => {
            put_first_value(page, first)?;
            put_other_values(page, others)
        }
    }
}

/// Puts the flag of a test that ignores case.
fn put_icase(page: &mut Page, icase: bool) -> Result<(), OutOfMemory>
    ensures { OnOk result (page.new.text.items ≡ page.old.text.items ++ words_text (icase_words icase)) }
{
    if icase {
        return page.put_word(b"-i");
    }
    Ok(())
}

/// Puts the words of a test behind those of its line.
#[tactic(auto, unfolding(crate::specs::Conditions::test_words))]
pub(crate) fn put_test(page: &mut Page, test: &Test) -> Result<(), OutOfMemory>
    ensures { OnOk result (page.new.text.items ≡ page.old.text.items ++ words_text (test_words test.now)) }
{
    page.put_expr(&test.expr)?;
    page.put_word(b"-m")?;
    page.put_word(match_text(test.how))?;
    put_icase(page, test.icase)?;
    put_values(page, test.values.as_slice())
}
