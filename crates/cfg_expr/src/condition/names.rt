//! What a name of an `acl` line or of the predefined ones stands for.
ghost use Rattle.std.specs.Prelude.{◌≡◌, ◌∷◌, [], false, Some, None, option_map, is_some, IfOk};
ghost use Rattle.std.specs.List.{list_all};
ghost use Rattle.cfg_expr.specs.Faults.{Gives};
ghost use Rattle.cfg_expr.specs.Condition.Values.{literals};
ghost use Rattle.cfg_expr.specs.Condition.Lines.{is_name_byte, is_acl_name, is_predefined, declared_name, plain_test, predefined_of, predefined_test, is_of_requests, has_predefined, is_named, named_tests, tests_by, tests_from};

use crate::condition::copies::copy_on;
use crate::condition::values::push_text;
use crate::condition::{AclLine, AclList};
use crate::{Side, TextFault, TextKind, is_word};
use acl_eval::{Match, Test, TestList, ValueList};
use px_expr::{ConvList, Expr};
use px_sample::{Fetch, OutOfMemory};
use std::alloc::Global;

/// A predefined name.
#[derive(Clone, Copy)]
enum Predefined {
    True,
    False,
    MethGet,
    MethHead,
    MethPost,
    MethPut,
    MethDelete,
    MethOptions,
    Http10,
    Http11,
    HttpUrlSlash,
    HttpUrlStar,
}

#[tactic(auto, unfolding(crate::specs::Condition::Lines::predefined_of))]
fn predefined_of(name: &[u8]) -> Option<Predefined>
    ensures { result ≡ predefined_of name.now }
{
    if is_word(name, b"TRUE") {
        Some(Predefined::True)
    } else if is_word(name, b"FALSE") {
        Some(Predefined::False)
    } else if is_word(name, b"METH_GET") {
        Some(Predefined::MethGet)
    } else if is_word(name, b"METH_HEAD") {
        Some(Predefined::MethHead)
    } else if is_word(name, b"METH_POST") {
        Some(Predefined::MethPost)
    } else if is_word(name, b"METH_PUT") {
        Some(Predefined::MethPut)
    } else if is_word(name, b"METH_DELETE") {
        Some(Predefined::MethDelete)
    } else if is_word(name, b"METH_OPTIONS") {
        Some(Predefined::MethOptions)
    } else if is_word(name, b"HTTP_1.0") {
        Some(Predefined::Http10)
    } else if is_word(name, b"HTTP_1.1") {
        Some(Predefined::Http11)
    } else if is_word(name, b"HTTP_URL_SLASH") {
        Some(Predefined::HttpUrlSlash)
    } else if is_word(name, b"HTTP_URL_STAR") {
        Some(Predefined::HttpUrlStar)
    } else {
        None
    }
}

/// No line may declare the name.
fn is_predefined(name: &[u8]) -> bool
    ensures { result ≡ is_predefined name.now }
{
    predefined_of(name).is_some()
}

/// A fetch without converters, tried against values.
fn tried(alloc: Global, fetch: Fetch, how: Match, values: ValueList) -> Test
    ensures { result ≡ record { expr = record { fetch = fetch; convs = [] }; how = how; icase = false; values = values } }
{
    Test {
        expr: Expr {
            fetch,
            convs: ConvList::new(alloc),
        },
        how,
        icase: false,
        values,
    }
}

/// A fetch without converters, tried against nothing.
fn empty_test(alloc: Global, fetch: Fetch, how: Match) -> Test
    ensures { result ≡ plain_test fetch how [] }
{
    tried(alloc, fetch, how, ValueList::new(alloc))
}

/// One text.
fn one_text(alloc: Global, text: &[u8]) -> Result<ValueList, OutOfMemory>
    ensures { IfOk result (λ values. values ≡ literals (text.now ∷ [])) }
{
    let mut values = ValueList::new(alloc);
    push_text(alloc, &mut values, text)?;
    Ok(values)
}

/// Two texts.
fn two_texts(alloc: Global, first: &[u8], second: &[u8]) -> Result<ValueList, OutOfMemory>
    ensures { IfOk result (λ values. values ≡ literals (first.now ∷ second.now ∷ [])) }
{
    let mut values = one_text(alloc, first)?;
    push_text(alloc, &mut values, second)?;
    Ok(values)
}

/// A fetch without converters, tried against a text.
fn text_test(alloc: Global, fetch: Fetch, how: Match, text: &[u8]) -> Result<Test, OutOfMemory>
    ensures { IfOk result (λ test. test ≡ plain_test fetch how (text.now ∷ [])) }
{
    match one_text(alloc, text) {
        Ok(values) => Ok(tried(alloc, fetch, how, values)),
        Err(fault) => {
            drop(fetch);
            Err(fault)
        }
    }
}

/// The method is this one.
fn method_test(alloc: Global, method: &[u8]) -> Result<Test, OutOfMemory>
    ensures { IfOk result (λ test. test ≡ plain_test Fetch.Method Match.Str (method.now ∷ [])) }
{
    text_test(alloc, Fetch::Method, Match::Str, method)
}

/// The method is one of these.
fn methods_test(alloc: Global, first: &[u8], second: &[u8]) -> Result<Test, OutOfMemory>
    ensures { IfOk result (λ test. test ≡ plain_test Fetch.Method Match.Str (first.now ∷ second.now ∷ [])) }
{
    let values = two_texts(alloc, first, second)?;
    Ok(tried(alloc, Fetch::Method, Match::Str, values))
}

/// What a predefined name stands for.
fn predefined_test(alloc: Global, which: Predefined) -> Result<Test, OutOfMemory>
    ensures { IfOk result (λ test. test ≡ predefined_test which) }
{
    match which {
        Predefined::True => Ok(empty_test(alloc, Fetch::AlwaysTrue, Match::Bool)),
        Predefined::False => Ok(empty_test(alloc, Fetch::AlwaysFalse, Match::Bool)),
        Predefined::MethGet => methods_test(alloc, b"GET", b"HEAD"),
        Predefined::MethHead => method_test(alloc, b"HEAD"),
        Predefined::MethPost => method_test(alloc, b"POST"),
        Predefined::MethPut => method_test(alloc, b"PUT"),
        Predefined::MethDelete => method_test(alloc, b"DELETE"),
        Predefined::MethOptions => method_test(alloc, b"OPTIONS"),
        Predefined::Http10 => text_test(alloc, Fetch::ReqVer, Match::Str, b"1.0"),
        Predefined::Http11 => text_test(alloc, Fetch::ReqVer, Match::Str, b"1.1"),
        Predefined::HttpUrlSlash => text_test(alloc, Fetch::Url, Match::Beg, b"/"),
        Predefined::HttpUrlStar => text_test(alloc, Fetch::Url, Match::Str, b"*"),
    }
}

fn is_of_requests(which: Predefined) -> bool
    ensures { result ≡ is_of_requests which }
{
    match which {
        Predefined::Http10
        | Predefined::Http11
        | Predefined::HttpUrlSlash
        | Predefined::HttpUrlStar => true,
        _ => false,
    }
}

/// The direction has the predefined name.
fn has_predefined(side: Side, which: Predefined) -> bool
    ensures { result ≡ has_predefined side which }
{
    match side {
        Side::Request => true,
        Side::Response => !is_of_requests(which),
    }
}

fn are_name_bytes(word: &[u8]) -> bool
    ensures { result ≡ list_all is_name_byte word.now }
{
    word.iter().all(|b| is_name_byte(*b))
}

fn is_acl_name(word: &[u8]) -> bool
    ensures { result ≡ is_acl_name word.now }
{
    1 <= word.len() && are_name_bytes(word)
}

/// A letter, a digit, `-`, `_`, `.` or `:`.
fn is_name_byte(b: u8) -> bool
    ensures { result ≡ is_name_byte b }
{
    b.is_ascii_alphanumeric() || b == b'-' || b == b'_' || b == b'.' || b == b':'
}

/// A line may declare the name.
pub(crate) fn check_name(word: &[u8]) -> Result<(), TextFault>
    ensures { Gives (λ nothing. word.now) result (declared_name word.now) }
{
    if !is_acl_name(word) {
        return Err(TextFault::Refused(TextKind::Argument));
    }
    if is_predefined(word) {
        return Err(TextFault::Refused(TextKind::Acl));
    }
    Ok(())
}

pub(crate) fn is_named(line: &AclLine, name: &[u8]) -> bool
    ensures { result ≡ is_named name.now line.now }
{
    line.name.as_slice() == name
}

/// Copies of the tests of all lines of a name.
fn line_tests(
    alloc: Global,
    side: Side,
    lines: &AclList,
    name: &[u8],
) -> Result<TestList, TextFault>
    ensures { Gives (λ tests. tests) result (tests_from side name.now [] lines.now) }
{
    let mut tests = TestList::new(alloc);
    'each: for at in 0..lines.len() {
        let line = lines.get(at);
        if !is_named(line, name) {
            continue;
        }
        match copy_on(alloc, side, &line.test) {
            Ok(test) => tests.push(test)?,
            Err(fault) => {
                drop(tests);
                return Err(fault);
            }
        }
    }
    Ok(tests)
}

/// The tests of a name for which there is a line.
fn declared_tests(
    alloc: Global,
    side: Side,
    lines: &AclList,
    name: &[u8],
) -> Result<TestList, TextFault>
    ensures { Gives (λ tests. tests) result (tests_by side lines.now name.now None) }
{
    let tests = line_tests(alloc, side, lines, name)?;
    if tests.is_empty() {
        drop(tests);
        Err(TextFault::Refused(TextKind::Acl))
    } else {
        Ok(tests)
    }
}

/// A test alone.
pub(crate) fn alone(alloc: Global, test: Test) -> Result<TestList, OutOfMemory>
    ensures { IfOk result (λ tests. tests ≡ test ∷ []) }
{
    let mut tests = TestList::new(alloc);
    tests.push(test)?;
    Ok(tests)
}

/// The tests that a name stands for in a direction.
pub(crate) fn named_tests(
    alloc: Global,
    side: Side,
    lines: &AclList,
    name: &[u8],
) -> Result<TestList, TextFault>
    ensures { Gives (λ tests. tests) result (named_tests side lines.now name.now) }
{
    let Some(which) = predefined_of(name) else {
        return declared_tests(alloc, side, lines, name);
    };
    if !has_predefined(side, which) {
        return Err(TextFault::Refused(TextKind::Acl));
    }
    let test = predefined_test(alloc, which)?;
    Ok(alone(alloc, test)?)
}
