//! How fetches, converters and the values of tests are said: the name, and each argument with a blank in front.
use acl_eval::TestValue;
use case_rows::Answers;
use cfg_expr::Source;
use px_conv::Matches;
use px_expr::{Conv, ConvList, Expr, Fetch, Pat, Text};

/// Says bytes in double quotes.
fn say_text(text: &Text, answers: &mut Answers) {
    answers.more(b" \"");
    answers.more(text.as_slice());
    answers.more(b"\"");
}

fn say_number(number: i64, answers: &mut Answers) {
    answers.more(b" ");
    answers.more_name(&number);
}

fn say_some_number(number: Option<i64>, answers: &mut Answers) {
    if let Some(number) = number {
        say_number(number, answers);
    }
}

/// Says a pattern, and that it ignores case.
fn say_pattern(pat: &Pat, answers: &mut Answers) {
    answers.more(b" \"");
    answers.more(pat.text());
    answers.more(b"\"");
    if pat.ignores_case() {
        answers.more(b" icase");
    }
}

/// Says a name with a text and a number, where there is one.
fn say_field(name: &[u8], text: &Text, number: Option<i64>, answers: &mut Answers) {
    answers.more(name);
    say_text(text, answers);
    say_some_number(number, answers);
}

/// Says a fetch of a field or of a constant.
fn say_with_arguments(fetch: &Fetch, answers: &mut Answers) {
    match fetch {
        Fetch::ReqHdr(name, at) => say_field(b"ReqHdr", name, *at, answers),
        Fetch::ResHdr(name, at) => say_field(b"ResHdr", name, *at, answers),
        Fetch::ReqFhdr(name, at) => say_field(b"ReqFhdr", name, *at, answers),
        Fetch::ResFhdr(name, at) => say_field(b"ResFhdr", name, *at, answers),
        Fetch::ReqHdrCnt(name) => say_field(b"ReqHdrCnt", name, None, answers),
        Fetch::ResHdrCnt(name) => say_field(b"ResHdrCnt", name, None, answers),
        Fetch::UrlParam(name) => say_field(b"UrlParam", name, None, answers),
        Fetch::Str(text) => say_field(b"Str", text, None, answers),
        Fetch::Int(number) => {
            answers.more(b"Int");
            say_number(*number, answers);
        }
        Fetch::Var(scope, name) => {
            answers.more(b"Var ");
            answers.more_name(scope);
            say_text(name, answers);
        }
        Fetch::Bool(true) => answers.more(b"Bool true"),
        Fetch::Bool(false) => answers.more(b"Bool false"),
        _ => answers.more_name(fetch),
    }
}

/// Says a fetch, whose direction may be open.
pub fn say_source(source: &Source, answers: &mut Answers) {
    match source {
        Source::Hdr(name, at) => say_field(b"Hdr", name, *at, answers),
        Source::Of(fetch) => say_with_arguments(fetch, answers),
    }
}

/// Says a converter that cuts a text at marks.
fn say_cut(name: &[u8], index: i64, marks: &Text, count: i64, answers: &mut Answers) {
    answers.more(name);
    say_number(index, answers);
    say_text(marks, answers);
    say_number(count, answers);
}

/// Says a converter with a number.
fn say_counted(name: &[u8], number: i64, more: Option<i64>, answers: &mut Answers) {
    answers.more(name);
    say_number(number, answers);
    say_some_number(more, answers);
}

/// Says a pattern, a template, and where each match is replaced.
fn say_regsub(pat: &Pat, template: &Text, which: Matches, answers: &mut Answers) {
    answers.more(b"Regsub");
    say_pattern(pat, answers);
    say_text(template, answers);
    if which == Matches::All {
        answers.more(b" all");
    }
}

fn say_conv(conv: &Conv, answers: &mut Answers) {
    match conv {
        Conv::Bytes(offset, len) => say_counted(b"Bytes", *offset, *len, answers),
        Conv::Field(index, marks, count) => say_cut(b"Field", *index, marks, *count, answers),
        Conv::Word(index, marks, count) => say_cut(b"Word", *index, marks, *count, answers),
        Conv::Iif(yes, otherwise) => {
            say_field(b"Iif", yes, None, answers);
            say_text(otherwise, answers);
        }
        Conv::Add(number) => say_counted(b"Add", *number, None, answers),
        Conv::Sub(number) => say_counted(b"Sub", *number, None, answers),
        Conv::Mul(number) => say_counted(b"Mul", *number, None, answers),
        Conv::Div(number) => say_counted(b"Div", *number, None, answers),
        Conv::Mod(number) => say_counted(b"Mod", *number, None, answers),
        Conv::Regsub(pat, template, which) => say_regsub(pat, template, *which, answers),
        Conv::Lower => answers.more(b"Lower"),
        Conv::Upper => answers.more(b"Upper"),
        Conv::Length => answers.more(b"Length"),
        Conv::Neg => answers.more(b"Neg"),
        Conv::Not => answers.more(b"Not"),
        Conv::Bool => answers.more(b"Bool"),
        Conv::Base64 => answers.more(b"Base64"),
        Conv::Hex => answers.more(b"Hex"),
        Conv::UrlDec => answers.more(b"UrlDec"),
    }
}

/// Says converters, each with a mark in front.
pub fn say_convs(mark: &[u8], convs: &ConvList, answers: &mut Answers) {
    for at in 0..convs.len() {
        answers.more(mark);
        say_conv(convs.get(at), answers);
    }
}

/// Says a fetch and its converters.
pub fn say_expr(expr: &Expr, answers: &mut Answers) {
    say_with_arguments(&expr.fetch, answers);
    say_convs(b"; ", &expr.convs, answers);
}

/// Says one end of a range, if there is one.
fn say_end(end: Option<i64>, answers: &mut Answers) {
    if let Some(end) = end {
        answers.more_name(&end);
    }
}

/// Says a value of a test.
pub fn say_value(value: &TestValue, answers: &mut Answers) {
    match value {
        TestValue::Range { low, high } => {
            answers.more(b" ");
            say_end(*low, answers);
            answers.more(b":");
            say_end(*high, answers);
        }
        TestValue::Literal(text) => say_text(text, answers),
        TestValue::Pattern(pat) => {
            answers.more(b" pattern");
            say_pattern(pat, answers);
        }
    }
}
