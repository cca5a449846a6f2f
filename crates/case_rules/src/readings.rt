//! What texts of expressions and formats and the words of `acl` lines read as, or why they are refused.
use crate::lines::{lines_in, refused, words_in};
use crate::sayings::{say_convs, say_expr, say_source, say_value};
use case_rows::{Answers, Fault, Row, decoded};
use cfg_expr::condition::{AclList, TextFault, WordsLeft, WrittenTest, read_acl};
use cfg_expr::{Side, read_expr, read_format};
use log_format::{Part, PartList};
use px_pattern::RealPatterns;
use std::alloc::Global;

/// The side whose name a row gives.
fn side_of(name: &str) -> Side {
    match name {
        "res" => Side::Response,
        _ => Side::Request,
    }
}

/// The name of a refusal, as a whole answer.
fn only_refused(alloc: Global, fault: TextFault) -> Result<Vec<u8>, Fault> {
    Ok(Vec::from_slice(alloc, refused(fault)?)?)
}

/// NAME, `req` or `res`, the text of an expression, and its fetch and converters, or the refusal.
pub fn expression(alloc: Global, row: Row<'_>) -> Result<Vec<u8>, Fault> {
    let text = decoded(alloc, row.field(2).as_bytes())?;
    let mut pats = RealPatterns::new();
    match read_expr(alloc, side_of(row.field(1)), &text, &mut pats) {
        Ok(expr) => {
            let mut answers = Answers::new(alloc);
            say_expr(&expr, &mut answers);
            answers.into_text()
        }
        Err(fault) => only_refused(alloc, fault),
    }
}

/// Says a part of a format: a text in double quotes, or an expression in brackets.
fn say_part(part: &Part, answers: &mut Answers) {
    match part {
        Part::Literal(text) => {
            answers.more(b"\"");
            answers.more(text.as_slice());
            answers.more(b"\"");
        }
        Part::Sample(expr) => {
            answers.more(b"[");
            say_expr(expr, answers);
            answers.more(b"]");
        }
    }
}

/// Says the parts of a format, with blanks between them.
fn say_parts(parts: &PartList, answers: &mut Answers) {
    for at in 0..parts.len() {
        if at > 0 {
            answers.more(b" ");
        }
        say_part(parts.get(at), answers);
    }
}

/// NAME, `req` or `res`, the text of a format, and its parts, or the refusal.
pub fn format(alloc: Global, row: Row<'_>) -> Result<Vec<u8>, Fault> {
    let text = decoded(alloc, row.field(2).as_bytes())?;
    let mut pats = RealPatterns::new();
    match read_format(alloc, side_of(row.field(1)), &text, &mut pats) {
        Ok(fmt) => {
            let mut answers = Answers::new(alloc);
            say_parts(&fmt.parts, &mut answers);
            answers.into_text()
        }
        Err(fault) => only_refused(alloc, fault),
    }
}

/// Says a test: its fetch and converters, its match, and its values.
fn say_test(test: &WrittenTest, answers: &mut Answers) {
    answers.more(b"ok: ");
    say_source(&test.written.source, answers);
    say_convs(b" ", &test.written.convs, answers);
    answers.say(b"");
    answers.more_name(&test.how);
    if test.icase {
        answers.say(b"icase");
    }
    answers.more(b";");
    for at in 0..test.values.len() {
        say_value(test.values.get(at), answers);
    }
}

/// What the last line reads as.
fn last_line(alloc: Global, lines: &AclList) -> Result<Vec<u8>, Fault> {
    let count = lines.len();
    if count == 0 {
        return Err(Fault::Malformed);
    }
    let mut answers = Answers::new(alloc);
    say_test(&lines.get(count - 1).test, &mut answers);
    answers.into_text()
}

/// NAME, the `acl` lines above, the words behind `acl`, and the test that they say, or the refusal.
pub fn acl_line(alloc: Global, row: Row<'_>) -> Result<Vec<u8>, Fault> {
    let above = decoded(alloc, row.field(1).as_bytes())?;
    let text = decoded(alloc, row.field(2).as_bytes())?;
    let mut pats = RealPatterns::new();
    let mut lines = lines_in(alloc, &above, &mut pats)?;
    let words = words_in(alloc, &text)?;
    match read_acl(alloc, WordsLeft::from(&words, 0), &mut lines, &mut pats) {
        Ok(()) => last_line(alloc, &lines),
        Err(fault) => only_refused(alloc, fault),
    }
}
