//! Words of lines, and configurations.
use case_rows::{Answers, Fault, Row, decoded, place_of};
use cfg_lex::{LineFault, Words, words_of_line};
use cfg_parse::{CfgFault, RefusedLine, RefusedLines, Verdict, load, verdict_of};
use http_rules::Config;
use px_link::Application;
use px_pattern::{FakePatterns, Patterns, RealPatterns};
use std::alloc::Global;

/// Says each word of a line, in brackets.
fn say_words(words: &Words, answers: &mut Answers) {
    for at in 0..words.len() {
        answers.bracket(words.word(at));
    }
}

/// NAME, a line, and its words in brackets, or the fault.
pub fn words_in(alloc: Global, row: Row<'_>) -> Result<Vec<u8>, Fault> {
    let line = decoded(alloc, row.field(1).as_bytes())?;
    let mut answers = Answers::new(alloc);
    match words_of_line(alloc, &line) {
        Ok(words) => say_words(&words, &mut answers),
        Err(LineFault::Word) => answers.say(b"Word"),
        Err(LineFault::Limit) => answers.say(b"Limit"),
        Err(LineFault::OutOfMemory) => return Err(Fault::OutOfMemory),
    }
    answers.into_text()
}

/// Says how many there are of two sorts, where there are any.
fn say_counts(name: &[u8], first: u64, second: u64, answers: &mut Answers) {
    if first == 0 && second == 0 {
        return;
    }
    answers.say(name);
    answers.more_count(first);
    answers.more(b" ");
    answers.more_count(second);
}

/// Says how an application is asked: its root, its index and its script, where it has one, and the names of its pairs, each in brackets.
fn say_application(application: &Application, answers: &mut Answers) {
    answers.say(b"application ");
    answers.bracket(application.root.as_slice());
    if let Some(index) = &application.index {
        answers.say(b"index ");
        answers.bracket(index.as_slice());
    }
    if let Some(script) = &application.script {
        answers.say(b"script ");
        answers.bracket(script.as_slice());
    }
    if application.params.is_empty() {
        return;
    }
    answers.say(b"params ");
    for name in application.params.as_slice() {
        answers.bracket(name.as_slice());
    }
}

/// Says what an accepted configuration has: `ok`, its two sizes and how many request rules; where there are any, how many
/// rules of responses and behind them; where there are filters, how many of each direction; whether a header of the PROXY
/// protocol is awaited; of what version one is sent to each server, where one is; and how an application is asked, where the server is one.
fn say_config(config: &Config, answers: &mut Answers) {
    answers.say(b"ok ");
    answers.more_count(u64::from(config.limits.bufsize));
    answers.more(b" ");
    answers.more_count(u64::from(config.limits.maxrewrite));
    answers.more(b" ");
    answers.more_count(u64::from(config.request.len()));
    say_counts(
        b"answers ",
        u64::from(config.response.len()),
        u64::from(config.after.len()),
        answers,
    );
    say_counts(
        b"filters ",
        config.req_filters.len() as u64,
        config.res_filters.len() as u64,
        answers,
    );
    if config.accept_proxy {
        answers.say(b"accept-proxy");
    }
    if let Some(version) = config.send_proxy {
        answers.say(b"send-proxy ");
        answers.more_count(u64::from(version));
    }
    if let Some(application) = &config.application {
        say_application(application, answers);
    }
}

/// What the text of a configuration comes to, by a builder of patterns.
fn loaded<P: Patterns>(alloc: Global, text: &[u8], pats: &mut P) -> Result<Vec<u8>, Fault> {
    let mut answers = Answers::new(alloc);
    match load(alloc, text, pats) {
        Ok(config) => say_config(&config, &mut answers),
        Err(CfgFault::Refused { line, kind }) => {
            answers.count(u64::from(line));
            answers.more(b" ");
            answers.more_name(&kind);
        }
        Err(CfgFault::OutOfMemory) => return Err(Fault::OutOfMemory),
    }
    answers.into_text()
}

/// NAME, the text of a configuration, and what it comes to: what the configuration has, or the refused line and its kind.
pub fn configured(alloc: Global, row: Row<'_>) -> Result<Vec<u8>, Fault> {
    let text = decoded(alloc, row.field(1).as_bytes())?;
    loaded(alloc, &text, &mut RealPatterns::new())
}

/// NAME, the number of the build that is refused, counted from 1, or 0 where none is, the text of a configuration, and what it comes to.
pub fn configured_refusing(alloc: Global, row: Row<'_>) -> Result<Vec<u8>, Fault> {
    let refused = place_of(row.field(1).as_bytes())?;
    let text = decoded(alloc, row.field(2).as_bytes())?;
    loaded(alloc, &text, &mut FakePatterns::new(refused))
}

/// Says a refused line: its number, its kind, and its bytes in brackets.
fn say_refused(line: &RefusedLine, answers: &mut Answers) {
    answers.count(u64::from(line.line));
    answers.more(b" ");
    answers.more_name(&line.kind);
    answers.bracket(line.text.as_slice());
}

/// Says the refused lines that are kept, and how many there are.
fn say_all_refused(refused: &RefusedLines, answers: &mut Answers) {
    for at in 0..refused.first.len() {
        say_refused(refused.first.get(at), answers);
    }
    answers.count(u64::from(refused.count));
    answers.more(b" refused");
}

/// Says what the configuration of a text has, or its refused lines.
fn say_verdict(verdict: &Verdict, answers: &mut Answers) {
    match verdict {
        Verdict::Accepted(config) => say_config(config, answers),
        Verdict::Refused(refused) => say_all_refused(refused, answers),
    }
}

/// The verdict on the text of a configuration.
fn verdict_on(alloc: Global, text: &[u8]) -> Result<Verdict, Fault> {
    match verdict_of(alloc, text, &mut RealPatterns::new()) {
        Ok(verdict) => Ok(verdict),
        Err(_) => Err(Fault::OutOfMemory),
    }
}

/// NAME, the text of a configuration, and what it comes to: what the configuration has, or its refused lines.
pub fn judged(alloc: Global, row: Row<'_>) -> Result<Vec<u8>, Fault> {
    let text = decoded(alloc, row.field(1).as_bytes())?;
    let verdict = verdict_on(alloc, &text)?;
    let mut answers = Answers::new(alloc);
    say_verdict(&verdict, &mut answers);
    drop(verdict);
    answers.into_text()
}
