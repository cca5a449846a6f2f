//! Patterns: NAME, the pattern, `i` where case is ignored, a text, and where groups 0 to 3 lie in it, each as
//! `from+length`.
use case_rows::{Answers, Fault, Row, decoded};
use px_pattern::{Groups, Pat, PatFault, Patterns, RealPatterns, Searchers, Span};
use std::alloc::Global;

/// Says where a group lies.
fn say_span(span: Option<Span>, answers: &mut Answers) {
    match span {
        Some(span) => {
            answers.count(span.from as u64);
            answers.more(b"+");
            answers.more_count(span.len as u64);
        }
        None => answers.say(b"none"),
    }
}

/// Says where the groups lie.
fn say_groups(groups: &Groups, answers: &mut Answers) {
    for n in 0..4u32 {
        say_span(groups.span(n), answers);
    }
}

/// Whether a new search finds a match.
fn finds_anew(alloc: Global, pat: &Pat, text: &[u8]) -> Result<bool, Fault> {
    let mut searcher = pat.searcher(alloc)?;
    Ok(searcher.is_match(text))
}

/// Whether a search finds a match that is made for the pattern, and then the same search, which was kept.
fn finds_twice(alloc: Global, pat: &Pat, text: &[u8]) -> Result<(bool, bool), Fault> {
    let mut searchers = Searchers::new(alloc);
    let made = searchers.is_match(pat, text)?;
    let kept = searchers.is_match(pat, text)?;
    Ok((made, kept))
}

/// Says what a search finds.
fn say_found(alloc: Global, pat: &Pat, text: &[u8], answers: &mut Answers) -> Result<(), Fault> {
    let anew = finds_anew(alloc, pat, text)?;
    let (made, kept) = finds_twice(alloc, pat, text)?;
    let found = pat.find_groups(alloc, text)?;
    let is_found = found.is_some();
    if anew != is_found || made != is_found || kept != is_found {
        answers.say(b"only some searches find it");
    }
    match found {
        Some(groups) => say_groups(&groups, answers),
        None => answers.say(b"no match"),
    }
    Ok(())
}

/// What a row comes to.
pub fn searched(alloc: Global, row: Row<'_>) -> Result<Vec<u8>, Fault> {
    let pattern = decoded(alloc, row.field(1).as_bytes())?;
    let text = decoded(alloc, row.field(3).as_bytes())?;
    let mut answers = Answers::new(alloc);
    match RealPatterns::new().build(alloc, &pattern, row.field(2) == "i") {
        Ok(pat) => say_found(alloc, &pat, &text, &mut answers)?,
        Err(PatFault::Refused) => answers.say(b"refused"),
        Err(PatFault::OutOfMemory) => return Err(Fault::OutOfMemory),
    }
    answers.into_text()
}
