//! Answers of applications: NAME, the most bytes of a head, `cut` or `whole`, records, and the HTTP stream in double quotes with how it ends, `closed` or
//! `broken`. With `cut` each cut of the records into two pieces, the records byte by byte, and records of one byte have to come to the same.
use crate::applications::records::push_steps;
use crate::bodies::is_cut_same;
use crate::{Answers, Fault, Row, Steps};
use fcgi_lane::answer::{AnswerState, Translator};
use std::alloc::Global;

/// Gives what is ready.
fn give(answer: &mut Translator, http: &mut Vec<u8>) -> Result<(), Fault> {
    http.extend_from_slice(answer.ready())?;
    let count = answer.ready().len();
    answer.drop_front(count);
    Ok(())
}

/// Hands as much of a piece in as there is room for, gives what is then ready, and answers what is left of the piece.
fn feed_front<'a>(
    answer: &mut Translator,
    piece: &'a [u8],
    http: &mut Vec<u8>,
) -> Result<&'a [u8], Fault> {
    let (front, rest) = piece.split_at(piece.len().min(answer.room()));
    answer.feed(front);
    answer.begin();
    give(answer, http)?;
    Ok(rest)
}

/// Hands a piece in, and gives what is then ready, until it is all in or nothing more may come.
fn feed_piece(answer: &mut Translator, piece: &[u8], http: &mut Vec<u8>) -> Result<(), Fault> {
    let mut rest = piece;
    for _ in 0..piece.len() {
        if rest.is_empty() {
            break;
        }
        rest = feed_front(answer, rest, http)?;
    }
    Ok(())
}

/// Hands each byte in as a piece.
fn feed_bytes(answer: &mut Translator, bytes: &[u8], http: &mut Vec<u8>) -> Result<(), Fault> {
    for byte in bytes {
        feed_piece(answer, &[*byte], http)?;
    }
    Ok(())
}

/// Says the stream and how it ends, where no more records come.
fn say_end(answer: &Translator, http: &[u8], answers: &mut Answers) {
    answers.quote(http);
    match answer.state() {
        AnswerState::Over => answers.say(b"closed"),
        AnswerState::Going | AnswerState::Broken => answers.say(b"broken"),
    }
}

/// Says what records in two pieces come to; the second comes byte by byte, where that is asked for.
fn say_pieces(
    alloc: Global,
    limit: u32,
    pieces: (&[u8], &[u8]),
    by_byte: bool,
    answers: &mut Answers,
) -> Result<(), Fault> {
    let mut answer = Translator::new(alloc, limit)?;
    let mut http = Vec::new(alloc);
    feed_piece(&mut answer, pieces.0, &mut http)?;
    if by_byte {
        feed_bytes(&mut answer, pieces.1, &mut http)?;
    } else {
        feed_piece(&mut answer, pieces.1, &mut http)?;
    }
    say_end(&answer, &http, answers);
    Ok(())
}

/// What records in two pieces come to.
fn facts_of(
    alloc: Global,
    limit: u32,
    pieces: (&[u8], &[u8]),
    by_byte: bool,
) -> Result<Vec<u8>, Fault> {
    let mut answers = Answers::new(alloc);
    let said = say_pieces(alloc, limit, pieces, by_byte, &mut answers);
    answers.told(said)
}

/// Whether each cut comes to the same. Else says what the first other one comes to.
fn is_each_cut_same(
    alloc: Global,
    limit: u32,
    bytes: &[u8],
    facts: &[u8],
    answers: &mut Answers,
) -> Result<bool, Fault> {
    for first in 0..bytes.len() + 1 {
        let other = facts_of(alloc, limit, bytes.split_at(first), false)?;
        if !is_cut_same(first, facts, &other, answers) {
            return Ok(false);
        }
    }
    Ok(true)
}

/// Whether records come to the same byte by byte. Else says what they come to.
fn is_same_by_byte(
    alloc: Global,
    limit: u32,
    bytes: &[u8],
    facts: &[u8],
    answers: &mut Answers,
) -> Result<bool, Fault> {
    let other = facts_of(alloc, limit, (b"", bytes), true)?;
    Ok(is_cut_same(bytes.len(), facts, &other, answers))
}

/// Whether records come to the same however they are cut.
fn is_same(
    alloc: Global,
    limit: u32,
    bytes: &[u8],
    facts: &[u8],
    answers: &mut Answers,
) -> Result<bool, Fault> {
    if !is_each_cut_same(alloc, limit, bytes, facts, answers)? {
        return Ok(false);
    }
    is_same_by_byte(alloc, limit, bytes, facts, answers)
}

/// Says what records come to, and that those of one byte come to the same.
fn say_cut(
    alloc: Global,
    limit: u32,
    steps: &Steps<'_>,
    facts: &[u8],
    answers: &mut Answers,
) -> Result<(), Fault> {
    let mut single = Vec::new(alloc);
    push_steps(steps.as_slice(), true, &mut single)?;
    if is_same_by_byte(alloc, limit, &single, facts, answers)? {
        answers.say(facts);
    }
    Ok(())
}

/// What a row comes to.
pub fn answered(alloc: Global, row: Row<'_>, answers: &mut Answers) -> Result<(), Fault> {
    let limit = crate::place_of(row.field(1).as_bytes())?;
    let steps = Steps::read(alloc, row.field(3))?;
    let mut bytes = Vec::new(alloc);
    push_steps(steps.as_slice(), false, &mut bytes)?;
    let facts = facts_of(alloc, limit, (b"", &bytes), false)?;
    if row.field(2) != "cut" {
        answers.say(&facts);
        return Ok(());
    }
    if is_same(alloc, limit, &bytes, &facts, answers)? {
        return say_cut(alloc, limit, &steps, &facts, answers);
    }
    Ok(())
}
