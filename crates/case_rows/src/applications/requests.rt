//! Requests of applications: NAME, the application, `cut` or `whole`, the text of a request, and the records that ask the same, with what may come behind
//! them. With `cut` each cut of the text into two pieces, and its bytes one by one, have to come to the same. The records of a body are joined.
use crate::applications::application::application_of;
use crate::bodies::is_cut_same;
use crate::{Answers, Fault, Row, decoded};
use fcgi_lane::request::{Refusal, RequestState, Translator};
use fcgi_record::{RecordHead, RecordKind, read_head};
use px_link::Application;
use std::alloc::Global;

/// The most bytes of a body in a record.
const MOST_BODY: u16 = 8192;

/// What was said of a body's records so far.
#[derive(Drop)]
struct Body {
    joined: Vec<u8>,
    is_over: bool,
}

/// The head of the record that bytes begin with, its content, and what is behind it.
fn first_record(bytes: &[u8]) -> Result<(RecordHead, &[u8], &[u8]), Fault> {
    let [
        version,
        kind,
        high,
        low,
        length,
        short,
        pad,
        rest,
        content @ ..,
    ] = bytes
    else {
        return Err(Fault::Malformed);
    };
    let head = [*version, *kind, *high, *low, *length, *short, *pad, *rest];
    let Some(head) = read_head(&head) else {
        return Err(Fault::Malformed);
    };
    let count = head.len as usize;
    if count > content.len() {
        return Err(Fault::Malformed);
    }
    let (content, behind) = content.split_at(count);
    Ok((head, content, behind))
}

/// What a record is for, where it is of the request and has no padding.
fn kind_of(head: RecordHead) -> Option<RecordKind> {
    if head.id != 1 || head.pad != 0 {
        return None;
    }
    RecordKind::of_byte(head.kind)
}

/// Says a record's content in double quotes behind a word.
fn say_content(word: &[u8], content: &[u8], answers: &mut Answers) {
    answers.say(word);
    answers.more(b" \"");
    answers.more(content);
    answers.more(b"\"");
}

/// Says a record; those of a body are joined.
fn say_record(
    head: RecordHead,
    content: &[u8],
    body: &mut Body,
    answers: &mut Answers,
) -> Result<(), Fault> {
    match kind_of(head) {
        Some(RecordKind::BeginRequest) => say_content(b"begin", content, answers),
        Some(RecordKind::Params) if content.is_empty() => answers.say(b"params end"),
        Some(RecordKind::Params) => say_content(b"params", content, answers),
        Some(RecordKind::Stdin) if content.is_empty() => body.is_over = true,
        Some(RecordKind::Stdin) if head.len <= MOST_BODY && !body.is_over => {
            body.joined.extend_from_slice(content)?;
        }
        _ => answers.say(b"another record"),
    }
    Ok(())
}

/// Says each record that was given, and then the body.
fn say_records(alloc: Global, given: &[u8], answers: &mut Answers) -> Result<(), Fault> {
    let mut body = Body {
        joined: Vec::new(alloc),
        is_over: false,
    };
    let mut rest = given;
    for _ in 0..given.len() {
        if rest.is_empty() {
            break;
        }
        let (head, content, behind) = first_record(rest)?;
        say_record(head, content, &mut body, answers)?;
        rest = behind;
    }
    say_body(&body, answers);
    Ok(())
}

/// Says a body, and whether its end was told.
fn say_body(body: &Body, answers: &mut Answers) {
    if !body.joined.is_empty() {
        say_content(b"body", &body.joined, answers);
    }
    if body.is_over {
        answers.say(b"body end");
    }
}

/// Says what may come behind the records.
fn say_state(state: RequestState, answers: &mut Answers) {
    answers.say(match state {
        RequestState::Going => b"going",
        RequestState::Whole => b"whole",
        RequestState::Broken => b"broken",
        RequestState::Refused(Refusal::BadHead) => b"bad head",
        RequestState::Refused(Refusal::LongPair) => b"long pair",
    });
}

/// Hands a piece in, and gives what is then ready.
fn feed_piece(request: &mut Translator, piece: &[u8], given: &mut Vec<u8>) -> Result<(), Fault> {
    request.feed(piece)?;
    given.extend_from_slice(request.ready())?;
    let count = request.ready().len();
    request.drop_front(count);
    Ok(())
}

/// Says what a text in two pieces comes to.
fn say_pieces(
    alloc: Global,
    application: &Application,
    pieces: (&[u8], &[u8]),
    answers: &mut Answers,
) -> Result<(), Fault> {
    let mut request = Translator::new(alloc, application.copy(alloc)?);
    let mut given = Vec::new(alloc);
    feed_piece(&mut request, pieces.0, &mut given)?;
    feed_piece(&mut request, pieces.1, &mut given)?;
    say_records(alloc, &given, answers)?;
    say_state(request.state(), answers);
    Ok(())
}

/// What a text in two pieces comes to.
fn facts_of(
    alloc: Global,
    application: &Application,
    pieces: (&[u8], &[u8]),
) -> Result<Vec<u8>, Fault> {
    let mut answers = Answers::new(alloc);
    let said = say_pieces(alloc, application, pieces, &mut answers);
    answers.told(said)
}

/// Says what a text comes to byte by byte.
fn say_bytes(
    alloc: Global,
    application: &Application,
    text: &[u8],
    answers: &mut Answers,
) -> Result<(), Fault> {
    let mut request = Translator::new(alloc, application.copy(alloc)?);
    let mut given = Vec::new(alloc);
    for byte in text {
        feed_piece(&mut request, &[*byte], &mut given)?;
    }
    say_records(alloc, &given, answers)?;
    say_state(request.state(), answers);
    Ok(())
}

/// Whether a text comes to the same at each cut. Else says what the first other one comes to.
fn is_each_cut_same(
    alloc: Global,
    application: &Application,
    text: &[u8],
    facts: &[u8],
    answers: &mut Answers,
) -> Result<bool, Fault> {
    for first in 0..text.len() + 1 {
        let other = facts_of(alloc, application, text.split_at(first))?;
        if !is_cut_same(first, facts, &other, answers) {
            return Ok(false);
        }
    }
    Ok(true)
}

/// Whether it comes to the same byte by byte. Else says what it comes to.
fn is_same_by_byte(
    alloc: Global,
    application: &Application,
    text: &[u8],
    facts: &[u8],
    answers: &mut Answers,
) -> Result<bool, Fault> {
    let mut bytes = Answers::new(alloc);
    let said = say_bytes(alloc, application, text, &mut bytes);
    let other = bytes.told(said)?;
    Ok(is_cut_same(text.len(), facts, &other, answers))
}

/// What a row comes to.
pub fn asked(alloc: Global, row: Row<'_>, answers: &mut Answers) -> Result<(), Fault> {
    let application = application_of(alloc, row.field(1))?;
    let text = decoded(alloc, row.field(3).as_bytes())?;
    let facts = facts_of(alloc, &application, (b"", &text))?;
    if row.field(2) == "cut"
        && !(is_each_cut_same(alloc, &application, &text, &facts, answers)?
            && is_same_by_byte(alloc, &application, &text, &facts, answers)?)
    {
        return Ok(());
    }
    answers.say(&facts);
    Ok(())
}
