//! Bodies, cut at every place: NAME, the framing, the text, which facts the row states, and these facts. Each cut into
//! two pieces must give the same, and so must pieces of one and of two bytes.
ghost use Rattle.std.specs.Prelude.{◌≤◌, length, IfOk};

use crate::array::say_blocks;
use crate::bodies::filters::is_cut_same;
use crate::bodies::heads::LIMITS;
use crate::{Answers, Call, Fault, Row, decoded};
use h1_body::{BodyReader, BodyState, add_trailers};
use http_model::Framing;
use htx_arena::Arena;
use std::alloc::Global;

/// The body of a row, and which facts of it are stated.
#[derive(Clone, Copy)]
struct Body<'a> {
    alloc: Global,
    framing: Framing,
    text: &'a [u8],
    facts: &'a str,
}

/// How a body comes: so many bytes first, then so many at a time, with room for so many bytes of data.
#[derive(Clone, Copy)]
struct Pieces {
    first: usize,
    size: usize,
    room: u32,
}

/// What was read of a body: its data and its trailers.
#[derive(Drop)]
struct Content {
    data: Vec<u8>,
    trailers: Arena,
}

/// How a body was read: how far it is, how many bytes were used, and whether the end of the stream ends it.
#[derive(Clone, Copy)]
struct Course {
    state: BodyState,
    used: usize,
    ended: bool,
}

/// One step: its data goes behind the others, its trailers into the array.
fn step(
    reader: &mut BodyReader,
    window: &[u8],
    room: u32,
    content: &mut Content,
) -> Result<(usize, BodyState), Fault>
    ensures { IfOk result (λ r. r.0 ≤ length window.now) }
{
    let step = reader.feed(window, room);
    let (from, len) = (step.piece.from, step.piece.len);
    if let Some(span) = step.trailers {
        let _added = add_trailers(
            &window[span.from..span.from + span.len],
            &mut content.trailers,
        );
    }
    content.data.extend_from_slice(&window[from..from + len])?;
    Ok((step.used, step.state))
}

/// Reads a text that comes in pieces.
fn read(body: &Body<'_>, pieces: Pieces, content: &mut Content) -> Result<Course, Fault> {
    let text = body.text;
    let mut reader = BodyReader::new(body.framing, LIMITS);
    let mut state = reader.feed(&[], 1).state;
    let mut used = 0;
    let mut end = pieces.first.min(text.len());
    for _turn in 0..10000u32 {
        let (n, told) = step(&mut reader, &text[used..end], pieces.room, content)?;
        used += n;
        state = told;
        if told != BodyState::More || (n == 0 && end == text.len()) {
            break;
        }
        if n == 0 {
            end += pieces.size.min(text.len() - end);
        }
    }
    Ok(Course {
        state,
        used,
        ended: reader.ended(),
    })
}

/// How a state is said.
fn name_of(state: BodyState) -> &'static [u8] {
    match state {
        BodyState::More => b"more",
        BodyState::Whole => b"whole",
        BodyState::Bad => b"bad",
    }
}

/// Says one fact.
fn say_fact(
    fact: &str,
    course: Course,
    content: &Content,
    answers: &mut Answers,
) -> Result<(), Fault> {
    match fact {
        "state" => answers.say(name_of(course.state)),
        "used" => answers.count(course.used as u64),
        "data" => answers.quote(&content.data),
        "trailers" => say_blocks(&content.trailers, answers),
        "ended" => answers.truth(course.ended),
        _ => return Err(Fault::Malformed),
    }
    Ok(())
}

/// Says the facts of a body that comes in pieces.
fn say_facts(
    body: &Body<'_>,
    pieces: Pieces,
    content: &mut Content,
    answers: &mut Answers,
) -> Result<(), Fault> {
    let course = read(body, pieces, content)?;
    for fact in body.facts.split(' ') {
        say_fact(fact, course, content, answers)?;
    }
    Ok(())
}

/// The same with nothing read before.
fn say_new(body: &Body<'_>, pieces: Pieces, answers: &mut Answers) -> Result<(), Fault> {
    let trailers = Arena::new(body.alloc, 1024)?;
    let mut content = Content {
        data: Vec::new(body.alloc),
        trailers,
    };
    let said = say_facts(body, pieces, &mut content, answers);
    drop(content);
    said
}

/// The facts of a body that comes in pieces.
fn facts_of(body: &Body<'_>, pieces: Pieces) -> Result<Vec<u8>, Fault> {
    let mut answers = Answers::new(body.alloc);
    let said = say_new(body, pieces, &mut answers);
    answers.told(said)
}

/// The framing that a text says.
pub fn framing_of(text: &str) -> Result<Framing, Fault> {
    match text {
        "absent" => Ok(Framing::Absent),
        "chunked" => Ok(Framing::Chunked),
        "to_close" => Ok(Framing::ToClose),
        _ => {
            let (call, _) = Call::first(text.as_bytes());
            Ok(Framing::Length(call.count(0)? as u64))
        }
    }
}

/// Whether a cut comes to these facts. Else they are said, and its own behind them.
fn is_same(
    body: &Body<'_>,
    first: usize,
    facts: &[u8],
    answers: &mut Answers,
) -> Result<bool, Fault> {
    let pieces = Pieces {
        first,
        size: body.text.len(),
        room: 1000,
    };
    let other = facts_of(body, pieces)?;
    Ok(is_cut_same(first, facts, &other, answers))
}

/// Says what each cut comes to, or the first cut that gives other facts.
fn each_cut(body: &Body<'_>, facts: &[u8], answers: &mut Answers) -> Result<(), Fault> {
    for first in 0..body.text.len() {
        if !is_same(body, first, facts, answers)? {
            return Ok(());
        }
    }
    answers.say(facts);
    Ok(())
}

/// Says what a body comes to.
fn say_body(body: &Body<'_>, answers: &mut Answers) -> Result<(), Fault> {
    let bytewise = Pieces {
        first: 0,
        size: 1,
        room: 1,
    };
    let facts = facts_of(body, bytewise)?;
    each_cut(body, &facts, answers)
}

/// What a row comes to.
pub fn body_read(alloc: Global, row: Row<'_>, answers: &mut Answers) -> Result<(), Fault> {
    let framing = framing_of(row.field(1))?;
    let text = decoded(alloc, row.field(2).as_bytes())?;
    let body = Body {
        alloc,
        framing,
        text: &text,
        facts: row.field(3),
    };
    say_body(&body, answers)
}
