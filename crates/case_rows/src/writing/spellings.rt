//! Messages as text: NAME, the framing, and `no_body` behind it where no body is to be written, the size of the window, steps
//! with an array of 1024 bytes and a writer, and what they say.
use crate::array::step_message;
use crate::{Answers, Call, Fault, Row, Step, Steps, place_of};
use h1_write::Writer;
use http_model::Framing;
use htx_arena::Arena;
use std::alloc::Global;
use wire_buf::Window;

/// The most calls of a step.
const MOST_CALLS: u32 = 10000;

/// A writer, its array and its window, and the text that was taken out of the window.
#[derive(Drop)]
struct Page {
    writer: Writer,
    msg: Arena,
    window: Window,
    text: Vec<u8>,
}

/// The framing that a text says.
fn framing_of(text: &str) -> Result<Framing, Fault> {
    let (call, _) = Call::first(text.as_bytes());
    match call.name() {
        "absent" => Ok(Framing::Absent),
        "length" => Ok(Framing::Length(call.count(0)? as u64)),
        "chunked" => Ok(Framing::Chunked),
        "to_close" => Ok(Framing::ToClose),
        _ => Err(Fault::Malformed),
    }
}

/// A writer of the framing that a text says, and `no_body` behind it where no body is to be written.
fn writer_of(text: &str) -> Result<Writer, Fault> {
    match text.split_once(' ') {
        Some((framing, _)) => Ok(Writer::new(framing_of(framing)?, true)),
        None => Ok(Writer::new(framing_of(text)?, false)),
    }
}

/// Takes all out of the window, behind the text.
fn empty(window: &mut Window, text: &mut Vec<u8>) -> Result<(), Fault> {
    text.extend_from_slice(window.bytes())?;
    let count = window.len();
    window.drop_front(count);
    Ok(())
}

/// Empties the window, and writes until a call gives nothing.
fn write_all(end: bool, page: &mut Page) -> Result<(), Fault> {
    for _turn in 0..MOST_CALLS {
        empty(&mut page.window, &mut page.text)?;
        if page.writer.next(&mut page.msg, end, &mut page.window) == 0 {
            break;
        }
    }
    Ok(())
}

/// Says all text so far, that in the window too.
fn say_text(page: &mut Page, answers: &mut Answers) {
    answers.say(b"\"");
    answers.more(&page.text);
    answers.more(page.window.bytes());
    answers.more(b"\"");
}

/// Takes a step of the writer, or one of the array.
fn step_page(step: &Step<'_>, page: &mut Page, answers: &mut Answers) -> Result<(), Fault> {
    match step.word(0) {
        "next" => {
            let _ = page.writer.next(&mut page.msg, false, &mut page.window);
        }
        "text" => say_text(page, answers),
        "done" => answers.truth(page.writer.done()),
        "write" => return write_all(false, page),
        "end" => return write_all(true, page),
        _ => return step_message(step, &mut page.msg, answers),
    }
    Ok(())
}

/// A page on which nothing is written.
fn page_of(alloc: Global, writer: Writer, window: Window) -> Result<Page, Fault> {
    match Arena::new(alloc, 1024) {
        Ok(msg) => Ok(Page {
            writer,
            msg,
            window,
            text: Vec::new(alloc),
        }),
        Err(_) => Err(Fault::OutOfMemory),
    }
}

/// Takes each of the steps.
fn step_each(steps: &[Step<'_>], page: &mut Page, answers: &mut Answers) -> Result<(), Fault> {
    for step in steps {
        step_page(step, page, answers)?;
    }
    Ok(())
}

/// Takes steps, with semicolons between them.
fn step_all(
    alloc: Global,
    steps: &str,
    page: &mut Page,
    answers: &mut Answers,
) -> Result<(), Fault> {
    let steps = Steps::read(alloc, steps)?;
    step_each(steps.as_slice(), page, answers)
}

/// What a row comes to.
pub fn spelled(alloc: Global, row: Row<'_>, answers: &mut Answers) -> Result<(), Fault> {
    let writer = writer_of(row.field(1))?;
    let size = place_of(row.field(2).as_bytes())?;
    let window = Window::new(alloc, size)?;
    let mut page = page_of(alloc, writer, window)?;
    let said = step_all(alloc, row.field(3), &mut page, answers);
    drop(page);
    said
}
