//! Heads, with a buffer of 1024 bytes of which a received head leaves 256 free.
ghost use Rattle.std.specs.Prelude.{◌≡◌, ◌≤◌, length, vec_len, IfOk, []};

use crate::array::say_blocks;
use crate::{Answers, Fault, Row, decoded};
use h1_head::{HeadRead, read_request, read_response};
use http_model::{Framing, Limits};
use htx_arena::Arena;
use std::alloc::Global;

pub const LIMITS: Limits = Limits {
    bufsize: 1024,
    maxrewrite: 256,
};

/// Says how a body is framed.
fn say_framing(framing: Framing, answers: &mut Answers) {
    match framing {
        Framing::Absent => answers.say(b"absent"),
        Framing::Length(len) => {
            answers.say(b"length ");
            answers.more_count(len);
        }
        Framing::Chunked => answers.say(b"chunked"),
        Framing::ToClose => answers.say(b"to close"),
    }
}

/// Says the declared length, and that Connection asks to close.
fn say_asks(declared: Option<u64>, close: bool, answers: &mut Answers) {
    if let Some(len) = declared {
        answers.say(b"declared ");
        answers.more_count(len);
    }
    if close {
        answers.say(b"close");
    }
}

/// Says what the reader answers: of a head the bytes used, the framing, the declared length, whether Connection asks to close.
fn say_read(read: HeadRead, answers: &mut Answers) {
    match read {
        HeadRead::More { skip } => {
            answers.say(b"more ");
            answers.more_count(skip as u64);
        }
        HeadRead::Head {
            used,
            framing,
            declared,
            close,
        } => {
            answers.say(b"head ");
            answers.more_count(used as u64);
            say_framing(framing, answers);
            say_asks(declared, close, answers);
        }
        HeadRead::Refuse { code, why } => {
            answers.say(b"refuse ");
            answers.more_count(u64::from(code));
            answers.more(b" ");
            answers.more_name(&why);
        }
    }
}

/// The window that a text says.
fn window_of(alloc: Global, text: &str) -> Result<Vec<u8>, Fault>
    ensures { IfOk result (λ window. vec_len window ≤ 1024) }
{
    let window = decoded(alloc, text.as_bytes())?;
    if window.len() > 1024 {
        return Err(Fault::Malformed);
    }
    Ok(window)
}

/// How a head is read that begins a window: as a request's, or as that of the answer to HEAD or to another method.
#[derive(Clone, Copy)]
enum Whose {
    Request,
    Response { head: bool },
}

/// A head that is to be read.
#[derive(Clone, Copy)]
struct Asked {
    whose: Whose,
    /// The stream ends behind the window.
    whole: bool,
    /// The blocks are said too that stand in the array then.
    blocks: bool,
}

/// Reads a head into an array.
fn read(asked: Asked, window: &[u8], msg: &mut Arena) -> HeadRead
    requires window { length window.now ≤ 1024 }
    requires empty { msg.old.blocks ≡ [] }
    requires size { msg.old.size ≡ 1024 }
{
    match asked.whose {
        Whose::Request => read_request(window, asked.whole, LIMITS, msg),
        Whose::Response { head } => read_response(window, asked.whole, head, LIMITS, msg),
    }
}

/// Says a head that is read into an array.
fn say_head(asked: Asked, window: &[u8], msg: &mut Arena, answers: &mut Answers)
    requires window { length window.now ≤ 1024 }
    requires empty { msg.old.blocks ≡ [] }
    requires size { msg.old.size ≡ 1024 }
{
    say_read(read(asked, window, msg), answers);
    if asked.blocks {
        say_blocks(msg, answers);
    }
}

/// Says a head that is read into a new array.
fn say_new(alloc: Global, asked: Asked, window: &[u8], answers: &mut Answers) -> Result<(), Fault>
    requires { length window.now ≤ 1024 }
{
    let mut msg = Arena::new(alloc, 1024)?;
    say_head(asked, window, &mut msg, answers);
    Ok(())
}

/// Says the head that begins the window of a text.
fn say_text(alloc: Global, asked: Asked, text: &str, answers: &mut Answers) -> Result<(), Fault> {
    let window = window_of(alloc, text)?;
    say_new(alloc, asked, &window, answers)
}

/// NAME, `open`, or `closed` where the stream ends behind the window, the window, and the answer; with `blocks` behind
/// it the blocks that stand in the array then.
pub fn head_read(alloc: Global, row: Row<'_>, answers: &mut Answers) -> Result<(), Fault> {
    let asked = Asked {
        whose: Whose::Request,
        whole: row.field(1) == "closed",
        blocks: row.field(3) == "blocks",
    };
    say_text(alloc, asked, row.field(2), answers)
}

/// NAME, `open` or `closed`, `head` where the request's method was HEAD, the window, and the answer.
pub fn response_read(alloc: Global, row: Row<'_>, answers: &mut Answers) -> Result<(), Fault> {
    let head = row.field(2) == "head";
    let asked = Asked {
        whose: Whose::Response { head },
        whole: row.field(1) == "closed",
        blocks: false,
    };
    say_text(alloc, asked, row.field(3), answers)
}
