//! The blocks of a message, said one behind another.
ghost use Rattle.std.specs.Prelude.{◌<◌, length};

use crate::Answers;
use htx_arena::{Arena, Kind, Line};

/// Says the three parts of a line.
pub fn say_line(line: &Line<'_>, answers: &mut Answers) {
    answers.say(b"line ");
    answers.more(line.a);
    answers.more(b" ");
    answers.more(line.b);
    answers.more(b" ");
    answers.more(line.c);
}

/// Says a field.
pub fn say_field(name: &[u8], value: &[u8], answers: &mut Answers) {
    answers.say(name);
    answers.more(b": ");
    answers.more(value);
}

/// Says a block.
fn say_block(msg: &Arena, at: u32, answers: &mut Answers)
    requires { at < length msg.now.blocks }
{
    match msg.kind(at) {
        Kind::RequestLine => say_line(&msg.line(at), answers),
        Kind::ResponseLine => say_line(&msg.line(at), answers),
        Kind::Header => say_field(msg.name(at), msg.value(at), answers),
        Kind::Trailer => {
            say_field(msg.name(at), msg.value(at), answers);
            answers.more(b" (trailer)");
        }
        Kind::Data => answers.quote(msg.value(at)),
        Kind::EndHeaders => answers.say(b"end of headers"),
        Kind::EndTrailers => answers.say(b"end of trailers"),
    }
}

/// Says each block.
pub fn say_blocks(msg: &Arena, answers: &mut Answers) {
    for at in 0..msg.len() {
        say_block(msg, at, answers);
    }
}

/// Says the letter of a type.
fn say_letter(kind: Kind, answers: &mut Answers) {
    match kind {
        Kind::RequestLine => answers.say(b"L"),
        Kind::ResponseLine => answers.say(b"L"),
        Kind::Header => answers.say(b"H"),
        Kind::Trailer => answers.say(b"H"),
        Kind::EndHeaders => answers.say(b"E"),
        Kind::EndTrailers => answers.say(b"E"),
        Kind::Data => answers.say(b"D"),
    }
}

/// Says the load, and of each block the letter of its type with its address.
pub fn say_places(msg: &Arena, answers: &mut Answers) {
    answers.count(u64::from(msg.load()));
    for at in 0..msg.len() {
        say_letter(msg.kind(at), answers);
        answers.more_count(u64::from(msg.addr(at)));
    }
}
