//! One direction of a connection.

mod calls;
mod carry;
mod dropping;
mod heads;
mod read;
mod straight;
mod telling;
mod views;

use crate::direction::input::Input;
use crate::direction::stage::Stage;
use crate::sieve::Sieve;
use h1_body::BodyReader;
use h1_write::Writer;
use http_model::{Ending, Framing, Limits, Source};
use htx_arena::Arena;
use std::marker::Model;
use wire_buf::Window;

/// What both directions of a connection own: from the bytes that come to the text that goes out, a message after the other.
/// Contracts see a `LaneState`.
pub struct Lane {
    limits: Limits,
    /// What came and was not used yet.
    input: Input,
    /// How the stream ended, where it has.
    ended: Option<Ending>,
    /// So many bytes of the window were looked at, and hold no head.
    scanned: usize,
    /// The message on which rules run, and what comes of its body.
    msg: Arena,
    /// What goes out: the writer takes from here.
    out: Arena,
    framing: Framing,
    declared: Option<u64>,
    close: bool,
    reader: BodyReader,
    /// The filters of the bodies, where there are some.
    sieve: Option<Sieve>,
    writer: Writer,
    /// Text that was not taken yet.
    output: Window,
    stage: Stage,
    source: Source,
    /// Text is dropped.
    dropped: bool,
}

impl Drop for Lane {
    fn drop(self) {
        let Lane {
            limits: _,
            input: _,
            ended: _,
            scanned: _,
            msg: _,
            out: _,
            framing: _,
            declared: _,
            close: _,
            reader: _,
            sieve: _,
            writer: _,
            output: _,
            stage: _,
            source: _,
            dropped: _,
        } = self;
    }
}

impl Model for Lane {
    ghost use Rattle.lane.specs.Direction.State.{LaneState};

    ghost Value = { LaneState };

    ghost view = { λ l. record { limits = l.limits; input = l.input; ended = l.ended; scanned = l.scanned; msg = l.msg; out = l.out; framing = l.framing; declared = l.declared; close = l.close; reader = l.reader; sieve = l.sieve; writer = l.writer; output = l.output; stage = l.stage; source = l.source; dropped = l.dropped } };
}
