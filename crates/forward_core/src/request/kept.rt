//! What is kept of a request's head as it was received, while rules edit the one that stands in the array.
ghost use Rattle.std.specs.Prelude.{◌≡◌, ◌<◌, length, ◌&&◌};
ghost use Rattle.std.specs.List.{list_any};
ghost use Rattle.http_model.specs.Reading.{Received};
ghost use Rattle.session_model.specs.Meaning.{is_bodiless};
ghost use Rattle.htx_arena.specs.Blocks.{block_at};
ghost use Rattle.htx_view.specs.Lines.{request_in};
ghost use Rattle.forward_core.specs.Request.Kept.{is_head_line, is_11_line, is_expectation, StandsIn, IsKept};

use header_ops::has_named;
use http_model::Framing;
use htx_arena::{Arena, Kind};
use htx_view::request_parts;
use px_bytes::eq_fold;

/// What is kept of a head.
#[derive(Clone, Copy)]
pub struct Kept {
    /// The method is HEAD (RFC 9110 section 9.3.2).
    pub head_asked: bool,
    /// The client is HTTP/1.1: it knows chunks and interim responses.
    pub is_http_11: bool,
    /// The connection may be kept.
    pub keep: bool,
    /// The client waits for a response head before it sends the body (RFC 9110 section 10.1.1).
    pub awaits: bool,
    /// No body follows.
    pub is_bodiless: bool,
}

/// Whether the method is HEAD.
fn asks_head(msg: &Arena) -> bool
    ensures { result ≡ is_head_line (request_in msg.now.blocks) }
{
    match request_parts(msg) {
        Some(line) => line.a == b"HEAD".as_slice(),
        None => false,
    }
}

/// Whether the version is HTTP/1.1.
fn is_http_11(msg: &Arena) -> bool
    ensures { result ≡ is_11_line (request_in msg.now.blocks) }
{
    match request_parts(msg) {
        Some(line) => line.c == b"HTTP/1.1".as_slice(),
        None => false,
    }
}

/// Whether the block at an index is an `expect` field of `100-continue`.
#[tactic(auto, unfolding(crate::specs::Request::Kept::is_expectation))]
fn is_expectation(msg: &Arena, at: u32) -> bool
    requires { at < length msg.now.blocks }
    ensures { result ≡ is_expectation (block_at msg.now.blocks at) }
{
    match msg.kind(at) {
        Kind::Header => {
            eq_fold(msg.name(at), b"expect") && eq_fold(msg.value(at), b"100-continue")
        }
        _ => false,
    }
}

/// Whether some field is.
fn expects_continue(msg: &Arena) -> bool
    ensures { result ≡ list_any is_expectation msg.now.blocks }
{
    for at in 0..msg.len() {
        if is_expectation(msg, at) {
            return true;
        }
    }
    false
}

/// Whether no body follows a head that is framed so.
fn is_bodiless(framing: Framing) -> bool
    ensures { result ≡ is_bodiless framing }
{
    match framing {
        Framing::Absent => true,
        Framing::Length(n) => n == 0,
        Framing::Chunked => false,
        Framing::ToClose => false,
    }
}

/// Whether all three hold. Written out in `kept_of`, each `&&` is a fork, and its clause a goal behind each way through them.
fn all(a: bool, b: bool, c: bool) -> bool
    ensures { result ≡ (a && b && c) }
{
    a && b && c
}

/// What is kept of the head that stands in the array, whose body is framed so, and of whose Connection elements one is `close` or none.
pub fn kept_of(msg: &Arena, framing: Framing, close: bool) -> Kept
    ensures kept { (received : Received) → StandsIn received msg.now.blocks framing close → IsKept received result }
{
    let is_http_11 = is_http_11(msg);
    let is_bodiless = is_bodiless(framing);
    let expects = has_named(msg, b"expect");
    let continues = expects_continue(msg);
    Kept {
        head_asked: asks_head(msg),
        is_http_11,
        keep: all(is_http_11, !close, !expects),
        awaits: all(is_http_11, !is_bodiless, continues),
        is_bodiless,
    }
}
