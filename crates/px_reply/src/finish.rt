//! A head as it is sent: what framed it and spoke of its connection goes, and what frames it on the next hop comes behind
//! the other fields, in one step (RFC 9110 section 7.6.1, RFC 9112 section 6).
ghost use Rattle.std.specs.Prelude.{◌≡◌, ◌≤◌, ◌<◌, ◌+◌, ◌∷◌, [], ◌++◌, ◌↔◌, OnOk, OnErr, IsOk, IsTrue, IsFalse};
ghost use Rattle.http_model.specs.Head.{Head, head_blocks};
ghost use Rattle.http_model.specs.Finish.{finish_request, finish_response, framing_fields, length_field, close_fields};
ghost use Rattle.htx_arena.specs.Blocks.{Fits, load};
ghost use Rattle.header_ops.specs.Headers.{HasEnd, without_framing};
ghost use Rattle.px_reply.specs.Finished.{told_fields, with_headers, fields_load, finished};

use crate::close::{CLOSE_WEIGHT, add_close};
use crate::framing::{Told, add_told, load_of_framing, weight_of};
use header_ops::laws::edits_of_heads;
use header_ops::remove_framing;
use http_model::Framing;
use htx_arena::{Arena, Full};
use px_bytes::write_decimal;

/// What `connection: close` weighs where it is to come, in bytes.
fn weight_of_close(close: bool) -> usize
    ensures { result ≡ fields_load (close_fields close) }
{
    if close { CLOSE_WEIGHT as usize } else { 0 }
}

/// Puts the fields of a framing, and `connection: close` where it is to come, behind the others.
#[tactic(auto, using(crate::proofs::Weights::puts))]
fn put(msg: &mut Arena, told: &Told<'_>, close: bool)
    requires end { HasEnd msg.old.blocks }
    requires room { Fits (with_headers (told_fields told.now ++ close_fields close) msg.old.blocks) msg.old.size }
    ensures blocks { msg.new.blocks ≡ with_headers (told_fields told.now ++ close_fields close) msg.old.blocks }
    ensures end { HasEnd msg.new.blocks }
    ensures size { msg.new.size ≡ msg.old.size }
{
    add_told(msg, told).unwrap();
    if close {
        add_close(msg).unwrap();
    }
}

/// Whether so many bytes have room once the fields that framed the message are gone. These are weighed only where it matters.
fn has_room(msg: &Arena, need: usize) -> bool
    ensures room { IsTrue result → need + load (without_framing msg.now.blocks) ≤ msg.now.size }
    ensures full { IsFalse result → msg.now.size < need + load (without_framing msg.now.blocks) }
{
    let room = msg.room() as usize;
    if need <= room {
        return true;
    }
    need <= room + load_of_framing(msg) as usize
}

/// Puts the fields of a framing in the place of those that framed the message. Nothing goes before it is known that the
/// new list fits.
#[tactic(auto, using(crate::proofs::Weights::puts))]
fn refit(msg: &mut Arena, told: &Told<'_>, close: bool) -> Result<(), Full>
    requires { HasEnd msg.old.blocks }
    ensures ok { OnOk result (msg.new.blocks ≡ finished (told_fields told.now) close msg.old.blocks) }
    ensures fits { IsOk result ↔ Fits (finished (told_fields told.now) close msg.old.blocks) msg.old.size }
    ensures full { OnErr result (msg.new ≡ msg.old) }
    ensures end { HasEnd msg.new.blocks }
    ensures size { msg.new.size ≡ msg.old.size }
{
    let need = weight_of(told) + weight_of_close(close);
    if !has_room(msg, need) {
        return Err(Full);
    }
    remove_framing(msg);
    put(msg, told, close);
    Ok(())
}

/// The same with a length.
fn refit_length(msg: &mut Arena, n: u64, close: bool) -> Result<(), Full>
    requires { HasEnd msg.old.blocks }
    ensures ok { OnOk result (msg.new.blocks ≡ finished (length_field n ∷ []) close msg.old.blocks) }
    ensures fits { IsOk result ↔ Fits (finished (length_field n ∷ []) close msg.old.blocks) msg.old.size }
    ensures full { OnErr result (msg.new ≡ msg.old) }
    ensures end { HasEnd msg.new.blocks }
    ensures size { msg.new.size ≡ msg.old.size }
{
    let mut digits = [0; 20];
    let len = write_decimal(n, &mut digits);
    refit(msg, &Told::Length(&digits[..len]), close)
}

/// The list as it is sent with a framing.
fn finish(msg: &mut Arena, framing: Framing, declared: Option<u64>, close: bool) -> Result<(), Full>
    requires { HasEnd msg.old.blocks }
    ensures ok { OnOk result (msg.new.blocks ≡ finished (framing_fields framing declared) close msg.old.blocks) }
    ensures fits { IsOk result ↔ Fits (finished (framing_fields framing declared) close msg.old.blocks) msg.old.size }
    ensures full { OnErr result (msg.new ≡ msg.old) }
    ensures end { HasEnd msg.new.blocks }
    ensures size { msg.new.size ≡ msg.old.size }
{
    match (framing, declared) {
        (Framing::Length(n), _) | (Framing::Absent, Some(n)) => refit_length(msg, n, close),
        (Framing::Chunked, _) => refit(msg, &Told::Chunked, close),
        (Framing::ToClose, _) | (Framing::Absent, None) => refit(msg, &Told::Nothing, close),
    }
}

/// Makes a request's head the one that its server is sent: the connection carries this request alone. The framing is the
/// one in which the body is sent. After `Full` the array is as before.
pub fn finish_request(msg: &mut Arena, framing: Framing) -> Result<(), Full>
    requires { HasEnd msg.old.blocks }
    ensures ok { (head : Head) → msg.old.blocks ≡ head_blocks head → OnOk result (msg.new.blocks ≡ head_blocks (finish_request head framing)) }
    ensures fits { (head : Head) → msg.old.blocks ≡ head_blocks head → IsOk result ↔ Fits (head_blocks (finish_request head framing)) msg.old.size }
    ensures full { OnErr result (msg.new ≡ msg.old) }
    ensures end { HasEnd msg.new.blocks }
    ensures size { msg.new.size ≡ msg.old.size }
{
    edits_of_heads();
    finish(msg, framing, None, true)
}

/// Makes a response's head the one that its client is sent. The framing is the one in which the body is sent; `declared` is
/// the length that a response without a body tells all the same, to a HEAD request or with status 304 (RFC 9110
/// section 8.6); `close` says that the connection isn't kept. After `Full` the array is as before.
pub fn finish_response(
    msg: &mut Arena,
    framing: Framing,
    declared: Option<u64>,
    close: bool,
) -> Result<(), Full>
    requires { HasEnd msg.old.blocks }
    ensures ok { (head : Head) → msg.old.blocks ≡ head_blocks head → OnOk result (msg.new.blocks ≡ head_blocks (finish_response head framing declared close)) }
    ensures fits { (head : Head) → msg.old.blocks ≡ head_blocks head → IsOk result ↔ Fits (head_blocks (finish_response head framing declared close)) msg.old.size }
    ensures full { OnErr result (msg.new ≡ msg.old) }
    ensures end { HasEnd msg.new.blocks }
    ensures size { msg.new.size ≡ msg.old.size }
{
    edits_of_heads();
    finish(msg, framing, declared, close)
}
