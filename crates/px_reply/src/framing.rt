//! The fields that tell how a finished message is framed, and what the fields weigh whose place they take.
ghost use Rattle.std.specs.Prelude.{◌≡◌, ◌+◌, ◌<◌, ◌^◌, ◌↔◌, length, OnOk, OnErr, IsOk};
ghost use Rattle.htx_arena.specs.Blocks.{load, Fits, block_at};
ghost use Rattle.header_ops.specs.Headers.{HasEnd, without_framing};
ghost use Rattle.px_reply.specs.Finished.{told_fields, with_headers, fields_load, weight_if_framing};

use header_ops::add_field;
use http_model::is_framing_name;
use htx_arena::{Arena, Full, Kind};

/// What tells a framing.
#[derive(Clone, Copy)]
pub enum Told<'a> {
    /// No field: there is no body, or it ends with the connection.
    Nothing,
    /// A length, in decimal digits.
    Length(&'a [u8]),
    Chunked,
}

/// What the fields of a framing weigh, in bytes.
pub fn weight_of(told: &Told<'_>) -> usize
    ensures load { result ≡ fields_load (told_fields told.now) }
    ensures small { result < 2 ^ 63 + 64 }
{
    match told {
        Told::Nothing => 0,
        Told::Length(digits) => 8 + b"content-length".len() + digits.len(),
        Told::Chunked => 8 + b"transfer-encoding".len() + b"chunked".len(),
    }
}

/// Puts the fields of a framing behind the others.
pub fn add_told(msg: &mut Arena, told: &Told<'_>) -> Result<(), Full>
    requires { HasEnd msg.old.blocks }
    ensures ok { OnOk result (msg.new.blocks ≡ with_headers (told_fields told.now) msg.old.blocks) }
    ensures fits { IsOk result ↔ Fits (with_headers (told_fields told.now) msg.old.blocks) msg.old.size }
    ensures full { OnErr result (msg.new ≡ msg.old) }
    ensures end { HasEnd msg.new.blocks }
    ensures size { msg.new.size ≡ msg.old.size }
{
    let _room = msg.room();
    match told {
        Told::Nothing => Ok(()),
        Told::Length(digits) => add_field(msg, b"content-length", digits),
        Told::Chunked => add_field(msg, b"transfer-encoding", b"chunked"),
    }
}

/// What the block at an index weighs where it goes before a message is finished, else 0.
#[tactic(auto, using(crate::proofs::Weights::weights))]
fn weight_if_framing(msg: &Arena, at: u32) -> u32
    requires { at < length msg.now.blocks }
    ensures { result ≡ weight_if_framing (block_at msg.now.blocks at) }
{
    let _load = msg.load();
    match msg.kind(at) {
        Kind::Header => {
            if is_framing_name(msg.name(at)) {
                8 + msg.payload_len(at)
            } else {
                0
            }
        }
        _ => 0,
    }
}

/// What the fields weigh that go before a message is finished.
#[tactic(auto, using(crate::proofs::Weights::sums))]
pub fn load_of_framing(msg: &Arena) -> u32
    ensures { result + load (without_framing msg.now.blocks) ≡ load msg.now.blocks }
{
    let mut sum = 0;
    let _load = msg.load();
    for at in 0..msg.len() {
        sum += weight_if_framing(msg, at);
    }
    sum
}
