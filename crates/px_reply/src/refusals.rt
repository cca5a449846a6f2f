//! The refusal of a code.
ghost use Rattle.std.specs.Prelude.{◌≡◌, ◌≤◌, ◌↔◌, [], length, decimal, OnOk, IsOk};
ghost use Rattle.http_model.specs.Head.{Head, head_blocks, front_blocks, message_blocks};
ghost use Rattle.http_model.specs.Refusal.{reason_of, refusal, refusal_body, closing};
ghost use Rattle.http_model.specs.Sizes.{least_size};
ghost use Rattle.htx_arena.specs.Blocks.{load, Fits};
ghost use Rattle.px_reply.specs.Refused.{refusal_head, most_refusal_head};

use crate::body::push;
use crate::reason::reason_of;
use crate::reply::begin_reply;
use header_ops::add_field;
use htx_arena::{Arena, Full};
use px_bytes::write_decimal;

/// The head of a refusal whose body has so many bytes, or some of its blocks.
#[tactic(auto, using(crate::proofs::Replies::heads))]
fn put_head(to: &mut Arena, code: u16, body_len: u64) -> Result<(), Full>
    requires { to.old.blocks ≡ [] }
    ensures ok { OnOk result (to.new.blocks ≡ head_blocks (refusal_head code body_len)) }
    ensures fits { IsOk result ↔ Fits (head_blocks (refusal_head code body_len)) to.old.size }
    ensures size { to.new.size ≡ to.old.size }
{
    begin_reply(code, None, Some(body_len), to)?;
    add_field(to, b"cache-control", b"no-cache")?;
    add_field(to, b"content-type", b"text/html")
}

/// The body of a refusal behind its head.
fn put_body(to: &mut Arena, code: u16, digits: &[u8], reason: &[u8])
    requires light { load to.old.blocks ≤ most_refusal_head }
    requires least { least_size ≤ to.old.size }
    requires digits { digits.now ≡ decimal code }
    requires few { length digits.now ≤ 20 }
    requires reason { reason.now ≡ reason_of code }
    requires short { length reason.now ≤ 21 }
    ensures body { (head : Head) → to.old.blocks ≡ head_blocks head → to.new.blocks ≡ front_blocks head (refusal_body code) }
    ensures size { to.new.size ≡ to.old.size }
{
    push(to, b"<html><body><h1>");
    push(to, digits);
    push(to, b" ");
    push(to, reason);
    push(to, b"</h1></body></html>\n");
}

/// How many bytes the body of a refusal has.
#[tactic(auto, unfolding(http_model::specs::Refusal::refusal_body))]
fn body_len(code: u16, digits: &[u8], reason: &[u8]) -> u64
    requires digits { digits.now ≡ decimal code }
    requires reason { reason.now ≡ reason_of code }
    requires short { length reason.now ≤ 21 }
    ensures { result ≡ length (refusal_body code) }
{
    let marks = b"<html><body><h1>".len() + b" ".len() + b"</h1></body></html>\n".len();
    (marks + digits.len() + reason.len()) as u64
}

/// Writes the refusal of a code, without `connection: close`, into an empty array: a short page that tells the code and its
/// reason to a person. It always fits, with that field too.
pub fn refusal(code: u16, to: &mut Arena)
    requires empty { to.old.blocks ≡ [] }
    requires least { least_size ≤ to.old.size }
    ensures blocks { to.new.blocks ≡ message_blocks (refusal code) }
    ensures closes { Fits (message_blocks (closing (refusal code))) to.new.size }
    ensures size { to.new.size ≡ to.old.size }
{
    let reason = reason_of(code);
    let mut digits = [0; 20];
    let len = write_decimal(u64::from(code), &mut digits);
    let digits = &digits[..len];
    match put_head(to, code, body_len(code, digits, reason)) {
        Ok(()) => put_body(to, code, digits, reason),
        Err(Full) => unreachable!(),
    }
}
