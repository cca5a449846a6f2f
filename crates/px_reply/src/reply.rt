//! Replies of the rules, in an array of their own.
ghost use Rattle.std.specs.Prelude.{◌≡◌, [], ◌↔◌, OnOk, OnErr, IsOk, option_copied, None, Some};
ghost use Rattle.http_model.specs.Head.{head_blocks, message_blocks};
ghost use Rattle.http_model.specs.Reply.{told_length, told_type, reply_head, redirect_reply};
ghost use Rattle.http_model.specs.Refusal.{closing};
ghost use Rattle.htx_arena.specs.Blocks.{Fits};
ghost use Rattle.header_ops.specs.Headers.{HasEnd};
ghost use Rattle.px_reply.specs.Finished.{with_headers};

use crate::close::has_room_to_close;
use crate::reason::reason_of;
use header_ops::add_field;
use htx_arena::{Arena, Full, Kind};
use px_bytes::write_decimal;

/// Writes a status line, and the end of its headers.
fn put_status(to: &mut Arena, code: u16) -> Result<(), Full>
    requires { to.old.blocks ≡ [] }
    ensures ok { OnOk result (to.new.blocks ≡ head_blocks (reply_head code None None)) }
    ensures fits { IsOk result ↔ Fits (head_blocks (reply_head code None None)) to.old.size }
    ensures size { to.new.size ≡ to.old.size }
{
    let mut digits = [0; 20];
    let len = write_decimal(u64::from(code), &mut digits);
    to.insert_line(
        0,
        Kind::ResponseLine,
        b"HTTP/1.1",
        &digits[..len],
        reason_of(code),
    )?;
    to.insert_end(1, Kind::EndHeaders)
}

/// Puts the length behind the other fields, where it is told.
fn add_length(to: &mut Arena, length: Option<u64>) -> Result<(), Full>
    requires { HasEnd to.old.blocks }
    ensures ok { OnOk result (to.new.blocks ≡ with_headers (told_length length) to.old.blocks) }
    ensures fits { IsOk result ↔ Fits (with_headers (told_length length) to.old.blocks) to.old.size }
    ensures end { HasEnd to.new.blocks }
    ensures size { to.new.size ≡ to.old.size }
{
    let _room = to.room();
    let Some(n) = length else {
        return Ok(());
    };
    let mut digits = [0; 20];
    let len = write_decimal(n, &mut digits);
    add_field(to, b"content-length", &digits[..len])
}

/// Puts the type behind the other fields, where there is one.
fn add_type(to: &mut Arena, content_type: Option<&[u8]>) -> Result<(), Full>
    requires { HasEnd to.old.blocks }
    ensures ok { OnOk result (to.new.blocks ≡ with_headers (told_type (option_copied content_type.entry)) to.old.blocks) }
    ensures fits { IsOk result ↔ Fits (with_headers (told_type (option_copied content_type.entry)) to.old.blocks) to.old.size }
    ensures end { HasEnd to.new.blocks }
    ensures size { to.new.size ≡ to.old.size }
{
    let _room = to.room();
    match content_type {
        None => Ok(()),
        Some(text) => add_field(to, b"content-type", text),
    }
}

/// The head of a reply, or some of its blocks.
#[tactic(auto, using(crate::proofs::Replies::heads))]
fn put_head(
    to: &mut Arena,
    code: u16,
    content_type: Option<&[u8]>,
    length: Option<u64>,
) -> Result<(), Full>
    requires { to.old.blocks ≡ [] }
    ensures ok { OnOk result (to.new.blocks ≡ head_blocks (reply_head code (option_copied content_type.entry) length)) }
    ensures fits { IsOk result ↔ Fits (head_blocks (reply_head code (option_copied content_type.entry) length)) to.old.size }
    ensures size { to.new.size ≡ to.old.size }
{
    put_status(to, code)?;
    add_length(to, length)?;
    add_type(to, content_type)
}

/// Leaves nothing of a reply that didn't fit.
fn whole(to: &mut Arena, written: Result<(), Full>) -> Result<(), Full>
    ensures same { result ≡ written }
    ensures ok { OnOk written (to.new ≡ to.old) }
    ensures full { OnErr written (to.new.blocks ≡ []) }
    ensures size { to.new.size ≡ to.old.size }
{
    if written.is_err() {
        to.clear();
    }
    written
}

/// Begins a reply in an empty array: the status line with the reason of the code, `content-length` and `content-type` where
/// they are given, the end of the headers. The array is empty after `Full`.
pub fn begin_reply(
    code: u16,
    content_type: Option<&[u8]>,
    length: Option<u64>,
    to: &mut Arena,
) -> Result<(), Full>
    requires { to.old.blocks ≡ [] }
    ensures ok { OnOk result (to.new.blocks ≡ head_blocks (reply_head code (option_copied content_type.entry) length)) }
    ensures fits { IsOk result ↔ Fits (head_blocks (reply_head code (option_copied content_type.entry) length)) to.old.size }
    ensures full { OnErr result (to.new.blocks ≡ []) }
    ensures size { to.new.size ≡ to.old.size }
{
    let written = put_head(to, code, content_type, length);
    whole(to, written)
}

/// The redirect, where `connection: close` fits behind it, or some of its blocks.
#[tactic(auto, using(crate::proofs::Replies::redirects))]
fn put_redirect(to: &mut Arena, code: u16, location: &[u8]) -> Result<(), Full>
    requires { to.old.blocks ≡ [] }
    ensures ok { OnOk result (to.new.blocks ≡ message_blocks (redirect_reply code location.now)) }
    ensures fits { IsOk result ↔ Fits (message_blocks (closing (redirect_reply code location.now))) to.old.size }
    ensures size { to.new.size ≡ to.old.size }
{
    put_head(to, code, None, Some(0))?;
    add_field(to, b"location", location)?;
    if has_room_to_close(to) {
        Ok(())
    } else {
        Err(Full)
    }
}

/// Writes the redirect to a location into an empty array. `Full` comes where the redirect with `connection: close` behind it
/// doesn't fit; the array is empty then.
pub fn redirect(code: u16, location: &[u8], to: &mut Arena) -> Result<(), Full>
    requires { to.old.blocks ≡ [] }
    ensures ok { OnOk result (to.new.blocks ≡ message_blocks (redirect_reply code location.now)) }
    ensures fits { IsOk result ↔ Fits (message_blocks (closing (redirect_reply code location.now))) to.old.size }
    ensures full { OnErr result (to.new.blocks ≡ []) }
    ensures size { to.new.size ≡ to.old.size }
{
    let written = put_redirect(to, code, location);
    whole(to, written)
}
