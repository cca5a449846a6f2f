//! Edits after which target and Host name one authority still (RFC 9112 section 3.2.2).
ghost use Rattle.std.specs.Prelude.{◌≡◌, ◌<◌, ◌≤◌, length};
ghost use Rattle.htx_arena.specs.Blocks.{block_at};
ghost use Rattle.htx_view.specs.Lines.{request_in};
ghost use Rattle.http_model.specs.Sizes.{most_name};
ghost use Rattle.px_sample.specs.Variables.{Variables};
ghost use Rattle.http_rules.specs.declared.action.side.Side.{Side as On};
ghost use Rattle.http_rules.specs.Action.Given.{Env};
ghost use Rattle.http_rules.specs.Action.Hosts as spec;
ghost use Rattle.http_rules.specs.Action.Outcome.{IsAt, Came, IsFront};

use crate::action::fields::set_made;
use crate::action::line::put_part;
use crate::action::part::TargetPart;
use crate::action::stepped::Stepped;
use http_model::Why;
use htx_arena::{Arena, Kind};
use htx_view::request_parts;
use px_bytes::{eq_fold, trim};
use px_sample::Buf;
use uri_parts::host_agrees;

/// Whether a field is not named Host, or names the authority of a target where the target has one.
fn stands_beside(target: &[u8], name: &[u8], value: &[u8]) -> bool
    ensures { result ≡ spec.stands_beside target.now (name.now, value.now) }
{
    !eq_fold(name, b"host") || host_agrees(target, value)
}

/// Whether the block at an index may stand beside a target.
fn is_beside(msg: &Arena, at: u32, target: &[u8]) -> bool
    requires { at < length msg.now.blocks }
    ensures { result ≡ spec.is_beside target.now (block_at msg.now.blocks at) }
{
    match msg.kind(at) {
        Kind::Header => stands_beside(target, msg.name(at), msg.value(at)),
        _ => true,
    }
}

/// Whether each Host field of a message names the authority of a target.
fn hosts_agree(msg: &Arena, target: &[u8]) -> bool
    ensures { result ≡ spec.blocks_agree target.now msg.now.blocks }
{
    for at in 0..msg.len() {
        if !is_beside(msg, at, target) {
            return false;
        }
    }
    true
}

/// Whether a field may stand behind the start line of a message.
fn stands_behind(msg: &Arena, name: &[u8], value: &[u8]) -> bool
    ensures { result ≡ spec.is_behind (request_in msg.now.blocks) (name.now, value.now) }
{
    match request_parts(msg) {
        Some(line) => stands_beside(line.b, name, value),
        None => true,
    }
}

/// One field in place of all of its name, where it may stand behind the start line.
pub(crate) fn set_beside(msg: &mut Arena, name: &[u8], text: &[u8]) -> Stepped
    requires front { IsFront msg.old.blocks }
    requires named { 1 ≤ length name.now }
    requires short { length name.now ≤ most_name }
    ensures came { (side : On) (env : Env) (vars : Variables) → IsAt side env msg.old.blocks vars
        → Came side env (spec.reset msg.old.size env name.now text.now) result msg.new.blocks vars }
    ensures size { msg.new.size ≡ msg.old.size }
{
    if !stands_behind(msg, name, trim(text)) {
        return Stepped::Failed(Why::Bytes);
    }
    set_made(msg, name, text)
}

/// A text in the place of the target, where each Host field names its authority.
pub(crate) fn put_uri(
    msg: &mut Arena,
    text: &[u8],
    joined: &mut Buf,
    buf: &mut Buf,
    spare: &mut Buf,
) -> Stepped
    requires front { IsFront msg.old.blocks }
    requires joined { joined.old.cap ≡ msg.old.size }
    requires buf { buf.old.cap ≡ msg.old.size }
    requires spare { spare.old.cap ≡ msg.old.size }
    ensures came { (side : On) (env : Env) (vars : Variables) → IsAt side env msg.old.blocks vars
        → Came side env (spec.reuri msg.old.size env text.now) result msg.new.blocks vars }
    ensures size { msg.new.size ≡ msg.old.size }
    ensures joined { joined.new.cap ≡ joined.old.cap }
    ensures buf { buf.new.cap ≡ buf.old.cap }
    ensures spare { spare.new.cap ≡ spare.old.cap }
{
    let Some(_line) = request_parts(msg) else {
        return Stepped::Done;
    };
    if !hosts_agree(msg, text) {
        return Stepped::Failed(Why::Bytes);
    }
    put_part(msg, TargetPart::Uri, text, joined, buf, spare)
}
