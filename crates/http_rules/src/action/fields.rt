//! Edits of fields by texts that are made already.
ghost use Rattle.std.specs.Prelude.{◌≡◌, ◌<◌, ◌≤◌, length};
ghost use Rattle.http_model.specs.Fields.{add_field, set_field};
ghost use Rattle.http_model.specs.Sizes.{most_name};
ghost use Rattle.px_sample.specs.Variables.{Variables};
ghost use Rattle.htx_arena.specs.declared.arena.Full.{Full};
ghost use Rattle.http_rules.specs.declared.action.side.Side.{Side as On};
ghost use Rattle.http_rules.specs.Action.Given.{Env};
ghost use Rattle.http_rules.specs.Action.Edits.{are_value_bytes, by_value};
ghost use Rattle.http_rules.specs.Action.Outcome.{IsAt, Came, step_by, IsFront};

use crate::action::stepped::Stepped;
use header_ops::{add_field, set_field};
use http_model::Why;
use htx_arena::{Arena, Full};
use px_bytes::trim;
use px_sample::Buf;

/// Copies bytes over what a buffer holds.
pub(crate) fn hold(bytes: &[u8], into: &mut Buf)
    requires { length bytes.now ≤ into.old.cap }
    ensures bytes { into.new.bytes ≡ bytes.now }
    ensures cap { into.new.cap ≡ into.old.cap }
{
    into.clear();
    let _fits = into.push(bytes);
}

/// Whether each byte may stand in a field value.
pub(crate) fn are_value_bytes(text: &[u8]) -> bool
    ensures { result ≡ are_value_bytes text.now }
{
    text.iter().all(|b| (*b >= 32 || *b == b'\t') && *b != 127)
}

/// The step that an edit was.
pub(crate) fn step_of(edited: Result<(), Full>) -> Stepped
    ensures { result ≡ step_by edited }
{
    match edited {
        Ok(()) => Stepped::Done,
        Err(Full) => Stepped::Failed(Why::Room),
    }
}

/// One more field behind the others.
pub(crate) fn add_made(msg: &mut Arena, name: &[u8], text: &[u8]) -> Stepped
    requires front { IsFront msg.old.blocks }
    requires named { 1 ≤ length name.now }
    requires short { length name.now ≤ most_name }
    ensures came { (side : On) (env : Env) (vars : Variables) → IsAt side env msg.old.blocks vars
        → Came side env (by_value msg.old.size env text.now (λ value. add_field name.now value env.head)) result msg.new.blocks vars }
    ensures size { msg.new.size ≡ msg.old.size }
{
    if !are_value_bytes(text) {
        return Stepped::Failed(Why::Bytes);
    }
    step_of(add_field(msg, name, trim(text)))
}

/// One field in place of all of its name.
pub(crate) fn set_made(msg: &mut Arena, name: &[u8], text: &[u8]) -> Stepped
    requires front { IsFront msg.old.blocks }
    requires named { 1 ≤ length name.now }
    requires short { length name.now ≤ most_name }
    ensures came { (side : On) (env : Env) (vars : Variables) → IsAt side env msg.old.blocks vars
        → Came side env (by_value msg.old.size env text.now (λ value. set_field name.now value env.head)) result msg.new.blocks vars }
    ensures size { msg.new.size ≡ msg.old.size }
{
    if !are_value_bytes(text) {
        return Stepped::Failed(Why::Bytes);
    }
    step_of(set_field(msg, name, trim(text)))
}
