//! Status lines that rules make (RFC 9112 section 4).
ghost use Rattle.std.specs.Prelude.{◌≡◌};
ghost use Rattle.px_sample.specs.Variables.{Variables};
ghost use Rattle.http_rules.specs.declared.action.side.Side.{Side as On};
ghost use Rattle.http_rules.specs.Action.Given.{Env};
ghost use Rattle.http_rules.specs.Action.Lines as spec;
ghost use Rattle.http_rules.specs.Action.Outcome.{IsScratch, IsAt, Came, IsFront};

use crate::action::fields::{are_value_bytes, hold, step_of};
use crate::action::scratch::Scratch;
use crate::action::stepped::Stepped;
use crate::action::word::is_word;
use http_model::Why;
use htx_arena::Arena;
use htx_view::response_parts;
use px_bytes::write_decimal;
use px_expr::Text;
use px_reply::reason_of;
use px_sample::Buf;

/// Whether no body follows the head of this status.
fn is_bodiless(status: &[u8]) -> bool
    ensures { result ≡ spec.is_bodiless_text status.now }
{
    is_word(status, b"204") || is_word(status, b"304")
}

/// Another status and reason in a status line.
pub(crate) fn put_status(msg: &mut Arena, code: u16, reason: &[u8], buf: &mut Buf) -> Stepped
    requires front { IsFront msg.old.blocks }
    requires buf { buf.old.cap ≡ msg.old.size }
    ensures came { (side : On) (env : Env) (vars : Variables) → IsAt side env msg.old.blocks vars
        → Came side env (spec.restated msg.old.size env code reason.now) result msg.new.blocks vars }
    ensures size { msg.new.size ≡ msg.old.size }
    ensures buf { buf.new.cap ≡ buf.old.cap }
{
    let _room = msg.room();
    let Some(line) = response_parts(msg) else {
        return Stepped::Done;
    };
    if is_bodiless(line.b) || !are_value_bytes(reason) {
        return Stepped::Failed(Why::Bytes);
    }
    hold(line.a, buf);
    let mut digits = [0; 20];
    let len = write_decimal(u64::from(code), &mut digits);
    step_of(msg.replace_line(0, buf.bytes(), &digits[..len], reason))
}

/// The reason that is given, or the table's.
fn reason_by(code: u16, reason: &Option<Text>) -> &[u8]
    ensures { result.now ≡ spec.reason_by code reason.now }
{
    match reason {
        Some(reason) => reason.as_slice(),
        None => reason_of(code),
    }
}

/// `set-status`.
pub(crate) fn set_status(
    code: u16,
    reason: &Option<Text>,
    msg: &mut Arena,
    scratch: &mut Scratch,
) -> Stepped
    requires scratch { IsScratch msg.old.size scratch.old }
    requires front { IsFront msg.old.blocks }
    ensures came { (side : On) (env : Env) (vars : Variables) → IsAt side env msg.old.blocks vars
        → Came side env (spec.restated msg.old.size env code (spec.reason_by code reason.now)) result msg.new.blocks vars }
    ensures size { msg.new.size ≡ msg.old.size }
    ensures scratch { IsScratch msg.old.size scratch.new }
{
    put_status(msg, code, reason_by(code, reason), &mut scratch.buf)
}
