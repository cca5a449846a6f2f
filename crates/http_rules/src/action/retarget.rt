//! `replace-path`, `replace-pathq` and `replace-uri`.
ghost use Rattle.std.specs.Prelude.{◌≡◌, IfOk};
ghost use Rattle.px_sample.specs.Variables.{Variables};
ghost use Rattle.http_rules.specs.declared.action.side.Side.{Side as On};
ghost use Rattle.http_rules.specs.Action.Given.{Env};
ghost use Rattle.http_rules.specs.Action.Lines.{retargeted, with_part};
ghost use Rattle.http_rules.specs.Action.Steps.{replace_part};
ghost use Rattle.http_rules.specs.Action.Outcome.{IsScratch, IsAt, Came, IsFront};

use crate::action::filled::{Filled, fill};
use crate::action::line::put_part;
use crate::action::part::TargetPart;
use crate::action::place::{Place, Setting};
use crate::action::replacement::Replacement;
use crate::action::scratch::Scratch;
use crate::action::stepped::Stepped;
use crate::action::target::part_of;
use htx_arena::Arena;
use htx_view::request_parts;
use px_sample::OutOfMemory;

/// A part of the target becomes what `scratch.made` holds.
fn put_made(part: TargetPart, msg: &mut Arena, scratch: &mut Scratch) -> Stepped
    requires scratch { IsScratch msg.old.size scratch.old }
    requires front { IsFront msg.old.blocks }
    ensures came { (side : On) (env : Env) (vars : Variables) → IsAt side env msg.old.blocks vars
        → Came side env (retargeted msg.old.size env (λ target. with_part part target scratch.old.made.bytes)) result msg.new.blocks vars }
    ensures size { msg.new.size ≡ msg.old.size }
    ensures scratch { IsScratch msg.old.size scratch.new }
{
    let Scratch {
        text,
        made,
        buf,
        spare,
        ..
    } = scratch;
    put_part(msg, part, made.bytes(), text, buf, spare)
}

/// A part of the target in which the pattern matches becomes the text, with the groups put in.
pub(crate) fn replace_part(
    part: TargetPart,
    by: Replacement<'_>,
    setting: Setting<'_>,
    msg: &mut Arena,
    scratch: &mut Scratch,
) -> Result<Stepped, OutOfMemory>
    requires scratch { IsScratch msg.old.size scratch.old }
    requires front { IsFront msg.old.blocks }
    ensures came { IfOk result (λ step. (env : Env) → IsAt setting.entry.side env msg.old.blocks setting.entry.vars.now
        → Came setting.entry.side env (replace_part msg.old.size part by.entry.pat.now by.entry.fmt.now env) step msg.new.blocks setting.entry.vars.now) }
    ensures size { msg.new.size ≡ msg.old.size }
    ensures scratch { IsScratch msg.old.size scratch.new }
{
    let Some(line) = request_parts(msg) else {
        return Ok(Stepped::Done);
    };
    let text = part_of(part, line.b);
    let place = Place { msg, setting };
    match fill(by, text, place, scratch)? {
        Filled::Unmatched => Ok(Stepped::Done),
        Filled::Failed(why) => Ok(Stepped::Failed(why)),
        Filled::Made => Ok(put_made(part, msg, scratch)),
    }
}
