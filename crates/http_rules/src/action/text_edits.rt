//! Actions that make their edit by the text of a format: of fields, and of a request line.
ghost use Rattle.std.specs.Prelude.{◌≡◌, false, option_copied, IsOk, IfOk};
ghost use Rattle.px_sample.specs.Variables.{Variables};
ghost use Rattle.log_format.specs.Format as formats;
ghost use Rattle.http_rules.specs.Rule.Valid.{IsGoodAction};
ghost use Rattle.http_rules.specs.declared.action.side.Side.{Side as On};
ghost use Rattle.http_rules.specs.Action.Given.{Env};
ghost use Rattle.http_rules.specs.Action.TextEdits.{format_of, text_edit, text_step};
ghost use Rattle.http_rules.specs.Action.Outcome.{IsScratch, IsAt, Came, IsFront};

use crate::action::fields::add_made;
use crate::action::hosts::{put_uri, set_beside};
use crate::action::line::{put_method, put_part, put_query};
use crate::action::part::TargetPart;
use crate::action::place::{Place, Setting};
use crate::action::scratch::Scratch;
use crate::action::stepped::Stepped;
use crate::action::texts::write_text;
use crate::rule::Action;
use http_model::Why;
use htx_arena::Arena;
use log_format::Fmt;
use px_sample::OutOfMemory;

/// The format by whose text an action makes its edit; none of any other action.
pub(crate) fn format_of(action: &Action) -> Option<&Fmt>
    ensures { option_copied result ≡ format_of action.now }
{
    match action {
        Action::AddHeader(_, fmt)
        | Action::SetHeader(_, fmt)
        | Action::SetMethod(fmt)
        | Action::SetPath(fmt)
        | Action::SetPathq(fmt)
        | Action::SetUri(fmt)
        | Action::SetQuery(fmt) => Some(fmt),
        _ => None,
    }
}

/// Makes the edit of an action by the text that `scratch.text` holds; an action without a format does nothing here.
#[tactic(auto, unfolding(crate::specs::Action::TextEdits::text_edit))]
fn edit_by_text(action: &Action, msg: &mut Arena, scratch: &mut Scratch) -> Stepped
    requires scratch { IsScratch msg.old.size scratch.old }
    requires front { IsFront msg.old.blocks }
    requires valid { IsGoodAction action.now }
    ensures came { (side : On) (env : Env) (vars : Variables) → IsAt side env msg.old.blocks vars
        → Came side env (text_edit msg.old.size action.now scratch.old.text.bytes env) result msg.new.blocks vars }
    ensures size { msg.new.size ≡ msg.old.size }
    ensures scratch { IsScratch msg.old.size scratch.new }
{
    let Scratch {
        text,
        made,
        buf,
        spare,
        ..
    } = scratch;
    let text = text.bytes();
    match action {
        Action::AddHeader(name, _) => add_made(msg, name.as_slice(), text),
        Action::SetHeader(name, _) => set_beside(msg, name.as_slice(), text),
        Action::SetMethod(_) => put_method(msg, text, buf, spare),
        Action::SetPath(_) => put_part(msg, TargetPart::Path, text, made, buf, spare),
        Action::SetPathq(_) => put_part(msg, TargetPart::Pathq, text, made, buf, spare),
        Action::SetUri(_) => put_uri(msg, text, made, buf, spare),
        Action::SetQuery(_) => put_query(msg, text, made, buf, spare),
        _ => Stepped::Done,
    }
}

/// Makes the text of an action's format, and the edit of the action by it.
pub(crate) fn run_text(
    action: &Action,
    fmt: &Fmt,
    setting: Setting<'_>,
    msg: &mut Arena,
    scratch: &mut Scratch,
) -> Result<Stepped, OutOfMemory>
    requires scratch { IsScratch msg.old.size scratch.old }
    requires front { IsFront msg.old.blocks }
    requires valid { IsGoodAction action.now }
    ensures came { IfOk result (λ step. (env : Env) → IsAt setting.entry.side env msg.old.blocks setting.entry.vars.now
        → Came setting.entry.side env (text_step msg.old.size action.now fmt.now env) step msg.new.blocks setting.entry.vars.now) }
    ensures succeeds { formats.holds_pattern fmt.now ≡ false → IsOk result }
    ensures size { msg.new.size ≡ msg.old.size }
    ensures scratch { IsScratch msg.old.size scratch.new }
{
    // Nothing goes before the text is made.
    let place = Place { msg, setting };
    if !write_text(fmt, place, scratch)? {
        return Ok(Stepped::Failed(Why::Bytes));
    }
    Ok(edit_by_text(action, msg, scratch))
}
