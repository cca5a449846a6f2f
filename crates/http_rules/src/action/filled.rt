//! What comes of a text that is searched for a pattern: the text of a format with the groups put in.
ghost use Rattle.std.specs.Prelude.{◌≡◌, List, ℕ, Result, IfOk, length};
ghost use Rattle.http_model.specs.declared.Why.{Why as Reason};
ghost use Rattle.px_pattern.specs.Groups.{LieIn};
ghost use Rattle.px_conv.specs.Template.{expanded};
ghost use Rattle.http_rules.specs.Action.Given.{Env};
ghost use Rattle.http_rules.specs.Action.Replacing.{by_match};
ghost use Rattle.http_rules.specs.Action.Outcome.{IsScratch, IsPlaceOf};

use crate::action::place::Place;
use crate::action::replacement::Replacement;
use crate::action::scratch::Scratch;
use crate::action::texts::write_text;
use http_model::Why;
use px_conv::{Groups, expand};
use px_sample::{Buf, OutOfMemory};

/// What came of a text.
#[derive(Clone, Copy)]
pub(crate) enum Filled {
    /// The pattern does not match, and nothing is made.
    Unmatched,
    /// A buffer holds what is made.
    Made,
    /// Nothing is made: it is too long.
    Failed(Why),
}

ghost use Rattle.http_rules.specs.Action.Filling.{edited_by, IsHeld};

/// Puts the groups into a template, over what a buffer holds.
pub(crate) fn put_groups(template: &[u8], groups: &Groups, text: &[u8], into: &mut Buf) -> Filled
    requires { LieIn (length text.now) groups.now }
    ensures held { IsHeld into.old.cap (expanded groups.now text.now template.now) result into.new.bytes }
    ensures cap { into.new.cap ≡ into.old.cap }
{
    into.clear();
    if expand(template, groups, text, into) {
        Filled::Made
    } else {
        Filled::Failed(Why::Bytes)
    }
}

/// Makes of a text in which the pattern matches the text of the format with the groups put in, in `scratch.made`.
pub(crate) fn fill(
    by: Replacement<'_>,
    text: &[u8],
    place: Place<'_>,
    scratch: &mut Scratch,
) -> Result<Filled, OutOfMemory>
    requires { IsScratch place.msg.now.size scratch.old }
    ensures filled { IfOk result (λ filled. (env : Env) (make : List ℕ → Result Env Reason) → IsPlaceOf env place.entry
        → by_match place.entry.msg.now.size env by.entry.pat.now by.entry.fmt.now text.now make ≡ edited_by filled scratch.new.made.bytes env make) }
    ensures scratch { IsScratch place.entry.msg.now.size scratch.new }
{
    let Some(groups) = scratch.searchers.find_groups(by.pat, text)? else {
        return Ok(Filled::Unmatched);
    };
    if !write_text(by.fmt, place, scratch)? {
        return Ok(Filled::Failed(Why::Bytes));
    }
    let Scratch {
        text: template,
        made,
        ..
    } = scratch;
    Ok(put_groups(template.bytes(), &groups, text, made))
}
