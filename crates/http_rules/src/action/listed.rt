//! What comes of the values of a field that holds a list (RFC 9110 section 5.6.1), each searched for a pattern.
ghost use Rattle.std.specs.Prelude.{◌≡◌, List, ℕ, IfOk};
ghost use Rattle.std.specs.List.{list_any};
ghost use Rattle.http_model.specs.Head.{Head};
ghost use Rattle.px_bytes.specs.Values.{values_of};
ghost use Rattle.px_pattern.specs.Pattern.{Pattern};
ghost use Rattle.http_rules.specs.Action.Given.{Env};
ghost use Rattle.http_rules.specs.Action.Edits.{by_value};
ghost use Rattle.http_rules.specs.Action.Replacing.{matches, by_matches};
ghost use Rattle.http_rules.specs.Action.Joining.{Joins};
ghost use Rattle.http_rules.specs.Action.Filling.{Counts, IsTextFor, IsPut, AreJoined, by_listed, filled_as, valued_by};
ghost use Rattle.http_rules.specs.Action.Outcome.{IsScratch, IsPlaceOf};

use crate::action::filled::{Filled, put_groups};
use crate::action::joining::{Joined, put_piece};
use crate::action::place::Place;
use crate::action::replacement::{Replacement, Template};
use crate::action::scratch::Scratch;
use crate::action::texts::write_text;
use http_model::Why;
use px_bytes::{value_indices, values};
use px_conv::Pat;
use px_expr::Searchers;
use px_sample::{Buf, OutOfMemory};

/// Whether the pattern matches in one of the values.
fn matches_one(searchers: &mut Searchers, pat: &Pat, field: &[u8]) -> Result<bool, OutOfMemory>
    ensures { IfOk result (λ one. one ≡ list_any (matches pat.now) (values_of field.now)) }
{
    for value in values(field) {
        if searchers.is_match(pat, value)? {
            return Ok(true);
        }
    }
    Ok(false)
}

/// Makes the text that takes the place of a value, over what a buffer holds; none where the pattern does not match.
fn fill_value(
    searchers: &mut Searchers,
    by: Template<'_>,
    value: &[u8],
    into: &mut Buf,
) -> Result<Filled, OutOfMemory>
    ensures held { IfOk result (λ filled. IsTextFor into.old.cap by.entry.pat.now by.entry.text.now value.now filled into.new.bytes) }
    ensures cap { into.new.cap ≡ into.old.cap }
{
    match searchers.find_groups(by.pat, value)? {
        Some(groups) => Ok(put_groups(by.text, &groups, value, into)),
        None => Ok(Filled::Unmatched),
    }
}

/// Puts what stands in front of a value, and the value or the text in its place, behind the pieces so far; none where that text
/// is too long.
fn put_filled(
    filled: Filled,
    front: &[u8],
    value: &[u8],
    text: &[u8],
    so_far: Joined,
    into: &mut Buf,
) -> Option<Joined>
    ensures put { (pat : Pattern) (template pieces : List ℕ) → IsTextFor into.old.cap pat template value.now filled text.now → Joins into.old.cap pieces so_far into.old.bytes
        → IsPut into.old.cap pat template pieces front.now value.now result into.new.bytes }
    ensures cap { into.new.cap ≡ into.old.cap }
{
    let so_far = put_piece(so_far, front, into);
    match filled {
        Filled::Unmatched => Some(put_piece(so_far, value, into)),
        Filled::Made => Some(put_piece(so_far, text, into)),
        Filled::Failed(_) => None,
    }
}

/// Puts the field, with each value in which the pattern matches replaced, over what a buffer holds; none where a text is too long,
/// each of which is made in `text`.
fn put_values(
    searchers: &mut Searchers,
    by: Template<'_>,
    field: &[u8],
    text: &mut Buf,
    into: &mut Buf,
) -> Result<Option<Joined>, OutOfMemory>
    requires { text.old.cap ≡ into.old.cap }
    ensures joined { IfOk result (λ joined. AreJoined into.old.cap by.entry.pat.now by.entry.text.now field.now joined into.new.bytes) }
    ensures text { text.new.cap ≡ text.old.cap }
    ensures cap { into.new.cap ≡ into.old.cap }
{
    into.clear();
    let mut so_far = Joined::Held;
    let mut from = 0;
    for (at, value) in value_indices(field) {
        let filled = fill_value(searchers, by, value, text)?;
        match put_filled(filled, &field[from..at], value, text.bytes(), so_far, into) {
            Some(joined) => so_far = joined,
            None => return Ok(None),
        }
        from = at + value.len();
    }
    Ok(Some(put_piece(so_far, &field[from..], into)))
}

/// What the new value of a field comes to: a text that is too long, or a byte that may not stand there, before it is too long itself.
fn filled_by(joined: Option<Joined>) -> Filled
    ensures { result ≡ filled_as joined }
{
    match joined {
        Some(Joined::Held) => Filled::Made,
        Some(Joined::Over) => Filled::Failed(Why::Room),
        Some(Joined::Bad) => Filled::Failed(Why::Bytes),
        None => Filled::Failed(Why::Bytes),
    }
}

/// The same for the step.
fn fill_listed(
    searchers: &mut Searchers,
    pat: &Pat,
    template: &[u8],
    field: &[u8],
    text: &mut Buf,
    into: &mut Buf,
) -> Result<Filled, OutOfMemory>
    requires { text.old.cap ≡ into.old.cap }
    ensures filled { IfOk result (λ filled. (env : Env) (edit : List ℕ → Head) → Counts env edit
        → by_listed into.old.cap env pat.now template.now field.now edit ≡ valued_by into.old.cap filled into.new.bytes env edit) }
    ensures text { text.new.cap ≡ text.old.cap }
    ensures cap { into.new.cap ≡ into.old.cap }
{
    let by = Template {
        pat,
        text: template,
    };
    let joined = put_values(searchers, by, field, text, into)?;
    Ok(filled_by(joined))
}

/// Makes of a field in a value of which the pattern matches the field with each such value replaced, in `scratch.made`. It is held
/// without the blanks at its ends.
pub(crate) fn fill_values(
    by: Replacement<'_>,
    field: &[u8],
    place: Place<'_>,
    scratch: &mut Scratch,
) -> Result<Filled, OutOfMemory>
    requires { IsScratch place.msg.now.size scratch.old }
    ensures filled { IfOk result (λ filled. (env : Env) (edit : List ℕ → Head) → IsPlaceOf env place.entry → Counts env edit
        → by_matches place.entry.msg.now.size env by.entry.pat.now by.entry.fmt.now field.now (λ text. by_value place.entry.msg.now.size env text edit)
        ≡ valued_by place.entry.msg.now.size filled scratch.new.made.bytes env edit) }
    ensures scratch { IsScratch place.entry.msg.now.size scratch.new }
{
    let Replacement { pat, fmt } = by;
    if !matches_one(&mut scratch.searchers, pat, field)? {
        return Ok(Filled::Unmatched);
    }
    if !write_text(fmt, place, scratch)? {
        return Ok(Filled::Failed(Why::Bytes));
    }
    let Scratch {
        searchers,
        text,
        made,
        buf,
        ..
    } = scratch;
    fill_listed(searchers, pat, text.bytes(), field, buf, made)
}
