//! The fields that a `return` puts behind the head of its reply, in their order.
ghost use Rattle.std.specs.Prelude.{◌≡◌, ◌≤◌, ◌++◌, ◌∷◌, List, [], true, false, length, IsOk, IfOk};
ghost use Rattle.std.specs.Bool.{OnTrue};
ghost use Rattle.std.specs.List.{AllByRecursion, list_any};
ghost use Rattle.http_model.specs.Head.{Field, Head};
ghost use Rattle.http_model.specs.Sizes.{most_name};
ghost use Rattle.px_bytes.specs.Blanks.{trimmed};
ghost use Rattle.http_rules.specs.Rule.Actions.{hdr_holds_pattern};
ghost use Rattle.http_rules.specs.Rule.Valid.{IsMadeName};
ghost use Rattle.http_rules.specs.declared.action.stepped.Stepped.TheVariants.{Done};
ghost use Rattle.http_rules.specs.Action.Given.{Env};
ghost use Rattle.http_rules.specs.Action.Outcome.{IsScratch, IsPlaceOf};
ghost use Rattle.http_rules.specs.Action.Written.{IsHead, IsValue, IsPut, ArePut, put_step};

use crate::action::fields::are_value_bytes;
use crate::action::place::Place;
use crate::action::scratch::Scratch;
use crate::action::stepped::Stepped;
use crate::action::texts::write_into;
use crate::rule::{Hdr, HdrList};
use header_ops::add_field;
use http_model::Why;
use htx_arena::Arena;
use px_bytes::trim;
use px_sample::OutOfMemory;

/// Makes the text of a field in `scratch.made`; false where it is longer than the array, or may not stand in a field value.
fn make_value(hdr: &Hdr, place: Place<'_>, scratch: &mut Scratch) -> Result<bool, OutOfMemory>
    requires scratch { IsScratch place.msg.now.size scratch.old }
    ensures made { IfOk result (λ good. (env : Env) → IsPlaceOf env place.entry → IsValue place.entry.msg.now.size env hdr.now good scratch.new.made.bytes) }
    ensures succeeds { hdr_holds_pattern hdr.now ≡ false → IsOk result }
    ensures text { scratch.new.text ≡ scratch.old.text }
    ensures scratch { IsScratch place.entry.msg.now.size scratch.new }
{
    let (searchers, made) = (&mut scratch.searchers, &mut scratch.made);
    let (buf, spare) = (&mut scratch.buf, &mut scratch.spare);
    if !write_into(searchers, &hdr.value, place, made, buf, spare)? {
        return Ok(false);
    }
    Ok(are_value_bytes(made.bytes()))
}

/// Puts a field behind those of a reply, if these fit; false where they do not, or with it no more.
fn put_field(fits: bool, reply: &mut Arena, name: &[u8], text: &[u8]) -> bool
    requires head { OnTrue fits (IsHead reply.old.blocks) }
    requires named { 1 ≤ length name.now }
    requires short { length name.now ≤ most_name }
    ensures put { (head : Head) (fields : List Field) → IsPut reply.old.size head fields fits reply.old.blocks → IsPut reply.old.size head (fields ++ (name.now, trimmed text.now) ∷ []) result reply.new.blocks }
    ensures head { OnTrue result (IsHead reply.new.blocks) }
    ensures size { reply.new.size ≡ reply.old.size }
{
    if !fits {
        return false;
    }
    match add_field(reply, name, trim(text)) {
        Ok(()) => true,
        Err(_) => false,
    }
}

/// What is known of the texts when all of them are good.
fn step_by(fits: bool) -> Stepped
    ensures { result ≡ put_step fits }
{
    if fits {
        Stepped::Done
    } else {
        Stepped::Failed(Why::Room)
    }
}

/// Puts fields behind the head of a reply, if it fits. Each text is made, so that one which is not good is told before the room is.
/// `scratch.text` stays: it may hold the payload.
pub(crate) fn put_fields(
    hdrs: &HdrList,
    place: Place<'_>,
    begun: bool,
    scratch: &mut Scratch,
    reply: &mut Arena,
) -> Result<Stepped, OutOfMemory>
    requires scratch { IsScratch place.msg.now.size scratch.old }
    requires head { OnTrue begun (IsHead reply.old.blocks) }
    requires names { AllByRecursion (λ hdr. IsMadeName hdr.name) hdrs.now }
    ensures put { IfOk result (λ step. (env : Env) (head : Head) → IsPlaceOf env place.entry → IsPut reply.old.size head [] begun reply.old.blocks
        → ArePut place.entry.msg.now.size reply.old.size env head hdrs.now step reply.new.blocks) }
    ensures head { IfOk result (λ step. step ≡ Done → IsHead reply.new.blocks) }
    ensures succeeds { list_any hdr_holds_pattern hdrs.now ≡ false → IsOk result }
    ensures size { reply.new.size ≡ reply.old.size }
    ensures text { scratch.new.text ≡ scratch.old.text }
    ensures scratch { IsScratch place.entry.msg.now.size scratch.new }
{
    let mut fits = begun;
    for at in 0..hdrs.len() {
        let hdr = hdrs.get(at);
        if !make_value(hdr, place, scratch)? {
            return Ok(Stepped::Failed(Why::Bytes));
        }
        fits = put_field(fits, reply, hdr.name.as_slice(), scratch.made.bytes());
    }
    Ok(step_by(fits))
}
