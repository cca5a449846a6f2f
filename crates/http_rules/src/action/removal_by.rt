//! `del-header` by a pattern.
ghost use Rattle.std.specs.Prelude.{◌≡◌, ◌≤◌, ◌<◌, [], IfOk, length};
ghost use Rattle.htx_arena.specs.Blocks.{block_at};
ghost use Rattle.px_sample.specs.Variables.{Variables};
ghost use Rattle.http_rules.specs.declared.action.side.Side.{Side as On};
ghost use Rattle.http_rules.specs.Action.Given.{Env};
ghost use Rattle.http_rules.specs.Action.Steps.{goes, by_pattern, del_step};
ghost use Rattle.http_rules.specs.Action.Going.{is_going, without_going};
ghost use Rattle.http_rules.specs.Action.Outcome.{IsAt, Came};

use crate::action::fields::hold;
use crate::action::stepped::Stepped;
use http_model::is_framing_name;
use htx_arena::{Arena, Kind};
use px_expr::{Pat, Searchers};
use px_sample::{Buf, OutOfMemory};

/// Whether a field of this name goes.
fn goes(
    searchers: &mut Searchers,
    pat: &Pat,
    name: &[u8],
    lower: &mut Buf,
) -> Result<bool, OutOfMemory>
    requires { length name.now ≤ lower.old.cap }
    ensures goes { IfOk result (λ gone. gone ≡ goes (by_pattern pat.now) (name.now, [])) }
    ensures cap { lower.new.cap ≡ lower.old.cap }
{
    hold(name, lower);
    lower.make_lower();
    Ok(searchers.is_match(pat, lower.bytes())? && !is_framing_name(name))
}

/// Whether the block at an index is a field that goes.
fn goes_at(
    searchers: &mut Searchers,
    pat: &Pat,
    msg: &Arena,
    at: u32,
    lower: &mut Buf,
) -> Result<bool, OutOfMemory>
    requires within { at < length msg.now.blocks }
    requires lower { lower.old.cap ≡ msg.now.size }
    ensures goes { IfOk result (λ gone. gone ≡ is_going (by_pattern pat.now) (block_at msg.now.blocks at)) }
    ensures cap { lower.new.cap ≡ lower.old.cap }
{
    let _room = msg.room();
    match msg.kind(at) {
        Kind::Header => goes(searchers, pat, msg.name(at), lower),
        _ => Ok(false),
    }
}

/// Takes out the fields that go.
fn remove_going(
    searchers: &mut Searchers,
    pat: &Pat,
    msg: &mut Arena,
    lower: &mut Buf,
) -> Result<(), OutOfMemory>
    requires { lower.old.cap ≡ msg.old.size }
    ensures blocks { IfOk result (λ done. msg.new.blocks ≡ without_going (by_pattern pat.now) msg.old.blocks) }
    ensures size { msg.new.size ≡ msg.old.size }
    ensures cap { lower.new.cap ≡ lower.old.cap }
{
    let mut at = 0;
    while at < msg.len() {
        if goes_at(searchers, pat, msg, at, lower)? {
            msg.remove(at);
        } else {
            at += 1;
        }
    }
    Ok(())
}

/// Removes the fields in whose names the pattern matches. Those that frame the message or speak of its connection stay.
pub(crate) fn remove_matching(
    searchers: &mut Searchers,
    pat: &Pat,
    msg: &mut Arena,
    lower: &mut Buf,
) -> Result<Stepped, OutOfMemory>
    requires { lower.old.cap ≡ msg.old.size }
    ensures came { IfOk result (λ step. (side : On) (env : Env) (vars : Variables) → IsAt side env msg.old.blocks vars
        → Came side env (del_step msg.old.size (by_pattern pat.now) env) step msg.new.blocks vars) }
    ensures size { msg.new.size ≡ msg.old.size }
    ensures cap { lower.new.cap ≡ lower.old.cap }
{
    remove_going(searchers, pat, msg, lower)?;
    let _room = msg.room();
    Ok(Stepped::Done)
}
