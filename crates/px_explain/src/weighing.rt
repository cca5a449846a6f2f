//! What the array would have had to hold where a rule failed for want of room: the rule runs once more, on a copy of the message in an
//! array of the largest size, and what it leaves is weighed. The variables stay as they were.
ghost use Rattle.std.specs.Prelude.{◌≡◌, ◌≤◌, ◌<◌, ◌++◌, ◌∷◌, [], length, true, false, IfOk, OnOk};
ghost use Rattle.http_model.specs.Blocks.{Fits, block_at};
ghost use Rattle.http_model.specs.Sizes.{most_size};
ghost use Rattle.http_rules.specs.Rule.Valid.{IsGoodAction};
ghost use Rattle.http_rules.specs.Action.Acts.{act};
ghost use Rattle.http_rules.specs.Action.Answering.{answers as spec_answers};
ghost use Rattle.http_rules.specs.Action.Given.{Env};
ghost use Rattle.http_rules.specs.Action.Outcome.{IsScratch, IsAt, IsFront};
ghost use Rattle.px_explain.specs.Wanted.{is_one_edit, load_by, load_left, load_replied, past, wanted_by, lacks_room, IsAsMeant};

use crate::walk::Teller;
use header_ops::count_fulls;
use http_rules::action::{Acted, Side, Stepped, answers, run_action, run_reply};
use http_rules::{Action, OutOfMemory, Scratch, Step, Vars, Why};
use htx_arena::Arena;
use px_reply::laws::replies_of_messages;
use std::alloc::Global;

/// The most bytes of an array.
const MOST_SIZE: u32 = 262144;

/// What `connection: close` weighs.
const CLOSE_WEIGHT: u32 = 23;

/// Whether a rule failed for want of room.
fn lacks_room(step: Step) -> bool
    ensures { result ≡ lacks_room step }
{
    match step {
        Step::Skipped(Why::Room) => true,
        Step::Fail(Why::Room) => true,
        _ => false,
    }
}

/// Whether an action makes one edit of a message.
fn is_one_edit(action: &Action, msg: &Arena) -> bool
    ensures { result ≡ is_one_edit action.now msg.now.blocks }
{
    match action {
        Action::ReplaceHeader(name, _, _) => count_fulls(msg, name.as_slice()) == 1,
        Action::ReplaceValue(name, _, _) => count_fulls(msg, name.as_slice()) == 1,
        Action::SetVar(_, _, _) => false,
        Action::UnsetVar(_, _) => false,
        _ => true,
    }
}

/// Puts a copy of a block behind those of an array that has room for it.
fn add_block(to: &mut Arena, from: &Arena, at: u32)
    requires within { at < length from.now.blocks }
    requires fits { Fits (to.old.blocks ++ block_at from.now.blocks at ∷ []) to.old.size }
    ensures blocks { to.new.blocks ≡ to.old.blocks ++ block_at from.now.blocks at ∷ [] }
    ensures size { to.new.size ≡ to.old.size }
{
    // it fits, so it is put there
    let _put = to.add_copy(from, at);
}

/// A copy of a message in an array of the largest size.
fn copy_of(alloc: Global, msg: &Arena) -> Result<Arena, OutOfMemory>
    requires { msg.now.size ≤ most_size }
    ensures blocks { IfOk result (λ copy. copy.blocks ≡ msg.now.blocks) }
    ensures size { IfOk result (λ copy. copy.size ≡ most_size) }
{
    let mut copy = Arena::new(alloc, MOST_SIZE)?;
    // called for its clause alone: the blocks weigh no more than their array has bytes
    let _room = msg.room();
    for at in 0..msg.len() {
        add_block(&mut copy, msg, at);
    }
    Ok(copy)
}

/// What the message weighs that an action left.
fn load_left(acted: Acted, msg: &Arena) -> Option<u32>
    ensures { result ≡ load_left acted msg.now.blocks }
{
    match acted {
        Acted::Next => Some(msg.load()),
        Acted::Stop => None,
        Acted::Deny(_) => None,
        Acted::Failed(_) => None,
    }
}

/// What the message weighs that an action leaves.
fn load_of_edit(
    action: &Action,
    side: Side<'_>,
    msg: &mut Arena,
    vars: &mut Vars,
    scratch: &mut Scratch,
) -> Result<Option<u32>, OutOfMemory>
    requires scratch { IsScratch msg.old.size scratch.old }
    requires front { IsFront msg.old.blocks }
    requires good { IsGoodAction action.now }
    requires edits { spec_answers action.now ≡ false }
    requires one { is_one_edit action.now msg.old.blocks ≡ true }
    ensures load { IfOk result (λ load. (env : Env) → IsAt side.entry env msg.old.blocks vars.old → load ≡ load_by (act msg.old.size action.now env)) }
    ensures vars { OnOk result (vars.new ≡ vars.old) }
{
    let acted = run_action(action, side, msg, vars, scratch)?;
    Ok(load_left(acted, msg))
}

/// What a reply weighs that was made, with `connection: close`.
fn load_replied(stepped: Stepped, reply: &Arena) -> Option<u32>
    requires { reply.now.size ≤ most_size }
    ensures { result ≡ load_replied stepped reply.now.blocks }
{
    // called for its clause alone: the blocks weigh no more than the array has bytes
    let _room = reply.room();
    match stepped {
        Stepped::Done => Some(reply.load() + CLOSE_WEIGHT),
        Stepped::Failed(_) => None,
    }
}

/// What the reply weighs that an action makes, with `connection: close`.
fn load_of_reply(
    alloc: Global,
    action: &Action,
    side: Side<'_>,
    msg: &Arena,
    vars: &Vars,
    scratch: &mut Scratch,
) -> Result<Option<u32>, OutOfMemory>
    requires size { msg.now.size ≡ most_size }
    requires scratch { IsScratch msg.now.size scratch.old }
    requires front { IsFront msg.now.blocks }
    requires good { IsGoodAction action.now }
    requires answers { spec_answers action.now ≡ true }
    ensures load { IfOk result (λ load. (env : Env) → IsAt side.entry env msg.now.blocks vars.now → load ≡ load_by (act msg.now.size action.now env)) }
{
    replies_of_messages();
    let mut reply = Arena::new(alloc, MOST_SIZE)?;
    let stepped = run_reply(action, side, msg, vars, scratch, &mut reply)?;
    Ok(load_replied(stepped, &reply))
}

/// What an action of one edit leaves of a message in an array of the largest size.
fn load_in_largest(
    alloc: Global,
    action: &Action,
    side: Side<'_>,
    msg: &Arena,
    vars: &mut Vars,
) -> Result<Option<u32>, OutOfMemory>
    requires small { msg.now.size ≤ most_size }
    requires front { IsFront msg.now.blocks }
    requires good { IsGoodAction action.now }
    requires one { is_one_edit action.now msg.now.blocks ≡ true }
    ensures load { IfOk result (λ load. (env : Env) → IsAt side.entry env msg.now.blocks vars.old → load ≡ load_by (act most_size action.now env)) }
    ensures vars { OnOk result (vars.new ≡ vars.old) }
{
    let mut copy = copy_of(alloc, msg)?;
    let mut scratch = Scratch::new(alloc, MOST_SIZE)?;
    if answers(action) {
        return load_of_reply(alloc, action, side, &copy, vars, &mut scratch);
    }
    load_of_edit(action, side, &mut copy, vars, &mut scratch)
}

/// A load, where it is more than an array holds.
fn past(msg: &Arena, load: Option<u32>) -> Option<u32>
    ensures { result ≡ past msg.now.size load }
{
    let size = u64::from(msg.load()) + u64::from(msg.room());
    match load {
        None => None,
        Some(needed) => {
            if size < u64::from(needed) {
                return Some(needed);
            }
            None
        }
    }
}

/// The load that a rule would have needed which left this message, where texts are written.
pub(crate) fn wanted(
    teller: &mut Teller,
    step: Step,
    action: &Action,
    side: Side<'_>,
    msg: &Arena,
) -> Result<Option<u32>, OutOfMemory>
    requires small { msg.now.size ≤ most_size }
    requires front { IsFront msg.now.blocks }
    requires good { IsGoodAction action.now }
    ensures wanted { IfOk result (λ told. (env : Env) → IsAt side.entry env msg.now.blocks teller.old.vars → IsAsMeant teller.old.trail.shows told (wanted_by step msg.now.size action.now env)) }
    ensures vars { OnOk result (teller.new.vars ≡ teller.old.vars) }
    ensures trail { OnOk result (teller.new.trail ≡ teller.old.trail) }
    ensures scratch { teller.new.scratch ≡ teller.old.scratch }
{
    if !teller.trail.shows {
        return Ok(None);
    }
    if !lacks_room(step) {
        return Ok(None);
    }
    if !is_one_edit(action, msg) {
        return Ok(None);
    }
    let load = load_in_largest(teller.trail.alloc, action, side, msg, &mut teller.vars)?;
    Ok(past(msg, load))
}
