//! `replace-header` and `replace-value`: one step for each field of the name, in order.
ghost use Rattle.std.specs.Prelude.{◌≡◌, ◌<◌, ◌+◌, List, ℕ, IfOk, IsTrue, Some, length, map};
ghost use Rattle.std.specs.List.{slice_get};
ghost use Rattle.htx_model.specs.Block.{kind_of};
ghost use Rattle.htx_model.specs.declared.Kind.TheVariants.{Header};
ghost use Rattle.http_model.specs.Head.{Field, Head};
ghost use Rattle.htx_arena.specs.Blocks.{block_at};
ghost use Rattle.header_ops.specs.Headers.{is_header_named};
ghost use Rattle.px_sample.specs.Variables.{Variables};
ghost use Rattle.http_rules.specs.declared.action.side.Side.{Side as On};
ghost use Rattle.http_rules.specs.Action.Given.{Env};
ghost use Rattle.http_rules.specs.Action.Edits.{by_value};
ghost use Rattle.http_rules.specs.Action.Replacing.{by_extent, places, replace_in, with_value};
ghost use Rattle.http_rules.specs.Action.Acts.{run_steps};
ghost use Rattle.http_rules.specs.Action.Outcome.{IsScratch, IsAt, IsPlaceOf, Came, Ran, IsFront};
ghost use Rattle.http_rules.specs.Action.Filling.{Counts, valued_by};
ghost use Rattle.http_rules.specs.Action.Turns.{named_step};

use crate::action::extent::Extent;
use crate::action::fields::{are_value_bytes, step_of};
use crate::action::filled::{Filled, fill};
use crate::action::listed::fill_values;
use crate::action::place::{Place, Setting};
use crate::action::replacement::{FieldReplacement, Replacement};
use crate::action::scratch::Scratch;
use crate::action::stepped::Stepped;
use http_model::Why;
use htx_arena::{Arena, Kind};
use px_bytes::{eq_fold, trim};
use px_sample::OutOfMemory;

/// Whether the block at an index is a header of this name.
fn is_named(msg: &Arena, at: u32, name: &[u8]) -> bool
    requires { at < length msg.now.blocks }
    ensures named { result ≡ is_header_named name.now (block_at msg.now.blocks at) }
    ensures header { IsTrue result → kind_of (block_at msg.now.blocks at) ≡ Header }
{
    match msg.kind(at) {
        Kind::Header => eq_fold(msg.name(at), name),
        _ => false,
    }
}

/// The field in a block has another value.
fn put_value(msg: &mut Arena, at: u32, text: &[u8]) -> Stepped
    requires within { at < length msg.old.blocks }
    requires header { kind_of (block_at msg.old.blocks at) ≡ Header }
    ensures came { (side : On) (env : Env) (vars : Variables) (place : ℕ) (field : Field) → IsAt side env msg.old.blocks vars → at ≡ place + 1 → slice_get env.head.fields place ≡ Some field
        → Came side env (by_value msg.old.size env text.now (with_value env.head place field)) result msg.new.blocks vars }
    ensures size { msg.new.size ≡ msg.old.size }
    ensures len { length msg.new.blocks ≡ length msg.old.blocks }
{
    if !are_value_bytes(text) {
        return Stepped::Failed(Why::Bytes);
    }
    step_of(msg.replace_value(at, trim(text)))
}

/// Makes another value of a field, in `scratch.made`.
fn fill_field(
    extent: Extent,
    by: Replacement<'_>,
    field: &[u8],
    place: Place<'_>,
    scratch: &mut Scratch,
) -> Result<Filled, OutOfMemory>
    requires { IsScratch place.msg.now.size scratch.old }
    ensures filled { IfOk result (λ filled. (env : Env) (edit : List ℕ → Head) → IsPlaceOf env place.entry → Counts env edit
        → by_extent extent place.entry.msg.now.size env by.entry.pat.now by.entry.fmt.now field.now (λ text. by_value place.entry.msg.now.size env text edit)
        ≡ valued_by place.entry.msg.now.size filled scratch.new.made.bytes env edit) }
    ensures scratch { IsScratch place.entry.msg.now.size scratch.new }
{
    match extent {
        Extent::Whole => fill(by, field, place, scratch),
        Extent::Values => fill_values(by, field, place, scratch),
    }
}

/// The field in a block has another value, where the pattern matches.
fn replace_field(
    fields: FieldReplacement<'_>,
    at: u32,
    setting: Setting<'_>,
    msg: &mut Arena,
    scratch: &mut Scratch,
) -> Result<Stepped, OutOfMemory>
    requires scratch { IsScratch msg.old.size scratch.old }
    requires within { at < length msg.old.blocks }
    requires header { kind_of (block_at msg.old.blocks at) ≡ Header }
    ensures came { IfOk result (λ step. (env : Env) (place : ℕ) → IsAt setting.entry.side env msg.old.blocks setting.entry.vars.now → at ≡ place + 1
        → Came setting.entry.side env (replace_in fields.entry.extent msg.old.size fields.entry.by.pat.now fields.entry.by.fmt.now place env) step msg.new.blocks setting.entry.vars.now) }
    ensures size { msg.new.size ≡ msg.old.size }
    ensures len { length msg.new.blocks ≡ length msg.old.blocks }
    ensures scratch { IsScratch msg.old.size scratch.new }
{
    let field = msg.value(at);
    let FieldReplacement { extent, by, .. } = fields;
    let place = Place { msg, setting };
    match fill_field(extent, by, field, place, scratch)? {
        Filled::Unmatched => Ok(Stepped::Done),
        Filled::Failed(why) => Ok(Stepped::Failed(why)),
        Filled::Made => Ok(put_value(msg, at, scratch.made.bytes())),
    }
}

/// The block's step: a field of the name has another value, where the pattern matches.
fn replace_named(
    fields: FieldReplacement<'_>,
    at: u32,
    setting: Setting<'_>,
    msg: &mut Arena,
    scratch: &mut Scratch,
) -> Result<Stepped, OutOfMemory>
    requires scratch { IsScratch msg.old.size scratch.old }
    requires within { at < length msg.old.blocks }
    ensures came { IfOk result (λ step. (env : Env) (place : ℕ) → IsAt setting.entry.side env msg.old.blocks setting.entry.vars.now → at ≡ place + 1
        → Came setting.entry.side env (named_step fields.entry.name.now fields.entry.extent msg.old.size fields.entry.by.pat.now fields.entry.by.fmt.now place env) step msg.new.blocks setting.entry.vars.now) }
    ensures size { msg.new.size ≡ msg.old.size }
    ensures len { length msg.new.blocks ≡ length msg.old.blocks }
    ensures scratch { IsScratch msg.old.size scratch.new }
{
    if !is_named(msg, at, fields.name) {
        return Ok(Stepped::Done);
    }
    replace_field(fields, at, setting, msg, scratch)
}

/// Each field of the name in turn, up to a step that fails.
pub(crate) fn replace_fields(
    fields: FieldReplacement<'_>,
    setting: Setting<'_>,
    msg: &mut Arena,
    scratch: &mut Scratch,
) -> Result<Stepped, OutOfMemory>
    requires scratch { IsScratch msg.old.size scratch.old }
    requires front { IsFront msg.old.blocks }
    ensures ran { IfOk result (λ step. (env : Env) → IsAt setting.entry.side env msg.old.blocks setting.entry.vars.now
        → Ran setting.entry.side (run_steps (map (replace_in fields.entry.extent msg.old.size fields.entry.by.pat.now fields.entry.by.fmt.now) (places fields.entry.name.now env.head.fields 0)) env) step msg.new.blocks setting.entry.vars.now) }
    ensures size { msg.new.size ≡ msg.old.size }
    ensures scratch { IsScratch msg.old.size scratch.new }
{
    for at in 1..msg.len() {
        match replace_named(fields, at, setting, msg, scratch)? {
            Stepped::Done => {}
            Stepped::Failed(why) => return Ok(Stepped::Failed(why)),
        }
    }
    Ok(Stepped::Done)
}
