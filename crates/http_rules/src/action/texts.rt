//! The texts of formats, the samples of expressions and the truth of conditions, on the message that rules run on.
ghost use Rattle.std.specs.Prelude.{◌≡◌, false, IsOk, IfOk};
ghost use Rattle.log_format.specs.Format as formats;
ghost use Rattle.px_expr.specs.Expr as exprs;
ghost use Rattle.acl_eval.specs.Condition as conditions;
ghost use Rattle.px_sample.specs.Sample.{value_in};
ghost use Rattle.http_rules.specs.Action.Given.{Env, text_on, sample_on, holds_on};
ghost use Rattle.http_rules.specs.Action.Outcome.{IsScratch, IsAt, IsPlaceOf, IsMade};

use crate::action::place::Place;
use crate::action::scratch::Scratch;
use crate::action::side::Side;
use acl_eval::{Cond, holds};
use http_fetch::{ReqEnv, ResEnv};
use htx_arena::Arena;
use log_format::{Fmt, format};
use px_expr::{Expr, Searchers, eval};
use px_sample::{Buf, OutOfMemory, Sample, Vars};

/// Writes the text of a format into a buffer of the array's size; false where it is longer.
pub(crate) fn write_into(
    searchers: &mut Searchers,
    fmt: &Fmt,
    place: Place<'_>,
    into: &mut Buf,
    buf: &mut Buf,
    spare: &mut Buf,
) -> Result<bool, OutOfMemory>
    requires into { into.old.cap ≡ place.msg.now.size }
    requires buf { buf.old.cap ≡ place.msg.now.size }
    requires spare { spare.old.cap ≡ place.msg.now.size }
    ensures made { IfOk result (λ fits. (env : Env) → IsPlaceOf env place.entry → IsMade place.entry.msg.now.size (text_on place.entry.msg.now.size env fmt.now) fits into.new.bytes) }
    ensures succeeds { formats.holds_pattern fmt.now ≡ false → IsOk result }
    ensures into { into.new.cap ≡ place.entry.msg.now.size }
    ensures buf { buf.new.cap ≡ place.entry.msg.now.size }
    ensures spare { spare.new.cap ≡ place.entry.msg.now.size }
{
    let Place { msg, setting } = place;
    let vars = setting.vars;
    match setting.side {
        Side::Request => {
            let env = ReqEnv::new(msg, vars);
            format(searchers, fmt, &env, into, buf, spare)
        }
        Side::Answer(method) => {
            let env = ResEnv::new(msg, method, vars);
            format(searchers, fmt, &env, into, buf, spare)
        }
    }
}

/// Writes the text of a format into `scratch.text`; false where it is longer than the array.
pub(crate) fn write_text(
    fmt: &Fmt,
    place: Place<'_>,
    scratch: &mut Scratch,
) -> Result<bool, OutOfMemory>
    requires { IsScratch place.msg.now.size scratch.old }
    ensures made { IfOk result (λ fits. (env : Env) → IsPlaceOf env place.entry → IsMade place.entry.msg.now.size (text_on place.entry.msg.now.size env fmt.now) fits scratch.new.text.bytes) }
    ensures succeeds { formats.holds_pattern fmt.now ≡ false → IsOk result }
    ensures scratch { IsScratch place.entry.msg.now.size scratch.new }
{
    let Scratch {
        searchers,
        text,
        buf,
        spare,
        ..
    } = scratch;
    write_into(searchers, fmt, place, text, buf, spare)
}

/// The sample of an expression; its bytes stand in `scratch.buf`.
pub(crate) fn sample_of(
    expr: &Expr,
    place: Place<'_>,
    scratch: &mut Scratch,
) -> Result<Sample, OutOfMemory>
    requires { IsScratch place.msg.now.size scratch.old }
    ensures value { IfOk result (λ made. (env : Env) → IsPlaceOf env place.entry → value_in made scratch.new.buf.bytes ≡ sample_on place.entry.msg.now.size env expr.now) }
    ensures succeeds { exprs.holds_pattern expr.now ≡ false → IsOk result }
    ensures scratch { IsScratch place.entry.msg.now.size scratch.new }
{
    let Place { msg, setting } = place;
    let vars = setting.vars;
    let Scratch {
        searchers,
        buf,
        spare,
        ..
    } = scratch;
    match setting.side {
        Side::Request => eval(searchers, expr, &ReqEnv::new(msg, vars), buf, spare),
        Side::Answer(method) => {
            let env = ResEnv::new(msg, method, vars);
            eval(searchers, expr, &env, buf, spare)
        }
    }
}

/// Whether a condition holds.
pub fn is_met(
    cond: &Cond,
    side: Side<'_>,
    msg: &Arena,
    vars: &Vars,
    scratch: &mut Scratch,
) -> Result<bool, OutOfMemory>
    requires { IsScratch msg.now.size scratch.old }
    ensures truth { IfOk result (λ truth. (env : Env) → IsAt side.entry env msg.now.blocks vars.now → truth ≡ holds_on msg.now.size env cond.now) }
    ensures succeeds { conditions.holds_pattern cond.now ≡ false → IsOk result }
    ensures scratch { IsScratch msg.now.size scratch.new }
{
    let Scratch {
        searchers,
        buf,
        spare,
        ..
    } = scratch;
    match side {
        Side::Request => holds(searchers, cond, &ReqEnv::new(msg, vars), buf, spare),
        Side::Answer(method) => {
            let env = ResEnv::new(msg, method, vars);
            holds(searchers, cond, &env, buf, spare)
        }
    }
}
