//! The samples of expressions.
ghost use Rattle.std.specs.Prelude.{◌≡◌, ◌<◌, ◌^◌, false, length, drop, slice_get, option_map, IsOk, IfOk, IfNone};
ghost use Rattle.std.specs.List.{list_any};
ghost use Rattle.px_sample.specs.Sample.{value_in};
ghost use Rattle.px_conv.specs.Conv.{has_pattern};
ghost use Rattle.px_expr.specs.Expr.{put_through, sample, samples, holds_pattern};

use crate::expr::{ConvList, Expr};
use px_conv::{Searchers, convert};
use px_sample::{Buf, Env, OutOfMemory, Place, Sample};

/// Puts a sample through converters, up to one that makes nothing of it.
fn convert_all(
    searchers: &mut Searchers,
    convs: &ConvList,
    first: Sample,
    buf: &mut Buf,
    spare: &mut Buf,
) -> Result<Sample, OutOfMemory>
    requires { spare.old.cap ≡ buf.old.cap }
    ensures value { IfOk result (λ made. value_in made buf.new.bytes ≡ put_through buf.old.cap convs.now (value_in first buf.old.bytes)) }
    ensures succeeds { list_any has_pattern convs.now ≡ false → IsOk result }
    ensures cap { buf.new.cap ≡ buf.old.cap }
    ensures spare_cap { spare.new.cap ≡ buf.old.cap }
{
    let mut made = first;
    for at in 0..convs.len() {
        if let Sample::Absent = made {
            return Ok(Sample::Absent);
        }
        made = convert(searchers, convs.get(at), made, buf, spare)?;
    }
    Ok(made)
}

/// The sample of an expression: the last of its fetch, put through the converters. Its bytes stand in `buf`, and a
/// sample of more bytes than `buf` holds is absent. `spare` has the size of `buf`; what it holds afterwards is left
/// open, and so is `buf` after a want of memory.
pub fn eval<E: Env>(
    searchers: &mut Searchers,
    expr: &Expr,
    env: &E,
    buf: &mut Buf,
    spare: &mut Buf,
) -> Result<Sample, OutOfMemory>
    requires { spare.old.cap ≡ buf.old.cap }
    ensures value { IfOk result (λ made. value_in made buf.new.bytes ≡ sample buf.old.cap (E.samples env.now) expr.now) }
    ensures succeeds { holds_pattern expr.now ≡ false → IsOk result }
    ensures cap { buf.new.cap ≡ buf.old.cap }
    ensures spare_cap { spare.new.cap ≡ buf.old.cap }
{
    let last = env.last(&expr.fetch, buf);
    convert_all(searchers, &expr.convs, last, buf, spare)
}

/// The sample of this number, counted from 0, of those that a condition tries: each of the fetch, put through the
/// converters. None past the last, and then `buf` is unchanged. Else as `eval`.
pub fn eval_nth<E: Env>(
    searchers: &mut Searchers,
    expr: &Expr,
    nth: u32,
    env: &E,
    buf: &mut Buf,
    spare: &mut Buf,
) -> Result<Option<Sample>, OutOfMemory>
    requires { spare.old.cap ≡ buf.old.cap }
    ensures value { IfOk result (λ made. option_map (λ one. value_in one buf.new.bytes) made ≡ slice_get (samples buf.old.cap (E.samples env.now) expr.now) nth) }
    ensures past { IfOk result (λ made. IfNone made (buf.new ≡ buf.old)) }
    ensures succeeds { holds_pattern expr.now ≡ false → IsOk result }
    ensures few { length (samples buf.old.cap (E.samples env.now) expr.now) < 2 ^ 32 }
    ensures cap { buf.new.cap ≡ buf.old.cap }
    ensures spare_cap { spare.new.cap ≡ buf.old.cap }
{
    match env.fetch(&expr.fetch, nth, buf) {
        Some(first) => Ok(Some(convert_all(searchers, &expr.convs, first, buf, spare)?)),
        None => Ok(None),
    }
}

/// The sample at a place, put through the converters; the place moves on to the next one. None past the last. A condition tries
/// the samples so, from `Env::start` on, and the walk goes over a message once. Else as `eval`.
pub fn eval_next<E: Env>(
    searchers: &mut Searchers,
    expr: &Expr,
    place: &mut Place,
    env: &E,
    buf: &mut Buf,
    spare: &mut Buf,
) -> Result<Option<Sample>, OutOfMemory>
    requires { spare.old.cap ≡ buf.old.cap }
    ensures value { IfOk result (λ made. option_map (λ one. value_in one buf.new.bytes) made ≡ slice_get (samples buf.old.cap (λ fetch. E.left env.now fetch place.old) expr.now) 0) }
    ensures left { E.left env.now expr.now.fetch place.new ≡ drop 1 (E.left env.now expr.now.fetch place.old) }
    ensures succeeds { holds_pattern expr.now ≡ false → IsOk result }
    ensures cap { buf.new.cap ≡ buf.old.cap }
    ensures spare_cap { spare.new.cap ≡ buf.old.cap }
{
    match env.next(&expr.fetch, place, buf) {
        Some(first) => Ok(Some(convert_all(searchers, &expr.convs, first, buf, spare)?)),
        None => Ok(None),
    }
}
