//! The text of a format.
ghost use Rattle.std.specs.Prelude.{◌≡◌, ◌+◌, ◌≤◌, ◌↔◌, ◌++◌, [], false, length, IsOk, IfOk, IsTrue, if◌then◌else◌};
ghost use Rattle.std.specs.Bool.{OnTrue};
ghost use Rattle.px_sample.specs.Sample.{value_in};
ghost use Rattle.px_expr.specs.Expr.{sample};
ghost use Rattle.log_format.specs.Format.{bytes_of, part_text, text, part_holds_pattern, holds_pattern};

use crate::fmt::{Fmt, Part};
use px_expr::{Searchers, eval};
use px_sample::{Buf, Env, OutOfMemory, Sample, into_text};

/// Puts the bytes of a sample behind what `into` holds; false where they don't fit.
fn put_sample(made: Sample, buf: &mut Buf, into: &mut Buf) -> bool
    requires { length into.old.bytes ≤ into.old.cap }
    ensures fits { IsTrue result ↔ (length into.old.bytes + length (bytes_of buf.old.cap (value_in made buf.old.bytes)) ≤ into.old.cap) }
    ensures put { OnTrue result (into.new.bytes ≡ into.old.bytes ++ bytes_of buf.old.cap (value_in made buf.old.bytes)) }
    ensures cap { into.new.cap ≡ into.old.cap }
    ensures buf_cap { buf.new.cap ≡ buf.old.cap }
{
    match into_text(made, buf) {
        Sample::InBuf => into.push(buf.bytes()),
        _ => true,
    }
}

/// Puts the text of a part behind what `into` holds; false where it doesn't fit.
fn put_part<E: Env>(
    searchers: &mut Searchers,
    part: &Part,
    env: &E,
    into: &mut Buf,
    buf: &mut Buf,
    spare: &mut Buf,
) -> Result<bool, OutOfMemory>
    requires within { length into.old.bytes ≤ into.old.cap }
    requires sizes { spare.old.cap ≡ buf.old.cap }
    ensures fits { IfOk result (λ fits. IsTrue fits ↔ (length into.old.bytes + length (part_text buf.old.cap (E.samples env.now) part.now) ≤ into.old.cap)) }
    ensures put { IfOk result (λ fits. OnTrue fits (into.new.bytes ≡ into.old.bytes ++ part_text buf.old.cap (E.samples env.now) part.now)) }
    ensures succeeds { part_holds_pattern part.now ≡ false → IsOk result }
    ensures into_cap { into.new.cap ≡ into.old.cap }
    ensures cap { buf.new.cap ≡ buf.old.cap }
    ensures spare_cap { spare.new.cap ≡ buf.old.cap }
{
    match part {
        Part::Literal(text) => Ok(into.push(text.as_slice())),
        Part::Sample(expr) => {
            let made = eval(searchers, expr, env, buf, spare)?;
            Ok(put_sample(made, buf, into))
        }
    }
}

/// Writes the text of a format over what `into` holds, all of it or none: false where it is longer than `into`
/// holds, and then `into` is empty. Samples are made in `buf`, so one whose text is longer than `buf` holds adds
/// nothing. `spare` has the size of `buf`; what these two hold afterwards is left open, and so is `into` after a
/// want of memory.
pub fn format<E: Env>(
    searchers: &mut Searchers,
    fmt: &Fmt,
    env: &E,
    into: &mut Buf,
    buf: &mut Buf,
    spare: &mut Buf,
) -> Result<bool, OutOfMemory>
    requires { spare.old.cap ≡ buf.old.cap }
    ensures fits { IfOk result (λ fits. IsTrue fits ↔ (length (text buf.old.cap (E.samples env.now) fmt.now) ≤ into.old.cap)) }
    ensures text { IfOk result (λ fits. into.new.bytes ≡ (if fits then text buf.old.cap (E.samples env.now) fmt.now else [])) }
    ensures succeeds { holds_pattern fmt.now ≡ false → IsOk result }
    ensures into_cap { into.new.cap ≡ into.old.cap }
    ensures cap { buf.new.cap ≡ buf.old.cap }
    ensures spare_cap { spare.new.cap ≡ buf.old.cap }
{
    into.clear();
    for at in 0..fmt.parts.len() {
        let fits = put_part(searchers, fmt.parts.get(at), env, into, buf, spare)?;
        if !fits {
            into.truncate(0);
            return Ok(false);
        }
    }
    Ok(true)
}
