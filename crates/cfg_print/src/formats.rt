//! The text of a format.
ghost use Rattle.std.specs.Prelude.{◌≡◌, ◌++◌, OnOk};
ghost use Rattle.std.specs.List.{flat_map};
ghost use Rattle.log_format.specs.declared.fmt.Part.TheVariants.{Sample};
ghost use Rattle.cfg_print.specs.Formats.{doubled, part_text, format_text};

use crate::exprs::put_expr;
use crate::words::put;
use log_format::{Fmt, Part};
use px_expr::Expr;
use px_link::OutOfMemory;

/// Puts a text that is no expression behind a text.
fn put_literal(out: &mut Vec<u8>, text: &[u8]) -> Result<(), OutOfMemory>
    ensures { OnOk result (out.new.items ≡ out.old.items ++ flat_map doubled text.now) }
{
    for b in text {
        if *b == b'%' {
            put(out, b"%%")?;
        } else {
            put(out, &[*b])?;
        }
    }
    Ok(())
}

/// Puts an expression with its brackets behind a text.
#[tactic(auto, unfolding(crate::specs::Formats::part_text))]
fn put_sample(out: &mut Vec<u8>, expr: &Expr) -> Result<(), OutOfMemory>
    ensures { OnOk result (out.new.items ≡ out.old.items ++ part_text (Sample expr.now)) }
{
    put(out, b"%[")?;
    put_expr(out, expr)?;
    put(out, b"]")
}

#[tactic(auto, unfolding(crate::specs::Formats::part_text))]
fn put_part(out: &mut Vec<u8>, part: &Part) -> Result<(), OutOfMemory>
    ensures { OnOk result (out.new.items ≡ out.old.items ++ part_text part.now) }
{
    match part {
        Part::Literal(text) => put_literal(out, text.as_slice()),
        Part::Sample(expr) => put_sample(out, expr),
    }
}

fn put_parts(out: &mut Vec<u8>, parts: &[Part]) -> Result<(), OutOfMemory>
    ensures { OnOk result (out.new.items ≡ out.old.items ++ flat_map part_text parts.now) }
{
    for part in parts {
        put_part(out, part)?;
    }
    Ok(())
}

/// Puts a format behind a text.
#[tactic(auto, unfolding(crate::specs::Formats::format_text))]
pub(crate) fn put_format(out: &mut Vec<u8>, fmt: &Fmt) -> Result<(), OutOfMemory>
    ensures { OnOk result (out.new.items ≡ out.old.items ++ format_text fmt.now) }
{
    put_parts(out, fmt.parts.as_slice())
}
