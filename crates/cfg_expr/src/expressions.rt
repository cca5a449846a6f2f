//! Expressions from their texts.
ghost use Rattle.std.specs.Prelude.{◌≡◌};
ghost use Rattle.cfg_expr.specs.Calls.{form_of};
ghost use Rattle.cfg_expr.specs.Faults.{Gives, ReadsText};
ghost use Rattle.cfg_expr.specs.Fetches.{placed_source, with_fetch};
ghost use Rattle.cfg_expr.specs.Exprs.{written_at, expr_at, expr_of};

use crate::converters::read_convs;
use crate::fetches::read_source;
use crate::{Call, Side, Source, TextFault, TextKind, Written, call_in, checked, on_side};
use px_expr::Expr;
use px_pattern::Patterns;
use std::alloc::Global;

/// The fetch of a form, which the direction has where one is given.
pub fn placed_source<'t>(
    alloc: Global,
    place: Option<Side>,
    call: Call<'t>,
) -> Result<(Source, &'t [u8]), TextFault>
    ensures { Gives (λ found. (found.0, found.1.now)) result (placed_source place (form_of call.entry)) }
{
    let source = read_source(alloc, call.name, call.args)?;
    match checked(place, &source) {
        Ok(()) => Ok((source, call.rest)),
        Err(fault) => {
            drop(source);
            Err(fault)
        }
    }
}

/// With the fetch that the source is in a direction.
fn with_fetch(side: Side, written: Written) -> Result<Expr, TextFault>
    ensures { Gives (λ expr. expr) result (with_fetch side written) }
{
    let Written { source, convs } = written;
    match on_side(side, source) {
        Some(fetch) => Ok(Expr { fetch, convs }),
        None => Err(TextFault::Refused(TextKind::Expr)),
    }
}

/// A fetch and its converters at the front of a text, and what is behind them. Where a direction is given, it has the
/// fetch.
#[tactic(auto, unfolding(crate::specs::Exprs::written_at))]
pub fn read_written<'t, P: Patterns>(
    alloc: Global,
    place: Option<Side>,
    text: &'t [u8],
    pats: &mut P,
) -> Result<(Written, &'t [u8]), TextFault>
    ensures { ReadsText (λ found. (found.0, found.1.now)) (written_at place text.now) (P.refusals pats.old) (P.refusals pats.new) (P.last_refused pats.new) result }
{
    let Some(call) = call_in(text) else {
        return Err(TextFault::Refused(TextKind::Expr));
    };
    let (source, rest) = placed_source(alloc, place, call)?;
    match read_convs(alloc, rest, pats) {
        Ok((convs, rest)) => Ok((Written { source, convs }, rest)),
        Err(fault) => {
            drop(source);
            Err(fault)
        }
    }
}

/// An expression of a direction at the front of a text, and what is behind it.
#[tactic(auto, unfolding(crate::specs::Exprs::expr_at))]
pub(crate) fn expr_at<'t, P: Patterns>(
    alloc: Global,
    side: Side,
    text: &'t [u8],
    pats: &mut P,
) -> Result<(Expr, &'t [u8]), TextFault>
    ensures { ReadsText (λ found. (found.0, found.1.now)) (expr_at side text.now) (P.refusals pats.old) (P.refusals pats.new) (P.last_refused pats.new) result }
{
    let (written, rest) = read_written(alloc, Some(side), text, pats)?;
    let expr = with_fetch(side, written)?;
    Ok((expr, rest))
}

/// A whole text as an expression of a direction. Refused with Expr where it is malformed, names what there is not, or has
/// a fetch that the direction does not have; with Limit at a 17th converter; the leftmost fault decides.
#[tactic(auto, unfolding(crate::specs::Exprs::expr_of))]
pub fn read_expr<P: Patterns>(
    alloc: Global,
    side: Side,
    text: &[u8],
    pats: &mut P,
) -> Result<Expr, TextFault>
    ensures { ReadsText (λ expr. expr) (expr_of side text.now) (P.refusals pats.old) (P.refusals pats.new) (P.last_refused pats.new) result }
{
    match expr_at(alloc, side, text, pats) {
        Ok((expr, rest)) => {
            if rest.is_empty() {
                return Ok(expr);
            }
            drop(expr);
            Err(TextFault::Refused(TextKind::Expr))
        }
        Err(fault) => Err(fault),
    }
}
