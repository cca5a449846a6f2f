//! Patterns, as texts ask for them.
ghost use Rattle.std.specs.Prelude.{◌≡◌};
ghost use Rattle.cfg_expr.specs.Reading.{built};
ghost use Rattle.cfg_expr.specs.Faults.{ReadsText};

use crate::TextFault;
use px_pattern::{Pat, PatFault, Patterns};
use std::alloc::Global;

/// Builds the pattern of a text, which is to ignore case or not.
pub fn build<P: Patterns>(
    alloc: Global,
    text: &[u8],
    icase: bool,
    pats: &mut P,
) -> Result<Pat, TextFault>
    ensures { ReadsText (λ pat. pat) (built (record { text = text.now; icase = icase })) (P.refusals pats.old) (P.refusals pats.new) (P.last_refused pats.new) result }
{
    match pats.build(alloc, text, icase) {
        Ok(pat) => Ok(pat),
        Err(PatFault::Refused) => Err(TextFault::Pattern),
        Err(PatFault::OutOfMemory) => Err(TextFault::OutOfMemory),
    }
}
