//! What builds patterns, and tells which texts it refused.
ghost use Rattle.std.specs.Prelude.{◌≡◌, ℕ, IfOk};
ghost use Rattle.px_pattern.specs.Meaning.{IsPattern};
ghost use Rattle.px_pattern.specs.Refusals.{CountsRefusals, Kept, kept_after};

use crate::{Pat, PatFault};
use std::alloc::Global;

/// What builds patterns.
pub trait Patterns {
    /// How many texts it refused, up to the last value of a u64.
    ghost refusals: { Self → ℕ };

    /// The text of the last refused build, and whether it was to ignore case.
    ghost last_refused: { Self → Kept };

    /// Builds the pattern of a text, which is to ignore case or not.
    fn build(&mut self, alloc: Global, text: &[u8], icase: bool) -> Result<Pat, PatFault>
        ensures built { IfOk result (λ pat. pat ≡ record { text = text.now; icase = icase }) }
        ensures read { IfOk result IsPattern }
        ensures counts { CountsRefusals (refusals self.old) (refusals self.new) result }
        ensures kept { last_refused self.new ≡ kept_after result text.now icase (last_refused self.old) };
}
