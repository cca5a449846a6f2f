//! Each body has a reading, whatever its bytes are.

ghost use Rattle.std.specs.Prelude.{List, ℕ, Option};
ghost use Rattle.http_model.specs.declared.Limits.{Limits};
ghost use Rattle.http_model.specs.declared.Framing.{Framing};
ghost use Rattle.http_model.specs.declared.Ending.{Ending};
ghost use Rattle.h1_body.specs.BodyOf.{BodyRead, IsBodyOf};

use crate::laws::reading_where_known;

/// Bytes in a framing, and the ending that came behind them or none, come to a body: one that is whole, broken off or malformed, or
/// one that is still to be whole.
pub fn reading()
    ensures { (limits : Limits) (framing : Framing) (bytes : List ℕ) (end : Option Ending) → (read : BodyRead) × IsBodyOf limits framing bytes end read }
{
    reading_where_known();
}
