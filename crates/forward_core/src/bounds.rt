//! The product's meaning is bounded, so no session puts out more than its bound; and what it decides of a stream without an ending stays
//! decided.

ghost use Rattle.http_rules.specs.declared.config.Config.{Config};
ghost use Rattle.http_rules.specs.Valid.{IsValid};
ghost use Rattle.forward_core.specs.Meaning.Product.{meaning_of};
ghost use Rattle.session_core.specs.MeaningLaws.Bound.{IsBounded};

mod decides;

pub use decides::{program_decides, readings_stay};
use h1_head::laws::has_bytes;
use http_rules::replies_are_plain;

/// Readers use up what they read, a filter makes at most 256 bytes of one, refusals on which no rule runs fit the buffer, and no
/// reply is chunked: the bound on the texts of a session holds for each valid configuration.
pub fn bounded()
    ensures { (cfg : Config) → IsValid cfg → IsBounded (meaning_of cfg) }
{
    has_bytes();
    replies_are_plain();
}
