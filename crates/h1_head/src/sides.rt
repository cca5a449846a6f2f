//! The head of either side.
ghost use Rattle.std.specs.Prelude.{◌≡◌, ◌≤◌, ◌+◌, ◌++◌, [], length, drop};
ghost use Rattle.http_model.specs.Reading.{Refused};
ghost use Rattle.http_model.specs.Sizes.{least_size, most_size, least_head};
ghost use Rattle.h1_head.specs.Answers.{IfMore, IfHead, IfRefuse, UnlessHead, Keeps};
ghost use Rattle.h1_head.specs.Sides.{kind_of};
ghost use Rattle.h1_head.specs.Stream.{behind, HeadOf};
ghost use Rattle.h1_head.specs.Decides.{OnEachStream, MayWait, RefusesFor, WhereLong, IsTooLong};

use crate::{HeadRead, Side, read_request, read_response};
use http_model::Limits;
use htx_arena::Arena;

/// Reads the head at the front of the window of a client's stream or of a server's.
pub fn read_head(window: &[u8], whole: bool, side: Side, limits: Limits, to: &mut Arena) -> HeadRead
    requires least { least_size ≤ limits.bufsize }
    requires most { limits.bufsize ≤ most_size }
    requires reserve { limits.maxrewrite + least_head ≤ limits.bufsize }
    requires window { length window.now ≤ limits.bufsize }
    requires empty { to.old.blocks ≡ [] }
    requires size { to.old.size ≡ limits.bufsize }
    ensures skip { IfMore result (λ skip. skip ≤ length window.now) }
    ensures lines { IfMore result (λ skip. drop skip window.now ≡ behind window.now) }
    ensures waits { IfMore result (λ _. MayWait (kind_of side) limits whole window.now) }
    ensures head { IfHead result (Keeps (kind_of side) limits whole window.now to.new.blocks) }
    ensures code { IfRefuse result (λ code why. code ≡ (kind_of side).code why) }
    ensures why { IfRefuse result (λ _ why. RefusesFor (kind_of side) limits whole window.now why) }
    ensures long { IfRefuse result (λ _ why. WhereLong why (IsTooLong (kind_of side) limits whole window.now)) }
    ensures refused { IfRefuse result (λ code _. OnEachStream whole (λ more. HeadOf (kind_of side) limits (window.now ++ more) (Refused code))) }
    ensures unkept { UnlessHead result (to.new.blocks ≡ []) }
    ensures size { to.new.size ≡ to.old.size }
{
    match side {
        Side::Request => read_request(window, whole, limits, to),
        Side::Response { head_asked } => read_response(window, whole, head_asked, limits, to),
    }
}
