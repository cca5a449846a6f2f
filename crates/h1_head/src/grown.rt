//! The head of a window that grows.
ghost use Rattle.std.specs.Prelude.{◌≡◌, ◌≤◌, ◌<◌, ◌+◌, ◌-◌, ◌++◌, [], length, drop, true, false};
ghost use Rattle.std.specs.List.{list_any};
ghost use Rattle.http_model.specs.Reading.{Refused};
ghost use Rattle.http_model.specs.Sizes.{least_size, most_size, least_head};
ghost use Rattle.h1_head.specs.Answers.{IfMore, IfHead, IfRefuse, UnlessHead, Keeps};
ghost use Rattle.h1_head.specs.Sides.{kind_of};
ghost use Rattle.h1_head.specs.Stream.{behind, HeadOf};
ghost use Rattle.h1_head.specs.Decides.{OnEachStream, MayWait, RefusesFor, WhereLong, IsTooLong, is_line_feed};
ghost use Rattle.h1_head.specs.Scanned.{IsScanned};

use crate::{HeadRead, Side, read_head};
use http_model::Limits;
use htx_arena::Arena;

/// Whether a line ends in the text.
fn has_line_feed(text: &[u8]) -> bool
    ensures { result ≡ list_any is_line_feed text.now }
{
    text.iter().any(|b| *b == b'\n')
}

/// Whether no head can end in the bytes that came since the last look: no line does, and there is room for more.
fn is_early(window: &[u8], scanned: usize, whole: bool, limits: Limits) -> bool
    requires { scanned ≤ length window.now }
    ensures { result ≡ true → (whole ≡ false) × (2 ≤ scanned) × (length window.now < limits.bufsize) × (list_any is_line_feed (drop scanned window.now) ≡ false) }
{
    if whole {
        return false;
    }
    if scanned < 2 || window.len() >= limits.bufsize as usize {
        return false;
    }
    let (_front, came) = window.split_at(scanned);
    !has_line_feed(came)
}

/// Reads the head at the front of a window, of which so many bytes were looked at before: what `read_head` answers. The
/// window is parsed only once a line ended behind those bytes, it is full, or the stream has ended; so a head that comes byte by
/// byte is parsed once for each of its lines.
///
/// The caller keeps `scanned`: 0 for a stream that was not looked at, and after More as many bytes as are left behind the
/// empty lines in front.
pub fn read_grown_head(
    window: &[u8],
    scanned: usize,
    whole: bool,
    side: Side,
    limits: Limits,
    to: &mut Arena,
) -> HeadRead
    requires least { least_size ≤ limits.bufsize }
    requires most { limits.bufsize ≤ most_size }
    requires reserve { limits.maxrewrite + least_head ≤ limits.bufsize }
    requires window { length window.now ≤ limits.bufsize }
    requires scanned { IsScanned (kind_of side) limits window.now scanned }
    requires empty { to.old.blocks ≡ [] }
    requires size { to.old.size ≡ limits.bufsize }
    ensures skip { IfMore result (λ skip. skip ≤ length window.now) }
    ensures lines { IfMore result (λ skip. drop skip window.now ≡ behind window.now) }
    ensures waits { IfMore result (λ _. MayWait (kind_of side) limits whole window.now) }
    ensures scanned { IfMore result (λ skip. IsScanned (kind_of side) limits (drop skip window.now) (length window.now - skip)) }
    ensures head { IfHead result (Keeps (kind_of side) limits whole window.now to.new.blocks) }
    ensures code { IfRefuse result (λ code why. code ≡ (kind_of side).code why) }
    ensures why { IfRefuse result (λ _ why. RefusesFor (kind_of side) limits whole window.now why) }
    ensures long { IfRefuse result (λ _ why. WhereLong why (IsTooLong (kind_of side) limits whole window.now)) }
    ensures refused { IfRefuse result (λ code _. OnEachStream whole (λ more. HeadOf (kind_of side) limits (window.now ++ more) (Refused code))) }
    ensures unkept { UnlessHead result (to.new.blocks ≡ []) }
    ensures size { to.new.size ≡ to.old.size }
{
    if is_early(window, scanned, whole, limits) {
        return HeadRead::More { skip: 0 };
    }
    read_head(window, whole, side, limits, to)
}
