//! How many values are passed on the way to one of a number.
ghost use Rattle.std.specs.Prelude.{◌≡◌, ◌<◌, ◌+◌, ◌^◌, List, ℕ, length, None, unsigned_abs, IfSome, IfNone};
ghost use Rattle.http_fetch.specs.Fetches.{at_occurrence};

/// How many values are passed before the one of this number is met: from 1 at the front, or from -1 at the back. None for 0, and
/// where they are more than a message has.
#[tactic(auto, using(crate::proofs::Places::places))]
pub(crate) fn passed_before(occurrence: i64) -> Option<u32>
    ensures near { IfSome result (λ passed. passed + 1 ≡ unsigned_abs occurrence) }
    ensures far { IfNone result ((values : List (List ℕ)) → length values < 2 ^ 32 → at_occurrence occurrence values ≡ None) }
{
    if occurrence == 0 {
        return None;
    }
    let passed = occurrence.unsigned_abs() - 1;
    if passed > u32::MAX as u64 {
        return None;
    }
    Some(passed as u32)
}
