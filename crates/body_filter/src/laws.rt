//! What the filters' meaning entails.
ghost use Rattle.std.specs.Prelude.{List, ℕ, ◌≡◌, ◌≤◌, ◌++◌, length, true};
ghost use Rattle.body_filter.specs.Filter.{begins, filtered};
ghost use Rattle.body_filter.specs.Kept.{kept};
ghost use Rattle.body_filter.specs.KeptBack.{GivesKept};
ghost use Rattle.body_filter.specs.Laws.{GoesOn};
ghost use Rattle.body_filter.specs.Valid.{IsFilter};
ghost use Rattle.body_filter.specs.declared.filter_spec.FilterSpec.{FilterSpec};

/// What a chain makes of the bytes so far, it makes of each continuation: the output so far is a front of each output,
/// and a refusal so far is that of each.
pub fn goes_on()
    ensures { (filters : List FilterSpec) (used : List ℕ) → GoesOn (filtered filters) used }
{}

/// A body that ends where it stands brings what was kept back, and nothing else; and that is the longest end of the
/// unmatched bytes with which the needle begins.
pub fn keeps_back()
    ensures given { (filter : FilterSpec) (text : List ℕ) → IsFilter filter → GivesKept filter text }
    ensures longest { (needle front end : List ℕ) → begins end needle ≡ true → length end ≤ length (kept needle (front ++ end)) }
{}
