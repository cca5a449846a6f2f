//! There is one cut of each target.
ghost use Rattle.std.specs.Prelude.{◌≡◌, ℕ, List};
ghost use Rattle.uri_parts.specs.Target.{TargetParts, target_parts};
ghost use Rattle.uri_parts.specs.Cut.{IsCut, spelling};

/// The parts of a target meet the rule and spell it again, and no others do.
pub fn one_cut()
    ensures meets { (target : List ℕ) → IsCut (target_parts target) }
    ensures spells { (target : List ℕ) → spelling (target_parts target) ≡ target }
    ensures alone { (parts : TargetParts) → IsCut parts → parts ≡ target_parts (spelling parts) }
{}
