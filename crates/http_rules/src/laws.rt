//! What holds of the meaning of rules, whichever they are.
ghost use Rattle.std.specs.Prelude.{◌≡◌, ◌≢◌, ℕ, List, [], ◌∷◌, Bool, true};
ghost use Rattle.http_model.specs.declared.Framing.TheVariants.{Chunked};
ghost use Rattle.http_model.specs.Blocks.{Fits};
ghost use Rattle.http_model.specs.Head.{Message, message_blocks};
ghost use Rattle.http_model.specs.Refusal.{closing};
ghost use Rattle.http_model.specs.Spelling.{SpellsBody};
ghost use Rattle.session_model.specs.Env.{Pass, Reply};
ghost use Rattle.http_rules.specs.declared.rule.action.Direction.{Direction};
ghost use Rattle.http_rules.specs.declared.rule.rule.Rule.{Rule};
ghost use Rattle.http_rules.specs.Rule.Valid.{AreRules};
ghost use Rattle.http_rules.specs.Action.Given.{Env};
ghost use Rattle.http_rules.specs.Rules.{rules_of, walk};
ghost use Rattle.http_rules.specs.Steps.{course_of, comes_behind, comes_by_steps};

/// Rules that pass leave the body behind the head.
pub fn body_stays()
    ensures { (size : ℕ) (rules : List Rule) (env left : Env) → rules_of size rules env ≡ Pass left → left.body ≡ env.body }
{}

/// A reply of rules has no trailers, is not chunked, and fits with `connection: close`. That of rules which a configuration may
/// have is sent with its body as it is.
pub fn replies_are_plain()
    ensures trailers { (size : ℕ) (rules : List Rule) (env left : Env) (m : Message) → rules_of size rules env ≡ Reply m left → m.trailers ≡ [] }
    ensures framing { (size : ℕ) (rules : List Rule) (env left : Env) (m : Message) → rules_of size rules env ≡ Reply m left → m.framing ≢ Chunked }
    ensures fits { (size : ℕ) (rules : List Rule) (env left : Env) (m : Message) → rules_of size rules env ≡ Reply m left → Fits (message_blocks (closing m)) size }
    ensures body { (size : ℕ) (direction : Direction) (rules : List Rule) (env left : Env) (m : Message) → AreRules direction rules → rules_of size rules env ≡ Reply m left
        → SpellsBody true m.framing m.body m.trailers m.body }
{}

/// Rules stepped through one by one come to what their run comes to, under each mode. So a run is what its first rule comes to, or what the
/// others make of what that one left.
pub fn stepping_is_the_run()
    ensures all { (size : ℕ) (rules : List Rule) (strict : Bool) (env : Env) → comes_by_steps size rules strict env ≡ walk size rules strict env }
    ensures first { (size : ℕ) (rule : Rule) (rules : List Rule) (strict : Bool) (env : Env) → walk size (rule ∷ rules) strict env ≡ comes_behind (course_of size rule strict env) (walk size rules) }
{}
