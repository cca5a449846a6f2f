//! The turns of many connections in one list.
ghost use Rattle.std.specs.Prelude.{◌≡◌, List, ℕ};
ghost use Rattle.px_link.specs.Turns.{first_of, rest_of};

use crate::Turn;

/// Turns of many connections, each with the number of its own, counted from 1.
pub trait Weft {
    ghost use Rattle.px_link.specs.declared.turns.Turn.{Turn};

    /// The turns that were not given yet.
    ghost left: { Self → List (ℕ × Turn) };

    /// The next turn; none once all were given.
    fn next(&mut self) -> Option<(u32, Turn)>
        ensures first { result ≡ first_of (left self.old) }
        ensures rest { left self.new ≡ rest_of (left self.old) };
}
