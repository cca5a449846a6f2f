//! A chain of filters over a body.
ghost use Rattle.std.specs.Prelude.{◌≡◌, ◌≤◌, ◌<◌, ◌++◌, length, take, Bool, true, false, List, ℕ, [], IfOk};
ghost use Rattle.body_filter.specs.Filter.{filtered, is_over, ended};
ghost use Rattle.body_filter.specs.Valid.{AreFilters};
ghost use Rattle.body_filter.specs.Chain.{HasFiltered, HasFilteredAll};
ghost use Rattle.body_filter.specs.declared.filter_spec.FilterSpec.{FilterSpec};
ghost use Rattle.body_filter.specs.declared.filter_spec.FedState.{FedState};

use crate::filter_spec::{Fed, FilterSpec};
use crate::line::{Line, Machine};
use crate::source::Source;
use px_link::OutOfMemory;
use std::alloc::Global;

/// A chain of at most eight filters, and how far it came in a body. The filters stand in memory of their own, so that what has a chain, or room
/// for one, is small: they have 1,600 bytes.
pub struct Chain {
    line: Box<Line<Line<Line<Line<Line<Line<Line<Source>>>>>>>>,
}

impl Drop for Chain {
    fn drop(self) {
        let Chain { line: _ } = self;
    }
}

impl Chain {
    /// A chain of these filters, in front of a body. This call alone takes memory.
    pub fn open(alloc: Global, filters: &[FilterSpec]) -> Result<Chain, OutOfMemory>
        requires few { length filters.now ≤ 8 }
        requires valid { AreFilters filters.now }
        ensures { IfOk result (λ chain. HasFiltered filters.now [] [] chain) }
    {
        let line = Line::open(alloc, filters)?;
        Ok(Chain {
            line: Box::new(alloc, line)?,
        })
    }

    /// Begins a new body.
    pub fn reset(&mut self)
        ensures going { (filters : List FilterSpec) (used given : List ℕ) → HasFiltered filters used given self.old → HasFiltered filters [] [] self.new }
        ensures ended { (filters : List FilterSpec) (body given : List ℕ) → HasFilteredAll filters body given self.old → HasFiltered filters [] [] self.new }
    {
        self.line.reset();
    }

    /// Takes the next bytes of a body, and gives what they bring. With `last` nothing follows the piece; from then on a
    /// caller hands in what is left of the piece, with `last`, until the answer is Over or Refused.
    pub fn feed(&mut self, piece: &[u8], last: bool, out: &mut [u8]) -> Fed
        requires { 0 < length out.old }
        ensures used { result.used ≤ length piece.now }
        ensures given { result.given ≤ length out.new }
        // The bytes used so far have given the bytes given so far, whatever follows.
        ensures goes_on { (filters : List FilterSpec) (used given : List ℕ) → HasFiltered filters used given self.old → (last ≡ true → result.used < length piece.now)
            → HasFiltered filters (used ++ take result.used piece.now) (given ++ take result.given out.new) self.new }
        // With its last byte the body is whole.
        ensures ends { (filters : List FilterSpec) (used given : List ℕ) → HasFiltered filters used given self.old → last ≡ true → result.used ≡ length piece.now
            → HasFilteredAll filters (used ++ piece.now) (given ++ take result.given out.new) self.new }
        ensures flushes { (filters : List FilterSpec) (body given : List ℕ) → HasFilteredAll filters body given self.old → last ≡ true → length piece.now ≡ 0
            → HasFilteredAll filters body (given ++ take result.given out.new) self.new }
        // A refusal that is told before that holds of each continuation; before that no body is over.
        ensures decided { (filters : List FilterSpec) (used given : List ℕ) → HasFiltered filters used given self.new → is_over result.state ≡ true
            → (whole : Bool) (rest : List ℕ) → filtered filters whole (used ++ rest) ≡ record { output = given; state = result.state } }
        ensures early { (filters : List FilterSpec) (used given : List ℕ) → HasFiltered filters used given self.new → result.state ≡ FedState.Over → ⊥ }
        ensures over { (filters : List FilterSpec) (body given : List ℕ) → HasFilteredAll filters body given self.new → is_over result.state ≡ true
            → filtered filters true body ≡ record { output = given; state = result.state } }
        // Nothing is done only where nothing came, and then all is given but what the definition keeps back.
        ensures idle { result.state ≡ FedState.Going → result.used ≡ 0 → result.given ≡ 0 → (piece.now ≡ []) × (last ≡ false) }
        ensures all { result.state ≡ FedState.Going → result.used ≡ 0 → result.given ≡ 0 → (filters : List FilterSpec) (used given : List ℕ) → HasFiltered filters used given self.new
            → filtered filters false used ≡ record { output = given; state = FedState.Going } }
    {
        self.line.feed(piece, last, out)
    }
}
