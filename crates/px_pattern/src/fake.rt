//! A builder for tests, which refuses one build by its number.
ghost use Rattle.std.specs.Prelude.{◌≡◌, ◌⊎◌, None, IfOk, IsErr, IsErrOf};
ghost use Rattle.px_pattern.specs.Meaning.{IsPattern};
ghost use Rattle.px_pattern.specs.Refusals.{CountsRefusals, IsRefusable, kept_after};
ghost use Rattle.px_pattern.specs.Keeping.{next_build};

use crate::patterns::Patterns;
use crate::real::RealPatterns;
use crate::{Pat, PatFault};
use std::alloc::Global;
use std::marker::Model;

/// Refuses one build by its number, for tests; each other build is as that of `RealPatterns`.
pub struct FakePatterns {
    real: RealPatterns,
    refuse: u32,
    builds: u32,
}

impl Drop for FakePatterns {
    fn drop(self) {
        let FakePatterns {
            real: _,
            refuse: _,
            builds: _,
        } = self;
    }
}

impl Model for FakePatterns {
    ghost use Rattle.px_pattern.specs.Keeping.{NumberedBuilder};

    ghost Value = { NumberedBuilder };

    ghost view = { λ patterns. record { refuse = patterns.refuse; builds = patterns.builds; refusals = patterns.real.refusals; last = patterns.real.last } };
}

impl FakePatterns {
    /// One that will refuse the build of this number, counted from 1; 0 for none.
    pub fn new(refuse: u32) -> FakePatterns
        ensures refuse { result.refuse ≡ refuse }
        ensures builds { result.builds ≡ 0 }
        ensures refusals { result.refusals ≡ 0 }
        ensures last { result.last ≡ None }
    {
        FakePatterns {
            real: RealPatterns::new(),
            refuse,
            builds: 0,
        }
    }
}

impl Patterns for FakePatterns {
    ghost refusals = { λ patterns. patterns.refusals };

    ghost last_refused = { λ patterns. patterns.last };

    fn build(&mut self, alloc: Global, text: &[u8], icase: bool) -> Result<Pat, PatFault>
        ensures built { IfOk result (λ pat. pat ≡ record { text = text.now; icase = icase }) }
        ensures read { IfOk result IsPattern }
        ensures by_number { next_build self.old.builds ≡ self.old.refuse → IsErr result }
        ensures refused { IsErrOf result PatFault.Refused → (next_build self.old.builds ≡ self.old.refuse) ⊎ IsRefusable icase text.now }
        ensures counts { CountsRefusals self.old.refusals self.new.refusals result }
        ensures kept { self.new.last ≡ kept_after result text.now icase self.old.last }
        ensures builds { self.new.builds ≡ next_build self.old.builds }
        ensures refuse { self.new.refuse ≡ self.old.refuse }
    {
        self.builds = self.builds.saturating_add(1);
        if self.builds == self.refuse {
            return self.real.refuse(alloc, text, icase);
        }
        self.real.build(alloc, text, icase)
    }
}
