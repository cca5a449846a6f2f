//! The builder over `regex`, which keeps the last text that it refused.
ghost use Rattle.std.specs.Prelude.{◌≡◌, None, IsOk, IsErr, IsErrOf, IfOk, IsUtf8};
ghost use Rattle.px_pattern.specs.Meaning.{IsPattern};
ghost use Rattle.px_pattern.specs.Refusals.{CountsRefusals, IsRefusable, kept_after};

use crate::kept::KeptText;
use crate::patterns::Patterns;
use crate::{Pat, PatFault};
use regex::{Error, RegexBuilder};
use std::alloc::Global;
use std::marker::Model;

/// Builds patterns by `regex`. Each text that it refuses for another cause than memory is refused, and so is
/// each that is no UTF-8. A copy of the last refused text is kept; where there is no memory for it, the build
/// ends with want of memory and is no refusal.
pub struct RealPatterns {
    refusals: u64,
    last: Option<KeptText>,
}

impl Drop for RealPatterns {
    fn drop(self) {
        let RealPatterns {
            refusals: _,
            last: _,
        } = self;
    }
}

impl Model for RealPatterns {
    ghost use Rattle.px_pattern.specs.Keeping.{Builder, kept_of};

    ghost Value = { Builder };

    ghost view = { λ patterns. record { refusals = patterns.refusals; last = kept_of patterns.last } };
}

impl RealPatterns {
    /// One that has refused nothing.
    pub fn new() -> RealPatterns
        ensures refusals { result.refusals ≡ 0 }
        ensures last { result.last ≡ None }
    {
        RealPatterns {
            refusals: 0,
            last: None,
        }
    }

    /// Refuses a text, or finds no memory to keep it.
    pub(crate) fn refuse(
        &mut self,
        alloc: Global,
        text: &[u8],
        icase: bool,
    ) -> Result<Pat, PatFault>
        ensures refused { IsErr result }
        ensures counts { CountsRefusals self.old.refusals self.new.refusals result }
        ensures kept { self.new.last ≡ kept_after result text.now icase self.old.last }
    {
        let Ok(text) = Vec::from_slice(alloc, text) else {
            return Err(PatFault::OutOfMemory);
        };
        self.last = Some(KeptText { text, icase });
        self.refusals = self.refusals.saturating_add(1);
        Err(PatFault::Refused)
    }
}

impl Patterns for RealPatterns {
    ghost refusals = { λ patterns. patterns.refusals };

    ghost last_refused = { λ patterns. patterns.last };

    fn build(&mut self, alloc: Global, text: &[u8], icase: bool) -> Result<Pat, PatFault>
        ensures built { IfOk result (λ pat. pat ≡ record { text = text.now; icase = icase }) }
        ensures read { IfOk result IsPattern }
        ensures utf8 { IsOk result → IsUtf8 text.now }
        ensures refused { IsErrOf result PatFault.Refused → IsRefusable icase text.now }
        ensures counts { CountsRefusals self.old.refusals self.new.refusals result }
        ensures kept { self.new.last ≡ kept_after result text.now icase self.old.last }
    {
        let Ok(source) = std::str::from_utf8(text) else {
            return self.refuse(alloc, text, icase);
        };
        let builder = RegexBuilder::new(source).case_insensitive(icase);
        match builder.build_bytes(alloc) {
            Ok(regex) => match Pat::new(alloc, regex, icase) {
                Ok(pat) => Ok(pat),
                Err(_) => Err(PatFault::OutOfMemory),
            },
            Err(Error::OutOfMemory) => Err(PatFault::OutOfMemory),
            Err(_) => self.refuse(alloc, text, icase),
        }
    }
}
