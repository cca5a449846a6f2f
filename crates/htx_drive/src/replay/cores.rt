//! What makes the core of each session.
ghost use Rattle.std.specs.Prelude.{◌≡◌, ◌≤◌, IfOk, false};
ghost use Rattle.session_core.specs.History.{nothing_yet};
ghost use Rattle.session_core.specs.Consequences.{IsTotal};
ghost use Rattle.session_core.specs.MeaningLaws.Bound.{IsBounded};

use crate::{Machine, OutOfMemory};
use std::alloc::Global;

/// Makes cores of one configuration.
pub trait Cores<C: Machine> {
    /// The configuration.
    ghost settings: { Self → C.Settings };

    /// Cores can be made of it.
    ghost ready: { Self → Type 0 };

    /// How many bytes a buffer of the configuration has.
    fn bufsize(&self) -> u32
        ensures { result ≡ (C.meaning (settings self.now)).limits.bufsize };

    /// A core for which nothing has happened yet.
    fn core(&self, alloc: Global) -> Result<C, OutOfMemory>
        requires ready { ready self.now }
        ensures stands { IfOk result (λ core. C.stands (settings self.now) core nothing_yet) }
        ensures idle { IfOk result (λ core. (C.seen core).serving ≡ false) }
        ensures sound { IfOk result (λ core. C.sound core) };

    ghost some_room: { (k : Self) → ready k → 1 ≤ (C.meaning (settings k)).limits.bufsize };

    ghost is_bounded: { (k : Self) → ready k → IsBounded (C.meaning (settings k)) };

    ghost is_total: { (k : Self) → ready k → IsTotal (C.meaning (settings k)) };
}
