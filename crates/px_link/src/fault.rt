//! Why a call of an object that is handed in did not do what it was asked to: the object counted it, or memory ran out.

use http_model::OutOfMemory;
use std::alloc::AllocError;

/// A call did not do what it was asked to, and its object has counted that.
#[derive(Clone, Copy)]
pub struct Failed;

/// Why a call did not do what it was asked to.
#[derive(Clone, Copy)]
pub enum Fault {
    /// The object could not, and has counted that.
    Failed,
    /// The machine has no memory left. No object counts that as a fault.
    OutOfMemory,
}

impl From<Failed> for Fault {
    ghost use Rattle.std.specs.Prelude.{◌≡◌};
    ghost use Rattle.px_link.specs.declared.fault.Fault.TheVariants as variants;

    ghost from_gives = { λ _ fault. fault ≡ variants.Failed };

    fn from(_: Failed) -> Self {
        Fault::Failed
    }
}

impl From<OutOfMemory> for Fault {
    ghost use Rattle.std.specs.Prelude.{◌≡◌};
    ghost use Rattle.px_link.specs.declared.fault.Fault.TheVariants as variants;

    ghost from_gives = { λ _ fault. fault ≡ variants.OutOfMemory };

    fn from(_: OutOfMemory) -> Self {
        Fault::OutOfMemory
    }
}

impl From<AllocError> for Fault {
    ghost use Rattle.std.specs.Prelude.{◌≡◌};
    ghost use Rattle.px_link.specs.declared.fault.Fault.TheVariants as variants;

    ghost from_gives = { λ _ fault. fault ≡ variants.OutOfMemory };

    fn from(_: AllocError) -> Self {
        Fault::OutOfMemory
    }
}
