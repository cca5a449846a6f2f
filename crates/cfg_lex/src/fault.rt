//! Why a line has no words.

use htx_model::OutOfMemory;
use std::alloc::{AllocError, AllocFailed};

/// Why a line has no words.
#[derive(Clone, Copy)]
pub enum LineFault {
    /// A quote without end, `\x` without two hexadecimal digits, a backslash at the end, an unescaped `$` in
    /// double quotes, or a NUL outside a comment.
    Word,
    /// More than 4096 bytes, or more than 64 words.
    Limit,
    /// The machine has no memory left.
    OutOfMemory,
}

impl From<OutOfMemory> for LineFault {
    ghost use Rattle.std.specs.Prelude.{◌≡◌};
    ghost use Rattle.cfg_lex.specs.declared.fault.LineFault.TheVariants as variants;

    ghost from_gives = { λ _ fault. fault ≡ variants.OutOfMemory };

    fn from(_: OutOfMemory) -> Self {
        LineFault::OutOfMemory
    }
}

impl From<AllocError> for LineFault {
    ghost use Rattle.std.specs.Prelude.{◌≡◌};
    ghost use Rattle.cfg_lex.specs.declared.fault.LineFault.TheVariants as variants;

    ghost from_gives = { λ _ fault. fault ≡ variants.OutOfMemory };

    fn from(_: AllocError) -> Self {
        LineFault::OutOfMemory
    }
}

impl<T: Drop> From<AllocFailed<T>> for LineFault {
    ghost use Rattle.std.specs.Prelude.{◌≡◌};
    ghost use Rattle.cfg_lex.specs.declared.fault.LineFault.TheVariants as variants;

    ghost from_gives = { λ _ fault. fault ≡ variants.OutOfMemory };

    fn from(_: AllocFailed<T>) -> Self {
        LineFault::OutOfMemory
    }
}
