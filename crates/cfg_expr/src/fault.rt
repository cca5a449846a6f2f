//! Why a text was not read.

use px_link::OutOfMemory;

/// What is wrong with a text, or with the words of a line.
#[derive(Clone, Copy)]
pub enum TextKind {
    /// A missing, extra or malformed argument of a line.
    Argument,
    /// A malformed expression or format, an unknown fetch or converter, or a fetch that the direction does not have.
    Expr,
    /// A malformed test or condition, or a name that cannot be used or declared there.
    Acl,
    /// A count beyond its limit.
    Limit,
}

/// Why a text was not read.
#[derive(Clone, Copy)]
pub enum TextFault {
    /// It is refused by what it says.
    Refused(TextKind),
    /// A pattern of it was refused by the builder, which keeps that pattern.
    Pattern,
    /// The machine has no memory left.
    OutOfMemory,
}

impl From<OutOfMemory> for TextFault {
    ghost use Rattle.std.specs.Prelude.{◌≡◌};
    ghost use Rattle.cfg_expr.specs.declared.fault.TextFault.TheVariants as faults;

    ghost from_gives = { λ _ fault. fault ≡ faults.OutOfMemory };

    fn from(_: OutOfMemory) -> Self {
        TextFault::OutOfMemory
    }
}
