//! Why a rule was not read.
use cfg_expr::{TextFault, TextKind};
use px_link::OutOfMemory;
use std::alloc::AllocError;

/// What is wrong with the words of a rule.
#[derive(Clone, Copy)]
pub enum RuleKind {
    /// An unknown action, or one that rules of the direction do not have.
    Keyword,
    /// A missing, extra or malformed argument.
    Argument,
    /// A malformed expression or format, an unknown fetch or converter, or a fetch that the direction does not have.
    Expr,
    /// A malformed condition.
    Acl,
    /// A field that frames a message or speaks of its connection.
    FramingName,
    /// A part of a format, a converter or a test of a name beyond its limit.
    Limit,
}

/// Why a rule was not read.
#[derive(Clone, Copy)]
pub enum RuleFault {
    /// By what its words say.
    Refused(RuleKind),
    /// By the builder of patterns, which keeps the pattern.
    Pattern,
    /// The machine has no memory left.
    OutOfMemory,
}

/// The kind of a text's fault in a rule.
fn kind_of(kind: TextKind) -> RuleKind
    ensures { result ≡ kind_of kind }
{
    match kind {
        TextKind::Argument => RuleKind::Argument,
        TextKind::Expr => RuleKind::Expr,
        TextKind::Acl => RuleKind::Acl,
        TextKind::Limit => RuleKind::Limit,
    }
}

impl From<OutOfMemory> for RuleFault {
    ghost use Rattle.std.specs.Prelude.{◌≡◌};
    ghost use Rattle.cfg_parse.specs.declared.action.fault.RuleFault.TheVariants as faults;

    ghost from_gives = { λ _ fault. fault ≡ faults.OutOfMemory };

    fn from(_: OutOfMemory) -> Self {
        RuleFault::OutOfMemory
    }
}

impl From<AllocError> for RuleFault {
    ghost use Rattle.std.specs.Prelude.{◌≡◌};
    ghost use Rattle.cfg_parse.specs.declared.action.fault.RuleFault.TheVariants as faults;

    ghost from_gives = { λ _ fault. fault ≡ faults.OutOfMemory };

    fn from(_: AllocError) -> Self {
        RuleFault::OutOfMemory
    }
}

ghost use Rattle.std.specs.Prelude.{◌≡◌};
ghost use Rattle.cfg_parse.specs.Action.Faults.{kind_of};

impl From<TextFault> for RuleFault {
    ghost use Rattle.std.specs.Prelude.{◌≡◌};
    ghost use Rattle.cfg_parse.specs.Action.Faults.{fault_of};

    ghost from_gives = { λ text fault. fault ≡ fault_of text };

    fn from(fault: TextFault) -> Self {
        match fault {
            TextFault::Refused(kind) => RuleFault::Refused(kind_of(kind)),
            TextFault::Pattern => RuleFault::Pattern,
            TextFault::OutOfMemory => RuleFault::OutOfMemory,
        }
    }
}
