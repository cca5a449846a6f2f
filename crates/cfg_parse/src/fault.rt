//! Why a configuration, or one of its lines, is refused: the kinds, and how the faults of expressions, conditions and rules become them.
ghost use Rattle.std.specs.Prelude.{◌≡◌};
ghost use Rattle.cfg_parse.specs.Asking.{kind_of_text, kind_of_rule};

use crate::action::{RuleFault, RuleKind};
use cfg_expr::condition::{TextFault, TextKind};
use cfg_lex::LineFault;
use px_link::OutOfMemory;
use std::alloc::{AllocError, AllocFailed};

/// What is wrong in a configuration. The numbers are those of the product.
#[derive(Clone, Copy, Debug)]
pub enum CfgKind {
    /// A malformed word: a quote without end, `\x` without two hexadecimal digits, a backslash at the end of the
    /// line, an unescaped `$` in double quotes, a NUL.
    Word = 1,
    /// `frontend`, `backend`, a second `listen`, or a line before any section.
    Section = 2,
    /// A first word that the section does not know, or an unknown action.
    Keyword = 3,
    /// A missing, extra or malformed argument.
    Argument = 4,
    /// A malformed expression or format.
    Expr = 5,
    /// A malformed condition.
    Acl = 6,
    /// A pattern that could not be built.
    Pattern = 7,
    /// A rule that makes a field which frames a message.
    FramingName = 8,
    /// A number, a length or a count beyond its limit.
    Limit = 9,
    /// No `listen`, `bind` or `server`.
    Missing = 10,
    /// An option that the command doesn't take. No line is refused by it.
    Mode = 12,
}

/// Why a text is no configuration.
#[derive(Clone, Copy)]
pub enum CfgFault {
    /// The first refused line, counted from 1, and what is wrong there; line 0 is the text as a whole.
    Refused { line: u32, kind: CfgKind },
    /// The machine has no memory left.
    OutOfMemory,
}

/// Why a line is refused, or could not be read.
#[derive(Clone, Copy)]
pub enum LineRefusal {
    /// By its words.
    Refused(CfgKind),
    /// By the builder of patterns, which keeps the pattern.
    Pattern,
    OutOfMemory,
}

/// The kind of a test's or a condition's fault in a line.
fn kind_of_text(kind: TextKind) -> CfgKind
    ensures { result ≡ kind_of_text kind }
{
    match kind {
        TextKind::Argument => CfgKind::Argument,
        TextKind::Expr => CfgKind::Expr,
        TextKind::Acl => CfgKind::Acl,
        TextKind::Limit => CfgKind::Limit,
    }
}

/// The kind of a rule's fault in a line.
fn kind_of_rule(kind: RuleKind) -> CfgKind
    ensures { result ≡ kind_of_rule kind }
{
    match kind {
        RuleKind::Keyword => CfgKind::Keyword,
        RuleKind::Argument => CfgKind::Argument,
        RuleKind::Expr => CfgKind::Expr,
        RuleKind::Acl => CfgKind::Acl,
        RuleKind::FramingName => CfgKind::FramingName,
        RuleKind::Limit => CfgKind::Limit,
    }
}

impl From<TextFault> for LineRefusal {
    ghost use Rattle.std.specs.Prelude.{◌≡◌};
    ghost use Rattle.cfg_parse.specs.Asking.{refusal_of_text};

    ghost from_gives = { λ fault refusal. refusal ≡ refusal_of_text fault };

    fn from(fault: TextFault) -> Self {
        match fault {
            TextFault::Refused(kind) => LineRefusal::Refused(kind_of_text(kind)),
            TextFault::Pattern => LineRefusal::Pattern,
            TextFault::OutOfMemory => LineRefusal::OutOfMemory,
        }
    }
}

impl From<RuleFault> for LineRefusal {
    ghost use Rattle.std.specs.Prelude.{◌≡◌};
    ghost use Rattle.cfg_parse.specs.Asking.{refusal_of_rule};

    ghost from_gives = { λ fault refusal. refusal ≡ refusal_of_rule fault };

    fn from(fault: RuleFault) -> Self {
        match fault {
            RuleFault::Refused(kind) => LineRefusal::Refused(kind_of_rule(kind)),
            RuleFault::Pattern => LineRefusal::Pattern,
            RuleFault::OutOfMemory => LineRefusal::OutOfMemory,
        }
    }
}

impl From<OutOfMemory> for LineRefusal {
    ghost use Rattle.std.specs.Prelude.{◌≡◌};
    ghost use Rattle.cfg_parse.specs.declared.fault.LineRefusal.TheVariants as refusals;

    ghost from_gives = { λ _ fault. fault ≡ refusals.OutOfMemory };

    fn from(_: OutOfMemory) -> Self {
        LineRefusal::OutOfMemory
    }
}

impl From<AllocError> for LineRefusal {
    ghost use Rattle.std.specs.Prelude.{◌≡◌};
    ghost use Rattle.cfg_parse.specs.declared.fault.LineRefusal.TheVariants as refusals;

    ghost from_gives = { λ _ fault. fault ≡ refusals.OutOfMemory };

    fn from(_: AllocError) -> Self {
        LineRefusal::OutOfMemory
    }
}

impl From<LineFault> for LineRefusal {
    ghost use Rattle.std.specs.Prelude.{◌≡◌};
    ghost use Rattle.cfg_parse.specs.Reading.{refusal_of};

    ghost from_gives = { λ fault refusal. refusal ≡ refusal_of fault };

    fn from(fault: LineFault) -> Self {
        match fault {
            LineFault::Word => LineRefusal::Refused(CfgKind::Word),
            LineFault::Limit => LineRefusal::Refused(CfgKind::Limit),
            LineFault::OutOfMemory => LineRefusal::OutOfMemory,
        }
    }
}
