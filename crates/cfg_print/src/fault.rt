//! Why no canonical text was written.
use px_link::OutOfMemory;

/// Why a configuration has no canonical text.
#[derive(Clone, Copy, Debug)]
pub enum PrintFault {
    /// The text would be longer than a configuration's text may be: in all, in a line, or in the number of its `acl` lines.
    TooLong,
    /// The machine has no memory left.
    OutOfMemory,
}

impl From<OutOfMemory> for PrintFault {
    ghost use Rattle.std.specs.Prelude.{◌≡◌};
    ghost use Rattle.cfg_print.specs.declared.fault.PrintFault.TheVariants as variants;

    ghost from_gives = { λ _ fault. fault ≡ variants.OutOfMemory };

    fn from(_: OutOfMemory) -> Self {
        PrintFault::OutOfMemory
    }
}
