//! Where bytes are written: all of a piece, or after an error a front of it, with a count of failed writes.
ghost use Rattle.std.specs.Prelude.{ℕ, List, Option, OnOk, OnErr};
ghost use Rattle.px_link.specs.Told.{Counts, Gains, GainsFront};

use crate::Fault;

/// Where bytes are written.
pub trait Sink {
    /// What was written, where it is told.
    ghost written: { Self → Option (List ℕ) };

    /// How often a write failed, as a `u64` that stays at its last value.
    ghost faults: { Self → ℕ };

    /// Writes the whole piece. After an error a front of it was written.
    fn write_all(&mut self, piece: &[u8]) -> Result<(), Fault>
        ensures ok { OnOk result (Gains (written self.old) (written self.new) piece.now) }
        ensures err { OnErr result (GainsFront (written self.old) (written self.new) piece.now) }
        ensures count { Counts (faults self.old) (faults self.new) result };
}
