//! What reads files: the first bytes of one, with a count of failed reads and the name of the last that failed.
ghost use Rattle.std.specs.Prelude.{◌≡◌, ℕ, List, Option, IfOk};
ghost use Rattle.px_link.specs.Told.{Counts, NamedBytes, Reads, last_name};

use crate::{Bytes, Fault};
use std::alloc::Global;

/// Files that are read from their first byte on.
pub trait Files {
    /// The files, where they are told.
    ghost files: { Self → Option (List NamedBytes) };

    /// How often a read failed, as a `u64` that stays at its last value.
    ghost faults: { Self → ℕ };

    /// The name of the last read that failed.
    ghost last_failed: { Self → List ℕ };

    /// The file's first `limit` bytes, or all if there are fewer.
    fn read_file(&mut self, alloc: Global, name: &str, limit: usize) -> Result<Bytes, Fault>
        ensures bytes { IfOk result (λ bytes. Reads (files self.old) name.now limit bytes) }
        ensures count { Counts (faults self.old) (faults self.new) result }
        ensures last { last_failed self.new ≡ last_name result name.now (last_failed self.old) }
        ensures files { files self.new ≡ files self.old };
}
