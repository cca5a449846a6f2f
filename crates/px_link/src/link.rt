//! A stream of bytes in each direction.
ghost use Rattle.std.specs.Prelude.{◌≡◌, ℕ, ◌<◌, List, length};
ghost use Rattle.px_link.specs.Link.{Seen, Reads, Writes, with_close};

use crate::{Close, Failed, Fault};

/// A stream of bytes in each direction. Reads and writes count their faults apart.
pub trait Link {
    /// What is told of the link.
    ghost seen: { Self → Seen };

    /// These bytes were written, where that is told: a link that tells nothing has no such list.
    ghost wrote: { Self → List ℕ → Type 0 } = { λ _ _. ⊥ };

    /// Gives the next bytes; 0 is the end of the stream.
    fn read(&mut self, into: &mut [u8]) -> Result<usize, Failed>
        requires { 0 < length into.old }
        ensures reads { Reads (seen self.old) (seen self.new) into.new result }
        ensures wrote { (bytes : List ℕ) → wrote self.old bytes → wrote self.new bytes };

    /// Takes a front of the piece, of at least one byte, and answers its length.
    fn write(&mut self, piece: &[u8]) -> Result<usize, Fault>
        requires { 0 < length piece.now }
        ensures writes { Writes (wrote self.old) (wrote self.new) (seen self.old) (seen self.new) piece.now result };

    /// Ends the link.
    fn close(&mut self, how: Close)
        ensures seen { seen self.new ≡ with_close (seen self.old) how }
        ensures wrote { (bytes : List ℕ) → wrote self.old bytes → wrote self.new bytes };
}
