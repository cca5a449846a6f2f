//! What the definitions say together.
ghost use Rattle.std.specs.Prelude.{◌≡◌, ℕ, List, length, Ok};
ghost use Rattle.rec_format.specs.Numbered.{IsNumbered};
ghost use Rattle.rec_format.specs.Recorded.{Recorded, record_of};
ghost use Rattle.rec_format.specs.Reports.{Reportable};
ghost use Rattle.rec_format.specs.Written.{IsWritable, written};

/// What `write_record` writes is read back as the same connections and turns, where they are within the limits of a record.
pub fn read_back()
    ensures { (r : Recorded) → IsWritable r → record_of (written r) ≡ Ok (record { version = 2; connections = r.connections; turns = r.turns }) }
{}

/// A record that is accepted can be reported in its format: one of the first format has one connection.
pub fn reportable()
    ensures { (text : List ℕ) (r : Recorded) → record_of text ≡ Ok r → Reportable r.version (length r.connections) }
{}

/// Each turn of a record that is accepted is one of its connections, of which there are at most 1024.
pub fn numbered()
    ensures { (text : List ℕ) (r : Recorded) → record_of text ≡ Ok r → IsNumbered r }
{}
