//! Records that rows and files hold.
ghost use Rattle.std.specs.Prelude.{IfOk};
ghost use Rattle.rec_format.specs.Numbered.{IsNumbered};
ghost use Rattle.rec_format.specs.Read.{meaning_of};

use case_rows::Fault;
use rec_format::laws::numbered;
use rec_format::{RecFault, Record, read_record};
use std::alloc::Global;

/// The record of a text that is accepted.
pub fn record_in(alloc: Global, text: &[u8]) -> Result<Record, Fault>
    ensures numbered { IfOk result (λ read. IsNumbered (meaning_of read)) }
{
    numbered();
    match read_record(alloc, text) {
        Ok(record) => Ok(record),
        Err(RecFault::Refused { .. }) => Err(Fault::Malformed),
        Err(RecFault::OutOfMemory) => Err(Fault::OutOfMemory),
    }
}
