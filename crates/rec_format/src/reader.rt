//! The reader of a record.
ghost use Rattle.std.specs.Prelude.{◌≡◌, ◌≤◌, ℕ, Ok, IfOk, IfErr};
ghost use Rattle.rec_format.specs.Read.{Gives, meaning_of};
ghost use Rattle.rec_format.specs.Parts.{Refuses};
ghost use Rattle.rec_format.specs.Recorded.{entries_of, in_format, record_of};

use crate::read::refusal;
use crate::record::{RecFault, RecKind, Record};
use crate::{counts, parts};
use std::alloc::Global;

/// The most bytes of a record.
const MOST_BYTES: u32 = 67108864;

/// The entries of a connection and of so many more, and the turns.
fn entries(
    alloc: Global,
    total: u32,
    version: u32,
    numbered: bool,
    more: u32,
    text: &[u8],
) -> Result<Record, RecFault>
    requires { more ≤ 1023 }
    ensures { Gives meaning_of result (entries_of total version numbered more text.now) }
{
    match parts::visits(alloc, total, numbered, more, text) {
        Err(fault) => Err(fault),
        Ok(read) => match parts::moves(alloc, total, numbered, more + 1, read.rest) {
            Err(fault) => Err(fault),
            Ok(turns) => Ok(Record {
                version,
                conns: read.conns,
                turns,
            }),
        },
    }
}

/// The record of this format behind its first line.
fn in_format(alloc: Global, total: u32, version: u32, text: &[u8]) -> Result<Record, RecFault>
    ensures { Gives meaning_of result (in_format total (version, text.now)) }
{
    if version == 1 {
        return entries(alloc, total, 1, false, 0, text);
    }
    match counts::connection_count(total, text) {
        Err(fault) => Err(fault),
        Ok((count, rest)) => entries(alloc, total, 2, true, count - 1, rest),
    }
}

/// Reads a record of either format. It is read in one pass, and each stream's bytes are copied once. A refusal names the
/// first byte of the line that is refused.
pub fn read_record(alloc: Global, bytes: &[u8]) -> Result<Record, RecFault>
    ensures read { IfOk result (λ found. record_of bytes.now ≡ Ok (meaning_of found)) }
    ensures refused { IfErr result (Refuses (record_of bytes.now)) }
{
    if bytes.len() > MOST_BYTES as usize {
        return Err(RecFault::Refused {
            place: MOST_BYTES,
            kind: RecKind::Limit,
        });
    }
    let total = bytes.len() as u32;
    match counts::format(bytes) {
        None => Err(refusal(total, bytes, RecKind::Header)),
        Some((version, rest)) => in_format(alloc, total, version, rest),
    }
}
