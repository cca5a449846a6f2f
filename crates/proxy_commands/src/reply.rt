//! What is written where a command stops, and the status with it.
ghost use Rattle.std.specs.Prelude.{◌≡◌, Err};
ghost use Rattle.proxy_commands.specs.Ends.{Says, Tells, put};
ghost use Rattle.proxy_commands.specs.Stops.{Input, IsSilent, Replies, StopsBy, status_of};

use crate::lines::{file_line, record_line, refused_line};
use crate::status::Status;
use crate::stop::Stop;
use px_link::{Bytes, Sink};
use std::alloc::Global;

/// What is to be written with a status.
#[derive(Drop)]
pub struct Reply {
    pub status: Status,
    pub text: Bytes,
}

/// What is written for a stop, or the stop itself where nothing is.
fn reply_to<'a>(alloc: Global, stop: Stop<'a>) -> Result<Reply, Stop<'a>>
    ensures told { (input : Input) → StopsBy input stop.entry → Replies input result }
    ensures silent { IsSilent stop.entry → result ≡ Err stop.entry }
{
    match stop {
        Stop::Usage { text } => Ok(Reply {
            status: Status::Usage,
            text,
        }),
        Stop::Refused { line, kind } => Ok(Reply {
            status: Status::Config,
            text: refused_line(alloc, line, kind)?,
        }),
        Stop::RefusedAll { text } => Ok(Reply {
            status: Status::Config,
            text,
        }),
        Stop::Record { place, kind } => Ok(Reply {
            status: Status::Record,
            text: record_line(alloc, place, kind)?,
        }),
        Stop::File { name } => Ok(Reply {
            status: Status::FileFault,
            text: file_line(alloc, name)?,
        }),
        Stop::Output => Err(Stop::Output),
        Stop::Net => Err(Stop::Net),
        Stop::OutOfMemory => Err(Stop::OutOfMemory),
    }
}

/// Writes what is told of a stop, where there is something to tell.
fn say<'a, K: Sink>(alloc: Global, stop: Stop<'a>, out: &mut K) -> Result<Status, Stop<'a>>
    ensures told { (input : Input) → StopsBy input stop.entry
        → Says input (put (K.faults out.old) (K.faults out.new) (K.written out.old) (K.written out.new)) result }
    ensures silent { IsSilent stop.entry → (result ≡ Err stop.entry) × (out.new ≡ out.old) }
{
    let reply = reply_to(alloc, stop)?;
    out.write_all(reply.text.as_slice())?;
    Ok(reply.status)
}

/// Writes what is told of a stop, and gives the status that the program ends with.
pub fn end<'a, K: Sink>(alloc: Global, stop: Stop<'a>, out: &mut K) -> Status
    ensures told { (input : Input) → StopsBy input stop.entry
        → Tells input (put (K.faults out.old) (K.faults out.new) (K.written out.old) (K.written out.new)) result }
    ensures silent { IsSilent stop.entry → (result ≡ status_of stop.entry) × (out.new ≡ out.old) }
{
    match say(alloc, stop, out) {
        Ok(status) => status,
        Err(stop) => stop.status(),
    }
}
