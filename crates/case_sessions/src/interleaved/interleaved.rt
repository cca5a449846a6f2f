//! How many cores are out behind turns of several connections.
ghost use Rattle.std.specs.Prelude.{◌<◌};
ghost use Rattle.http_rules.specs.Valid.{IsValid};
ghost use Rattle.rec_format.specs.Numbered.{IsNumbered};
ghost use Rattle.rec_format.specs.Read.{meaning_of};

use crate::interleaved::conns::conns_of;
use crate::interleaved::cores::SharedCores;
use crate::interleaved::turns::TurnsLeft;
use crate::session::record_in;
use crate::windows::windows::config_in;
use case_rows::{Answers, Fault, Row, count_of, decoded, place_of};
use forward_core::bounds::bounded;
use forward_core::request::laws::total;
use http_rules::Config;
use htx_drive::weave::{WeaveFault, pool_of, weave};
use rec_format::Record;
use std::alloc::Global;

/// Runs the connections of a record over so many cores. Says why they were given up, or that they ended, and how many cores are out then.
fn say_woven(
    alloc: Global,
    config: &Config,
    recorded: &Record,
    sets: u32,
    budget: u64,
    answers: &mut Answers,
) -> Result<(), Fault>
    requires valid { IsValid config.now }
    requires some { 0 < sets }
    requires numbered { IsNumbered (meaning_of recorded.now) }
{
    bounded();
    total();
    let mut pool = pool_of(alloc, &SharedCores { config }, sets)?;
    let mut conns = conns_of(alloc, &recorded.conns)?;
    let mut turns = TurnsLeft {
        turns: &recorded.turns,
    };
    match weave(&mut pool, &config.server, &mut conns, &mut turns, budget) {
        Ok(()) => answers.say(b"ended"),
        Err(WeaveFault::Spent) => answers.say(b"Spent"),
        Err(WeaveFault::OutOfMemory) => answers.say(b"OutOfMemory"),
    }
    answers.count(pool.out() as u64);
    Ok(())
}

/// NAME, the file of a configuration, a record, how many cores its connections share, the budget, and what comes of it.
fn interleaved(alloc: Global, row: Row<'_>) -> Result<Vec<u8>, Fault> {
    let cfg = decoded(alloc, row.field(1).as_bytes())?;
    let record = record_in(alloc, &decoded(alloc, row.field(2).as_bytes())?)?;
    let sets = place_of(row.field(3).as_bytes())?;
    let budget = count_of(row.field(4).as_bytes())? as u64;
    if sets == 0 {
        return Err(Fault::Malformed);
    }
    let mut answers = Answers::new(alloc);
    let config = config_in(alloc, &cfg)?;
    let said = say_woven(alloc, &config, &record, sets, budget, &mut answers);
    drop(config);
    said?;
    answers.into_text()
}

/// What a row of `interleaved` comes to; none of another kind.
pub fn made(alloc: Global, kind: &str, row: Row<'_>) -> Option<Result<Vec<u8>, Fault>> {
    match kind {
        "interleaved" => Some(interleaved(alloc, row)),
        _ => None,
    }
}
