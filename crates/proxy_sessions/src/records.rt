//! The sessions of a record, and a generated one.
ghost use Rattle.std.specs.Prelude.{◌<◌, ◌≤◌, length, vec_len, IfOk};
ghost use Rattle.http_rules.specs.Valid.{IsValid};
ghost use Rattle.forward_core.specs.Meaning.Product.{meaning_of};
ghost use Rattle.rec_format.specs.Numbered.{IsNumbered};
ghost use Rattle.rec_format.specs.Read as read;
ghost use Rattle.rec_format.specs.ReportParts.{out_of};
ghost use Rattle.rec_format.specs.Reports.{Reportable};
ghost use Rattle.htx_drive.specs.Replay.Replayed.{Replays};
ghost use Rattle.htx_drive.specs.Replay.Written.{IsReportOf, IsReplayOf, IsDrillOf};
ghost use Rattle.htx_drive.specs.Weave.Recorded.{IsWeaveOf};
ghost use Rattle.proxy_sessions.specs.Driven.{stands_at, stands_for, seen_of};
ghost use Rattle.proxy_sessions.specs.Recorded.{ReplaysFor};

use crate::cores::RecordCores;
use crate::replaying::ConfigReplays;
use forward_core::bounds::bounded;
use forward_core::request::laws::total;
use http_model::OutOfMemory;
use http_rules::Config;
use htx_drive::replay::{drill_text, replay_connection, report_text};
use htx_drive::weave::weave_text;
use px_link::{Bytes, Turn};
use rec_format::{Connection, Record, Report};
use std::alloc::Global;

/// The report of a record, in its format: the sessions of its connections are run one after another, each by the turns of its number. Want of
/// memory is the only error.
pub fn replay_report(
    alloc: Global,
    config: &Config,
    recorded: &Record,
) -> Result<Bytes, OutOfMemory>
    requires valid { IsValid config.now }
    requires reportable { Reportable recorded.now.version (vec_len recorded.now.conns) }
    ensures { IfOk result (IsReportOf (ReplaysFor config.now) (read.meaning_of recorded.now)) }
{
    let replays = ConfigReplays { config };
    report_text(alloc, &replays, recorded)
}

/// The report of a record, always in the second format: its connections run over so many cores that they share, interleaved by the record's turns. With a core
/// for each connection it is that of `replay_report` in this format. Want of memory is the only error.
pub fn weave_report(
    alloc: Global,
    config: &Config,
    recorded: &Record,
    sets: u32,
) -> Result<Bytes, OutOfMemory>
    requires valid { IsValid config.now }
    requires some { 0 < sets }
    requires numbered { IsNumbered (read.meaning_of recorded.now) }
    ensures woven { IfOk result (IsWeaveOf (meaning_of config.now) (stands_for config.now) seen_of (read.meaning_of recorded.now)) }
    ensures at_once { length (read.meaning_of recorded.now).connections ≤ sets → IfOk result (IsReplayOf (meaning_of config.now) (stands_for config.now) seen_of (record (read.meaning_of recorded.now) { version = 2 })) }
{
    bounded();
    total();
    let cores = RecordCores {
        config,
        window: config.limits.bufsize,
        peer: config.peer,
    };
    weave_text(alloc, &cores, &config.server, recorded, sets)
}

/// What the session of one connection comes to with output windows of this size and these turns. Want of memory is the only error.
pub fn session_report(
    alloc: Global,
    config: &Config,
    window: u32,
    conn: &Connection,
    turns: Vec<Turn>,
) -> Result<Report, OutOfMemory>
    requires valid { IsValid config.now }
    requires window { 64 ≤ window }
    ensures { IfOk result (λ report. Replays (meaning_of config.now) (stands_at config.now window) seen_of turns.items (read.visit conn.now) (out_of report)) }
{
    bounded();
    total();
    let cores = RecordCores {
        config,
        window,
        peer: config.peer,
    };
    replay_connection(alloc, &cores, &config.server, conn, turns)
}

/// The four lines of the generated session of a seed and a number of exchanges. Want of memory is the only error.
pub fn drill_lines(
    alloc: Global,
    config: &Config,
    seed: u32,
    exchanges: u32,
) -> Result<Bytes, OutOfMemory>
    requires valid { IsValid config.now }
    ensures { IfOk result (IsDrillOf (meaning_of config.now) (stands_for config.now) seen_of seed exchanges) }
{
    bounded();
    total();
    let cores = RecordCores {
        config,
        window: config.limits.bufsize,
        peer: config.peer,
    };
    drill_text(alloc, &cores, &config.server, seed, exchanges)
}
