//! The connections of a record by a configuration, each over a core of its own. Where each client's stream begins with a header, the session is that of
//! its source, over the stream behind the header; a client without one isn't heard. Where servers are sent a header, it is that of the client's pair; where
//! they are an application, it is asked.
ghost use Rattle.std.specs.Prelude.{◌≡◌, ◌≤◌, length, drop, true, false, IfOk};
ghost use Rattle.http_rules.specs.Valid.{IsValid};
ghost use Rattle.rec_format.specs.Read.{visit};
ghost use Rattle.rec_format.specs.ReportParts.{out_of};
ghost use Rattle.htx_drive.specs.Replay.Streams.{visit_in};
ghost use Rattle.px_proxyproto.specs.Meeting.{source_in};
ghost use Rattle.px_proxyproto.specs.Nets.{heading_for};
ghost use Rattle.htx_drive.specs.Replay.Asked.{ReplaysAsking};
ghost use Rattle.forward_core.specs.Meaning.Product.{meaning_of};
ghost use Rattle.proxy_sessions.specs.Driven.{stands_for, seen_of};
ghost use Rattle.proxy_sessions.specs.Recorded.{ReplaysOver, ReplaysSending, ReplaysBy, visit_behind, unheard_out};

use crate::cores::RecordCores;
use forward_core::bounds::bounded;
use forward_core::request::laws::total;
use http_model::{Close, End, OutOfMemory};
use http_rules::Config;
use htx_drive::replay::{Asked, Replayer, Streams, replay_asking, replay_headed, replay_streams};
use px_link::{Application, Bytes, Turn};
use px_peer::{Pair, Peer};
use px_proxyproto::{Front, Heading, front_of, heading_for, source_of};
use rec_format::{Connection, Report, Sent, Stream};
use std::alloc::Global;

/// Whose session it is, and what its servers are sent first.
#[derive(Clone, Copy)]
struct Caller {
    peer: Option<Peer>,
    heading: Option<Heading>,
}

/// Who asks over a link of these two ends, by a configuration.
fn caller_of(config: &Config, pair: Option<Pair>) -> Caller
    ensures peer { result.peer ≡ source_in pair }
    ensures heading { result.heading ≡ heading_for config.now.send_proxy pair }
{
    Caller {
        peer: source_of(pair),
        heading: heading_for(config.send_proxy, pair),
    }
}

/// Runs the session of these streams, whose servers speak HTTP.
fn replay_sending(
    alloc: Global,
    config: &Config,
    caller: Caller,
    streams: Streams<'_>,
    turns: Vec<Turn>,
) -> Result<Report, OutOfMemory>
    requires valid { IsValid config.now }
    ensures { IfOk result (λ report. ReplaysSending caller.heading (record config.now { peer = caller.peer }) turns.items (visit_in streams.entry) (out_of report)) }
{
    bounded();
    total();
    let cores = RecordCores {
        config,
        window: config.limits.bufsize,
        peer: caller.peer,
    };
    match caller.heading {
        None => replay_streams(alloc, &cores, &config.server, streams, turns),
        Some(heading) => replay_headed(alloc, &cores, &config.server, streams, turns, heading),
    }
}

/// Runs the session of these streams, whose servers are this application.
fn replay_application(
    alloc: Global,
    config: &Config,
    application: &Application,
    peer: Option<Peer>,
    streams: Streams<'_>,
    turns: Vec<Turn>,
) -> Result<Report, OutOfMemory>
    requires valid { IsValid config.now }
    ensures { IfOk result (λ report. ReplaysAsking application.now config.now.limits.bufsize (meaning_of (record config.now { peer = peer })) (stands_for (record config.now { peer = peer })) seen_of turns.items (visit_in streams.entry) (out_of report)) }
{
    bounded();
    total();
    let cores = RecordCores {
        config,
        window: config.limits.bufsize,
        peer,
    };
    let asked = Asked {
        application: application.copy(alloc)?,
        limit: config.limits.bufsize,
    };
    replay_asking(alloc, &cores, &config.server, streams, turns, asked)
}

/// Runs the session of these streams.
fn replay_for(
    alloc: Global,
    config: &Config,
    caller: Caller,
    streams: Streams<'_>,
    turns: Vec<Turn>,
) -> Result<Report, OutOfMemory>
    requires valid { IsValid config.now }
    ensures { IfOk result (λ report. ReplaysOver config.now.application caller.heading (record config.now { peer = caller.peer }) turns.items (visit_in streams.entry) (out_of report)) }
{
    match &config.application {
        None => replay_sending(alloc, config, caller, streams, turns),
        Some(application) => {
            replay_application(alloc, config, application, caller.peer, streams, turns)
        }
    }
}

/// The bytes behind so many.
fn bytes_behind(bytes: &[u8], len: usize) -> &[u8]
    requires within { len ≤ length bytes.now }
    ensures { result.now ≡ drop len bytes.now }
{
    &bytes[len..]
}

/// The stream behind so many of its bytes.
fn stream_behind(alloc: Global, stream: &Stream, len: usize) -> Result<Stream, OutOfMemory>
    requires within { len ≤ length stream.now.bytes }
    ensures bytes { IfOk result (λ behind. behind.bytes ≡ drop len stream.now.bytes) }
    ensures ending { IfOk result (λ behind. behind.ending ≡ stream.now.ending) }
{
    let bytes = Bytes::copy(alloc, bytes_behind(stream.bytes.as_slice(), len))?;
    Ok(Stream {
        bytes,
        ending: stream.ending,
    })
}

/// Runs the session of a connection behind so many bytes of its client.
fn replay_behind(
    alloc: Global,
    config: &Config,
    caller: Caller,
    conn: &Connection,
    len: usize,
    turns: Vec<Turn>,
) -> Result<Report, OutOfMemory>
    requires valid { IsValid config.now }
    requires within { len ≤ length conn.now.client.bytes }
    ensures { IfOk result (λ report. ReplaysOver config.now.application caller.heading (record config.now { peer = caller.peer }) turns.items (visit_behind len (visit conn.now)) (out_of report)) }
{
    let client = stream_behind(alloc, &conn.client, len)?;
    let streams = Streams {
        client: &client,
        servers: &conn.servers,
    };
    let replayed = replay_for(alloc, config, caller, streams, turns);
    drop(client);
    replayed
}

/// The report of a client that isn't heard.
fn unheard(alloc: Global) -> Report
    ensures { out_of result ≡ unheard_out }
{
    Report {
        exchanges: 0,
        end: End::Closed,
        cut: None,
        client: Sent {
            bytes: Bytes::from(Vec::new(alloc)),
            close: Close::Failed,
        },
        servers: Vec::new(alloc),
    }
}

/// Runs a connection whose client's stream is to begin with a header.
fn replay_greeted(
    alloc: Global,
    config: &Config,
    conn: &Connection,
    turns: Vec<Turn>,
) -> Result<Report, OutOfMemory>
    requires valid { IsValid config.now }
    ensures { IfOk result (λ report. ReplaysBy true config.now turns.items (visit conn.now) (out_of report)) }
{
    match front_of(conn.client.bytes.as_slice()) {
        Front::Header(len, pair) => {
            replay_behind(alloc, config, caller_of(config, pair), conn, len, turns)
        }
        Front::Other => Ok(unheard(alloc)),
        Front::Part => Ok(unheard(alloc)),
    }
}

/// Runs a connection as it is.
fn replay_whole(
    alloc: Global,
    config: &Config,
    conn: &Connection,
    turns: Vec<Turn>,
) -> Result<Report, OutOfMemory>
    requires valid { IsValid config.now }
    ensures { IfOk result (λ report. ReplaysBy false config.now turns.items (visit conn.now) (out_of report)) }
{
    let streams = Streams {
        client: &conn.client,
        servers: &conn.servers,
    };
    let caller = Caller {
        peer: config.peer,
        heading: heading_for(config.send_proxy, None),
    };
    replay_for(alloc, config, caller, streams, turns)
}

/// Runs the connections of a record by a configuration.
#[derive(Drop)]
pub(crate) struct ConfigReplays<'c> {
    pub(crate) config: &'c Config,
}

impl<'c> Replayer for ConfigReplays<'c> {
    ghost use Rattle.proxy_sessions.specs.Recorded.{ReplaysFor};

    ghost ready = { λ replays. IsValid replays.config.now };

    ghost comes_to = { λ replays. ReplaysFor replays.config.now };

    fn run(
        &self,
        alloc: Global,
        conn: &Connection,
        turns: Vec<Turn>,
    ) -> Result<Report, OutOfMemory> {
        if self.config.accept_proxy {
            replay_greeted(alloc, self.config, conn, turns)
        } else {
            replay_whole(alloc, self.config, conn, turns)
        }
    }
}
