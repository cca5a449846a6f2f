//! The command that the words name, and what it writes.
ghost use Rattle.std.specs.Prelude.{◌≡◌, map, string_bytes};
ghost use Rattle.proxy_commands.specs.Ends.{RanAny, Writes, put};
ghost use Rattle.proxy_commands.specs.Files.{told_by};
ghost use Rattle.proxy_sessions.specs.Running.{Runs};
ghost use Rattle.proxy_sessions.specs.Serving.{Serves};
ghost use Rattle.proxy_commands.specs.Stops.{Answers, Input, given};

use crate::answer::{
    check, check_all, check_print, check_record, drill, explain, explain_blocks, replay, weave,
};
use crate::networks::Networks;
use crate::running::{RunCommand, run_many};
use crate::serving::{ServeCommand, serve};
use crate::stop::Stop;
use fcgi_link::AsksApplication;
use proxy_sessions::{Switch, Workers};
use px_command::{Asked, asked_by, help_of_text, help_text, version_text};
use px_link::{Bytes, Files, Link, Net, Sink, Waits, WaitsNet, Wakes};
use px_pattern::Patterns;
use px_proxyproto::{HasPair, Introduces};
use px_run::Nets;
use std::alloc::Global;

/// Writes what a command made.
fn write<'a, K: Sink>(made: Result<Bytes, Stop<'a>>, out: &mut K) -> Result<(), Stop<'a>>
    ensures { (input : Input) → Answers input made.entry → Writes input (put (K.faults out.old) (K.faults out.new) (K.written out.old) (K.written out.new)) result }
{
    let text = made?;
    out.write_all(text.as_slice())?;
    Ok(())
}

/// Runs the command that the words name.
pub fn run<
    'a,
    F: Files,
    H: Link + HasPair,
    N: Net<Link = H> + Introduces + AsksApplication,
    L: Waits + HasPair + Drop,
    M: WaitsNet<Link = L> + Introduces + AsksApplication + Drop,
    S: Nets<M> + Switch + Workers<M>,
    W: Wakes<M>,
    K: Sink,
    P: Patterns,
>(
    alloc: Global,
    words: &'a [String],
    files: &mut F,
    nets: &mut Networks<N, M, S, W>,
    out: &mut K,
    pats: &mut P,
) -> Result<(), Stop<'a>>
    ensures { RanAny (given (map string_bytes words.now) (F.files files.old) (told_by (P.refusals pats.old) (P.refusals pats.new) (P.last_refused pats.new)) (F.last_failed files.new) (F.faults files.old) (F.faults files.new))
        (put (K.faults out.old) (K.faults out.new) (K.written out.old) (K.written out.new)) (nets.new.serve ≡ nets.old.serve) (nets.new.run ≡ nets.old.run)
        (Serves H.seen H.wrote H.tells N.seen nets.old.serve nets.new.serve (K.faults out.old) (K.faults out.new) (K.written out.old) (K.written out.new))
        (Runs L.seen L.wrote L.tells M.seen (S.accepts_none nets.new.run.nets) nets.old.run.net nets.new.run.net (K.faults out.old) (K.faults out.new) (K.written out.old) (K.written out.new)) result }
{
    match asked_by(alloc, words)? {
        Asked::Check { cfg } => write(check(alloc, files, cfg, pats), out),
        Asked::CheckAll { cfg } => write(check_all(alloc, files, cfg, pats), out),
        Asked::CheckPrint { cfg } => write(check_print(alloc, files, cfg, pats), out),
        Asked::CheckRecord { rec } => write(check_record(alloc, files, rec), out),
        Asked::Replay { cfg, rec } => write(replay(alloc, files, cfg, rec, pats), out),
        Asked::Explain { cfg, rec } => write(explain(alloc, files, cfg, rec, pats), out),
        Asked::ExplainBlocks { cfg, rec } => {
            write(explain_blocks(alloc, files, cfg, rec, pats), out)
        }
        Asked::Weave { cfg, rec, cores } => {
            write(weave(alloc, files, cfg, rec, cores, pats), out)
        }
        Asked::Serve { cfg, connections } => {
            let asked = ServeCommand { cfg, connections };
            serve(alloc, files, &asked, &mut nets.serve, out, pats)
        }
        Asked::Run { cfg, options } => {
            let asked = RunCommand { cfg, options };
            run_many(alloc, files, &asked, &mut nets.run, out, pats)
        }
        Asked::Drill { seed, exchanges } => write(drill(alloc, seed, exchanges, pats), out),
        Asked::Help => write(Ok(help_text(alloc)?), out),
        Asked::HelpOf { command } => write(Ok(help_of_text(alloc, command)?), out),
        Asked::Version => write(Ok(version_text(alloc)?), out),
        Asked::Usage { text } => Err(Stop::Usage { text }),
    }
}
