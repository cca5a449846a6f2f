//! `run`: many clients of a configuration in a file, at once.
ghost use Rattle.std.specs.Prelude.{◌≡◌, ℕ, List};
ghost use Rattle.px_command.specs.Command.{IsRun};
ghost use Rattle.proxy_commands.specs.Ends.{RanRun, put};
ghost use Rattle.proxy_commands.specs.Files.{told_by};
ghost use Rattle.proxy_sessions.specs.Running.{Runs};
ghost use Rattle.proxy_commands.specs.Stops.{given};

use crate::answer::configuration;
use crate::stop::Stop;
use fcgi_link::AsksApplication;
use proxy_sessions::{Many, Switch, Workers, run_clients};
use px_command::RunOptions;
use px_link::{Files, Sink, Waits, WaitsNet, Wakes};
use px_pattern::Patterns;
use px_proxyproto::{HasPair, Introduces};
use px_run::Nets;
use std::alloc::Global;

/// What the words of `run` say.
#[derive(Clone, Copy)]
pub struct RunCommand<'a> {
    /// The name of the configuration's file.
    pub cfg: &'a str,
    pub options: RunOptions,
}

/// Serves connections at once by the configuration in a file, and writes their lines.
pub fn run_many<
    'a,
    F: Files,
    L: Waits + HasPair + Drop,
    N: WaitsNet<Link = L> + Introduces + AsksApplication + Drop,
    S: Nets<N> + Switch + Workers<N>,
    W: Wakes<N>,
    K: Sink,
    P: Patterns,
>(
    alloc: Global,
    files: &mut F,
    asked: &RunCommand<'a>,
    many: &mut Many<N, S, W>,
    out: &mut K,
    pats: &mut P,
) -> Result<(), Stop<'a>>
    ensures { (words : List (List ℕ)) → IsRun words asked.now.cfg.now asked.now.options
        → RanRun (given words (F.files files.old) (told_by (P.refusals pats.old) (P.refusals pats.new) (P.last_refused pats.new)) (F.last_failed files.new) (F.faults files.old) (F.faults files.new))
        (put (K.faults out.old) (K.faults out.new) (K.written out.old) (K.written out.new)) (many.new ≡ many.old)
        (Runs L.seen L.wrote L.tells N.seen (S.accepts_none many.new.nets) many.old.net many.new.net (K.faults out.old) (K.faults out.new) (K.written out.old) (K.written out.new)) result }
{
    let cfg = configuration(alloc, files, asked.cfg, pats)?;
    run_clients(alloc, &cfg, asked.options, many, out)?;
    Ok(())
}
