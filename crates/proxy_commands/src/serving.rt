//! `serve`: clients of a configuration in a file.
ghost use Rattle.std.specs.Prelude.{◌≡◌, ℕ, List};
ghost use Rattle.px_command.specs.Command.{IsServe};
ghost use Rattle.proxy_commands.specs.Ends.{Ran, put};
ghost use Rattle.proxy_commands.specs.Files.{told_by};
ghost use Rattle.proxy_sessions.specs.Serving.{Serves};
ghost use Rattle.proxy_commands.specs.Stops.{given};

use crate::answer::configuration;
use crate::stop::Stop;
use fcgi_link::AsksApplication;
use proxy_sessions::serve_clients;
use px_link::{Files, Link, Net, Sink};
use px_pattern::Patterns;
use px_proxyproto::{HasPair, Introduces};
use std::alloc::Global;

/// What the words of `serve` say.
#[derive(Clone, Copy)]
pub struct ServeCommand<'a> {
    /// The name of the configuration's file.
    pub cfg: &'a str,
    pub connections: u32,
}

/// Serves so many connections by the configuration in a file, and writes their lines.
pub fn serve<
    'a,
    F: Files,
    H: Link + HasPair,
    N: Net<Link = H> + Introduces + AsksApplication,
    K: Sink,
    P: Patterns,
>(
    alloc: Global,
    files: &mut F,
    asked: &ServeCommand<'a>,
    net: &mut N,
    out: &mut K,
    pats: &mut P,
) -> Result<(), Stop<'a>>
    ensures { (words : List (List ℕ)) → IsServe words asked.now.cfg.now asked.now.connections
        → Ran (given words (F.files files.old) (told_by (P.refusals pats.old) (P.refusals pats.new) (P.last_refused pats.new)) (F.last_failed files.new) (F.faults files.old) (F.faults files.new))
        (put (K.faults out.old) (K.faults out.new) (K.written out.old) (K.written out.new)) (net.new ≡ net.old)
        (Serves H.seen H.wrote H.tells N.seen net.old net.new (K.faults out.old) (K.faults out.new) (K.written out.old) (K.written out.new)) result }
{
    let cfg = configuration(alloc, files, asked.cfg, pats)?;
    serve_clients(alloc, &cfg, asked.connections, net, out)?;
    Ok(())
}
