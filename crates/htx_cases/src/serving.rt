//! What serves in the run over loopback: the program's one call, with a configuration in memory, over sockets.
use case_sessions::served::{many_of, no_net};
use fcgi_link::AppNet;
use proxy_call::{Networks, Status, htx_proxy};
use px_link::{MemFiles, OutOfMemory};
use px_loop::RULES;
use px_loop::visit::{Ports, SERVE};
use px_pattern::RealPatterns;
use px_proxyproto::SendNet;
use px_sock::{RealNet, RealSink};
use std::alloc::Global;
use std::io::Eprint;
use std::net::Net;
use std::process::ExitCode;
use std::time::Clock;

/// The name of the file that holds the configuration.
const NAME: &str = "loop.cfg";

/// The configuration: it listens at one port of the loopback, and its server is at another.
fn configuration(alloc: Global, ports: Ports) -> Result<String, OutOfMemory> {
    let (front, back) = (ports.front, ports.back);
    let text = format!(in alloc;
        "listen p\n  bind 127.0.0.1:{front}\n  server s 127.0.0.1:{back}\n{RULES}"
    )?;
    Ok(text)
}

/// The words that serve two clients.
fn words(alloc: Global) -> Result<Vec<String>, OutOfMemory> {
    let mut words = Vec::new(alloc);
    for word in [SERVE, NAME, "2"] {
        words.push(String::from_str(alloc, word)?)?;
    }
    Ok(words)
}

/// The files of the run.
fn files(alloc: Global, ports: Ports) -> Result<MemFiles, OutOfMemory> {
    let text = configuration(alloc, ports)?;
    let mut files = MemFiles::new(alloc);
    files.add(NAME, text.as_bytes())?;
    Ok(files)
}

/// Serves two clients at one port, with the server at another. The process ends with the program's status.
pub fn serve<R: Net + Clock + Print + Eprint + AllocGlobal>(rt: &R, ports: Ports) -> ExitCode {
    let alloc = rt.alloc();
    let (Ok(words), Ok(mut files)) = (words(alloc), files(alloc, ports)) else {
        return ExitCode::from(Status::OutOfMemory.number());
    };
    let Ok(unused) = no_net(alloc) else {
        return ExitCode::from(Status::OutOfMemory.number());
    };
    let mut nets = Networks {
        serve: AppNet::new(alloc, SendNet::new(RealNet::new(alloc, rt))),
        run: many_of(alloc, unused, &[]),
    };
    let mut out = RealSink::new(rt);
    let mut pats = RealPatterns::new();
    let status = htx_proxy(alloc, &words, &mut files, &mut nets, &mut out, &mut pats);
    ExitCode::from(status.number())
}
