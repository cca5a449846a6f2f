//! The program: hands the words of the command line, files on disk, nets over sockets and standard output to the one call of
//! `proxy_call`.
#![tactic(auto)]

mod crew;
mod nets;
mod worker;

use fcgi_link::{AppNet, AppWakes};
use nets::{OwnNet, RealNets};
use proxy_call::{Many, Networks, Status, htx_proxy};
use px_pattern::RealPatterns;
use px_proxyproto::{SendNet, SendWakes};
use px_sock::{ReadyNet, ReadyPoll, RealFiles, RealNet, RealSink};
use std::alloc::AllocError;
use std::env::Env;
use std::os::fd::AsFd;
use std::process::ExitCode;
use std::{env, io};

/// What stands for the words where one of them is no UTF-8: no command has it, so the answer is a usage text.
const NO_TEXT: &str = "\u{fffd}";

/// What `run` is handed.
type RealMany<'a> = Many<
    OwnNet<'a, HostRuntime>,
    RealNets<'a, HostRuntime>,
    AppWakes<SendWakes<ReadyPoll<'a, HostRuntime>>>,
>;

/// The words of the command line, without the program's name.
fn words_of<R: Env + AllocGlobal>(rt: &R) -> Result<Vec<String>, AllocError> {
    let mut words = Vec::new(rt.alloc());
    match env::args(rt) {
        Ok(args) => {
            for word in args.skip(1) {
                words.push(word)?;
            }
        }
        Err(fault) if fault.kind() == io::ErrorKind::OutOfMemory => return Err(AllocError),
        Err(_) => words.push(String::from_str(rt.alloc(), NO_TEXT)?)?,
    }
    Ok(words)
}

/// Whether the process is a worker, by its words, which are those of `run` then.
fn takes_worker(rt: &HostRuntime, words: &mut [String]) -> Result<bool, AllocError> {
    match words {
        [first, ..] if first.as_str() == worker::WORD => {
            *first = String::from_str(rt.alloc(), "run")?;
            Ok(true)
        }
        _ => Ok(false),
    }
}

/// What `run` is handed in a process that a user started.
fn first_many<'a>(rt: &'a HostRuntime) -> io::Result<RealMany<'a>> {
    let mut wakes = ReadyPoll::new(rt.alloc(), rt)?;
    wakes.watch_input();
    Ok(Many {
        net: AppNet::new(rt.alloc(), SendNet::new(ReadyNet::telling(rt.alloc(), rt))),
        nets: RealNets::new(rt),
        wakes: AppWakes::new(SendWakes::new(wakes)),
    })
}

/// What `run` is handed in a worker, whose standard input is the listener of the process that started it.
fn worker_many<'a>(rt: &'a HostRuntime) -> io::Result<RealMany<'a>> {
    let mut wakes = ReadyPoll::new(rt.alloc(), rt)?;
    wakes.watch_output();
    let listener = rt.stdin().as_fd().try_clone_to_owned()?;
    Ok(Many {
        net: AppNet::new(
            rt.alloc(),
            SendNet::new(ReadyNet::handed(rt.alloc(), rt, listener)),
        ),
        nets: RealNets::of_worker(rt),
        wakes: AppWakes::new(SendWakes::new(wakes)),
    })
}

/// What the program comes to, with these words.
fn status_of(rt: &HostRuntime, words: &[String], is_worker: bool) -> Status {
    let made = if is_worker {
        worker_many(rt)
    } else {
        first_many(rt)
    };
    let Ok(run) = made else {
        return Status::NetFault;
    };
    let mut nets = Networks {
        serve: AppNet::new(rt.alloc(), SendNet::new(RealNet::telling(rt.alloc(), rt))),
        run,
    };
    let mut files = RealFiles::new(rt.alloc(), rt);
    let mut out = RealSink::new(rt);
    let mut pats = RealPatterns::new();
    htx_proxy(
        rt.alloc(),
        words,
        &mut files,
        &mut nets,
        &mut out,
        &mut pats,
    )
}

fn main(rt: HostRuntime) -> ExitCode {
    let Ok(mut words) = words_of(&rt) else {
        return ExitCode::from(Status::OutOfMemory.number());
    };
    let Ok(is_worker) = takes_worker(&rt, &mut words) else {
        return ExitCode::from(Status::OutOfMemory.number());
    };
    ExitCode::from(status_of(&rt, &words, is_worker).number())
}
