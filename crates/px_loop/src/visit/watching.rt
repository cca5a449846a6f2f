//! Both processes of a run, watched to their ends: neither is left running, whatever the other does.
use crate::visit::ports::Ports;
use crate::visit::{PLAY, SERVE};
use proxy_commands::Status;
use std::alloc::Global;
use std::io::Eprint;
use std::process::{Child, Command, ExitCode, OpenProcess, Processes, Stdio};
use std::time::{Clock, Duration};
use std::{io, thread};

/// How many pairs of ports are tried.
const ATTEMPTS: u32 = 8;

/// For how many rounds both are watched at most, for how many once one has failed, and how long a round is.
const ROUNDS: u32 = 4000;

const ROUNDS_LEFT: u32 = 200;

const PAUSE_MILLIS: u64 = 10;

/// What the program writes of two clients that were served to the end.
const LINES: &str = "connection 1: end done exchanges 1\nconnection 2: end done exchanges 1\n";

/// How far a process is.
#[derive(Clone, Copy, PartialEq, Eq)]
enum Course {
    Runs,
    EndedWell,
    Failed,
}

/// What a run came to.
#[derive(Clone, Copy, Debug, PartialEq, Eq)]
enum Outcome {
    /// Both visits went as they have to, and the program said so.
    Good,
    /// One of the ports was taken.
    Taken,
    /// Anything else.
    Wrong,
}

/// How far this process is.
fn course_of<P: OpenProcess>(child: &mut Child<P>) -> Course {
    match child.try_wait() {
        Ok(None) => Course::Runs,
        Ok(Some(status)) => {
            if status.success() {
                Course::EndedWell
            } else {
                Course::Failed
            }
        }
        Err(_) => Course::Failed,
    }
}

/// Waits until both have ended, but no longer than the rounds that there are.
fn watch<C: Clock, P: OpenProcess>(clock: &C, server: &mut Child<P>, player: &mut Child<P>) {
    let mut rounds_left = ROUNDS_LEFT;
    for _ in 0..ROUNDS {
        let (served, played) = (course_of(server), course_of(player));
        if served != Course::Runs && played != Course::Runs {
            return;
        }
        if served == Course::Failed || played == Course::Failed {
            if rounds_left == 0 {
                return;
            }
            rounds_left -= 1;
        }
        thread::sleep(clock, Duration::from_millis(PAUSE_MILLIS));
    }
}

/// The status of a process, which is killed where it hasn't ended. None where it was killed.
fn end<P: OpenProcess>(child: &mut Child<P>) -> Option<i32> {
    let _ = child.kill();
    match child.wait() {
        Ok(status) => status.code(),
        Err(_) => None,
    }
}

/// What a process wrote that has ended.
fn lines_of<P: OpenProcess>(alloc: Global, child: &mut Child<P>) -> io::Result<String> {
    match child.stdout.take() {
        Some(out) => io::read_to_string(alloc, out),
        None => Ok(String::new(alloc)),
    }
}

/// Starts the program of this name, for one of the two.
fn start<R: Processes + AllocGlobal>(
    rt: &R,
    program: &str,
    word: &str,
    ports: Ports,
    out: Stdio,
) -> io::Result<Child<R::Started>> {
    let alloc = rt.alloc();
    let (front, back) = (ports.front, ports.back);
    let mut command = Command::new(alloc, program)?;
    command.arg(word)?;
    command.arg(format!(in alloc; "{front}")?.as_str())?;
    command.arg(format!(in alloc; "{back}")?.as_str())?;
    command.stdin(Stdio::null());
    command.stdout(out);
    command.spawn(rt)
}

/// What statuses and lines come to.
fn outcome_of(served: Option<i32>, played: Option<i32>, lines: &str) -> Outcome {
    let taken = Some(i32::from(Status::NetFault.number()));
    if served == taken || played == taken {
        Outcome::Taken
    } else if served == Some(0) && played == Some(0) && lines == LINES {
        Outcome::Good
    } else {
        Outcome::Wrong
    }
}

/// Runs both at two ports.
fn run_at<R: Processes + Clock + Eprint + AllocGlobal>(
    rt: &R,
    program: &str,
    ports: Ports,
) -> io::Result<Outcome> {
    let mut server = start(rt, program, SERVE, ports, Stdio::piped())?;
    let mut player = match start(rt, program, PLAY, ports, Stdio::inherit()) {
        Ok(player) => player,
        Err(error) => {
            let _ = end(&mut server);
            return Err(error);
        }
    };
    watch(rt, &mut server, &mut player);
    let (played, served) = (end(&mut player), end(&mut server));
    let lines = lines_of(rt.alloc(), &mut server)?;
    let came = outcome_of(served, played, lines.as_str());
    if came != Outcome::Good {
        eprintln!(rt;
            "{came:?} at {ports:?}: what serves ended with {served:?}, what plays with {played:?}; it wrote {lines:?}"
        )?;
    }
    Ok(came)
}

/// Runs both by the program of this name, at other ports where one is taken. The answer is 0 where all went as it has to.
pub fn run_both<R: Processes + Clock + Eprint + AllocGlobal>(
    rt: &R,
    program: &str,
    process: u32,
) -> io::Result<ExitCode> {
    for attempt in 0..ATTEMPTS {
        match run_at(rt, program, Ports::of(process, attempt))? {
            Outcome::Good => return Ok(ExitCode::SUCCESS),
            Outcome::Taken => {}
            Outcome::Wrong => return Ok(ExitCode::FAILURE),
        }
    }
    Ok(ExitCode::FAILURE)
}
