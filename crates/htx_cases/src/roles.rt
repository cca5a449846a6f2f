//! The roles of a run, each by three words: `serve FRONT BACK` and `play FRONT BACK`, of two ports.
use crate::serving::serve;
use px_loop::visit::{PLAY, Ports, SERVE, play};
use std::io::Eprint;
use std::net::Net;
use std::process::ExitCode;
use std::time::Clock;

/// Plays the role that these words name. Words that are no role are a failure, and nothing is done.
pub fn play_role<R: Net + Clock + Print + Eprint + AllocGlobal>(
    rt: &R,
    role: &str,
    front: &str,
    back: &str,
) -> ExitCode {
    let Some(ports) = Ports::read(front, back) else {
        return ExitCode::FAILURE;
    };
    if role == SERVE {
        return serve(rt, ports);
    }
    if role == PLAY {
        return play(rt, ports);
    }
    ExitCode::FAILURE
}
