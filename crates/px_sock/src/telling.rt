//! Failures of a net's calls, told on standard error: which call, at which address, and why. No contract says what is written there.
ghost use Rattle.std.specs.Prelude.{◌≡◌};

use px_link::Address;
use std::io;
use std::io::{Eprint, ErrorKind};

/// Whether a net tells its failures.
#[derive(Clone, Copy)]
pub enum Telling {
    Nothing,
    Failures,
}

/// A call of a net, with its address.
#[derive(Clone, Copy)]
pub enum Call<'a> {
    Bind(&'a Address),
    Accept,
    Connect(&'a Address),
}

/// The host of an address as it is shown.
fn shown_host(address: &Address) -> &str {
    match str::from_utf8(address.host.as_slice()) {
        Ok(host) => host,
        Err(_) => "a host that is no UTF-8",
    }
}

/// Writes a line on a call at an address, whose host stands in brackets where it has a colon.
fn say_at<R: Eprint>(rt: &R, what: &str, at: &Address, error: &io::Error) -> io::Result<()> {
    let host = shown_host(at);
    let port = at.port;
    if at.host.as_slice().contains(&b':') {
        return eprintln!(rt; "htx-proxy: cannot {what} [{host}]:{port}: {error}");
    }
    eprintln!(rt; "htx-proxy: cannot {what} {host}:{port}: {error}")
}

/// Writes a line on a call that failed.
fn say<R: Eprint>(rt: &R, call: Call<'_>, error: &io::Error) -> io::Result<()> {
    match call {
        Call::Bind(at) => say_at(rt, "listen at", at, error),
        Call::Accept => eprintln!(rt; "htx-proxy: cannot accept a connection: {error}"),
        Call::Connect(to) => say_at(rt, "connect to", to, error),
    }
}

/// What the system answered to a call, where a failure is told. Want of memory isn't, as it is nobody's failure.
pub fn told<R: Eprint, T>(
    rt: &R,
    telling: Telling,
    call: Call<'_>,
    answer: io::Result<T>,
) -> io::Result<T>
    ensures { result ≡ answer }
{
    if let Telling::Nothing = telling {
        return answer;
    }
    if let Err(error) = &answer {
        if error.kind() != ErrorKind::OutOfMemory {
            // where standard error takes nothing there is nobody to tell
            let _ = say(rt, call, error);
        }
    }
    answer
}
