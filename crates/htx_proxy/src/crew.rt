//! The processes that serve at the listener of this one, and the lines of all of them.
use crate::worker::{Looked, Worker};
use libc::net as c;
use libc::types::pollfd;
use px_link::{Fault, OutOfMemory, Sink};
use px_sock::ReadyNet;
use std::io;
use std::io::ErrorKind;
use std::os::unix::process::ExitStatusExt;
use std::process::ExitStatus;
use std::time::Instant;

/// How long a wait for all of them takes at most while one is to be started.
const PAUSE_MILLIS: i32 = 100;

/// A net of this program over the system's sockets.
type Listening<'a> = ReadyNet<'a, HostRuntime>;

/// The processes that serve, each at its place. Their numbers begin with 1.
#[derive(Drop)]
pub struct Crew<'a> {
    rt: &'a HostRuntime,
    workers: Vec<Worker>,
}

/// Says how one ended, that is started again.
fn say_ended(rt: &HostRuntime, place: usize, status: Option<ExitStatus>) {
    let number = place.saturating_add(1);
    let code = status.and_then(|status| status.code());
    let signal = status.and_then(|status| status.signal());
    // where standard error takes nothing there is nobody to tell
    let _ = match (code, signal) {
        (Some(code), _) => eprintln!(rt; "htx-proxy: worker {number} ended with status {code}"),
        (None, Some(signal)) => eprintln!(rt;
            "htx-proxy: worker {number} ended by signal {signal}"
        ),
        (None, None) => eprintln!(rt; "htx-proxy: worker {number} ended"),
    };
}

/// Starts one at the listener of a net; says why where that fails.
fn started(rt: &HostRuntime, net: &Listening<'_>, place: usize) -> io::Result<Worker> {
    let worker = match net.share() {
        Ok(listener) => Worker::start(rt, listener),
        Err(error) => Err(error),
    };
    if let Err(error) = &worker {
        let number = place.saturating_add(1);
        let _ = eprintln!(rt; "htx-proxy: cannot start worker {number}: {error}");
    }
    worker
}

/// Reads of the one at this place, and says how it ended where it has.
fn look_at<K: Sink>(
    rt: &HostRuntime,
    place: usize,
    worker: &mut Worker,
    out: &mut K,
) -> Result<(), OutOfMemory> {
    match worker.look(rt.alloc(), out)? {
        Looked::Goes => {}
        Looked::Ended(status) => say_ended(rt, place, status),
    }
    Ok(())
}

impl<'a> Crew<'a> {
    /// None is started yet.
    pub fn new(rt: &'a HostRuntime) -> Self {
        Crew {
            rt,
            workers: Vec::new(rt.alloc()),
        }
    }

    /// Starts so many at the listener of a net.
    pub fn start(&mut self, net: &Listening<'a>, count: u32) -> Result<(), Fault> {
        for place in 0..count {
            match started(self.rt, net, place as usize) {
                Ok(worker) => self.workers.push(worker).map_err(|_| Fault::OutOfMemory)?,
                Err(error) if error.kind() == ErrorKind::OutOfMemory => {
                    return Err(Fault::OutOfMemory);
                }
                Err(_) => return Err(Fault::Failed),
            }
        }
        Ok(())
    }

    /// Waits until one has written or has ended, a while at most where one is to be started; what the system tells of each.
    fn wait(&self) -> Result<Vec<pollfd>, OutOfMemory> {
        let mut asked = Vec::new(self.rt.alloc());
        let mut millis = -1;
        for worker in self.workers.iter() {
            let fd = worker.descriptor();
            if fd.is_none() {
                millis = PAUSE_MILLIS;
            }
            asked.push(pollfd {
                fd: fd.unwrap_or(-1),
                events: c::POLLIN,
                revents: 0,
            })?;
        }
        c::poll(&mut asked, millis);
        Ok(asked)
    }

    /// Reads of each that the system tells something of.
    fn look<K: Sink>(&mut self, told: &[pollfd], out: &mut K) -> Result<(), OutOfMemory> {
        for (place, of) in told.iter().enumerate() {
            if of.revents != 0 && place < self.workers.len() {
                look_at(self.rt, place, &mut self.workers[place], out)?;
            }
        }
        Ok(())
    }

    /// Starts another in place of each that has ended and may be.
    fn renew(&mut self, net: &Listening<'a>) {
        let Ok(now) = Instant::now(self.rt) else {
            return;
        };
        for place in 0..self.workers.len() {
            if place < self.workers.len() && self.workers[place].is_due(now) {
                match started(self.rt, net, place) {
                    Ok(worker) => self.workers[place] = worker,
                    Err(_) => self.workers[place].put_off(now),
                }
            }
        }
    }

    /// Writes the lines of all, each whole, and starts another in place of one that has ended.
    pub fn pass_on<K: Sink>(&mut self, net: &Listening<'a>, out: &mut K) -> Result<(), Fault> {
        for _ in 0..u64::MAX {
            let told = self.wait()?;
            self.look(&told, out)?;
            self.renew(net);
        }
        Err(Fault::Failed)
    }
}
