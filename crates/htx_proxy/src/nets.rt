//! The nets of connections that are served at once, what turns further ones off, and the processes that serve in place of this one.
use crate::crew::Crew;
use fcgi_link::AppNet;
use proxy_call::{Switch, Workers};
use px_link::{Fault, OutOfMemory, Sink};
use px_proxyproto::SendNet;
use px_run::Nets;
use px_sock::{InputEnd, ReadyNet, end_listener, is_output_gone};
use std::alloc::Global;
use std::io::Eprint;
use std::net;

/// What turns further connections off.
#[derive(Drop)]
enum Off {
    Nothing,
    /// The end of standard input.
    Input(InputEnd),
    /// The end of the process that reads standard output.
    Output,
    /// That has come.
    Ended,
}

/// A net over the system's sockets, which may ask an application, or write a header of the PROXY protocol to each server first.
pub type OwnNet<'a, R> = AppNet<SendNet<ReadyNet<'a, R>>>;

/// Makes nets over the system's sockets.
#[derive(Drop)]
pub struct RealNets<'a, R> {
    alloc: Global,
    rt: &'a R,
    off: Off,
    crew: Crew<'a>,
}

impl<'a> RealNets<'a, HostRuntime> {
    /// Those of a process that was started by a user.
    pub fn new(rt: &'a HostRuntime) -> Self {
        RealNets {
            alloc: rt.alloc(),
            rt,
            off: Off::Nothing,
            crew: Crew::new(rt),
        }
    }

    /// Those of a worker, which accepts nothing more once the process that started it is gone. It ends the listener then, so that the address is free.
    pub fn of_worker(rt: &'a HostRuntime) -> Self {
        RealNets {
            alloc: rt.alloc(),
            rt,
            off: Off::Output,
            crew: Crew::new(rt),
        }
    }
}

/// The switch is standard input, which is off once that has ended. A worker has its own.
impl<'a, R> Switch for RealNets<'a, R> {
    fn heed(&mut self, heeds: bool) {
        if heeds {
            self.off = Off::Input(InputEnd::new());
        }
    }
}

impl<'a, R: net::Net + Eprint> Nets<OwnNet<'a, R>> for RealNets<'a, R> {
    fn net(&mut self) -> Result<OwnNet<'a, R>, OutOfMemory> {
        Ok(AppNet::new(
            self.alloc,
            SendNet::new(ReadyNet::telling(self.alloc, self.rt)),
        ))
    }

    fn accepts_more(&mut self) -> bool {
        match &mut self.off {
            Off::Nothing => true,
            Off::Input(input) => !input.has_ended(),
            Off::Output if !is_output_gone() => true,
            Off::Output => {
                end_listener();
                self.off = Off::Ended;
                false
            }
            Off::Ended => false,
        }
    }
}

impl<'a> Workers<OwnNet<'a, HostRuntime>> for RealNets<'a, HostRuntime> {
    fn start(&mut self, net: &OwnNet<'a, HostRuntime>, count: u32) -> Result<(), Fault> {
        self.crew.start(net.inner().inner(), count)
    }

    fn pass_on<K: Sink>(
        &mut self,
        net: &OwnNet<'a, HostRuntime>,
        out: &mut K,
    ) -> Result<(), Fault> {
        self.crew.pass_on(net.inner().inner(), out)
    }
}
