//! The application that the servers are.
ghost use Rattle.std.specs.Prelude.{◌≡◌, ◌≢◌, None, OnOk, OnErr};
ghost use Rattle.fcgi_link.specs.Asked.{asked_for};

use fcgi_link::AsksApplication;
use px_link::{Application, OutOfMemory};
use std::marker::Model;

/// How the servers are asked where they are an application that speaks FastCGI. Contracts see the application and the limit.
#[derive(Drop)]
pub struct Responder<'a> {
    /// How it is asked.
    pub application: &'a Application,
    /// The head of each of its answers has at most so many bytes.
    pub limit: u32,
}

impl<'a> Model for Responder<'a> {
    ghost use Rattle.fcgi_link.specs.Asked as asked;

    ghost Value = { asked.Responder };

    ghost view = { λ responder. (responder.application.now, responder.limit) };
}

/// Tells a net of the application, where there is one.
pub fn ask_for<N: AsksApplication>(
    net: &mut N,
    responder: &Option<Responder<'_>>,
) -> Result<(), OutOfMemory>
    ensures asked { OnOk result (N.seen net.new ≡ asked_for responder.now (N.seen net.old)) }
    ensures unasked { OnErr result (N.seen net.new ≡ N.seen net.old) }
    ensures some { OnErr result (responder.now ≢ None) }
{
    match responder {
        Some(responder) => net.ask(responder.application, responder.limit),
        None => Ok(()),
    }
}
