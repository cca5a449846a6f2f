//! Two visits through the proxy: one that is forwarded, and one that is redirected.
ghost use Rattle.std.specs.Prelude.{◌≡◌, ◌+◌, IfOk};

use crate::play::{PlayFault, expect, send};
use crate::texts::{ANSWER, FORWARDED, REDIRECT, REDIRECTED, REQUEST, RESPONSE};
use px_link::{Address, Close, Fault, Link, Net};

/// Connects, and again while nobody listens, at most so many times.
pub fn connect_patiently<N: Net>(
    net: &mut N,
    to: &Address,
    tries: u32,
) -> Result<N::Link, PlayFault>
    ensures { IfOk result (λ _. (N.seen net.new).lent ≡ (N.seen net.old).lent + 1) }
{
    for _ in 0..tries {
        match net.connect(to) {
            Ok(link) => return Ok(link),
            Err(Fault::Failed) => {}
            Err(Fault::OutOfMemory) => return Err(PlayFault::OutOfMemory),
        }
    }
    Err(PlayFault::Broken)
}

/// What the origin does with its one link.
fn answer<L: Link>(link: &mut L) -> Result<(), PlayFault> {
    expect(link, FORWARDED)?;
    send(link, RESPONSE)
}

/// Accepts the origin's link, which has to get the request as it is forwarded, and answers.
fn serve_origin<N: Net>(net: &mut N) -> Result<(), PlayFault>
    ensures { (N.seen net.new).lent ≡ (N.seen net.old).lent }
{
    let mut link = match net.accept() {
        Ok(link) => link,
        Err(fault) => return Err(PlayFault::from(fault)),
    };
    let answered = answer(&mut link);
    link.close(Close::Clean);
    net.keep(link);
    answered
}

/// The first visit: the client's request comes to the origin, and the origin's answer to the client.
pub fn forwarded<N: Net>(client: &mut N::Link, net: &mut N) -> Result<(), PlayFault>
    ensures { (N.seen net.new).lent ≡ (N.seen net.old).lent }
{
    send(client, REQUEST)?;
    serve_origin(net)?;
    expect(client, ANSWER)
}

/// The second visit: the proxy itself answers the client.
pub fn redirected<L: Link>(client: &mut L) -> Result<(), PlayFault> {
    send(client, REDIRECTED)?;
    expect(client, REDIRECT)
}
