//! One connection.
ghost use Rattle.std.specs.Prelude.{◌≡◌, ◌⊎◌, Err, IfOk, IsErrOf, OnOk, OnErr};
ghost use Rattle.htx_drive.specs.declared.SessionFault.TheVariants as session_faults;
ghost use Rattle.px_link.specs.Net.{AcceptFailed, AcceptUnroomed};
ghost use Rattle.px_link.specs.Told.{Gains, GainsFront, Rose};
ghost use Rattle.serve_run.specs.Lines.{answer_of, line_of};
ghost use Rattle.serve_run.specs.Served.{LostOne, NotAccepted, ServedOne};
ghost use Rattle.serve_run.specs.Visits.{Leaves};
ghost use Rattle.serve_run.specs.declared.outcome.Outcome.{Outcome};

use crate::line::line_of;
use crate::{Outcome, Ran, ServeFault, SessionFault, Sessions};
use px_link::{Fault, Net, OutOfMemory, Sink};
use std::alloc::Global;

/// The outcome of a connection whose session answered so.
fn outcome_of(answer: Result<Ran, SessionFault>) -> Result<Outcome, ServeFault>
    ensures ok { IfOk result (λ outcome. answer ≡ answer_of outcome) }
    ensures err { OnErr result ((answer ≡ Err session_faults.OutOfMemory) × (result ≡ Err ServeFault.OutOfMemory)) }
{
    match answer {
        Ok(ran) => Ok(Outcome::Ended(ran)),
        Err(SessionFault::ClientWrite) => Ok(Outcome::ClientWrite),
        Err(SessionFault::Spent) => Ok(Outcome::Spent),
        Err(SessionFault::OutOfMemory) => Err(ServeFault::OutOfMemory),
    }
}

/// Accepts a link, runs its session and gives the link back.
fn connection<N: Net, S: Sessions<N>>(sessions: &mut S, net: &mut N) -> Result<Outcome, ServeFault>
    ensures ok { IfOk result (λ outcome. ServedOne N.Link.seen N.Link.wrote N.seen (S.session (S.settings sessions.old)) (S.to (S.settings sessions.old)) net.old net.new outcome) }
    ensures binds { OnOk result ((N.seen net.new).bind_faults ≡ (N.seen net.old).bind_faults) }
    ensures net { IsErrOf result ServeFault.Net → AcceptFailed (N.seen net.old) (N.seen net.new) }
    ensures memory { IsErrOf result ServeFault.OutOfMemory → AcceptUnroomed (N.seen net.old) (N.seen net.new)
        ⊎ LostOne N.Link.seen N.Link.wrote N.seen (S.session (S.settings sessions.old)) (S.to (S.settings sessions.old)) net.old net.new }
    ensures output { IsErrOf result ServeFault.Output → ⊥ }
    ensures leaves { Leaves (S.to (S.settings sessions.old)) (N.seen net.old) (N.seen net.new) }
    ensures settings { S.settings sessions.new ≡ S.settings sessions.old }
{
    let mut client = match net.accept() {
        Ok(link) => link,
        Err(Fault::Failed) => return Err(ServeFault::Net),
        Err(Fault::OutOfMemory) => return Err(ServeFault::OutOfMemory),
    };
    let answer = sessions.run(&mut client, net);
    net.keep(client);
    outcome_of(answer)
}

/// Writes the line of a connection.
fn write_line<K: Sink>(
    alloc: Global,
    number: u32,
    outcome: &Outcome,
    out: &mut K,
) -> Result<(), ServeFault>
    ensures ok { OnOk result (Gains (K.written out.old) (K.written out.new) (line_of number outcome.now)) }
    ensures quiet { OnOk result (K.faults out.new ≡ K.faults out.old) }
    ensures front { OnErr result (GainsFront (K.written out.old) (K.written out.new) (line_of number outcome.now)) }
    ensures output { IsErrOf result ServeFault.Output → Rose (K.faults out.old) (K.faults out.new) }
    ensures net { IsErrOf result ServeFault.Net → ⊥ }
{
    let line = match line_of(alloc, number, outcome) {
        Ok(line) => line,
        Err(OutOfMemory) => return Err(ServeFault::OutOfMemory),
    };
    match out.write_all(line.as_slice()) {
        Ok(()) => Ok(()),
        Err(Fault::Failed) => Err(ServeFault::Output),
        Err(Fault::OutOfMemory) => Err(ServeFault::OutOfMemory),
    }
}

/// Serves the connection of this number, and writes its line.
pub(crate) fn serve_one<N: Net, S: Sessions<N>, K: Sink>(
    alloc: Global,
    number: u32,
    sessions: &mut S,
    net: &mut N,
    out: &mut K,
) -> Result<(), ServeFault>
    ensures ok { OnOk result ((outcome : Outcome) × ServedOne N.Link.seen N.Link.wrote N.seen (S.session (S.settings sessions.old)) (S.to (S.settings sessions.old)) net.old net.new outcome
        × Gains (K.written out.old) (K.written out.new) (line_of number outcome)) }
    ensures quiet { OnOk result (K.faults out.new ≡ K.faults out.old) }
    ensures binds { OnOk result ((N.seen net.new).bind_faults ≡ (N.seen net.old).bind_faults) }
    ensures net { IsErrOf result ServeFault.Net → AcceptFailed (N.seen net.old) (N.seen net.new) × (out.new ≡ out.old) }
    ensures front { OnErr result (((K.written out.new ≡ K.written out.old) × (NotAccepted (N.seen net.old) (N.seen net.new)
        ⊎ LostOne N.Link.seen N.Link.wrote N.seen (S.session (S.settings sessions.old)) (S.to (S.settings sessions.old)) net.old net.new))
        ⊎ ((outcome : Outcome) × ServedOne N.Link.seen N.Link.wrote N.seen (S.session (S.settings sessions.old)) (S.to (S.settings sessions.old)) net.old net.new outcome
        × GainsFront (K.written out.old) (K.written out.new) (line_of number outcome))) }
    ensures output { IsErrOf result ServeFault.Output → Rose (K.faults out.old) (K.faults out.new) }
    ensures leaves { Leaves (S.to (S.settings sessions.old)) (N.seen net.old) (N.seen net.new) }
    ensures settings { S.settings sessions.new ≡ S.settings sessions.old }
{
    match connection(sessions, net) {
        Ok(outcome) => write_line(alloc, number, &outcome, out),
        Err(fault) => Err(fault),
    }
}
