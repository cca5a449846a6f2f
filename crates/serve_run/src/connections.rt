//! Connections, one after another.
ghost use Rattle.std.specs.Prelude.{◌≡◌, ◌<◌, ◌≤◌, List, length, IsErrOf, OnOk, OnErr};
ghost use Rattle.px_link.specs.Net.{AcceptFailed};
ghost use Rattle.px_link.specs.Told.{Gains, GainsFront, Rose};
ghost use Rattle.serve_run.specs.Lines.{lines_from};
ghost use Rattle.serve_run.specs.Served.{LostOne, ServedOne, Serves, StopsAt};
ghost use Rattle.serve_run.specs.Visits.{Leaves};
ghost use Rattle.serve_run.specs.declared.outcome.Outcome.{Outcome};

use crate::connection::serve_one;
use crate::{ServeFault, Sessions};
use px_link::{Net, Sink};
use std::alloc::Global;

/// Serves so many connections, and writes a line for each.
pub(crate) fn connections<N: Net, S: Sessions<N>, K: Sink>(
    alloc: Global,
    count: u32,
    sessions: &mut S,
    net: &mut N,
    out: &mut K,
) -> Result<(), ServeFault>
    ensures good { OnOk result ((outcomes : List Outcome) × (length outcomes ≡ count)
        × Serves (ServedOne N.Link.seen N.Link.wrote N.seen (S.session (S.settings sessions.old)) (S.to (S.settings sessions.old))) net.old outcomes net.new
        × Gains (K.written out.old) (K.written out.new) (lines_from 1 outcomes)) }
    ensures net { IsErrOf result ServeFault.Net → (outcomes : List Outcome) × (length outcomes < count) × (last : N)
        × Serves (ServedOne N.Link.seen N.Link.wrote N.seen (S.session (S.settings sessions.old)) (S.to (S.settings sessions.old))) net.old outcomes last
        × AcceptFailed (N.seen last) (N.seen net.new)
        × Gains (K.written out.old) (K.written out.new) (lines_from 1 outcomes) }
    ensures rose { IsErrOf result ServeFault.Net → Rose (N.seen net.old).bind_faults (N.seen net.new).bind_faults }
    ensures quiet { IsErrOf result ServeFault.Net → K.faults out.new ≡ K.faults out.old }
    ensures front { OnErr result ((outcomes : List Outcome) × (length outcomes ≤ count) × (last : N)
        × Serves (ServedOne N.Link.seen N.Link.wrote N.seen (S.session (S.settings sessions.old)) (S.to (S.settings sessions.old))) net.old outcomes last
        × StopsAt N.seen (LostOne N.Link.seen N.Link.wrote N.seen (S.session (S.settings sessions.old)) (S.to (S.settings sessions.old))) last net.new
        × GainsFront (K.written out.old) (K.written out.new) (lines_from 1 outcomes)) }
    ensures output { IsErrOf result ServeFault.Output → Rose (K.faults out.old) (K.faults out.new) }
    ensures leaves { Leaves (S.to (S.settings sessions.old)) (N.seen net.old) (N.seen net.new) }
    ensures settings { S.settings sessions.new ≡ S.settings sessions.old }
{
    for served in 0..count {
        match serve_one(alloc, served + 1, sessions, net, out) {
            Ok(()) => {}
            Err(fault) => return Err(fault),
        }
    }
    Ok(())
}
