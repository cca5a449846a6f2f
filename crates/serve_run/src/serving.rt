//! Listening, and then connections.
ghost use Rattle.std.specs.Prelude.{◌≡◌, ◌⊎◌, ◌∷◌, ◌++◌, [], List, Option, Some, IsErrOf, IsOkUnless, OnOk, OnErr};
ghost use Rattle.htx_drive.specs.Dialled.{Dialled};
ghost use Rattle.px_link.specs.Net.{Coming, Kept, address_of};
ghost use Rattle.px_link.specs.Told.{Gains, GainsFront, Rose};
ghost use Rattle.serve_run.specs.Lines.{net_line};
ghost use Rattle.serve_run.specs.Served.{Breaks, LostOne, NetFails, ServedAll, ServedOne};
ghost use Rattle.serve_run.specs.Told.{Visited};

use crate::connections::connections;
use crate::{ServeFault, Sessions};
use px_link::{Address, Fault, Net, Sink};
use std::alloc::Global;

/// Binds, and serves so many connections.
fn bound_and_served<N: Net, S: Sessions<N>, K: Sink>(
    alloc: Global,
    at: &Address,
    count: u32,
    sessions: &mut S,
    net: &mut N,
    out: &mut K,
) -> Result<(), ServeFault>
    ensures good { OnOk result (ServedAll N.seen (ServedOne N.Link.seen N.Link.wrote N.seen (S.session (S.settings sessions.old)) (S.to (S.settings sessions.old)))
        (address_of at.now) count net.old net.new (K.written out.old) (K.written out.new)) }
    ensures net { IsErrOf result ServeFault.Net → NetFails N.seen (ServedOne N.Link.seen N.Link.wrote N.seen (S.session (S.settings sessions.old)) (S.to (S.settings sessions.old)))
        (address_of at.now) count [] net.old net.new (K.written out.old) (K.written out.new) }
    ensures quiet { IsErrOf result ServeFault.Net → K.faults out.new ≡ K.faults out.old }
    ensures front { OnErr result (Breaks N.seen (ServedOne N.Link.seen N.Link.wrote N.seen (S.session (S.settings sessions.old)) (S.to (S.settings sessions.old)))
        (LostOne N.Link.seen N.Link.wrote N.seen (S.session (S.settings sessions.old)) (S.to (S.settings sessions.old))) (address_of at.now) count net.old net.new (K.written out.old) (K.written out.new)) }
    ensures output { IsErrOf result ServeFault.Output → Rose (K.faults out.old) (K.faults out.new) }
    ensures binds { OnOk result ((N.seen net.new).bound ≡ (N.seen net.old).bound ++ address_of at.now ∷ []) }
    ensures bound { ((N.seen net.new).bound ≡ (N.seen net.old).bound) ⊎ ((N.seen net.new).bound ≡ (N.seen net.old).bound ++ address_of at.now ∷ []) }
    ensures dialled { Dialled (N.seen net.old).dialled (N.seen net.new).dialled (S.to (S.settings sessions.old)) }
    ensures lent { (N.seen net.new).lent ≡ (N.seen net.old).lent }
    ensures settings { S.settings sessions.new ≡ S.settings sessions.old }
{
    match net.bind(at) {
        Ok(()) => connections(alloc, count, sessions, net, out),
        Err(Fault::Failed) => Err(ServeFault::Net),
        Err(Fault::OutOfMemory) => Err(ServeFault::OutOfMemory),
    }
}

/// Says that a bind or an accept failed, and answers what stops serving then.
fn say_net<K: Sink>(out: &mut K) -> ServeFault
    ensures net { result ≡ ServeFault.Net → Gains (K.written out.old) (K.written out.new) net_line }
    ensures front { GainsFront (K.written out.old) (K.written out.new) net_line }
    ensures output { result ≡ ServeFault.Output → Rose (K.faults out.old) (K.faults out.new) }
{
    match out.write_all(b"net\n") {
        Ok(()) => ServeFault::Net,
        Err(Fault::Failed) => ServeFault::Output,
        Err(Fault::OutOfMemory) => ServeFault::OutOfMemory,
    }
}

/// Listens at this address, serves so many connections one after another, and writes a line for each once it is over. A connection
/// whose client can't be written, or whose budget is spent, is over too, and the next one is served.
///
/// Each accepted link is given back behind those of its servers. Where a bind or an accept fails, that is written too.
pub fn serve<N: Net, S: Sessions<N>, K: Sink>(
    alloc: Global,
    at: &Address,
    count: u32,
    sessions: &mut S,
    net: &mut N,
    out: &mut K,
) -> Result<(), ServeFault>
    ensures good { OnOk result (ServedAll N.seen (ServedOne N.Link.seen N.Link.wrote N.seen (S.session (S.settings sessions.old)) (S.to (S.settings sessions.old)))
        (address_of at.now) count net.old net.new (K.written out.old) (K.written out.new)) }
    ensures told { (coming : List Coming) (answers : List (Option Coming)) (kept : List Kept)
        → (N.seen net.old).accepts ≡ Some coming → (N.seen net.old).answers ≡ Some answers → (N.seen net.old).kept ≡ Some kept
        → OnOk result (Visited (N.seen net.new) coming kept count) }
    ensures net { IsErrOf result ServeFault.Net → NetFails N.seen (ServedOne N.Link.seen N.Link.wrote N.seen (S.session (S.settings sessions.old)) (S.to (S.settings sessions.old)))
        (address_of at.now) count net_line net.old net.new (K.written out.old) (K.written out.new) }
    ensures output { IsErrOf result ServeFault.Output → Rose (K.faults out.old) (K.faults out.new) }
    ensures front { OnErr result (Breaks N.seen (ServedOne N.Link.seen N.Link.wrote N.seen (S.session (S.settings sessions.old)) (S.to (S.settings sessions.old)))
        (LostOne N.Link.seen N.Link.wrote N.seen (S.session (S.settings sessions.old)) (S.to (S.settings sessions.old))) (address_of at.now) count net.old net.new (K.written out.old) (K.written out.new)) }
    ensures binds { OnOk result ((N.seen net.new).bound ≡ (N.seen net.old).bound ++ address_of at.now ∷ []) }
    ensures bound { ((N.seen net.new).bound ≡ (N.seen net.old).bound) ⊎ ((N.seen net.new).bound ≡ (N.seen net.old).bound ++ address_of at.now ∷ []) }
    ensures dialled { Dialled (N.seen net.old).dialled (N.seen net.new).dialled (S.to (S.settings sessions.old)) }
    ensures lent { (N.seen net.new).lent ≡ (N.seen net.old).lent }
    ensures settings { S.settings sessions.new ≡ S.settings sessions.old }
    ensures complete { (Rose (N.seen net.old).bind_faults (N.seen net.new).bind_faults → ⊥) → (Rose (K.faults out.old) (K.faults out.new) → ⊥) → IsOkUnless result ServeFault.OutOfMemory }
{
    match bound_and_served(alloc, at, count, sessions, net, out) {
        Ok(()) => Ok(()),
        Err(ServeFault::Net) => Err(say_net(out)),
        Err(ServeFault::Output) => Err(ServeFault::Output),
        Err(ServeFault::OutOfMemory) => Err(ServeFault::OutOfMemory),
    }
}
