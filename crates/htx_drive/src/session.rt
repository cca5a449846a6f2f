//! A whole session.
ghost use Rattle.std.specs.Prelude.{◌≡◌, ◌<◌, ◌≤◌, ◌+◌, ℕ, List, Some, None, true, false, length, OnOk, IfOk, IfErr, IsErrOf};
ghost use Rattle.http_model.specs.declared.End.{End};
ghost use Rattle.session_model.specs.Session.{close_of};
ghost use Rattle.session_core.specs.History.{Past, nothing_yet};
ghost use Rattle.px_link.specs.Net.{address_of};
ghost use Rattle.htx_drive.specs.Acts.{moves_bytes};
ghost use Rattle.px_link.specs.declared.turns.Turn.{Turn};
ghost use Rattle.htx_drive.specs.Driven.{Idle, IdleGoes};
ghost use Rattle.htx_drive.specs.Turned.{InTurns, UpToAFault, turns_up_to, StandsIn, WorkedIn, FailsIn};
ghost use Rattle.htx_drive.specs.Underway.{TakesOne, ComesTo, RestsIn, RestsWorked, Exchanges};
ghost use Rattle.htx_drive.specs.Ran.{RanSo, GaveUp};

use crate::exchange::exchange;
use crate::resources::{MOST_READ, Resources};
use crate::turn::turn_idle;
use crate::{Machine, Ran, SessionFault, Wants};
use px_link::{Address, Close, End, Link, Net, OutOfMemory, Turns};

/// The next turn while no server is open, and whether it moved something.
fn client_turn<C: Machine, L: Link, T: Turns>(
    core: &mut C,
    client: &mut L,
    turns: &mut T,
    buffer: &mut [u8; MOST_READ],
    wants: &Wants,
) -> Result<bool, SessionFault>
    requires wants { wants.now ≡ (C.seen core.old).wants }
    requires some { moves_bytes wants.now ≡ true }
    requires no_open { wants.now.server_open ≡ false }
    requires no_close { wants.now.server_close ≡ None }
    requires going { wants.now.over ≡ None }
    requires no_read { wants.now.server_read ≡ false }
    requires no_write { wants.now.server_write ≡ false }
    requires sound { C.sound core.old }
    ensures sound { OnOk result (C.sound core.new) }
    ensures goes { (cfg : C.Settings) (all : List Turn) (budget spare : ℕ) (first : L) (past : Past) → TakesOne result (C.stands cfg) C.seen all (T.left turns.old) (T.left turns.new) budget spare core.old core.new
        (λ S. Idle S L.seen L.wrote first client.old false past) (λ S failed had has. IdleGoes S L.seen L.wrote first client.new failed past had has) }
    ensures serving { (C.seen core.new).serving ≡ (C.seen core.old).serving }
    ensures fewer { length (T.left turns.new) ≤ length (T.left turns.old) }
    ensures less { IfOk result (λ moved. moved ≡ false → length (T.left turns.new) < length (T.left turns.old)) }
    ensures unspent { IsErrOf result SessionFault.Spent → ⊥ }
{
    let turn = turns.next();
    turn_idle(core, client, turn, buffer, wants)
}

/// A turn of the client, paid for.
fn idle_turn<C: Machine, L: Link, T: Turns>(
    core: &mut C,
    client: &mut L,
    turns: &mut T,
    resources: &mut Resources,
    wants: &Wants,
) -> Result<(), SessionFault>
    requires wants { wants.now ≡ (C.seen core.old).wants }
    requires some { moves_bytes wants.now ≡ true }
    requires no_open { wants.now.server_open ≡ false }
    requires no_close { wants.now.server_close ≡ None }
    requires going { wants.now.over ≡ None }
    requires no_read { wants.now.server_read ≡ false }
    requires no_write { wants.now.server_write ≡ false }
    requires left { 0 < resources.old.left }
    requires sound { C.sound core.old }
    ensures sound { OnOk result (C.sound core.new) }
    ensures goes { (cfg : C.Settings) (all : List Turn) (budget : ℕ) (first : L) (past : Past) → Idle (WorkedIn (C.stands cfg) C.seen all (T.left turns.old) budget resources.old.left core.old) L.seen L.wrote first client.old false past
        → ComesTo result StandsIn FailsIn (C.stands cfg) C.seen all (T.left turns.new) budget resources.new.left core.new (λ S failed. IdleGoes S L.seen L.wrote first client.new failed past resources.old.left resources.new.left) }
    ensures serving { (C.seen core.new).serving ≡ (C.seen core.old).serving }
    ensures less { OnOk result (resources.new.left + length (T.left turns.new) < resources.old.left + length (T.left turns.old)) }
    ensures unspent { IsErrOf result SessionFault.Spent → ⊥ }
{
    match client_turn(core, client, turns, &mut resources.buffer, wants) {
        Ok(true) => {
            resources.left -= 1;
            Ok(())
        }
        Ok(false) => Ok(()),
        Err(fault) => Err(fault),
    }
}

/// Exchanges with servers, and turns of the client between them, until the session is over, and how.
fn exchanges<C: Machine, L: Link, N: Net<Link = L>, T: Turns>(
    core: &mut C,
    to: &Address,
    client: &mut L,
    net: &mut N,
    turns: &mut T,
    resources: &mut Resources,
) -> Result<End, SessionFault>
    requires serving { (C.seen core.old).serving ≡ false }
    requires sound { C.sound core.old }
    ensures sound { OnOk result (C.sound core.new) }
    ensures goes { Exchanges result RestsIn RestsWorked C.meaning C.stands C.seen L.seen L.wrote N.seen (address_of to.now) core.old core.new client.old client.new net.old net.new (T.left turns.old) (T.left turns.new) resources.old.left resources.new.left }
    ensures over { IfOk result (λ how. (C.seen core.new).wants.over ≡ Some how) }
    ensures spent { IsErrOf result SessionFault.Spent → resources.new.left ≡ 0 }
{
    'steps: loop {
        match core.work() {
            Ok(()) => {}
            Err(OutOfMemory) => return Err(SessionFault::OutOfMemory),
        }
        let wants = core.wants();
        if let Some(how) = wants.over {
            return Ok(how);
        }
        if resources.left == 0 {
            return Err(SessionFault::Spent);
        }
        if wants.server_open {
            match exchange(core, to, client, net, turns, resources) {
                Ok(()) => continue 'steps,
                Err(fault) => return Err(fault),
            }
        }
        match idle_turn(core, client, turns, resources, &wants) {
            Ok(()) => {}
            Err(fault) => return Err(fault),
        }
    }
}

/// How the client's link is closed behind this end.
pub(crate) fn close_of(end: End) -> Close
    ensures { result ≡ close_of end }
{
    match end {
        End::Done => Close::Clean,
        End::Closed => Close::Clean,
        End::Cut => Close::Failed,
    }
}

/// Runs the session of a core to which nothing has happened over the client's link and the servers that the net connects to
/// this one address. Each turn that moves something takes one of what is left of the budget, and so does an opening.
///
/// It works, then opens and closes servers at once; else it takes the next turn of the list, one read or one write of at most
/// so many bytes, and behind the list the first want that stands: server write, client write, client read, server read. A read
/// takes at most 16376 bytes, and of a server up to 65536 where they go to the client as they come. A read that fails is a broken end of the stream; a server's write that fails stops that server; a
/// connect that fails is a refused server. The client's link is closed at the end, and each server's link is closed and kept.
pub fn run_session<C: Machine, L: Link, N: Net<Link = L>, T: Turns>(
    core: &mut C,
    to: &Address,
    client: &mut L,
    net: &mut N,
    turns: &mut T,
    resources: &mut Resources,
) -> Result<Ran, SessionFault>
    requires serving { (C.seen core.old).serving ≡ false }
    requires sound { C.sound core.old }
    ensures sound { OnOk result (C.sound core.new) }
    ensures ran { (cfg : C.Settings) → C.stands cfg core.old nothing_yet → IfOk result (λ ran. RanSo (C.meaning cfg) (C.stands cfg core.new) L.seen L.wrote client.old client.new (address_of to.now) (N.seen net.old) (N.seen net.new) ran) }
    ensures gave_up { (cfg : C.Settings) → C.stands cfg core.old nothing_yet → IfErr result (λ fault. GaveUp (C.meaning cfg) (C.stands cfg) core.new (C.seen core.new).lost L.seen L.wrote client.old client.new (address_of to.now) (N.seen net.old) (N.seen net.new) resources.old.left fault) }
    ensures in_turns { (cfg : C.Settings) → C.stands cfg core.old nothing_yet → IfOk result (λ ran. (so : RanSo (C.meaning cfg) (C.stands cfg core.new) L.seen L.wrote client.old client.new (address_of to.now) (N.seen net.old) (N.seen net.new) ran)
        × InTurns (C.stands cfg) C.seen (T.left turns.old) true (T.left turns.new) so.past) }
    ensures up_to_a_fault { (cfg : C.Settings) → C.stands cfg core.old nothing_yet → IfErr result (λ fault. (so : GaveUp (C.meaning cfg) (C.stands cfg) core.new (C.seen core.new).lost L.seen L.wrote client.old client.new (address_of to.now) (N.seen net.old) (N.seen net.new) resources.old.left fault)
        × (turned : UpToAFault (C.stands cfg) C.seen (T.left turns.old) (T.left turns.new) so.past) × (fault ≡ SessionFault.Spent → resources.old.left ≤ turns_up_to turned)) }
{
    match exchanges(core, to, client, net, turns, resources) {
        Ok(end) => {
            client.close(close_of(end));
            Ok(Ran {
                end,
                exchanges: core.exchanges(),
                begun_cut: core.cut(),
            })
        }
        Err(fault) => {
            client.close(Close::Failed);
            Err(fault)
        }
    }
}
