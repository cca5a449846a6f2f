//! An exchange with a server, from its connect to its close.
ghost use Rattle.std.specs.Prelude.{◌≡◌, ◌<◌, ◌≤◌, ℕ, List, true, false, length, OnOk, IsErrOf};
ghost use Rattle.session_core.specs.History.{Past};
ghost use Rattle.px_link.specs.Net.{address_of};
ghost use Rattle.px_link.specs.declared.turns.Turn.{Turn};
ghost use Rattle.htx_drive.specs.Driven.{Idle, Left};
ghost use Rattle.htx_drive.specs.Dialled.{Served};
ghost use Rattle.htx_drive.specs.Underway.{ComesTo, RestsIn, RestsWorked, Exchanges};

use crate::resources::Resources;
use crate::serve::serve;
use crate::{Machine, SessionFault};
use px_link::{Address, Close, Fault, Link, Net, Turns};

/// Serves over a link that was lent, closes it and gives it back.
fn with_link<C: Machine, L: Link, N: Net<Link = L>, T: Turns>(
    core: &mut C,
    client: &mut L,
    lent: L,
    net: &mut N,
    turns: &mut T,
    resources: &mut Resources,
) -> Result<(), SessionFault>
    requires wanted { (C.seen core.old).wants.server_open ≡ true }
    requires some { 0 < resources.old.left }
    requires lent { 0 < (N.seen net.old).lent }
    requires sound { C.sound core.old }
    ensures sound { OnOk result (C.sound core.new) }
    ensures goes { (cfg : C.Settings) (all : List Turn) (budget : ℕ) (first : L) (past : Past) → Idle (RestsWorked (C.stands cfg) C.seen all (T.left turns.old) budget resources.old.left core.old) L.seen L.wrote first client.old false past
        → ComesTo result RestsIn (Left (C.meaning cfg)) (C.stands cfg) C.seen all (T.left turns.new) budget resources.new.left core.new (λ S failed. Served S L.seen L.wrote first client.new failed lent (N.seen net.old) (N.seen net.new) past resources.old.left resources.new.left) }
    ensures serving { OnOk result ((C.seen core.new).serving ≡ false) }
    ensures fewer { length (T.left turns.new) ≤ length (T.left turns.old) }
    ensures spends { resources.new.left < resources.old.left }
    ensures spent { IsErrOf result SessionFault.Spent → resources.new.left ≡ 0 }
{
    let mut link = lent;
    core.server_opened(true);
    resources.left -= 1;
    match serve(core, client, &mut link, turns, resources) {
        Ok(how) => {
            link.close(how);
            core.server_closed();
            net.keep(link);
            Ok(())
        }
        Err(fault) => {
            link.close(Close::Failed);
            net.keep(link);
            Err(fault)
        }
    }
}

/// The one connect of an exchange, and what follows it.
pub(crate) fn exchange<C: Machine, L: Link, N: Net<Link = L>, T: Turns>(
    core: &mut C,
    to: &Address,
    client: &mut L,
    net: &mut N,
    turns: &mut T,
    resources: &mut Resources,
) -> Result<(), SessionFault>
    requires wanted { (C.seen core.old).wants.server_open ≡ true }
    requires some { 0 < resources.old.left }
    requires sound { C.sound core.old }
    ensures sound { OnOk result (C.sound core.new) }
    ensures goes { Exchanges result RestsWorked RestsIn C.meaning C.stands C.seen L.seen L.wrote N.seen (address_of to.now) core.old core.new client.old client.new net.old net.new (T.left turns.old) (T.left turns.new) resources.old.left resources.new.left }
    ensures serving { OnOk result ((C.seen core.new).serving ≡ false) }
    ensures fewer { length (T.left turns.new) ≤ length (T.left turns.old) }
    ensures spends { resources.new.left ≤ resources.old.left }
    ensures less { OnOk result (resources.new.left < resources.old.left) }
    ensures spent { IsErrOf result SessionFault.Spent → resources.new.left ≡ 0 }
{
    match net.connect(to) {
        Ok(link) => with_link(core, client, link, net, turns, resources),
        Err(Fault::Failed) => {
            core.server_opened(false);
            resources.left -= 1;
            Ok(())
        }
        Err(Fault::OutOfMemory) => Err(SessionFault::OutOfMemory),
    }
}
