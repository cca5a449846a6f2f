//! A session in steps, for whoever runs many of them: it works, and then is over, opens or closes a server, or takes one turn.
ghost use Rattle.std.specs.Prelude.{◌≡◌, ◌<◌, ◌≤◌, ℕ, Bool, List, Some, None, true, false, is_some, IfOk, OnOk, IsErrOf};
ghost use Rattle.session_core.specs.History.{Past};
ghost use Rattle.px_link.specs.Net.{address_of, Place, NetSeen};
ghost use Rattle.px_link.specs.declared.turns.Turn.{Turn};
ghost use Rattle.px_link.specs.Turns.{first_of, rest_of};
ghost use Rattle.htx_drive.specs.Driven.{moved};
ghost use Rattle.htx_drive.specs.Acts.{moves_bytes};
ghost use Rattle.htx_drive.specs.Turned.{WorkedIn};
ghost use Rattle.htx_drive.specs.Underway.{Idles, OverSays, MovesBehind, StepsTo, Steps};
ghost use Rattle.htx_drive.specs.Weave.Single.{Working};

use crate::resources::MOST_READ;
use crate::turn::{turn_idle, turn_open};
use crate::{Machine, SessionFault, Wants};
use px_link::{Address, Close, End, Fault, Link, Net, OutOfMemory, Turn};

/// What a step of a session did.
#[derive(Clone, Copy)]
pub enum Did {
    /// The session is over. Nothing was done.
    Over(End),
    /// A server was asked for: it is open, or was refused.
    Opened,
    /// The server's link was closed, and kept.
    Closed,
    /// The turn was taken, and whether it moved something.
    Turned(bool),
}

/// What a step did, and the server's link behind it, if one is open.
pub struct Stepped<L> {
    pub did: Did,
    pub server: Option<L>,
}

/// The one connect of an exchange.
pub(crate) fn open_server<C: Machine, L: Link, N: Net<Link = L>>(
    core: &mut C,
    to: &Address,
    net: &mut N,
) -> Result<Option<L>, SessionFault>
    requires wanted { (C.seen core.old).wants.server_open ≡ true }
    requires sound { C.sound core.old }
    ensures sound { OnOk result (C.sound core.new) }
    ensures goes { (cfg : C.Settings) (all ahead : List Turn) (budget : ℕ) (first client : L) (first_net : N) (past : Past) → Idles (WorkedIn (C.stands cfg) C.seen all ahead budget 0 core.old) L.seen L.wrote first client (address_of to.now) (N.seen first_net) (N.seen net.old) past → budget ≤ moved past
        → StepsTo result (λ _. Did.Opened) (λ server. server) (C.meaning cfg) (C.stands cfg) C.seen all ahead ahead core.new L.seen L.wrote first client (address_of to.now) (N.seen first_net) (N.seen net.new) budget }
    ensures serving { IfOk result (λ server. (C.seen core.new).serving ≡ is_some server) }
    ensures lent { IfOk result (λ server. is_some server ≡ true → 0 < (N.seen net.new).lent) }
    ensures kept { IsErrOf result SessionFault.ClientWrite → ⊥ }
    ensures unspent { IsErrOf result SessionFault.Spent → ⊥ }
{
    match net.connect(to) {
        Ok(link) => {
            core.server_opened(true);
            Ok(Some(link))
        }
        Err(Fault::Failed) => {
            core.server_opened(false);
            Ok(None)
        }
        Err(Fault::OutOfMemory) => Err(SessionFault::OutOfMemory),
    }
}

/// A server is asked for, and what that comes to.
fn asked<C: Machine, L: Link, N: Net<Link = L>>(
    core: &mut C,
    to: &Address,
    net: &mut N,
) -> Result<Stepped<L>, SessionFault>
    requires wanted { (C.seen core.old).wants.server_open ≡ true }
    requires sound { C.sound core.old }
    ensures sound { OnOk result (C.sound core.new) }
    ensures kept { IsErrOf result SessionFault.ClientWrite → ⊥ }
    ensures goes { (cfg : C.Settings) (all ahead : List Turn) (budget : ℕ) (first client : L) (first_net : N) → Working (C.stands cfg) C.seen all ahead core.old L.seen L.wrote first client None (address_of to.now) (N.seen first_net) (N.seen net.old) budget
        → StepsTo result (λ s. s.did) (λ s. s.server) (C.meaning cfg) (C.stands cfg) C.seen all ahead ahead core.new L.seen L.wrote first client (address_of to.now) (N.seen first_net) (N.seen net.new) budget }
    ensures opened { IfOk result (λ s. s.did ≡ Did.Opened) }
    ensures unclosed { IfOk result (λ s. s.did ≡ Did.Closed → ⊥) }
    ensures serving { IfOk result (λ s. (C.seen core.new).serving ≡ is_some s.server) }
    ensures lent { IfOk result (λ s. is_some s.server ≡ true → 0 < (N.seen net.new).lent) }
    ensures unspent { IsErrOf result SessionFault.Spent → ⊥ }
{
    match open_server(core, to, net) {
        Ok(server) => Ok(Stepped {
            did: Did::Opened,
            server,
        }),
        Err(fault) => Err(fault),
    }
}

/// A turn while no server is open.
fn turned<C: Machine, L: Link>(
    core: &mut C,
    client: &mut L,
    turn: Option<Turn>,
    buffer: &mut [u8; MOST_READ],
    wants: &Wants,
) -> Result<Stepped<L>, SessionFault>
    requires wants { wants.now ≡ (C.seen core.old).wants }
    requires some { moves_bytes wants.now ≡ true }
    requires no_open { wants.now.server_open ≡ false }
    requires no_close { wants.now.server_close ≡ None }
    requires going { wants.now.over ≡ None }
    requires no_read { wants.now.server_read ≡ false }
    requires no_write { wants.now.server_write ≡ false }
    requires sound { C.sound core.old }
    ensures sound { C.sound core.new }
    ensures goes { (cfg : C.Settings) (all ahead : List Turn) (budget : ℕ) (first : L) (to : Place) (first_net net : NetSeen) → turn ≡ first_of ahead → Working (C.stands cfg) C.seen all ahead core.old L.seen L.wrote first client.old None to first_net net budget
        → StepsTo result (λ s. s.did) (λ s. s.server) (C.meaning cfg) (C.stands cfg) C.seen all ahead (rest_of ahead) core.new L.seen L.wrote first client.new to first_net net budget }
    ensures none { IfOk result (λ s. s.server ≡ None) }
    ensures unclosed { IfOk result (λ s. s.did ≡ Did.Closed → ⊥) }
    ensures did { IfOk result (λ s. (moved : Bool) × (s.did ≡ Did.Turned moved) × (turn ≡ None → moved ≡ true)) }
    ensures serving { (C.seen core.new).serving ≡ (C.seen core.old).serving }
    ensures unspent { IsErrOf result SessionFault.Spent → ⊥ }
{
    match turn_idle(core, client, turn, buffer, wants) {
        Ok(moved) => Ok(Stepped {
            did: Did::Turned(moved),
            server: None,
        }),
        Err(fault) => Err(fault),
    }
}

/// A step while no server is open.
pub fn step_idle<C: Machine, L: Link, N: Net<Link = L>>(
    core: &mut C,
    to: &Address,
    client: &mut L,
    net: &mut N,
    turn: Option<Turn>,
    buffer: &mut [u8; MOST_READ],
) -> Result<Stepped<L>, SessionFault>
    requires serving { (C.seen core.old).serving ≡ false }
    requires sound { C.sound core.old }
    ensures sound { OnOk result (C.sound core.new) }
    ensures kept { IsErrOf result SessionFault.ClientWrite → C.sound core.new }
    ensures goes { (cfg : C.Settings) (all ahead : List Turn) (budget : ℕ) (first : L) (first_net : N) → turn ≡ first_of ahead → Steps result (λ s. s.did) (λ s. s.server) (C.meaning cfg) (C.stands cfg) C.seen all ahead core.old core.new L.seen L.wrote first client.old client.new None (address_of to.now) (N.seen first_net) (N.seen net.old) (N.seen net.new) budget }
    ensures unclosed { IfOk result (λ s. s.did ≡ Did.Closed → ⊥) }
    ensures over { IfOk result (λ s. OverSays s.did (C.seen core.new).wants) }
    ensures serving { IfOk result (λ s. (C.seen core.new).serving ≡ is_some s.server) }
    ensures lent { IfOk result (λ s. is_some s.server ≡ true → 0 < (N.seen net.new).lent) }
    ensures behind { IfOk result (λ s. MovesBehind turn s.did) }
    ensures unspent { IsErrOf result SessionFault.Spent → ⊥ }
{
    match core.work() {
        Ok(()) => {}
        Err(OutOfMemory) => return Err(SessionFault::OutOfMemory),
    }
    let wants = core.wants();
    if let Some(end) = wants.over {
        return Ok(Stepped {
            did: Did::Over(end),
            server: None,
        });
    }
    if wants.server_open {
        return asked(core, to, net);
    }
    turned(core, client, turn, buffer, &wants)
}

/// A step while a server is open. Behind a fault its link is closed Failed, and kept.
pub fn step_open<C: Machine, L: Link, N: Net<Link = L>>(
    core: &mut C,
    client: &mut L,
    link: L,
    net: &mut N,
    turn: Option<Turn>,
    buffer: &mut [u8; MOST_READ],
) -> Result<Stepped<L>, SessionFault>
    requires serving { (C.seen core.old).serving ≡ true }
    requires lent { 0 < (N.seen net.old).lent }
    requires sound { C.sound core.old }
    ensures sound { OnOk result (C.sound core.new) }
    ensures kept { IsErrOf result SessionFault.ClientWrite → C.sound core.new }
    ensures goes { (cfg : C.Settings) (all ahead : List Turn) (budget : ℕ) (first : L) (to : Place) (first_net : N) → turn ≡ first_of ahead → Steps result (λ s. s.did) (λ s. s.server) (C.meaning cfg) (C.stands cfg) C.seen all ahead core.old core.new L.seen L.wrote first client.old client.new (Some link) to (N.seen first_net) (N.seen net.old) (N.seen net.new) budget }
    ensures closed { IfOk result (λ s. s.did ≡ Did.Closed → s.server ≡ None) }
    ensures over { IfOk result (λ s. OverSays s.did (C.seen core.new).wants) }
    ensures serving { IfOk result (λ s. (C.seen core.new).serving ≡ is_some s.server) }
    ensures lent { IfOk result (λ s. is_some s.server ≡ true → 0 < (N.seen net.new).lent) }
    ensures behind { IfOk result (λ s. MovesBehind turn s.did) }
    ensures unspent { IsErrOf result SessionFault.Spent → ⊥ }
{
    let mut link = link;
    match core.work() {
        Ok(()) => {}
        Err(OutOfMemory) => {
            link.close(Close::Failed);
            net.keep(link);
            return Err(SessionFault::OutOfMemory);
        }
    }
    let wants = core.wants();
    if let Some(how) = wants.server_close {
        core.server_closed();
        link.close(how);
        net.keep(link);
        return Ok(Stepped {
            did: Did::Closed,
            server: None,
        });
    }
    match turn_open(core, client, &mut link, turn, buffer, &wants) {
        Ok(moved) => Ok(Stepped {
            did: Did::Turned(moved),
            server: Some(link),
        }),
        Err(fault) => {
            link.close(Close::Failed);
            net.keep(link);
            Err(fault)
        }
    }
}
