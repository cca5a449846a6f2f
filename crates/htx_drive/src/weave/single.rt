//! The acts of one connection, each by its own: for whoever lets the readiness of its links choose among them.
ghost use Rattle.std.specs.Prelude.{◌≡◌, ◌<◌, ◌+◌, ℕ, List, ◌∷◌, Some, None, true, false, is_some, IfSome, IfOk, OnOk, OnErr, IsErrOf};
ghost use Rattle.px_link.specs.Net.{address_of, Place};
ghost use Rattle.px_link.specs.declared.turns.Turn.{Turn};
ghost use Rattle.session_core.specs.Waits.{wants_any};
ghost use Rattle.htx_drive.specs.Acts.{moves_bytes};
ghost use Rattle.htx_drive.specs.Driven.{Ends, paid_more};
ghost use Rattle.htx_drive.specs.Turned.{StandsIn, WorkedIn};
ghost use Rattle.htx_drive.specs.Underway.{Runs, Stopped, LeftSo};
ghost use Rattle.htx_drive.specs.Weave.Woven.{Going};
ghost use Rattle.htx_drive.specs.Weave.Single.{Working, GivesUp, OrGivesUp};

use crate::resources::MOST_READ;
use crate::step::open_server;
use crate::turn::{turn_idle, turn_open};
use crate::weave::conn::Conn;
use crate::weave::ends::{give_back, shut};
use crate::weave::step::put;
use crate::{Address, Close, Link, Machine, Net, OutOfMemory, SessionFault, Turn, Wants, Worked};

/// Has the core of a connection work, and answers what it wants then. Behind a fault no server is open.
pub fn work<C: Machine, L: Link, N: Net<Link = L>>(
    conn: &mut Conn<L, N>,
    core: &mut C,
) -> Result<Wants, OutOfMemory>
    requires serving { (C.seen core.old).serving ≡ is_some conn.old.server }
    requires lent { is_some conn.old.server ≡ true → 0 < (N.seen conn.old.net).lent }
    requires sound { C.sound core.old }
    ensures sound { OnOk result (C.sound core.new) }
    ensures goes { (cfg : C.Settings) (all ahead : List Turn) (count : ℕ) (first : L) (to : Place) (first_net : N) → Going (C.stands cfg) C.seen all ahead core.old L.seen L.wrote first conn.old.client conn.old.server to (N.seen first_net) (N.seen conn.old.net) count
        → OrGivesUp result (Working (C.stands cfg) C.seen all ahead core.new L.seen L.wrote first conn.new.client conn.new.server to (N.seen first_net) (N.seen conn.new.net) count)
        (GivesUp (C.meaning cfg) (C.stands cfg) C.seen all core.new L.seen L.wrote first conn.new.client to (N.seen first_net) (N.seen conn.new.net) count false) }
    ensures wants { IfOk result (λ wants. wants ≡ (C.seen core.new).wants) }
    ensures any { IfOk result (λ wants. wants_any wants ≡ true) }
    ensures serving { OnOk result ((C.seen core.new).serving ≡ is_some conn.new.server) }
    ensures lent { OnOk result (is_some conn.new.server ≡ true → 0 < (N.seen conn.new.net).lent) }
    ensures none { OnErr result (conn.new.server ≡ None) }
    ensures ran { conn.new.ran ≡ conn.old.ran }
{
    match core.work() {
        Ok(()) => Ok(core.wants()),
        Err(OutOfMemory) => {
            give_back(&mut conn.server, &mut conn.net);
            Err(OutOfMemory)
        }
    }
}

/// The same up to the end of an exchange that is a refusal or a reply: then nothing is wanted before `end_said`.
pub fn work_part<C: Machine, L: Link, N: Net<Link = L>>(
    conn: &mut Conn<L, N>,
    core: &mut C,
) -> Result<Option<Wants>, OutOfMemory>
    requires serving { (C.seen core.old).serving ≡ is_some conn.old.server }
    requires lent { is_some conn.old.server ≡ true → 0 < (N.seen conn.old.net).lent }
    requires sound { C.sound core.old }
    ensures sound { OnOk result (C.sound core.new) }
    ensures goes { (cfg : C.Settings) (all ahead : List Turn) (count : ℕ) (first : L) (to : Place) (first_net : N) → Going (C.stands cfg) C.seen all ahead core.old L.seen L.wrote first conn.old.client conn.old.server to (N.seen first_net) (N.seen conn.old.net) count
        → OrGivesUp result (Working (C.stands cfg) C.seen all ahead core.new L.seen L.wrote first conn.new.client conn.new.server to (N.seen first_net) (N.seen conn.new.net) count)
        (GivesUp (C.meaning cfg) (C.stands cfg) C.seen all core.new L.seen L.wrote first conn.new.client to (N.seen first_net) (N.seen conn.new.net) count false) }
    ensures wants { IfOk result (λ told. IfSome told (λ wants. wants ≡ (C.seen core.new).wants)) }
    ensures any { IfOk result (λ told. IfSome told (λ wants. wants_any wants ≡ true)) }
    ensures said { IfOk result (λ told. told ≡ None → (C.seen core.new).whole ≡ true) }
    ensures serving { OnOk result ((C.seen core.new).serving ≡ is_some conn.new.server) }
    ensures lent { OnOk result (is_some conn.new.server ≡ true → 0 < (N.seen conn.new.net).lent) }
    ensures none { OnErr result (conn.new.server ≡ None) }
    ensures ran { conn.new.ran ≡ conn.old.ran }
{
    match core.work_part() {
        Ok(Worked::Settled) => Ok(Some(core.wants())),
        Ok(Worked::Said) => Ok(None),
        Err(OutOfMemory) => {
            give_back(&mut conn.server, &mut conn.net);
            Err(OutOfMemory)
        }
    }
}

/// Ends the exchange of a refusal or a reply of which all text was put out: its core goes on to work behind it.
pub fn end_said<C: Machine, L: Link, N: Net<Link = L>>(conn: &mut Conn<L, N>, core: &mut C)
    requires serving { (C.seen core.old).serving ≡ is_some conn.old.server }
    requires sound { C.sound core.old }
    ensures sound { C.sound core.new }
    ensures goes { (cfg : C.Settings) (all ahead : List Turn) (count : ℕ) (first : L) (to : Place) (first_net : N) → Working (C.stands cfg) C.seen all ahead core.old L.seen L.wrote first conn.old.client conn.old.server to (N.seen first_net) (N.seen conn.old.net) count
        → Going (C.stands cfg) C.seen all ahead core.new L.seen L.wrote first conn.new.client conn.new.server to (N.seen first_net) (N.seen conn.new.net) count }
    ensures serving { (C.seen core.new).serving ≡ is_some conn.new.server }
    ensures conn { conn.new ≡ conn.old }
{
    core.end_said();
}

/// Opens the server that the core of a connection wants: what the one connect of the exchange came to.
pub fn open<C: Machine, L: Link, N: Net<Link = L>>(
    conn: &mut Conn<L, N>,
    core: &mut C,
    to: &Address,
) -> Result<(), OutOfMemory>
    requires wanted { (C.seen core.old).wants.server_open ≡ true }
    requires none { conn.old.server ≡ None }
    requires sound { C.sound core.old }
    ensures sound { OnOk result (C.sound core.new) }
    ensures goes { (cfg : C.Settings) (all ahead : List Turn) (count : ℕ) (first : L) (first_net : N) → Working (C.stands cfg) C.seen all ahead core.old L.seen L.wrote first conn.old.client conn.old.server (address_of to.now) (N.seen first_net) (N.seen conn.old.net) count
        → OrGivesUp result (Going (C.stands cfg) C.seen all ahead core.new L.seen L.wrote first conn.new.client conn.new.server (address_of to.now) (N.seen first_net) (N.seen conn.new.net) (1 + count))
        (GivesUp (C.meaning cfg) (C.stands cfg) C.seen all core.new L.seen L.wrote first conn.new.client (address_of to.now) (N.seen first_net) (N.seen conn.new.net) count false) }
    ensures serving { OnOk result ((C.seen core.new).serving ≡ is_some conn.new.server) }
    ensures lent { OnOk result (is_some conn.new.server ≡ true → 0 < (N.seen conn.new.net).lent) }
    ensures none { OnErr result (conn.new.server ≡ None) }
    ensures ran { conn.new.ran ≡ conn.old.ran }
{
    match open_server(core, to, &mut conn.net) {
        Ok(server) => {
            put(&mut conn.server, server);
            Ok(())
        }
        Err(SessionFault::OutOfMemory) => Err(OutOfMemory),
        Err(SessionFault::ClientWrite) => unreachable!(),
        Err(SessionFault::Spent) => unreachable!(),
    }
}

/// Closes the server's link, as the core of a connection says, and gives it back.
pub fn close<C: Machine, L: Link, N: Net<Link = L>>(conn: &mut Conn<L, N>, core: &mut C, how: Close)
    requires wanted { (C.seen core.old).wants.server_close ≡ Some how }
    requires open { is_some conn.old.server ≡ true }
    requires lent { 0 < (N.seen conn.old.net).lent }
    requires sound { C.sound core.old }
    ensures sound { C.sound core.new }
    ensures goes { (cfg : C.Settings) (all ahead : List Turn) (count : ℕ) (first : L) (to : Place) (first_net : N) → Working (C.stands cfg) C.seen all ahead core.old L.seen L.wrote first conn.old.client conn.old.server to (N.seen first_net) (N.seen conn.old.net) count
        → Going (C.stands cfg) C.seen all ahead core.new L.seen L.wrote first conn.new.client conn.new.server to (N.seen first_net) (N.seen conn.new.net) count }
    ensures serving { (C.seen core.new).serving ≡ false }
    ensures none { conn.new.server ≡ None }
    ensures ran { conn.new.ran ≡ conn.old.ran }
{
    match conn.server.take() {
        None => unreachable!(),
        Some(link) => {
            let mut link = link;
            core.server_closed();
            link.close(how);
            conn.net.keep(link);
        }
    }
}

/// A turn of a connection whose server's link is open. Behind a fault it is closed Failed, and kept.
fn turn_with<C: Machine, L: Link, N: Net<Link = L>>(
    conn: &mut Conn<L, N>,
    core: &mut C,
    link: L,
    turn: Turn,
    buffer: &mut [u8; MOST_READ],
    wants: &Wants,
) -> Result<bool, SessionFault>
    requires wants { wants.now ≡ (C.seen core.old).wants }
    requires some { moves_bytes wants.now ≡ true }
    requires no_open { wants.now.server_open ≡ false }
    requires no_close { wants.now.server_close ≡ None }
    requires going { wants.now.over ≡ None }
    requires none { conn.old.server ≡ None }
    requires serving { (C.seen core.old).serving ≡ true }
    requires lent { 0 < (N.seen conn.old.net).lent }
    requires sound { C.sound core.old }
    ensures sound { OnOk result (C.sound core.new) }
    ensures kept { IsErrOf result SessionFault.ClientWrite → C.sound core.new }
    ensures goes { (cfg : C.Settings) (all ahead : List Turn) (count : ℕ) (first : L) (to : Place) (first_net : N) → Working (C.stands cfg) C.seen all (turn ∷ ahead) core.old L.seen L.wrote first conn.old.client (Some link) to (N.seen first_net) (N.seen conn.old.net) count
        → Ends result (λ moved. Going (C.stands cfg) C.seen all ahead core.new L.seen L.wrote first conn.new.client conn.new.server to (N.seen first_net) (N.seen conn.new.net) (paid_more moved count))
        (GivesUp (C.meaning cfg) (C.stands cfg) C.seen all core.new L.seen L.wrote first conn.new.client to (N.seen first_net) (N.seen conn.new.net) count) }
    ensures serving { OnOk result ((C.seen core.new).serving ≡ is_some conn.new.server) }
    ensures lent { OnOk result (is_some conn.new.server ≡ true → 0 < (N.seen conn.new.net).lent) }
    ensures none { OnErr result (conn.new.server ≡ None) }
    ensures unspent { IsErrOf result SessionFault.Spent → ⊥ }
    ensures ran { conn.new.ran ≡ conn.old.ran }
{
    let mut link = link;
    match turn_open(core, &mut conn.client, &mut link, Some(turn), buffer, wants) {
        Ok(moved) => {
            put(&mut conn.server, Some(link));
            Ok(moved)
        }
        Err(fault) => {
            shut(link, &mut conn.net);
            Err(fault)
        }
    }
}

/// One read or one write of a connection, and whether it moved something. Behind a fault no server is open.
pub fn take_turn<C: Machine, L: Link, N: Net<Link = L>>(
    conn: &mut Conn<L, N>,
    core: &mut C,
    turn: Turn,
    buffer: &mut [u8; MOST_READ],
    wants: &Wants,
) -> Result<bool, SessionFault>
    requires wants { wants.now ≡ (C.seen core.old).wants }
    requires some { moves_bytes wants.now ≡ true }
    requires no_open { wants.now.server_open ≡ false }
    requires no_close { wants.now.server_close ≡ None }
    requires going { wants.now.over ≡ None }
    requires serving { (C.seen core.old).serving ≡ is_some conn.old.server }
    requires lent { is_some conn.old.server ≡ true → 0 < (N.seen conn.old.net).lent }
    requires sound { C.sound core.old }
    ensures sound { OnOk result (C.sound core.new) }
    ensures kept { IsErrOf result SessionFault.ClientWrite → C.sound core.new }
    ensures goes { (cfg : C.Settings) (all ahead : List Turn) (count : ℕ) (first : L) (to : Place) (first_net : N) → Working (C.stands cfg) C.seen all (turn ∷ ahead) core.old L.seen L.wrote first conn.old.client conn.old.server to (N.seen first_net) (N.seen conn.old.net) count
        → Ends result (λ moved. Going (C.stands cfg) C.seen all ahead core.new L.seen L.wrote first conn.new.client conn.new.server to (N.seen first_net) (N.seen conn.new.net) (paid_more moved count))
        (GivesUp (C.meaning cfg) (C.stands cfg) C.seen all core.new L.seen L.wrote first conn.new.client to (N.seen first_net) (N.seen conn.new.net) count) }
    ensures serving { OnOk result ((C.seen core.new).serving ≡ is_some conn.new.server) }
    ensures lent { OnOk result (is_some conn.new.server ≡ true → 0 < (N.seen conn.new.net).lent) }
    ensures none { OnErr result (conn.new.server ≡ None) }
    ensures unspent { IsErrOf result SessionFault.Spent → ⊥ }
    ensures ran { conn.new.ran ≡ conn.old.ran }
{
    match conn.server.take() {
        None => match turn_idle(core, &mut conn.client, Some(turn), buffer, wants) {
            Ok(moved) => Ok(moved),
            Err(fault) => Err(fault),
        },
        Some(link) => turn_with(conn, core, link, turn, buffer, wants),
    }
}
