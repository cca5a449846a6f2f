//! How a connection ends.
ghost use Rattle.std.specs.Prelude.{◌≡◌, ◌<◌, ℕ, Bool, List, Option, Some, None, true, false, Ok, Err, is_some};
ghost use Rattle.session_core.specs.History.{Past};
ghost use Rattle.px_link.specs.Net.{Place};
ghost use Rattle.px_link.specs.declared.turns.Turn.{Turn};
ghost use Rattle.htx_drive.specs.declared.Ran.{Ran};
ghost use Rattle.htx_drive.specs.Underway.{Stopped, LeftSo};
ghost use Rattle.htx_drive.specs.Weave.Woven.{Going, EndedSo, GivenUp, Back, Shut};
ghost use Rattle.htx_drive.specs.Weave.Halted.{Halted, IsLent};
ghost use Rattle.htx_drive.specs.Weave.Outcome.{LeftAt};

use crate::session::close_of;
use crate::weave::conn::Conn;
use crate::{Close, End, Link, Machine, Net, Ran, SessionFault};

/// The session of a connection is over, as its core says: its client's link is closed.
pub fn finish<C: Machine, L: Link, N: Net<Link = L>>(conn: &mut Conn<L, N>, core: &C, end: End)
    requires over { (C.seen core.now).wants.over ≡ Some end }
    requires serving { (C.seen core.now).serving ≡ is_some conn.old.server }
    ensures ended { (cfg : C.Settings) (all ahead : List Turn) (count : ℕ) (first : L) (to : Place) (first_net : N) → Going (C.stands cfg) C.seen all ahead core.now L.seen L.wrote first conn.old.client conn.old.server to (N.seen first_net) (N.seen conn.old.net) count
        → (ran : Ran) × (conn.new.ran ≡ Some (Ok ran)) × EndedSo (C.meaning cfg) (C.stands cfg) C.seen all ahead L.seen L.wrote first conn.new.client to (N.seen first_net) (N.seen conn.new.net) ran count }
    ensures server { conn.new.server ≡ None }
    ensures ran { is_some conn.new.ran ≡ true }
{
    conn.client.close(close_of(end));
    conn.ran = Some(Ok(Ran {
        end,
        exchanges: core.exchanges(),
        begun_cut: core.cut(),
    }));
}

/// A write to the client failed: its link is closed Failed.
pub fn fail<C: Machine, L: Link, N: Net<Link = L>>(conn: &mut Conn<L, N>, fault: SessionFault)
    ensures given_up { (cfg : C.Settings) (core : C) (all left : List Turn) (count : ℕ) (first : L) (failed : Bool) (to : Place) (first_net : N) → Stopped (LeftSo (C.meaning cfg) (C.stands cfg) C.seen all left count core failed) L.seen L.wrote first conn.old.client failed to (N.seen first_net) (N.seen conn.old.net) count
        → GivenUp (C.meaning cfg) (C.stands cfg) C.seen all L.seen L.wrote first conn.new.client failed to (N.seen first_net) (N.seen conn.new.net) count }
    ensures ran { conn.new.ran ≡ Some (Err fault) }
    ensures server { conn.new.server ≡ conn.old.server }
{
    conn.client.close(Close::Failed);
    conn.ran = Some(Err(fault));
}

/// A server's link that is open is closed Failed, and kept.
pub(crate) fn give_back<L: Link, N: Net<Link = L>>(server: &mut Option<L>, net: &mut N)
    requires lent { is_some server.old ≡ true → 0 < (N.seen net.old).lent }
    ensures none { server.new ≡ None }
    ensures back { Back L.seen L.wrote (N.seen net.old) (N.seen net.new) server.old }
{
    match server.take() {
        None => {}
        Some(link) => shut(link, net),
    }
}

/// Closes a server's link Failed, and keeps it.
pub(crate) fn shut<L: Link, N: Net<Link = L>>(link: L, net: &mut N)
    requires lent { 0 < (N.seen net.old).lent }
    ensures shut { Shut L.seen L.wrote (N.seen net.old) (N.seen net.new) link }
{
    let mut link = link;
    link.close(Close::Failed);
    net.keep(link);
}

/// Gives a connection up: each of its links that is still open is closed Failed, and the server's is kept.
pub fn abandon<C: Machine, L: Link, N: Net<Link = L>>(conn: &mut Conn<L, N>)
    requires lent { IsLent conn.old.server (N.seen conn.old.net).lent }
    ensures left { (cfg : C.Settings) (turns : List Turn) (count : ℕ) (first : L) (to : Place) (first_net : N) → Halted (C.meaning cfg) (C.stands cfg) C.seen turns L.seen L.wrote first conn.old.client conn.old.server to (N.seen first_net) (N.seen conn.old.net) None count
        → LeftAt (C.meaning cfg) (C.stands cfg) C.seen turns L.seen L.wrote first conn.new.client conn.new.server to (N.seen first_net) (N.seen conn.new.net) None count }
    ensures ran { conn.new.ran ≡ conn.old.ran }
{
    give_back(&mut conn.server, &mut conn.net);
    conn.client.close(Close::Failed);
}
