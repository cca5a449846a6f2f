//! All connections are left behind a fault.
ghost use Rattle.std.specs.Prelude.{◌≡◌, ℕ, List, None, length};
ghost use Rattle.px_link.specs.Net.{Place};
ghost use Rattle.px_link.specs.declared.turns.Turn.{Turn};
ghost use Rattle.htx_drive.specs.Weave.Halted.{Halted, AllHalted, IsLent, AllLent};
ghost use Rattle.htx_drive.specs.Weave.Outcome.{LeftAt, AllLeft};
ghost use Rattle.htx_drive.specs.declared.weave.conn.Conn.{Conn};
ghost use Rattle.htx_drive.specs.declared.weave.fault.WeaveFault.{WeaveFault};

use crate::weave::conn::Conn;
use crate::weave::ends::abandon;
use crate::weave::fault::WeaveFault;
use crate::{Link, Machine, Net};

/// Leaves a connection: one that has ended stays as it is, and any other is given up.
fn leave<C: Machine, L: Link, N: Net<Link = L>>(conn: &mut Conn<L, N>)
    requires lent { conn.old.ran ≡ None → IsLent conn.old.server (N.seen conn.old.net).lent }
    ensures left { (cfg : C.Settings) (turns : List Turn) (count : ℕ) (first : L) (to : Place) (first_net : N) → Halted (C.meaning cfg) (C.stands cfg) C.seen turns L.seen L.wrote first conn.old.client conn.old.server to (N.seen first_net) (N.seen conn.old.net) conn.old.ran count
        → LeftAt (C.meaning cfg) (C.stands cfg) C.seen turns L.seen L.wrote first conn.new.client conn.new.server to (N.seen first_net) (N.seen conn.new.net) conn.new.ran count }
{
    if conn.ran.is_none() {
        abandon::<C, L, N>(conn);
    }
}

/// Leaves each of them.
pub(crate) fn leave_all<C: Machine, L: Link, N: Net<Link = L>>(conns: &mut [Conn<L, N>])
    requires lent { AllLent N.seen conns.old }
    ensures length { length conns.new ≡ length conns.old }
    ensures left { (cfg : C.Settings) (turns : List (ℕ × Turn)) (firsts : List (Conn L N)) (to : Place) (budget spare : ℕ) (fault : WeaveFault) → (fault ≡ WeaveFault.Spent → spare ≡ 0)
        → AllHalted (C.meaning cfg) (C.stands cfg) C.seen L.seen L.wrote N.seen to turns firsts conns.old budget spare
        → AllLeft (C.meaning cfg) (C.stands cfg) C.seen L.seen L.wrote N.seen to turns firsts conns.new budget fault }
{
    for place in 0..conns.len() {
        leave::<C, L, N>(&mut conns[place]);
    }
}
