//! A connection that has a core moves, and where its session is over it ends.
ghost use Rattle.std.specs.Prelude.{◌≡◌, ◌<◌, ◌≤◌, ℕ, List, None, true, false, is_some, OnOk, OnErr, IfOk};
ghost use Rattle.session_core.specs.History.{Past};
ghost use Rattle.px_link.specs.Net.{address_of};
ghost use Rattle.px_link.specs.declared.turns.Turn.{Turn};
ghost use Rattle.px_link.specs.Turns.{first_of};
ghost use Rattle.htx_drive.specs.Weave.Went.{GoesOn, MovesOn, HoldsOn, SpentSo, LowersSo};

use crate::resources::Resources;
use crate::weave::conn::Conn;
use crate::weave::ends::{fail, finish};
use crate::weave::moves::{Moved, moves};
use crate::{Address, Link, Machine, Net, OutOfMemory, SessionFault, Turn};

/// What a move of a connection that has a core came to.
#[derive(Clone, Copy)]
pub enum Went {
    /// It goes on, and keeps its core.
    On,
    /// It has ended, and needs its core no more.
    Ended,
    /// Nothing is left of the budget.
    Spent,
}

/// The move of a connection that has this core, for this turn; where its session is over or a write to its client failed, it ends.
pub(crate) fn goes<C: Machine, L: Link, N: Net<Link = L>>(
    conn: &mut Conn<L, N>,
    core: &mut C,
    to: &Address,
    turn: Option<Turn>,
    resources: &mut Resources,
) -> Result<Went, OutOfMemory>
    requires serving { (C.seen core.old).serving ≡ is_some conn.old.server }
    requires lent { is_some conn.old.server ≡ true → 0 < (N.seen conn.old.net).lent }
    requires sound { C.sound core.old }
    requires ran { conn.old.ran ≡ None }
    ensures sound { OnOk result (C.sound core.new) }
    ensures goes { (cfg : C.Settings) (all ahead : List Turn) (total : ℕ) (first : L) (first_net : N) → turn ≡ first_of ahead → GoesOn (C.stands cfg) C.seen L.seen L.wrote N.seen (address_of to.now) all ahead first first_net total resources.old.left conn.old core.old
        → MovesOn result (C.meaning cfg) (C.stands cfg) C.seen L.seen L.wrote N.seen (address_of to.now) all ahead first first_net total resources.new.left conn.new (λ P. P core.new) (λ P. P × ((past : Past) × C.stands cfg core.new past)) (λ P. P core.new) }
    ensures on { IfOk result (λ went. HoldsOn went (C.seen core.new).serving conn.new.server (N.seen conn.new.net).lent conn.new.ran) }
    ensures spent { IfOk result (λ went. SpentSo went resources.new.left) }
    ensures lowers { IfOk result (λ went. LowersSo turn went resources.old.left resources.new.left) }
    ensures no_more { resources.new.left ≤ resources.old.left }
    ensures lost { OnErr result ((conn.new.server ≡ None) × (conn.new.ran ≡ None)) }
{
    match moves(conn, core, to, turn, resources) {
        Ok(Moved::Took) => Ok(Went::On),
        Ok(Moved::Over(end)) => {
            finish(conn, core, end);
            Ok(Went::Ended)
        }
        Ok(Moved::Spent) => Ok(Went::Spent),
        Err(SessionFault::ClientWrite) => {
            fail::<C, L, N>(conn, SessionFault::ClientWrite);
            Ok(Went::Ended)
        }
        Err(SessionFault::OutOfMemory) => Err(OutOfMemory),
        Err(SessionFault::Spent) => unreachable!(),
    }
}
