//! One move of one connection: steps, until it took its turn or its session is over.
ghost use Rattle.std.specs.Prelude.{◌≡◌, ◌<◌, ◌≤◌, ◌+◌, ℕ, List, None, true, is_some, IfOk, OnOk, OnErr, IsErrOf};
ghost use Rattle.px_link.specs.Net.{address_of};
ghost use Rattle.px_link.specs.declared.turns.Turn.{Turn};
ghost use Rattle.px_link.specs.Turns.{first_of};
ghost use Rattle.htx_drive.specs.Driven.{Ends, paid_by};
ghost use Rattle.htx_drive.specs.Weave.Woven.{Pays, ahead_behind, OverIs, SpentIs, Lowers};
ghost use Rattle.htx_drive.specs.Weave.Single.{GivesUp};
ghost use Rattle.htx_drive.specs.Weave.Went.{GoesOn};

use crate::resources::Resources;
use crate::weave::conn::Conn;
use crate::weave::step::step;
use crate::{Address, Did, End, Link, Machine, Net, SessionFault, Turn};

/// What a move came to.
#[derive(Clone, Copy)]
pub enum Moved {
    /// The turn was taken.
    Took,
    /// The session is over, and the turn is still ahead.
    Over(End),
    /// Nothing is left of the budget, and the turn is still ahead.
    Spent,
}

/// What a turn leaves of the budget: one less, if it moved something.
fn pay(moved: bool, left: &mut u64)
    requires { 0 < left.old }
    ensures { paid_by moved + left.new ≡ left.old }
{
    if moved {
        *left -= 1;
    }
}

/// The move of a connection that has this core, for this turn. Behind a fault no server is open.
pub(crate) fn moves<C: Machine, L: Link, N: Net<Link = L>>(
    conn: &mut Conn<L, N>,
    core: &mut C,
    to: &Address,
    turn: Option<Turn>,
    resources: &mut Resources,
) -> Result<Moved, SessionFault>
    requires serving { (C.seen core.old).serving ≡ is_some conn.old.server }
    requires lent { is_some conn.old.server ≡ true → 0 < (N.seen conn.old.net).lent }
    requires sound { C.sound core.old }
    ensures sound { OnOk result (C.sound core.new) }
    ensures kept { IsErrOf result SessionFault.ClientWrite → C.sound core.new }
    ensures goes { (cfg : C.Settings) (all ahead : List Turn) (total : ℕ) (first : L) (first_net : N) → turn ≡ first_of ahead → GoesOn (C.stands cfg) C.seen L.seen L.wrote N.seen (address_of to.now) all ahead first first_net total resources.old.left conn.old core.old
        → Ends result (λ did. GoesOn (C.stands cfg) C.seen L.seen L.wrote N.seen (address_of to.now) all (ahead_behind did ahead) first first_net total resources.new.left conn.new core.new)
        (λ failed. Pays total resources.new.left (λ count. GivesUp (C.meaning cfg) (C.stands cfg) C.seen all core.new L.seen L.wrote first conn.new.client (address_of to.now) (N.seen first_net) (N.seen conn.new.net) count failed)) }
    ensures over { IfOk result (λ did. OverIs did (C.seen core.new).wants) }
    ensures spent { IfOk result (λ did. SpentIs did resources.new.left) }
    ensures lowers { IfOk result (λ did. Lowers turn did resources.old.left resources.new.left) }
    ensures no_more { resources.new.left ≤ resources.old.left }
    ensures serving { OnOk result ((C.seen core.new).serving ≡ is_some conn.new.server) }
    ensures lent { OnOk result (is_some conn.new.server ≡ true → 0 < (N.seen conn.new.net).lent) }
    ensures unspent { IsErrOf result SessionFault.Spent → ⊥ }
    ensures none { OnErr result (conn.new.server ≡ None) }
    ensures ran { conn.new.ran ≡ conn.old.ran }
{
    'steps: loop {
        if resources.left == 0 {
            return Ok(Moved::Spent);
        }
        match step(conn, core, to, turn, &mut resources.buffer) {
            Ok(Did::Over(end)) => return Ok(Moved::Over(end)),
            Ok(Did::Opened) => resources.left -= 1,
            Ok(Did::Closed) => {}
            Ok(Did::Turned(moved)) => {
                pay(moved, &mut resources.left);
                return Ok(Moved::Took);
            }
            Err(fault) => return Err(fault),
        }
    }
}
