//! One step of one connection.
ghost use Rattle.std.specs.Prelude.{◌≡◌, ◌<◌, ℕ, List, None, true, is_some, IfOk, OnOk, OnErr, IsErrOf};
ghost use Rattle.px_link.specs.Net.{address_of};
ghost use Rattle.px_link.specs.declared.turns.Turn.{Turn};
ghost use Rattle.px_link.specs.Turns.{first_of};
ghost use Rattle.htx_drive.specs.Underway.{OverSays, MovesBehind, Steps};

use crate::resources::MOST_READ;
use crate::weave::conn::Conn;
use crate::{Address, Did, Link, Machine, Net, SessionFault, Stepped, Turn, step_idle, step_open};

/// Puts the server's link in a place that has none.
pub(crate) fn put<L>(place: &mut Option<L>, link: Option<L>)
    requires { place.old ≡ None }
    ensures { place.new ≡ link }
{
    match link {
        None => {}
        Some(link) => match place.replace(link) {
            None => {}
            Some(_) => unreachable!(),
        },
    }
}

/// A step of a connection that has this core. Behind a fault no server is open.
pub(crate) fn step<C: Machine, L: Link, N: Net<Link = L>>(
    conn: &mut Conn<L, N>,
    core: &mut C,
    to: &Address,
    turn: Option<Turn>,
    buffer: &mut [u8; MOST_READ],
) -> Result<Did, SessionFault>
    requires serving { (C.seen core.old).serving ≡ is_some conn.old.server }
    requires lent { is_some conn.old.server ≡ true → 0 < (N.seen conn.old.net).lent }
    requires sound { C.sound core.old }
    ensures sound { OnOk result (C.sound core.new) }
    ensures kept { IsErrOf result SessionFault.ClientWrite → C.sound core.new }
    ensures goes { (cfg : C.Settings) (all ahead : List Turn) (count : ℕ) (first : L) (first_net : N) → turn ≡ first_of ahead → Steps result (λ did. did) (λ _. conn.new.server) (C.meaning cfg) (C.stands cfg) C.seen all ahead core.old core.new L.seen L.wrote first conn.old.client conn.new.client conn.old.server (address_of to.now) (N.seen first_net) (N.seen conn.old.net) (N.seen conn.new.net) count }
    ensures over { IfOk result (λ did. OverSays did (C.seen core.new).wants) }
    ensures serving { OnOk result ((C.seen core.new).serving ≡ is_some conn.new.server) }
    ensures lent { OnOk result (is_some conn.new.server ≡ true → 0 < (N.seen conn.new.net).lent) }
    ensures behind { IfOk result (λ did. MovesBehind turn did) }
    ensures unspent { IsErrOf result SessionFault.Spent → ⊥ }
    ensures closed { IfOk result (λ did. did ≡ Did.Closed → (is_some conn.old.server ≡ true) × (conn.new.server ≡ None)) }
    ensures none { OnErr result (conn.new.server ≡ None) }
    ensures ran { conn.new.ran ≡ conn.old.ran }
{
    match conn.server.take() {
        None => match step_idle(core, to, &mut conn.client, &mut conn.net, turn, buffer) {
            Ok(stepped) => {
                let Stepped { did, server } = stepped;
                put(&mut conn.server, server);
                Ok(did)
            }
            Err(fault) => Err(fault),
        },
        Some(link) => match step_open(core, &mut conn.client, link, &mut conn.net, turn, buffer) {
            Ok(stepped) => {
                let Stepped { did, server } = stepped;
                put(&mut conn.server, server);
                Ok(did)
            }
            Err(fault) => Err(fault),
        },
    }
}
