//! One of many connections moves, and no other is changed.
ghost use Rattle.std.specs.Prelude.{◌≡◌, ◌≤◌, ◌<◌, ◌-◌, ◌⊎◌, ℕ, List, [], None, length, OnOk, OnErr, IsErrOf, Bool};
ghost use Rattle.px_link.specs.Net.{address_of};
ghost use Rattle.px_link.specs.declared.turns.Turn.{Turn};
ghost use Rattle.px_link.specs.Turns.{rest_of};
ghost use Rattle.px_pool.specs.Seats.{count_sets};
ghost use Rattle.htx_drive.specs.Weave.Rounds.{RestedAt, AllMovedOn};
ghost use Rattle.htx_drive.specs.Weave.All.{IsNext, AreWithin, MayGoOn, LeadsAll};
ghost use Rattle.htx_drive.specs.Weave.Halted.{HaltsAll, AllLent};
ghost use Rattle.htx_drive.specs.declared.weave.conn.Conn.{Conn};

use crate::resources::Resources;
use crate::weave::conn::Conn;
use crate::weave::fault::WeaveFault;
use crate::weave::resets::Resets;
use crate::weave::sets::move_of;
use crate::weave::weft::Weft;
use crate::{Address, Link, Net, Turn};
use px_pool::Pool;

/// The move of the connection of this number, counted from 1.
pub(crate) fn move_at<C: Resets, L: Link, N: Net<Link = L>>(
    pool: &mut Pool<C>,
    conns: &mut [Conn<L, N>],
    number: u32,
    to: &Address,
    turn: Option<Turn>,
    resources: &mut Resources,
) -> Result<(), WeaveFault>
    requires some { 0 < number }
    requires within { number ≤ length conns.old }
    requires may { MayGoOn C.seen C.sound N.seen pool.old conns.old }
    ensures may { OnOk result (MayGoOn C.seen C.sound N.seen pool.new conns.new) }
    ensures length { length conns.new ≡ length conns.old }
    ensures sets { count_sets pool.new ≡ count_sets pool.old }
    ensures at { (left : List (ℕ × Turn)) → IsNext number turn left → OnOk result (LeadsAll C.meaning C.stands C.seen C.sound L.seen L.wrote N.seen (address_of to.now) left (rest_of left) conns.old conns.new pool.old pool.new resources.old.left resources.new.left) }
    ensures halted { (left : List (ℕ × Turn)) → IsNext number turn left → OnErr result (HaltsAll C.meaning C.stands C.seen C.sound L.seen L.wrote N.seen (address_of to.now) left conns.old conns.new pool.old resources.old.left resources.new.left) }
    ensures spent { IsErrOf result WeaveFault.Spent → resources.new.left ≡ 0 }
    ensures lent { OnErr result (AllLent N.seen conns.new) }
    ensures lowers { turn ≡ None → OnOk result (AllMovedOn conns.old conns.new resources.old.left resources.new.left ⊎ RestedAt (number - 1) pool.old pool.new conns.old conns.new resources.old.left resources.new.left) }
{
    move_of(
        pool,
        &mut conns[number as usize - 1],
        number,
        to,
        turn,
        resources,
    )
}

/// Moves by the list of turns, to its end.
pub(crate) fn by_list<C: Resets, L: Link, N: Net<Link = L>, W: Weft>(
    pool: &mut Pool<C>,
    conns: &mut [Conn<L, N>],
    weft: &mut W,
    to: &Address,
    resources: &mut Resources,
) -> Result<(), WeaveFault>
    requires within { AreWithin (length conns.old) (W.left weft.old) }
    requires may { MayGoOn C.seen C.sound N.seen pool.old conns.old }
    ensures may { OnOk result (MayGoOn C.seen C.sound N.seen pool.new conns.new) }
    ensures length { length conns.new ≡ length conns.old }
    ensures sets { count_sets pool.new ≡ count_sets pool.old }
    ensures at { OnOk result (LeadsAll C.meaning C.stands C.seen C.sound L.seen L.wrote N.seen (address_of to.now) (W.left weft.old) [] conns.old conns.new pool.old pool.new resources.old.left resources.new.left) }
    ensures halted { OnErr result (HaltsAll C.meaning C.stands C.seen C.sound L.seen L.wrote N.seen (address_of to.now) (W.left weft.old) conns.old conns.new pool.old resources.old.left resources.new.left) }
    ensures spent { IsErrOf result WeaveFault.Spent → resources.new.left ≡ 0 }
    ensures lent { OnErr result (AllLent N.seen conns.new) }
{
    'turns: loop {
        let Some((number, turn)) = weft.next() else {
            return Ok(());
        };
        match move_at(pool, conns, number, to, Some(turn), resources) {
            Ok(()) => {}
            Err(fault) => return Err(fault),
        }
    }
}
