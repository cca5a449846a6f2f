//! Rounds of moves without a turn, until each connection has ended.
ghost use Rattle.std.specs.Prelude.{◌≡◌, ◌+◌, ◌<◌, ◌^◌, ℕ, List, [], true, false, length, OnOk, OnErr, IsErrOf, Bool};
ghost use Rattle.px_link.specs.Net.{address_of};
ghost use Rattle.px_link.specs.declared.turns.Turn.{Turn};
ghost use Rattle.px_pool.specs.Seats.{count_sets};
ghost use Rattle.htx_drive.specs.Weave.Rounds.{unended};
ghost use Rattle.htx_drive.specs.Weave.All.{MayGoOn, LeadsAll};
ghost use Rattle.htx_drive.specs.Weave.Halted.{HaltsAll, AllLent};
ghost use Rattle.htx_drive.specs.declared.weave.conn.Conn.{Conn};

use crate::resources::Resources;
use crate::weave::all::move_at;
use crate::weave::conn::Conn;
use crate::weave::fault::WeaveFault;
use crate::weave::resets::Resets;
use crate::{Address, Link, Net};
use px_pool::Pool;

/// Whether each has ended.
fn all_ended<L, N>(conns: &[Conn<L, N>]) -> bool
    ensures all { result ≡ true → unended conns.now ≡ 0 }
    ensures some { result ≡ false → 0 < unended conns.now }
{
    for conn in conns {
        if conn.ran.is_none() {
            return false;
        }
    }
    true
}

/// A move of each, without a turn. It lowers what is left of the budget, or the number of those that have not ended: some core is free, or its connection
/// moves.
fn round<C: Resets, L: Link, N: Net<Link = L>>(
    pool: &mut Pool<C>,
    conns: &mut [Conn<L, N>],
    to: &Address,
    resources: &mut Resources,
) -> Result<(), WeaveFault>
    requires number { length conns.old < 2 ^ 32 }
    requires may { MayGoOn C.seen C.sound N.seen pool.old conns.old }
    ensures may { OnOk result (MayGoOn C.seen C.sound N.seen pool.new conns.new) }
    ensures length { length conns.new ≡ length conns.old }
    ensures sets { count_sets pool.new ≡ count_sets pool.old }
    ensures at { OnOk result (LeadsAll C.meaning C.stands C.seen C.sound L.seen L.wrote N.seen (address_of to.now) [] [] conns.old conns.new pool.old pool.new resources.old.left resources.new.left) }
    ensures halted { OnErr result (HaltsAll C.meaning C.stands C.seen C.sound L.seen L.wrote N.seen (address_of to.now) [] conns.old conns.new pool.old resources.old.left resources.new.left) }
    ensures spent { IsErrOf result WeaveFault.Spent → resources.new.left ≡ 0 }
    ensures lent { OnErr result (AllLent N.seen conns.new) }
    ensures lowers { 0 < unended conns.old → OnOk result (resources.new.left + unended conns.new < resources.old.left + unended conns.old) }
{
    let count = conns.len() as u32;
    for place in 0..count {
        match move_at(pool, conns, place + 1, to, None, resources) {
            Ok(()) => {}
            Err(fault) => return Err(fault),
        }
    }
    Ok(())
}

/// Rounds until each connection has ended.
pub(crate) fn by_rounds<C: Resets, L: Link, N: Net<Link = L>>(
    pool: &mut Pool<C>,
    conns: &mut [Conn<L, N>],
    to: &Address,
    resources: &mut Resources,
) -> Result<(), WeaveFault>
    requires number { length conns.old < 2 ^ 32 }
    requires may { MayGoOn C.seen C.sound N.seen pool.old conns.old }
    ensures may { OnOk result (MayGoOn C.seen C.sound N.seen pool.new conns.new) }
    ensures length { length conns.new ≡ length conns.old }
    ensures sets { count_sets pool.new ≡ count_sets pool.old }
    ensures ended { OnOk result (unended conns.new ≡ 0) }
    ensures at { OnOk result (LeadsAll C.meaning C.stands C.seen C.sound L.seen L.wrote N.seen (address_of to.now) [] [] conns.old conns.new pool.old pool.new resources.old.left resources.new.left) }
    ensures halted { OnErr result (HaltsAll C.meaning C.stands C.seen C.sound L.seen L.wrote N.seen (address_of to.now) [] conns.old conns.new pool.old resources.old.left resources.new.left) }
    ensures spent { IsErrOf result WeaveFault.Spent → resources.new.left ≡ 0 }
    ensures lent { OnErr result (AllLent N.seen conns.new) }
{
    'rounds: loop {
        if all_ended(conns) {
            return Ok(());
        }
        match round(pool, conns, to, resources) {
            Ok(()) => {}
            Err(fault) => return Err(fault),
        }
    }
}
