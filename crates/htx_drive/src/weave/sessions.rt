//! Connections over shared cores, until each has ended, or all are given up behind a fault.
ghost use Rattle.std.specs.Prelude.{◌≡◌, ◌<◌, ◌^◌, ℕ, List, [], length, OnOk, OnErr, IfErr, IsErrOf, Bool, ◌≤◌};
ghost use Rattle.px_link.specs.Net.{address_of};
ghost use Rattle.px_pool.specs.Owners.{count_out};
ghost use Rattle.px_pool.specs.Seats.{free_of, count_sets};
ghost use Rattle.htx_drive.specs.Weave.State.{AllReady, AllFresh};
ghost use Rattle.htx_drive.specs.Weave.Rounds.{unended};
ghost use Rattle.htx_drive.specs.Weave.All.{AreWithin, MayGoOn, LeadsAll};
ghost use Rattle.htx_drive.specs.Weave.Halted.{HaltsAll, AllLent};
ghost use Rattle.htx_drive.specs.Weave.Outcome.{AreNew, AllEnded, AllEndedAtOnce, AllLeft};
ghost use Rattle.htx_drive.specs.declared.weave.conn.Conn.{Conn};

use crate::resources::{MOST_READ, Resources};
use crate::weave::all::by_list;
use crate::weave::conn::Conn;
use crate::weave::fault::WeaveFault;
use crate::weave::leaving::leave_all;
use crate::weave::resets::Resets;
use crate::weave::rounds::by_rounds;
use crate::weave::weft::Weft;
use crate::{Address, Link, Net};
use px_pool::Pool;

/// The list of turns, and then rounds, to the end of each connection.
fn to_their_ends<C: Resets, L: Link, N: Net<Link = L>, W: Weft>(
    pool: &mut Pool<C>,
    to: &Address,
    conns: &mut [Conn<L, N>],
    turns: &mut W,
    resources: &mut Resources,
) -> Result<(), WeaveFault>
    requires number { length conns.old < 2 ^ 32 }
    requires may { MayGoOn C.seen C.sound N.seen pool.old conns.old }
    requires within { AreWithin (length conns.old) (W.left turns.old) }
    ensures may { OnOk result (MayGoOn C.seen C.sound N.seen pool.new conns.new) }
    ensures length { length conns.new ≡ length conns.old }
    ensures sets { count_sets pool.new ≡ count_sets pool.old }
    ensures ended { OnOk result (unended conns.new ≡ 0) }
    ensures at { OnOk result (LeadsAll C.meaning C.stands C.seen C.sound L.seen L.wrote N.seen (address_of to.now) (W.left turns.old) [] conns.old conns.new pool.old pool.new resources.old.left resources.new.left) }
    ensures halted { OnErr result (HaltsAll C.meaning C.stands C.seen C.sound L.seen L.wrote N.seen (address_of to.now) (W.left turns.old) conns.old conns.new pool.old resources.old.left resources.new.left) }
    ensures spent { IsErrOf result WeaveFault.Spent → resources.new.left ≡ 0 }
    ensures lent { OnErr result (AllLent N.seen conns.new) }
{
    match by_list(pool, conns, turns, to, resources) {
        Ok(()) => by_rounds(pool, conns, to, resources),
        Err(fault) => Err(fault),
    }
}

/// Runs connections over the cores of a pool: first by the list of turns, to its end, then in rounds, a move of each without a turn, until each has
/// ended. A connection takes a core with its first move that finds one free, keeps it until it ends, and gives it back reset. An opening, and each turn
/// that moves something, takes one of the budget, which all share. A write to one client that fails ends that connection alone. Behind a fault each
/// connection that has not ended is given up, and the cores that were out stay out.
pub fn weave<C: Resets, L: Link, N: Net<Link = L>, W: Weft>(
    pool: &mut Pool<C>,
    to: &Address,
    conns: &mut [Conn<L, N>],
    turns: &mut W,
    budget: u64,
) -> Result<(), WeaveFault>
    requires number { length conns.old < 2 ^ 32 }
    requires new { AreNew conns.old }
    requires some { 0 < length (free_of pool.old) }
    requires unused { count_out pool.old.owners ≡ 0 }
    requires ready { AllReady C.seen C.sound pool.old }
    requires within { AreWithin (length conns.old) (W.left turns.old) }
    ensures length { length conns.new ≡ length conns.old }
    ensures sets { count_sets pool.new ≡ count_sets pool.old }
    ensures ended { (cfg : C.Settings) → AllFresh (C.stands cfg) pool.old
        → OnOk result (AllEnded (C.meaning cfg) (C.stands cfg) C.seen L.seen L.wrote N.seen (address_of to.now) (W.left turns.old) conns.old conns.new) }
    ensures at_once { (cfg : C.Settings) → AllFresh (C.stands cfg) pool.old → length conns.old ≤ length (free_of pool.old)
        → OnOk result (AllEndedAtOnce (C.meaning cfg) (C.stands cfg) C.seen L.seen L.wrote N.seen (address_of to.now) (W.left turns.old) conns.old conns.new) }
    ensures given_up { (cfg : C.Settings) → AllFresh (C.stands cfg) pool.old
        → IfErr result (λ fault. AllLeft (C.meaning cfg) (C.stands cfg) C.seen L.seen L.wrote N.seen (address_of to.now) (W.left turns.old) conns.old conns.new budget fault) }
    ensures out { OnOk result (count_out pool.new.owners ≡ 0) }
    ensures ready { OnOk result (AllReady C.seen C.sound pool.new) }
    ensures fresh { (cfg : C.Settings) → AllFresh (C.stands cfg) pool.old → OnOk result (AllFresh (C.stands cfg) pool.new) }
{
    let mut resources = Resources {
        left: budget,
        buffer: [0; MOST_READ],
    };
    match to_their_ends(pool, to, conns, turns, &mut resources) {
        Ok(()) => Ok(()),
        Err(fault) => {
            leave_all::<C, L, N>(conns);
            Err(fault)
        }
    }
}
