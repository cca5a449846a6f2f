//! Connections and the cores of a pool.
ghost use Rattle.std.specs.Prelude.{◌≡◌, ◌≢◌, ◌<◌, ◌≤◌, ◌⊎◌, ℕ, List, Some, None, true, false, is_some, OnOk, OnErr, IfOk, IfSome, IsErrOf, Bool};
ghost use Rattle.session_core.specs.History.{Past, nothing_yet};
ghost use Rattle.px_link.specs.Net.{address_of};
ghost use Rattle.px_link.specs.declared.turns.Turn.{Turn};
ghost use Rattle.px_link.specs.Turns.{first_of, rest_of};
ghost use Rattle.px_pool.specs.Owners.{has_one, all_out, SameBeside};
ghost use Rattle.px_pool.specs.Seats.{core_of, count_sets};
ghost use Rattle.htx_drive.specs.Weave.Woven.{Pays};
ghost use Rattle.htx_drive.specs.Weave.Went.{GoesOn, MovesOn, SpentSo, LowersSo, OnEnded};
ghost use Rattle.htx_drive.specs.Weave.State.{AllReady, AllFresh, Seated, SetSo, MayMove, HasRoom, IsPlaced};
ghost use Rattle.htx_drive.specs.Weave.Rounds.{MovedOn, Rested};
ghost use Rattle.htx_drive.specs.Weave.Halted.{Halted, IsLent};

use crate::resources::Resources;
use crate::weave::conn::Conn;
use crate::weave::fault::WeaveFault;
use crate::weave::mover::{Went, goes};
use crate::weave::resets::Resets;
use crate::{Address, Link, Net, OutOfMemory, Turn};
use px_pool::{Pool, Took};

/// Takes back the core of a connection: nothing has happened to it, and it is free.
fn give<C: Resets>(pool: &mut Pool<C>, number: u32)
    requires has { has_one number pool.old.owners ≡ true }
    requires sound { IfSome (core_of number pool.old) C.sound }
    ensures none { core_of number pool.new ≡ None }
    ensures gone { has_one number pool.new.owners ≡ false }
    ensures sets { count_sets pool.new ≡ count_sets pool.old }
    ensures beside { SameBeside number pool.old.owners pool.new.owners }
    ensures others { (other : ℕ) → other ≢ number → core_of other pool.new ≡ core_of other pool.old }
    ensures ready { AllReady C.seen C.sound pool.old → AllReady C.seen C.sound pool.new }
    ensures fresh { (cfg : C.Settings) → IfSome (core_of number pool.old) (λ core. (past : Past) × C.stands cfg core past) → AllFresh (C.stands cfg) pool.old → AllFresh (C.stands cfg) pool.new }
{
    pool.core(number).reset();
    pool.release(number);
}

/// Whether a connection has a core, or gets one.
fn seated<C: Resets>(pool: &mut Pool<C>, number: u32) -> bool
    ensures has { result ≡ true → has_one number pool.new.owners ≡ true }
    ensures wait { result ≡ false → (core_of number pool.old ≡ None) × (all_out pool.old.owners ≡ true) × (pool.new ≡ pool.old) }
    ensures none { result ≡ false → has_one number pool.old.owners ≡ false }
    ensures sets { count_sets pool.new ≡ count_sets pool.old }
    ensures beside { SameBeside number pool.old.owners pool.new.owners }
    ensures others { (other : ℕ) → other ≢ number → core_of other pool.new ≡ core_of other pool.old }
    ensures seated { Seated number pool.old pool.new }
{
    if pool.has(number) {
        return true;
    }
    match pool.take(number) {
        Took::Set => true,
        Took::Wait => false,
    }
}

/// The move of a connection that has a core of the pool. Where it ends its core is free again; no other connection's core is touched.
fn set_goes<C: Resets, L: Link, N: Net<Link = L>>(
    pool: &mut Pool<C>,
    conn: &mut Conn<L, N>,
    number: u32,
    to: &Address,
    turn: Option<Turn>,
    resources: &mut Resources,
) -> Result<Went, OutOfMemory>
    requires has { has_one number pool.old.owners ≡ true }
    requires sound { IfSome (core_of number pool.old) C.sound }
    requires serving { IfSome (core_of number pool.old) (λ core. (C.seen core).serving ≡ is_some conn.old.server) }
    requires lent { is_some conn.old.server ≡ true → 0 < (N.seen conn.old.net).lent }
    requires ran { conn.old.ran ≡ None }
    ensures others { (other : ℕ) → other ≢ number → core_of other pool.new ≡ core_of other pool.old }
    ensures goes { (cfg : C.Settings) (all ahead : List Turn) (total : ℕ) (first : L) (first_net : N) → turn ≡ first_of ahead → IfSome (core_of number pool.old) (GoesOn (C.stands cfg) C.seen L.seen L.wrote N.seen (address_of to.now) all ahead first first_net total resources.old.left conn.old)
        → MovesOn result (C.meaning cfg) (C.stands cfg) C.seen L.seen L.wrote N.seen (address_of to.now) all ahead first first_net total resources.new.left conn.new (λ P. IfSome (core_of number pool.new) P) (λ P. P) (λ P. (core : C) × P core) }
    ensures spent { IfOk result (λ went. SpentSo went resources.new.left) }
    ensures lowers { IfOk result (λ went. LowersSo turn went resources.old.left resources.new.left) }
    ensures no_more { resources.new.left ≤ resources.old.left }
    ensures sets { count_sets pool.new ≡ count_sets pool.old }
    ensures beside { SameBeside number pool.old.owners pool.new.owners }
    ensures gone { IfOk result (λ went. OnEnded went (has_one number pool.new.owners ≡ false)) }
    ensures keeps { IfOk result (λ went. SetSo went C.seen C.sound (core_of number pool.new) conn.new.server (N.seen conn.new.net).lent conn.new.ran) }
    ensures ready { OnOk result (AllReady C.seen C.sound pool.old → AllReady C.seen C.sound pool.new) }
    ensures fresh { (cfg : C.Settings) (all ahead : List Turn) (total : ℕ) (first : L) (first_net : N) → turn ≡ first_of ahead → IfSome (core_of number pool.old) (GoesOn (C.stands cfg) C.seen L.seen L.wrote N.seen (address_of to.now) all ahead first first_net total resources.old.left conn.old)
        → AllFresh (C.stands cfg) pool.old → OnOk result (AllFresh (C.stands cfg) pool.new) }
    ensures lost { OnErr result ((conn.new.server ≡ None) × (conn.new.ran ≡ None)) }
{
    match goes(conn, pool.core(number), to, turn, resources) {
        Ok(Went::On) => Ok(Went::On),
        Ok(Went::Ended) => {
            give(pool, number);
            Ok(Went::Ended)
        }
        Ok(Went::Spent) => Ok(Went::Spent),
        Err(OutOfMemory) => Err(OutOfMemory),
    }
}

/// The move of a connection: one that has ended, or that gets no core, does nothing.
pub(crate) fn move_of<C: Resets, L: Link, N: Net<Link = L>>(
    pool: &mut Pool<C>,
    conn: &mut Conn<L, N>,
    number: u32,
    to: &Address,
    turn: Option<Turn>,
    resources: &mut Resources,
) -> Result<(), WeaveFault>
    requires may { MayMove C.seen C.sound conn.old.server (N.seen conn.old.net).lent conn.old.ran (core_of number pool.old) }
    requires ready { AllReady C.seen C.sound pool.old }
    ensures others { (other : ℕ) → other ≢ number → core_of other pool.new ≡ core_of other pool.old }
    ensures may { OnOk result (MayMove C.seen C.sound conn.new.server (N.seen conn.new.net).lent conn.new.ran (core_of number pool.new)) }
    ensures ready { OnOk result (AllReady C.seen C.sound pool.new) }
    ensures at { (cfg : C.Settings) (prompt : Bool) (turns ahead : List Turn) (total : ℕ) (first : L) (first_net : N) → turn ≡ first_of ahead → HasRoom prompt number pool.old.owners → AllFresh (C.stands cfg) pool.old
        → IsPlaced (C.meaning cfg) (C.stands cfg) C.seen C.sound L.seen L.wrote N.seen (address_of to.now) prompt turns ahead first first_net total resources.old.left number conn.old pool.old
        → OnOk result (IsPlaced (C.meaning cfg) (C.stands cfg) C.seen C.sound L.seen L.wrote N.seen (address_of to.now) prompt turns (rest_of ahead) first first_net total resources.new.left number conn.new pool.new) }
    ensures fresh { (cfg : C.Settings) (prompt : Bool) (turns ahead : List Turn) (total : ℕ) (first : L) (first_net : N) → turn ≡ first_of ahead → AllFresh (C.stands cfg) pool.old
        → IsPlaced (C.meaning cfg) (C.stands cfg) C.seen C.sound L.seen L.wrote N.seen (address_of to.now) prompt turns ahead first first_net total resources.old.left number conn.old pool.old
        → OnOk result (AllFresh (C.stands cfg) pool.new) }
    ensures halted { (cfg : C.Settings) (prompt : Bool) (turns ahead : List Turn) (total : ℕ) (first : L) (first_net : N) → turn ≡ first_of ahead → AllFresh (C.stands cfg) pool.old
        → IsPlaced (C.meaning cfg) (C.stands cfg) C.seen C.sound L.seen L.wrote N.seen (address_of to.now) prompt turns ahead first first_net total resources.old.left number conn.old pool.old
        → OnErr result (Pays total resources.new.left (Halted (C.meaning cfg) (C.stands cfg) C.seen turns L.seen L.wrote first conn.new.client conn.new.server (address_of to.now) (N.seen first_net) (N.seen conn.new.net) conn.new.ran)) }
    ensures spent { IsErrOf result WeaveFault.Spent → resources.new.left ≡ 0 }
    ensures lent { OnErr result (IsLent conn.new.server (N.seen conn.new.net).lent) }
    ensures ended { is_some conn.old.ran ≡ true → (conn.new ≡ conn.old) × (pool.new ≡ pool.old) }
    ensures sets { count_sets pool.new ≡ count_sets pool.old }
    ensures beside { SameBeside number pool.old.owners pool.new.owners }
    ensures gone { conn.old.ran ≡ None → OnOk result (is_some conn.new.ran ≡ true → has_one number pool.new.owners ≡ false) }
    ensures lowers { turn ≡ None → OnOk result (MovedOn conn.old conn.new resources.old.left resources.new.left ⊎ Rested number pool.old pool.new conn.old conn.new resources.old.left resources.new.left) }
{
    if conn.ran.is_some() {
        return Ok(());
    }
    if !seated(pool, number) {
        return Ok(());
    }
    match set_goes(pool, conn, number, to, turn, resources) {
        Ok(Went::On) => Ok(()),
        Ok(Went::Ended) => Ok(()),
        Ok(Went::Spent) => Err(WeaveFault::Spent),
        Err(OutOfMemory) => Err(WeaveFault::OutOfMemory),
    }
}
