//! The cores that the connections of a record share.
ghost use Rattle.std.specs.Prelude.{◌≡◌, ◌<◌, length, IfOk};
ghost use Rattle.std.specs.List.{AllByRecursion};
ghost use Rattle.px_pool.specs.Owners.{count_out};
ghost use Rattle.px_pool.specs.Seats.{free_of};
ghost use Rattle.htx_drive.specs.Weave.State.{IsReady, IsFresh, AllReady, AllFresh};

use crate::OutOfMemory;
use crate::replay::Cores;
use crate::weave::resets::Resets;
use px_pool::Pool;
use std::alloc::Global;

/// So many cores, to which nothing has happened.
pub fn cores_for<C: Resets + Drop, K: Cores<C>>(
    alloc: Global,
    cores: &K,
    sets: u32,
) -> Result<Vec<C>, OutOfMemory>
    requires ready { K.ready cores.now }
    ensures count { IfOk result (λ all. length all.items ≡ sets) }
    ensures ready { IfOk result (λ all. AllByRecursion (IsReady C.seen C.sound) all.items) }
    ensures fresh { IfOk result (λ all. AllByRecursion (IsFresh (C.stands (K.settings cores.now))) all.items) }
{
    let mut all = Vec::new(alloc);
    for _ in 0..sets {
        let core = cores.core(alloc)?;
        all.push(core)?;
    }
    Ok(all)
}

/// A pool of so many cores, all of which are free.
pub fn pool_of<C: Resets + Drop, K: Cores<C>>(
    alloc: Global,
    cores: &K,
    sets: u32,
) -> Result<Pool<C>, OutOfMemory>
    requires ready { K.ready cores.now }
    requires some { 0 < sets }
    ensures some { IfOk result (λ pool. 0 < length (free_of pool)) }
    ensures sets { IfOk result (λ pool. length (free_of pool) ≡ sets) }
    ensures unused { IfOk result (λ pool. count_out pool.owners ≡ 0) }
    ensures ready { IfOk result (λ pool. AllReady C.seen C.sound pool) }
    ensures fresh { IfOk result (λ pool. AllFresh (C.stands (K.settings cores.now)) pool) }
{
    let all = cores_for(alloc, cores, sets)?;
    let pool = Pool::new(alloc, all)?;
    Ok(pool)
}
