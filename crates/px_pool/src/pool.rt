//! A pool of cores: a connection takes one, has it lent, and gives it back, and no other connection's core changes.
ghost use Rattle.std.specs.Prelude.{◌≡◌, ◌↔◌, ◌+◌, ◌≢◌, ℕ, true, false, Option, Some, None, length, IfOk};
ghost use Rattle.px_pool.specs.Owners.{has_one, all_out, count_out, SameBeside};
ghost use Rattle.px_pool.specs.Seats.{core_of, free_of, count_sets, first_of, rest_of, with_core, Inserted};

use crate::owners::{count_out, first_free, place_of, seat};
use std::alloc::{AllocError, Global};
use std::marker::Model;

/// What a connection that asks for a core gets.
#[derive(Clone, Copy)]
pub enum Took {
    /// A core of its own.
    Set,
    /// Nothing: every core is out.
    Wait,
}

/// Cores that connections share, each connection one at most. Contracts see who has which core.
pub struct Pool<C> {
    owners: Vec<Option<u32>>,
    cores: Vec<C>,
}

impl<C: Drop> Drop for Pool<C> {
    fn drop(self) {
        let Pool {
            owners: _,
            cores: _,
        } = self;
    }
}

impl<C> Model for Pool<C> {
    ghost use Rattle.std.specs.Prelude.{vec_len};
    ghost use Rattle.px_pool.specs.Seats.{Seats, IsShared};

    ghost Value = { Seats C };

    ghost view = { λ p. record { owners = p.owners.items; cores = p.cores.items } };

    ghost invariant = { λ p. IsShared p.owners.items (vec_len p.cores) };
}

/// No core has an owner.
fn nobody(alloc: Global, count: usize) -> Result<Vec<Option<u32>>, AllocError>
    ensures len { IfOk result (λ owners. length owners.items ≡ count) }
    ensures out { IfOk result (λ owners. count_out owners.items ≡ 0) }
{
    let mut owners = Vec::new(alloc);
    for _ in 0..count {
        owners.push(None)?;
    }
    Ok(owners)
}

impl<C> Pool<C> {
    ghost use Rattle.std.specs.Borrow.{sem};
    ghost use Rattle.px_pool.specs.Pool.{LendsCore};

    /// Whether a connection has a core.
    pub fn has(&self, conn: u32) -> bool
        ensures has { result ≡ has_one conn self.now.owners }
        ensures none { result ≡ false → core_of conn self.now ≡ None }
    {
        place_of(&self.owners, conn).is_some()
    }

    /// How many cores are out.
    pub fn out(&self) -> usize
        ensures { result ≡ count_out self.now.owners }
    {
        count_out(&self.owners)
    }

    /// Gives a connection that has no core one of those that are free, or nothing where all are out.
    pub fn take(&mut self, conn: u32) -> Took
        requires without { has_one conn self.old.owners ≡ false }
        ensures wait { result ≡ Took.Wait ↔ (all_out self.old.owners ≡ true) }
        ensures unchanged { result ≡ Took.Wait → self.new ≡ self.old }
        ensures has { result ≡ Took.Set → has_one conn self.new.owners ≡ true }
        ensures core { core_of conn self.new ≡ first_of (free_of self.old) }
        ensures free { free_of self.new ≡ rest_of (free_of self.old) }
        ensures others { (other : ℕ) → other ≢ conn → core_of other self.new ≡ core_of other self.old }
        ensures sets { count_sets self.new ≡ count_sets self.old }
        ensures beside { SameBeside conn self.old.owners self.new.owners }
        ensures out { result ≡ Took.Set → count_out self.new.owners ≡ 1 + count_out self.old.owners }
    {
        let Some(place) = first_free(&self.owners) else {
            return Took::Wait;
        };
        self.owners[place] = Some(conn);
        Took::Set
    }

    /// The core of a connection. What is done through it changes no other core.
    pub fn core(&mut self, conn: u32) -> &mut C
        requires has { has_one conn self.old.owners ≡ true }
        ensures* back { sem 𝓛 (LendsCore C.row conn self.entry result) }
        ensures value { core_of conn self.old ≡ Some result.now }
        ensures put { (core : C) → core_of conn (with_core conn self.old core) ≡ Some core }
        ensures others { (core : C) (other : ℕ) → other ≢ conn → core_of other (with_core conn self.old core) ≡ core_of other self.old }
        ensures free { (core : C) → free_of (with_core conn self.old core) ≡ free_of self.old }
    {
        let place = seat(&self.owners, conn);
        &mut self.cores[place]
    }

    /// Takes a connection's core back, as it is. Whoever lends it again resets it before.
    pub fn release(&mut self, conn: u32)
        requires has { has_one conn self.old.owners ≡ true }
        ensures gone { has_one conn self.new.owners ≡ false }
        ensures none { core_of conn self.new ≡ None }
        ensures others { (other : ℕ) → other ≢ conn → core_of other self.new ≡ core_of other self.old }
        ensures free { Inserted (core_of conn self.old) (free_of self.old) (free_of self.new) }
        ensures sets { count_sets self.new ≡ count_sets self.old }
        ensures beside { SameBeside conn self.old.owners self.new.owners }
        ensures out { 1 + count_out self.new.owners ≡ count_out self.old.owners }
    {
        let place = seat(&self.owners, conn);
        self.owners[place] = None;
    }
}

impl<C: Drop> Pool<C> {
    /// A pool of these cores, all of which are free.
    pub fn new(alloc: Global, cores: Vec<C>) -> Result<Pool<C>, AllocError>
        ensures free { IfOk result (λ pool. free_of pool ≡ cores.items) }
        ensures out { IfOk result (λ pool. count_out pool.owners ≡ 0) }
    {
        let owners = nobody(alloc, cores.len())?;
        Ok(Pool { owners, cores })
    }
}
