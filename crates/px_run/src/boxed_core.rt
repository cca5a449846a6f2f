//! A core in memory of its own.
ghost use Rattle.std.specs.Prelude.{◌≡◌, IfOk};

use px_link::OutOfMemory;
use std::alloc::Global;
use std::marker::Model;

/// A core in memory of its own, so that a place that has none is small. Contracts see the core.
pub(crate) struct BoxedCore<C> {
    inside: Box<C>,
}

impl<C: Drop> Drop for BoxedCore<C> {
    fn drop(self) {
        let BoxedCore { inside: _ } = self;
    }
}

impl<C> Model for BoxedCore<C> {
    ghost Value = { C };

    ghost view = { λ one. one.inside.value };
}

impl<C> BoxedCore<C> {
    ghost use Rattle.std.specs.Borrow.{sem};
    ghost use Rattle.px_run.specs.Boxed.{LendsCore};

    /// The core itself.
    pub fn core(&mut self) -> &mut C
        ensures* back { sem 𝓛 (LendsCore C.row self.entry result) }
        ensures value { result.now ≡ self.old }
    {
        &mut self.inside
    }
}

impl<C: Drop> BoxedCore<C> {
    /// The memory for it is taken here alone.
    fn new(alloc: Global, core: C) -> Result<BoxedCore<C>, OutOfMemory>
        ensures { IfOk result (λ one. one ≡ core) }
    {
        Ok(BoxedCore {
            inside: Box::new(alloc, core)?,
        })
    }
}

/// Each of these cores in memory of its own.
pub(crate) fn boxed<C: Drop>(alloc: Global, cores: Vec<C>) -> Result<Vec<BoxedCore<C>>, OutOfMemory>
    ensures { IfOk result (λ boxed. boxed.items ≡ cores.items) }
{
    let mut boxed = Vec::with_capacity(alloc, cores.len())?;
    for core in cores {
        boxed.push(BoxedCore::new(alloc, core)?)?;
    }
    Ok(boxed)
}
