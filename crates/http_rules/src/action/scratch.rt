//! What rules make their texts in, and search them with.
ghost use Rattle.std.specs.Prelude.{IfOk};

use px_expr::Searchers;
use px_sample::{Buf, OutOfMemory};
use std::alloc::Global;

/// Buffers of the array's size, in which texts are made, and what searches for the patterns of rules. What they hold between two calls
/// changes nothing of what rules come to.
pub struct Scratch {
    pub searchers: Searchers,
    pub text: Buf,
    pub made: Buf,
    pub buf: Buf,
    pub spare: Buf,
}

impl Drop for Scratch {
    fn drop(self) {
        let Scratch {
            searchers: _,
            text: _,
            made: _,
            buf: _,
            spare: _,
        } = self;
    }
}

ghost use Rattle.http_rules.specs.Action.Outcome.{IsScratch};

impl Scratch {
    /// Buffers for arrays of this size. Beside searches for patterns, this call alone takes memory.
    pub fn new(alloc: Global, size: u32) -> Result<Scratch, OutOfMemory>
        ensures { IfOk result (IsScratch size) }
    {
        Ok(Scratch {
            searchers: Searchers::new(alloc),
            text: Buf::new(alloc, size)?,
            made: Buf::new(alloc, size)?,
            buf: Buf::new(alloc, size)?,
            spare: Buf::new(alloc, size)?,
        })
    }
}
