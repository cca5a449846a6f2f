//! What an exchange is walked through with.
ghost use Rattle.std.specs.Prelude.{IfOk};
ghost use Rattle.http_rules.specs.Valid.{IsValid};

use crate::trail::Trail;
use http_rules::{Config, OutOfMemory, Scratch, Vars};
use htx_arena::Arena;
use px_sample::Buf;
use std::alloc::Global;

/// What rules run with, and what was told of those that ran.
#[derive(Drop)]
pub(crate) struct Teller {
    pub(crate) vars: Vars,
    pub(crate) scratch: Scratch,
    pub(crate) trail: Trail,
}

/// The exchange so far.
#[derive(Drop)]
pub(crate) struct Walk {
    pub(crate) teller: Teller,
    /// The head that was read last.
    pub(crate) msg: Arena,
    /// What the client is sent in place of a server's answer.
    pub(crate) said: Arena,
    /// The method of the request as its rules left it.
    pub(crate) method: Buf,
}

ghost use Rattle.px_explain.specs.Walked.{IsBegun};

/// The beginning of an exchange, in which no variable is set. What is told of it goes behind what was told.
pub(crate) fn begin(alloc: Global, config: &Config, trail: Trail) -> Result<Walk, OutOfMemory>
    requires { IsValid config.now }
    ensures { IfOk result (IsBegun config.now trail) }
{
    let size = config.limits.bufsize;
    let teller = Teller {
        vars: Vars::new(alloc)?,
        scratch: Scratch::new(alloc, size)?,
        trail,
    };
    Ok(Walk {
        teller,
        msg: Arena::new(alloc, size)?,
        said: Arena::new(alloc, size)?,
        method: Buf::new(alloc, size)?,
    })
}
