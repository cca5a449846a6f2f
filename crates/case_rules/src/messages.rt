//! Whether a condition holds for a message that is given by its head, with buffers of 4096 bytes.
ghost use Rattle.std.specs.Prelude.{◌≤◌, length};

use acl_eval::{Cond, holds};
use case_rows::Fault;
use h1_head::{HeadRead, read_request, read_response};
use http_fetch::{ReqEnv, ResEnv};
use http_model::Limits;
use htx_arena::Arena;
use px_expr::{Env, Searchers};
use px_sample::{Buf, Vars};
use std::alloc::Global;

/// The size of a buffer in bytes.
pub const SIZE: u32 = 4096;

const LIMITS: Limits = Limits {
    bufsize: 4096,
    maxrewrite: 1024,
};

/// That a head was read.
fn whole(read: HeadRead) -> Result<(), Fault> {
    match read {
        HeadRead::Head { .. } => Ok(()),
        _ => Err(Fault::Malformed),
    }
}

/// Whether a condition holds over these samples.
fn holds_over<E: Env>(alloc: Global, cond: &Cond, env: &E) -> Result<bool, Fault> {
    let mut searchers = Searchers::new(alloc);
    let mut buf = Buf::new(alloc, SIZE)?;
    let mut spare = Buf::new(alloc, SIZE)?;
    let truth = holds(&mut searchers, cond, env, &mut buf, &mut spare)?;
    Ok(truth)
}

/// Whether a condition holds for the request with this head.
pub fn holds_for_request(alloc: Global, cond: &Cond, head: &[u8]) -> Result<bool, Fault>
    requires { length head.now ≤ 4096 }
{
    let mut msg = Arena::new(alloc, SIZE)?;
    whole(read_request(head, true, LIMITS, &mut msg))?;
    let vars = Vars::new(alloc)?;
    holds_over(alloc, cond, &ReqEnv::new(&msg, &vars))
}

/// Whether a condition holds for the response with this head, to a request of this method.
pub fn holds_for_response(
    alloc: Global,
    cond: &Cond,
    method: &[u8],
    head: &[u8],
) -> Result<bool, Fault>
    requires { length head.now ≤ 4096 }
{
    let mut msg = Arena::new(alloc, SIZE)?;
    whole(read_response(head, true, false, LIMITS, &mut msg))?;
    let vars = Vars::new(alloc)?;
    holds_over(alloc, cond, &ResEnv::new(&msg, method, &vars))
}
