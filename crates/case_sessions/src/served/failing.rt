//! The one call that fails, as a row names it: `net(3)` is the third call of the net, `server_read(2,1)` the first read of the second
//! server's link. A name that is no object's, as `nothing`, is of no call.
use case_rows::{Call, Fault};
use std::alloc::Global;

/// The number of the call in a list, where it is one of this object.
pub(crate) fn calls_of(alloc: Global, failing: &Call<'_>, object: &str) -> Result<Vec<u64>, Fault> {
    let mut calls = Vec::new(alloc);
    if failing.name() == object {
        calls.push(failing.count(0)? as u64)?;
    }
    Ok(calls)
}

/// The same of the link behind so many others, which are counted from 1.
pub(crate) fn calls_of_link(
    alloc: Global,
    failing: &Call<'_>,
    object: &str,
    before: usize,
) -> Result<Vec<u64>, Fault> {
    let mut calls = Vec::new(alloc);
    if failing.name() == object && failing.count(0)?.checked_sub(1) == Some(before) {
        calls.push(failing.count(1)? as u64)?;
    }
    Ok(calls)
}
