//! How many turns the connections of a record may take together.
ghost use Rattle.std.specs.Prelude.{◌≡◌, IfSome};
ghost use Rattle.rec_format.specs.Read.{visits};
ghost use Rattle.htx_drive.specs.Weave.Memory.{needed_by_all};

use crate::replay::budget::budget_of;
use rec_format::Connection;

/// So many turns are more than enough for all connections together; none where it is more than a number can say.
pub(crate) fn budget_for(conns: &[Connection], bufsize: u32) -> Option<u64>
    ensures { IfSome result (λ budget. budget ≡ needed_by_all (visits conns.now) bufsize) }
{
    let mut budget = 1u64;
    for conn in conns {
        let own = budget_of(conn, bufsize)?;
        budget = budget.checked_add(own)?;
    }
    Some(budget)
}
