//! What holds of every connection over links in memory.
ghost use Rattle.std.specs.Prelude.{ℕ, ◌<◌, List, Bool, Result};
ghost use Rattle.px_link.specs.Net.{Place};
ghost use Rattle.px_link.specs.MemLink.{link_of};
ghost use Rattle.px_link.specs.declared.turns.Turn.{Turn};
ghost use Rattle.rec_format.specs.Recorded.{Visit};
ghost use Rattle.htx_drive.specs.declared.Ran.{Ran};
ghost use Rattle.htx_drive.specs.declared.SessionFault.{SessionFault};
ghost use Rattle.htx_drive.specs.Replay.Memory.{needed_by};
ghost use Rattle.htx_drive.specs.Replay.Seen.{wrote_by};
ghost use Rattle.htx_drive.specs.Weave.Memory.{MemConn, IsFreshConn, sees_net};
ghost use Rattle.htx_drive.specs.Weave.State.{Done};
ghost use Rattle.htx_drive.specs.Weave.Woven.{GivenUp};

use crate::Machine;
use crate::laws::bytes_bound_requests;
use crate::replay::Cores;
use crate::replay::record_net::RecordNet;
use crate::weave::laws::{ended_pays_less, given_up_pays_less};
use px_link::MemLink;

/// A connection over its links in memory paid less than it needs by its bytes, whether it has ended or was given up.
pub(crate) fn each_pays_less<C: Machine, K: Cores<C>>()
    ensures ended { (cores : K) (turns : List Turn) (visit : Visit) (to : Place) (first conn : MemConn) (ran : Result Ran SessionFault) (count : ℕ)
        → K.ready cores → IsFreshConn visit first
        → Done (C.meaning (K.settings cores)) (C.stands (K.settings cores)) C.seen turns link_of wrote_by first.client conn.client conn.server to (sees_net first.net) (sees_net conn.net) ran count
        → count < needed_by visit (C.meaning (K.settings cores)).limits.bufsize }
    ensures given_up { (cores : K) (turns : List Turn) (visit : Visit) (to : Place) (first conn : MemConn) (failed : Bool) (count : ℕ)
        → K.ready cores → IsFreshConn visit first
        → GivenUp (C.meaning (K.settings cores)) (C.stands (K.settings cores)) C.seen turns link_of wrote_by first.client conn.client failed to (sees_net first.net) (sees_net conn.net) count
        → count < needed_by visit (C.meaning (K.settings cores)).limits.bufsize }
{
    bytes_bound_requests::<C>();
    ended_pays_less::<C, MemLink, RecordNet>();
    given_up_pays_less::<C, MemLink, RecordNet>();
}
