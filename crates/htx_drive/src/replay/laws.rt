//! What holds of every session over links that give and take what a record says.
ghost use Rattle.std.specs.Prelude.{ℕ};
ghost use Rattle.px_link.specs.Net.{Place};
ghost use Rattle.rec_format.specs.Recorded.{Visit};
ghost use Rattle.htx_drive.specs.Replay.Memory.{IsEnough};
ghost use Rattle.htx_drive.specs.Replay.Seen.{IsUntouched, IsUntouchedNet};
ghost use Rattle.htx_drive.specs.Ran.{GaveUp};

use crate::replay::cores::Cores;
use crate::{Link, Machine, Net, SessionFault, laws};

/// The session of a connection over a client's link that takes all and a net that finds its entries, in whatever manner the links of that net pass on what
/// is written to them, is given up for want of memory alone: with a budget that is enough for the connection's bytes it is never spent, and no write to its
/// client fails.
pub fn only_want_of_memory_gives_up<C: Machine, K: Cores<C>, L: Link, N: Net<Link = L>>()
    ensures unspent { (cores : K) (core : C) (visit : Visit) (to : Place) (first client : L) (first_net net : N) (budget : ℕ)
        → K.ready cores → IsUntouched L.seen L.wrote visit.client first → IsUntouchedNet visit.servers (N.seen first_net) → IsEnough visit (C.meaning (K.settings cores)).limits.bufsize budget
        → GaveUp (C.meaning (K.settings cores)) (C.stands (K.settings cores)) core (C.seen core).lost L.seen L.wrote first client to (N.seen first_net) (N.seen net) budget SessionFault.Spent → ⊥ }
    ensures written { (cores : K) (core : C) (visit : Visit) (to : Place) (first client : L) (first_net net : N) (budget : ℕ)
        → IsUntouched L.seen L.wrote visit.client first
        → GaveUp (C.meaning (K.settings cores)) (C.stands (K.settings cores)) core (C.seen core).lost L.seen L.wrote first client to (N.seen first_net) (N.seen net) budget SessionFault.ClientWrite → ⊥ }
{
    laws::bytes_bound_requests::<C>();
    laws::enough_is_never_spent::<C, L, N>();
}
