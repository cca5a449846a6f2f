//! What follows for every core.
ghost use Rattle.std.specs.Prelude.{ℕ, ◌≡◌, ◌≤◌, ◌<◌, List, Option, Some, length};
ghost use Rattle.session_core.specs.Consequences.{IsTotal};
ghost use Rattle.session_core.specs.MeaningLaws.Bound.{IsBounded};
ghost use Rattle.px_link.specs.Net.{Coming, Kept, NetSeen, Place};
ghost use Rattle.htx_drive.specs.Budget.{HasRequests, WithTexts};
ghost use Rattle.htx_drive.specs.Came.{Came};
ghost use Rattle.htx_drive.specs.Machine.{TookFront};
ghost use Rattle.htx_drive.specs.Driven.{moved};
ghost use Rattle.htx_drive.specs.Dialled.{Dials};
ghost use Rattle.htx_drive.specs.Ran.{RanSo, GaveUp};
ghost use Rattle.session_core.specs.History.{Past};
ghost use Rattle.htx_drive.specs.Headline.{IsSessionOf};
ghost use Rattle.htx_drive.specs.declared.Ran.{Ran};
ghost use Rattle.http_model.specs.declared.Ending.{Ending};

use crate::{Link, Machine, Net, SessionFault};

/// What a history moved is less than is enough for the texts of its links: of what was taken as a front, over links and a net that are told.
pub fn moved_is_bounded<C: Machine, L: Link, N: Net<Link = L>>()
    ensures { (cfg : C.Settings) (first client : L) (to : Place) (first_net net : N) (bytes : List ℕ) (requests : ℕ) (answers : List (Option Coming)) (kept : List Kept) (past : Past)
        → WithTexts (C.meaning cfg) (L.seen first) (N.seen first_net) bytes requests answers kept (λ most. TookFront (C.meaning cfg) past → Came (L.seen first) (L.seen client) past.client → Dials to (N.seen first_net) (N.seen net) past.connects → moved past < most) }
{}

/// With a budget that is enough, no session is given up as spent: for every core, for turns of any number, and for links that take
/// one byte a write.
pub fn enough_is_never_spent<C: Machine, L: Link, N: Net<Link = L>>()
    ensures { (cfg : C.Settings) (core : C) (first client : L) (to : Place) (first_net net : N) (budget : ℕ) (bytes : List ℕ) (requests : ℕ) (answers : List (Option Coming)) (kept : List Kept)
        → WithTexts (C.meaning cfg) (L.seen first) (N.seen first_net) bytes requests answers kept (λ most. most ≤ budget → GaveUp (C.meaning cfg) (C.stands cfg) core (C.seen core).lost L.seen L.wrote first client to (N.seen first_net) (N.seen net) budget SessionFault.Spent → ⊥) }
{}

/// A stream makes no more exchanges than it has bytes and one more, since each but the last takes a head. So the bytes of a
/// client may stand in a budget for its requests.
pub fn bytes_bound_requests<C: Machine>()
    ensures { (cfg : C.Settings) (bytes : List ℕ) → IsBounded (C.meaning cfg) → IsTotal (C.meaning cfg) → HasRequests (C.meaning cfg) bytes (length bytes) }
{}

/// Over a link and a net that are told, a session that ended is the session of the client's own stream, or where a read of the client
/// failed of the bytes that were read before, broken off, and of the servers that the connects found.
pub fn ran_is_the_session<C: Machine, L: Link>()
    ensures { (cfg : C.Settings) (core : C) (first client : L) (to : Place) (first_net net : NetSeen) (ran : Ran) (own : List ℕ) (ending : Ending) (answers : List (Option Coming)) (kept : List Kept)
        → (L.seen first).to_come ≡ Some own → (L.seen first).ending ≡ Some ending → first_net.answers ≡ Some answers → first_net.kept ≡ Some kept
        → RanSo (C.meaning cfg) (C.stands cfg core) L.seen L.wrote first client to first_net net ran
        → IsSessionOf (C.meaning cfg) L.seen L.wrote first client to first_net net ran own ending answers kept }
{}
