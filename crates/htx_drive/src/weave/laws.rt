//! What follows for each connection of many.
ghost use Rattle.std.specs.Prelude.{ℕ, Bool, ◌≡◌, ◌<◌, List, Option, Some};
ghost use Rattle.http_model.specs.declared.Ending.{Ending};
ghost use Rattle.px_link.specs.Net.{Coming, Kept, NetSeen, Place};
ghost use Rattle.px_link.specs.declared.turns.Turn.{Turn};
ghost use Rattle.htx_drive.specs.Budget.{WithTexts};
ghost use Rattle.htx_drive.specs.Headline.{IsSessionOf};
ghost use Rattle.htx_drive.specs.declared.Ran.{Ran};
ghost use Rattle.htx_drive.specs.Weave.Woven.{EndedSo, GivenUp};

use crate::laws::{moved_is_bounded, ran_is_the_session};
use crate::{Link, Machine, Net};

/// Over a link and a net that are told, a connection that ended is the session of its own client's stream and of the servers that its own connects
/// found: nothing of another connection enters it.
pub fn ended_is_the_session<C: Machine, L: Link>()
    ensures { (cfg : C.Settings) (all ahead : List Turn) (first client : L) (to : Place) (first_net net : NetSeen) (ran : Ran) (count : ℕ) (own : List ℕ) (ending : Ending) (answers : List (Option Coming)) (kept : List Kept)
        → (L.seen first).to_come ≡ Some own → (L.seen first).ending ≡ Some ending → first_net.answers ≡ Some answers → first_net.kept ≡ Some kept
        → EndedSo (C.meaning cfg) (C.stands cfg) C.seen all ahead L.seen L.wrote first client to first_net net ran count
        → IsSessionOf (C.meaning cfg) L.seen L.wrote first client to first_net net ran own ending answers kept }
{
    ran_is_the_session::<C, L>();
}

/// A connection that ended paid less than is enough for its texts.
pub fn ended_pays_less<C: Machine, L: Link, N: Net<Link = L>>()
    ensures { (cfg : C.Settings) (all ahead : List Turn) (first client : L) (to : Place) (first_net net : N) (ran : Ran) (count : ℕ) (bytes : List ℕ) (requests : ℕ) (answers : List (Option Coming)) (kept : List Kept)
        → WithTexts (C.meaning cfg) (L.seen first) (N.seen first_net) bytes requests answers kept (λ most. EndedSo (C.meaning cfg) (C.stands cfg) C.seen all ahead L.seen L.wrote first client to (N.seen first_net) (N.seen net) ran count → count < most) }
{
    moved_is_bounded::<C, L, N>();
}

/// A connection that was given up paid less than is enough for its texts.
pub fn given_up_pays_less<C: Machine, L: Link, N: Net<Link = L>>()
    ensures { (cfg : C.Settings) (all : List Turn) (first client : L) (failed : Bool) (to : Place) (first_net net : N) (count : ℕ) (bytes : List ℕ) (requests : ℕ) (answers : List (Option Coming)) (kept : List Kept)
        → WithTexts (C.meaning cfg) (L.seen first) (N.seen first_net) bytes requests answers kept (λ most. GivenUp (C.meaning cfg) (C.stands cfg) C.seen all L.seen L.wrote first client failed to (N.seen first_net) (N.seen net) count → count < most) }
{
    moved_is_bounded::<C, L, N>();
}
