//! What follows where the net tells its links.
ghost use Rattle.std.specs.Prelude.{◌≡◌, ◌∷◌, ℕ, Bool, List, Option, Some, Ok};
ghost use Rattle.htx_drive.specs.declared.Ran.{Ran};
ghost use Rattle.fcgi_link.specs.Asked.{Responder, asked_for};
ghost use Rattle.px_link.specs.Net.{Coming, Kept, Place};
ghost use Rattle.px_proxyproto.specs.Meeting.{source_in};
ghost use Rattle.serve_run.specs.Drove.{DrivesFor};
ghost use Rattle.serve_run.specs.Headline.{ServedSession};
ghost use Rattle.serve_run.specs.Met.{MeetsAndServes};
ghost use Rattle.serve_run.specs.Served.{Connection};

use htx_drive::laws::ran_is_the_session;
use htx_drive::weave::ResetsFor;
use px_link::{Link, Net};
use px_proxyproto::HasPair;

/// A connection that the driver served to its end is the session of the accepted link's own stream, from behind its header where it is to begin with one, or
/// where a read of it failed of the bytes that were read before, broken off, and of the servers that the connects found, with the end and the number of
/// exchanges that its line says; each link that was connected for it asked the application, where there is one, which then answers with the HTTP stream that its
/// records are, and began with the header of its pair, where one is sent. Where no header stands there, nothing was sent to anybody, and the line says so.
pub fn a_line_is_its_session<C: ResetsFor, L: Link + HasPair, N: Net<Link = L>>()
    ensures { (cfg : C.Settings) (accepts_header : Bool) (sends_header : Option ℕ) (responder : Option Responder) (to : Place) (before after : N) (ran : Ran) (link : Coming) (later : List Coming) (answers : List (Option Coming)) (kept : List Kept)
        → Connection L.seen L.wrote N.seen (λ first client first_net net result. MeetsAndServes L.tells accepts_header L.seen L.wrote
        (DrivesFor C.meaning C.stands C.seen L.seen L.wrote (C.for_peer cfg) sends_header responder to)
        first client (N.seen first_net) (N.seen net) result) to before after (Ok ran)
        → (N.seen before).accepts ≡ Some (link ∷ later) → (asked_for responder (N.seen before)).answers ≡ Some answers → (N.seen before).kept ≡ Some kept
        → ServedSession (λ pair. C.meaning (C.for_peer cfg (source_in pair))) L.tells accepts_header sends_header responder L.seen L.wrote N.seen to link answers kept after ran }
{
    ran_is_the_session::<C, L>();
}
