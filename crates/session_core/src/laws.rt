//! What follows for every core that stands for its history.
ghost use Rattle.std.specs.Prelude.{◌≡◌, ◌++◌, ◌∷◌, [], List, Bool, Some, true, false};
ghost use Rattle.http_model.specs.declared.Close.{Close};
ghost use Rattle.http_model.specs.declared.End.{End};
ghost use Rattle.session_core.specs.History.{Event, Past, past_of};
ghost use Rattle.session_core.specs.Consequences.{IsFinal, IsFront, out_of_past};
ghost use Rattle.session_core.specs.Sided.{RequestSeen, AnswerSeen};
ghost use Rattle.session_core.specs.Waits.{wants_of, is_serving, is_turned};
ghost use Rattle.session_core.specs.Drives.{WantsMean, IsAlone, WantsSay, BegunSays, RefusalBegun, ReplyBegun, TurnedBegun, IsAskedFor};
ghost use Rattle.session_core.specs.InHand.{ReadsInHand, ServesInHand, RefusesInHand, RepliesInHand, ExchangesAre};
ghost use Rattle.session_core.specs.Leads.{Stands, Leads, Sees};
ghost use Rattle.session_core.specs.Lines.{LineInHand, LineTold};
ghost use Rattle.session_core.specs.Statuses.{TellsExchange, status_in, whole_in};
ghost use Rattle.session_core.specs.Place.{IsPlaced};
ghost use Rattle.session_core.specs.declared.machine.At.{At};
ghost use Rattle.session_core.specs.declared.Phase.TheVariants as phase;

use crate::Works;

/// Where a session is over, what was taken is its session, whatever the open streams go on to give.
pub fn over_is_the_session<S: Works>()
    ensures { (cfg : S.Settings) (sides : S) (at : At) (past : Past) (how : End) → Stands (S.meaning cfg) S.request S.answer (S.stands cfg) sides at past
        → (wants_of (S.request sides) (S.answer sides) at).over ≡ Some how → IsFinal (S.meaning cfg) past (out_of_past past past.taken at.exchanges how) }
{}

/// At every moment what was put out is a front of a session in which streams without an ending break off here.
pub fn put_out_is_a_front<S: Works>()
    ensures { (cfg : S.Settings) (sides : S) (at : At) (past : Past) → Stands (S.meaning cfg) S.request S.answer (S.stands cfg) sides at past
        → IsFront (S.meaning cfg) past (S.answer sides).window (S.request sides).window (S.answer sides).begun }
{}

/// The same of what was taken, the windows left out.
pub fn taken_is_a_front<S: Works>()
    ensures { (cfg : S.Settings) (sides : S) (at : At) (past : Past) → Stands (S.meaning cfg) S.request S.answer (S.stands cfg) sides at past
        → IsFront (S.meaning cfg) past [] [] (S.answer sides).begun }
{}

/// A call that leads from a core to another does so for whole histories.
pub fn calls_lead_histories<S: Works>()
    ensures { (cfg : S.Settings) (old new : S) (old_at new_at : At) (h : List Event) (e : Event) → Leads S.meaning S.request S.answer S.stands old old_at new new_at e
        → Stands (S.meaning cfg) S.request S.answer (S.stands cfg) old old_at (past_of h) → Stands (S.meaning cfg) S.request S.answer (S.stands cfg) new new_at (past_of (h ++ e ∷ [])) }
{}

/// What a core sees of its history: how a request was met as cut, and whether the client's stream goes on.
pub fn sees_its_history<S: Works>()
    ensures { (cfg : S.Settings) (sides : S) (at : At) (past : Past) → Stands (S.meaning cfg) S.request S.answer (S.stands cfg) sides at past → Sees (S.request sides) at past }
{}

/// What wants say of windows and rooms, and of whether a server is open.
pub fn wants_mean()
    ensures { (q : RequestSeen) (a : AnswerSeen) (at : At) → WantsMean q a (is_serving at.phase) (wants_of q a at) }
{}

/// Where a session is over, nothing else is wanted.
pub fn over_is_alone()
    ensures { (q : RequestSeen) (a : AnswerSeen) (at : At) (how : End) → (wants_of q a at).over ≡ Some how → IsAlone (wants_of q a at) }
{}

/// What wants say of the history.
pub fn wants_say<S: Works>()
    ensures { (cfg : S.Settings) (sides : S) (at : At) (past : Past) → Stands (S.meaning cfg) S.request S.answer (S.stands cfg) sides at past
        → WantsSay (wants_of (S.request sides) (S.answer sides) at) past }
{}

/// What `begun` says of the bytes put out: while a server's answer goes out (`answer`); while a refusal or a reply does, exactly whether a byte of it
/// was put out, with no server open (`refusal`, `reply`) and behind interim heads, in place of a server's answer (`turned`). Behind the close of the
/// server's link it is what it was (`closed`, `closed_turned`).
pub fn begun_says<S: Works>()
    ensures answer { (cfg : S.Settings) (sides : S) (at : At) (past : Past) → Stands (S.meaning cfg) S.request S.answer (S.stands cfg) sides at past
        → at.phase ≡ phase.Serving → is_turned at.cut ≡ false → BegunSays (S.meaning cfg) past (S.answer sides).window (S.answer sides).begun }
    ensures refusal { (cfg : S.Settings) (sides : S) (at : At) (past : Past) → Stands (S.meaning cfg) S.request S.answer (S.stands cfg) sides at past
        → IsPlaced (S.placed sides) (S.answer sides) at.phase at.cut → at.phase ≡ phase.Refusing → RefusalBegun (S.meaning cfg) (S.stands cfg sides) (S.answer sides) at past }
    ensures reply { (cfg : S.Settings) (sides : S) (at : At) (past : Past) (kept : Bool) → Stands (S.meaning cfg) S.request S.answer (S.stands cfg) sides at past
        → IsPlaced (S.placed sides) (S.answer sides) at.phase at.cut → at.phase ≡ phase.Replying kept → ReplyBegun (S.meaning cfg) (S.stands cfg sides) kept (S.answer sides) at past }
    ensures turned { (cfg : S.Settings) (sides : S) (at : At) (past : Past) → Stands (S.meaning cfg) S.request S.answer (S.stands cfg) sides at past
        → IsPlaced (S.placed sides) (S.answer sides) at.phase at.cut → at.phase ≡ phase.Serving → at.cut ≡ Some false → TurnedBegun (S.meaning cfg) (S.stands cfg sides) (S.request sides) (S.answer sides) at past }
    ensures closed { (cfg : S.Settings) (sides : S) (at : At) (past : Past) → Stands (S.meaning cfg) S.request S.answer (S.stands cfg) sides at past
        → at.phase ≡ phase.Served → is_turned at.cut ≡ false → BegunSays (S.meaning cfg) past (S.answer sides).window (S.answer sides).begun }
    ensures closed_turned { (cfg : S.Settings) (sides : S) (at : At) (past : Past) → Stands (S.meaning cfg) S.request S.answer (S.stands cfg) sides at past
        → IsPlaced (S.placed sides) (S.answer sides) at.phase at.cut → at.phase ≡ phase.Served → at.cut ≡ Some false → TurnedBegun (S.meaning cfg) (S.stands cfg sides) (S.request sides) (S.answer sides) at past }
{}

/// While a server is to be opened, the finished list of the request in hand stands in the array.
pub fn request_is_held<S: Works>()
    ensures { (cfg : S.Settings) (sides : S) (at : At) (past : Past) → Stands (S.meaning cfg) S.request S.answer (S.stands cfg) sides at past
        → at.phase ≡ phase.Opening → IsAskedFor (S.meaning cfg) (S.request sides) past }
{}

/// In front of a request head: the exchange in hand, of which nothing was put out.
pub fn reads_in_hand<S: Works>()
    ensures { (cfg : S.Settings) (sides : S) (at : At) (past : Past) → Stands (S.meaning cfg) S.request S.answer (S.stands cfg) sides at past
        → at.phase ≡ phase.Reading → ReadsInHand (S.meaning cfg) (S.stands cfg sides) (S.answer sides) at past }
{}

/// While a server is open: the exchange in hand, its connect, and what both directions have made of it.
pub fn serves_in_hand<S: Works>()
    ensures { (cfg : S.Settings) (sides : S) (at : At) (past : Past) → Stands (S.meaning cfg) S.request S.answer (S.stands cfg) sides at past
        → at.phase ≡ phase.Serving → ServesInHand (S.meaning cfg) (S.stands cfg sides) (S.request sides) (S.answer sides) at past }
{}

/// While a refusal goes out with no server open: the exchange in hand, however the streams go on.
pub fn refuses_in_hand<S: Works>()
    ensures { (cfg : S.Settings) (sides : S) (at : At) (past : Past) → Stands (S.meaning cfg) S.request S.answer (S.stands cfg) sides at past
        → at.phase ≡ phase.Refusing → RefusesInHand (S.meaning cfg) (S.stands cfg sides) (S.answer sides) at past }
{}

/// While a reply of the request's rules goes out: the exchange in hand, however the streams go on.
pub fn replies_in_hand<S: Works>()
    ensures { (cfg : S.Settings) (sides : S) (at : At) (past : Past) (kept : Bool) → Stands (S.meaning cfg) S.request S.answer (S.stands cfg) sides at past
        → at.phase ≡ phase.Replying kept → RepliesInHand (S.meaning cfg) (S.stands cfg sides) kept (S.answer sides) at past }
{}

/// What the count of exchanges says of the history.
pub fn exchanges_are<S: Works>()
    ensures { (cfg : S.Settings) (sides : S) (at : At) (past : Past) → Stands (S.meaning cfg) S.request S.answer (S.stands cfg) sides at past
        → ExchangesAre (S.meaning cfg) (S.stands cfg sides) (S.request sides) (S.answer sides) at past }
{}

/// What the request line that is told says of the history: it is nothing, or the words of the head that came in the exchange in hand (`hand`); in front
/// of a head it is nothing, and from there on until the next exchange begins it is those words, and nothing only where no head comes (`phase`).
pub fn line_is_in_hand<S: Works>()
    ensures hand { (cfg : S.Settings) (sides : S) (at : At) (past : Past) → Stands (S.meaning cfg) S.request S.answer (S.stands cfg) sides at past
        → LineInHand (S.meaning cfg) (S.stands cfg sides) (S.request sides) (S.answer sides) at past }
    ensures phase { (cfg : S.Settings) (sides : S) (at : At) (past : Past) → Stands (S.meaning cfg) S.request S.answer (S.stands cfg) sides at past
        → IsPlaced (S.placed sides) (S.answer sides) at.phase at.cut → LineTold (S.meaning cfg) (S.stands cfg sides) (S.request sides) (S.answer sides) at past }
{}

/// What a core tells of the exchange in hand is so: its number, the words of its request line, and the status that its client is sent (`tells`). Where a server's link is to be closed,
/// all text of the answer was put out (`close`).
pub fn tells_the_exchange<S: Works>()
    ensures tells { (cfg : S.Settings) (sides : S) (at : At) (past : Past) → Stands (S.meaning cfg) S.request S.answer (S.stands cfg) sides at past → IsPlaced (S.placed sides) (S.answer sides) at.phase at.cut
        → TellsExchange (S.meaning cfg) past (S.answer sides).window (whole_in at.phase (S.answer sides).answered) at.exchanges (S.request sides).line (status_in at.phase (S.answer sides).status) }
    ensures close { (q : RequestSeen) (a : AnswerSeen) (at : At) (how : Close) → (wants_of q a at).server_close ≡ Some how → whole_in at.phase a.answered ≡ true }
{}
