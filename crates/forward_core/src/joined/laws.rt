//! What follows for the core of a configuration, behind each call of `work`: nothing is held back.
ghost use Rattle.std.specs.Prelude.{◌≡◌, ◌⊎◌, ℕ, [], None, true, false};
ghost use Rattle.http_rules.specs.declared.config.Config.{Config};
ghost use Rattle.session_core.specs.History.{Past};
ghost use Rattle.session_core.specs.declared.Phase.TheVariants as phase;
ghost use Rattle.http_model.specs.declared.Source.TheVariants as source;
ghost use Rattle.session_core.specs.declared.Told.TheVariants as told;
ghost use Rattle.session_core.specs.declared.machine.At.{At};
ghost use Rattle.forward_core.specs.Joined.HeldBack.{HasWorked, IsUncutSoFar, IsSentSoFar, AwaitsAnswer, IsAnsweredSoFar, AwaitsRequest};
ghost use Rattle.session_core.specs.Waits.{is_turned, wants_of};
ghost use Rattle.forward_core.specs.Joined.Joined.{request_of, answer_of};
ghost use Rattle.forward_core.specs.Joined.Waiting.{WaitsForHead, WaitsForNone};
ghost use Rattle.forward_core.specs.declared.joined.directions.Directions.{Directions};

use crate::answer::laws as answers;
use crate::joined::Directions;
use crate::request::laws as requests;
use session_core::laws::{exchanges_are, reads_in_hand, serves_in_hand};

/// While a server is open: where no cut of its request was met, and the server has taken all text or takes no more, what the client gave shows no
/// cut (`no_cut`); and a server that has taken all text of a request that goes on was sent all that came, but what filters keep back (`sent`).
pub fn request_not_held_back<'c>()
    ensures no_cut { (cfg : Config) (size : ℕ) (d : Directions) (at : At) (past : Past) → HasWorked cfg size d at past → at.phase ≡ phase.Serving → at.cut ≡ None
        → ((request_of d).window ≡ []) ⊎ ((request_of d).dropped ≡ true) → IsUncutSoFar cfg (request_of d).source past }
    ensures sent { (cfg : Config) (size : ℕ) (d : Directions) (at : At) (past : Past) → HasWorked cfg size d at past → at.phase ≡ phase.Serving
        → (request_of d).source ≡ source.Going → (request_of d).window ≡ [] → (request_of d).dropped ≡ false → IsSentSoFar cfg (request_of d).window past }
{
    serves_in_hand::<Directions<'c>>();
    requests::nothing_held_back();
}

/// While a server is open and the client has taken all text: where the answer hasn't begun and no refusal took its place, no final head has come, and
/// the interim heads were put out (`waits`); where it goes on, whether its request was met as cut or not, all that came of it was put out, but what
/// filters keep back (`answered`).
pub fn answer_not_held_back<'c>()
    ensures waits { (cfg : Config) (size : ℕ) (d : Directions) (at : At) (past : Past) → HasWorked cfg size d at past → at.phase ≡ phase.Serving → is_turned at.cut ≡ false
        → (answer_of d).window ≡ [] → (answer_of d).begun ≡ false → AwaitsAnswer cfg (answer_of d).window past }
    ensures answered { (cfg : Config) (size : ℕ) (d : Directions) (at : At) (past : Past) → HasWorked cfg size d at past → at.phase ≡ phase.Serving
        → (answer_of d).window ≡ [] → (answer_of d).begun ≡ true → (answer_of d).told ≡ told.Going → IsAnsweredSoFar cfg (answer_of d).window past }
{
    serves_in_hand::<Directions<'c>>();
    answers::begun_or_waits();
    answers::body_put_out();
}

/// Whether the client waits for a response head before it sends its body (RFC 9110 section 10.1.1). While a server is open and no refusal took the
/// place of its answer, the want `client_waits` stands only where the request says so and the server has sent no head, interim or final (`waits`).
/// Where it doesn't stand, the request says nothing of it, or the server's stream begins with a head (`free`). Before a server is open it stands exactly
/// where the request says so (`opening`).
pub fn client_waits_in_hand<'c>()
    ensures waits { (cfg : Config) (size : ℕ) (d : Directions) (at : At) (past : Past) → HasWorked cfg size d at past → at.phase ≡ phase.Serving → is_turned at.cut ≡ false
        → (wants_of (request_of d) (answer_of d) at).client_waits ≡ true → WaitsForHead cfg past }
    ensures free { (cfg : Config) (size : ℕ) (d : Directions) (at : At) (past : Past) → HasWorked cfg size d at past → at.phase ≡ phase.Serving
        → (wants_of (request_of d) (answer_of d) at).client_waits ≡ false → WaitsForNone cfg past }
    ensures opening { (cfg : Config) (size : ℕ) (d : Directions) (at : At) (past : Past) → HasWorked cfg size d at past → at.phase ≡ phase.Opening
        → (wants_of (request_of d) (answer_of d) at).client_waits ≡ (request_of d).awaits }
{
    exchanges_are::<Directions<'c>>();
    answers::head_heard();
}

/// Where the next request is waited for, none has come.
pub fn head_not_held_back<'c>()
    ensures { (cfg : Config) (size : ℕ) (d : Directions) (at : At) (past : Past) → HasWorked cfg size d at past → at.phase ≡ phase.Reading → AwaitsRequest cfg past }
{
    reads_in_hand::<Directions<'c>>();
    requests::waits_for_a_head();
}
