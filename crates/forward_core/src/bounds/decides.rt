//! What the bytes so far decide, where a stream has no ending yet: it is so on each of its continuations.
ghost use Rattle.std.specs.Prelude.{◌≡◌, ◌++◌, ℕ, List, [], ◌∷◌, Bool, true, false};
ghost use Rattle.http_model.specs.declared.Framing.{Framing};
ghost use Rattle.http_model.specs.Head.{Head};
ghost use Rattle.http_model.specs.Reading.{Received, BodyReading, Begins};
ghost use Rattle.h1_head.specs.Kind.{request_heads, response_heads};
ghost use Rattle.http_rules.specs.declared.config.Config.{Config};
ghost use Rattle.http_rules.specs.Valid.{IsValid};
ghost use Rattle.forward_core.specs.Meaning.Product.{meaning_of};
ghost use Rattle.session_model.specs.Stream.{Stream};
ghost use Rattle.session_model.specs.Env.{request_env, response_env};
ghost use Rattle.session_model.specs.Meaning.{HoldsOn, is_interim};
ghost use Rattle.session_model.specs.Asking.{Asker, Refused, Asks, asked_by, request_by};
ghost use Rattle.session_model.specs.Answering.{Final, Refuses, Answered, AnswersBy, AnswersFrom, answer_by, sent_interim};
ghost use Rattle.session_core.specs.MeaningLaws.Decided.{behind, RefusesHead, IsRequestHead, IsResponseHead, RefusesSoFar, IsCutRequest, IsCutAnswer};
ghost use Rattle.forward_core.specs.Bounds.Decided.{DecidesRefusal, DecidesBody, HasBodySoFar, RefusesResponse, IsBody, IsSameRequest};

use crate::meaning::laws::filters_hold_on;
use h1_body::laws::{joins, one_reading};
use h1_head::laws::{head_stays, refusal_stays, refused_where_full};

/// The readers and filters of a configuration stay with what they decided: a refused head, a head that was read in full, a body that
/// is whole or malformed, and what the filters made of the body bytes so far.
pub fn readings_stay()
    ensures refused { (cfg : Config) → IsValid cfg → (window : List ℕ) (code : ℕ) → DecidesRefusal request_heads cfg.limits window code → RefusesHead (meaning_of cfg) window code }
    ensures request { (cfg : Config) (used : List ℕ) (received : Received) → (meaning_of cfg).reads_request used (Begins received []) → IsRequestHead (meaning_of cfg) used received }
    ensures response_refused { (cfg : Config) → IsValid cfg → (head_asked : Bool) (window : List ℕ) (code : ℕ) → DecidesRefusal (response_heads head_asked) cfg.limits window code
        → RefusesResponse (meaning_of cfg) head_asked window code }
    ensures response { (cfg : Config) (head_asked : Bool) (used : List ℕ) (received : Received) → (meaning_of cfg).reads_response head_asked used (Begins received [])
        → IsResponseHead (meaning_of cfg) head_asked used received }
    ensures body { (cfg : Config) (framing : Framing) (bytes : List ℕ) (body : BodyReading) → DecidesBody cfg.limits framing bytes body → IsBody (meaning_of cfg) framing bytes body }
    ensures request_filters { (cfg : Config) → HoldsOn (meaning_of cfg).request_filters }
    ensures response_filters { (cfg : Config) → HoldsOn (meaning_of cfg).response_filters }
{
    head_stays();
    refusal_stays();
    refused_where_full();
    joins();
    filters_hold_on();
}

/// What a window of a client's or a server's stream decides, the session makes of each continuation: the refusal of a head, what is
/// asked of a head that came or answered behind one, the message that a whole or malformed body makes, and the cut by filters
/// that refuse the bytes so far.
pub fn program_decides()
    ensures refused { (cfg : Config) → IsValid cfg → (vars : (meaning_of cfg).Vars) (window : List ℕ) (code : ℕ) → DecidesRefusal request_heads cfg.limits window code
        → (rest : Stream) → Asks (meaning_of cfg) vars (behind window rest) (Refused code false [] vars) }
    ensures asked { (cfg : Config) (vars : (meaning_of cfg).Vars) (window more : List ℕ) (received : Received) → (meaning_of cfg).reads_request window (Begins received more)
        → (rest : Stream) → Asks (meaning_of cfg) vars (behind window rest) (asked_by (meaning_of cfg) received (behind more rest) ((meaning_of cfg).request_rules (request_env vars received.head))) }
    ensures unanswered { (cfg : Config) → IsValid cfg → (asker : Asker) (vars : (meaning_of cfg).Vars) (window : List ℕ) (code : ℕ) → DecidesRefusal (response_heads asker.head_asked) cfg.limits window code
        → (rest : Stream) → AnswersFrom (meaning_of cfg) asker vars (behind window rest) (record { interim = []; final = Refuses 502 asker.method ((meaning_of cfg).answering vars) }) }
    ensures interim { (cfg : Config) (asker : Asker) (vars : (meaning_of cfg).Vars) (window more : List ℕ) (received : Received) → (meaning_of cfg).reads_response asker.head_asked window (Begins received more)
        → is_interim received.head ≡ true → (rest : Stream) (answered : Answered (meaning_of cfg).Vars) → AnswersFrom (meaning_of cfg) asker vars (behind more rest) answered
        → AnswersFrom (meaning_of cfg) asker vars (behind window rest) (record { interim = sent_interim asker (received.head ∷ []) ++ answered.interim; final = answered.final }) }
    ensures answered { (cfg : Config) (asker : Asker) (vars : (meaning_of cfg).Vars) (window more : List ℕ) (received : Received) → (meaning_of cfg).reads_response asker.head_asked window (Begins received more)
        → is_interim received.head ≡ false → (rest : Stream) (final : Final (meaning_of cfg).Vars)
        → AnswersBy (meaning_of cfg) asker received (behind more rest) ((meaning_of cfg).response_rules (response_env ((meaning_of cfg).answering vars) asker.method received.head)) final
        → AnswersFrom (meaning_of cfg) asker vars (behind window rest) (record { interim = []; final = final }) }
    ensures request_body { (cfg : Config) (received : Received) (head : Head) (vars : (meaning_of cfg).Vars) (bytes : List ℕ) (body : BodyReading) → DecidesBody cfg.limits received.framing bytes body
        → (rest : Stream) (read : BodyReading) → (meaning_of cfg).reads_body received.framing (bytes ++ rest.bytes) rest.ending read
        → IsSameRequest (request_by (meaning_of cfg) received head vars rest.ending read) (request_by (meaning_of cfg) received head vars rest.ending body) }
    ensures answer_body { (cfg : Config) (asker : Asker) (received : Received) (head : Head) (vars : (meaning_of cfg).Vars) (bytes : List ℕ) (body : BodyReading) → DecidesBody cfg.limits received.framing bytes body
        → (rest : Stream) (read : BodyReading) → (meaning_of cfg).reads_body received.framing (bytes ++ rest.bytes) rest.ending read
        → answer_by (meaning_of cfg) asker received head vars read ≡ answer_by (meaning_of cfg) asker received head vars body }
    ensures cut_request { (cfg : Config) (received : Received) (head : Head) (vars : (meaning_of cfg).Vars) (bytes front : List ℕ) (code : ℕ) → HasBodySoFar cfg.limits received.framing bytes front
        → RefusesSoFar (meaning_of cfg).request_filters front code → (rest : Stream) (read : BodyReading) → (meaning_of cfg).reads_body received.framing (bytes ++ rest.bytes) rest.ending read
        → IsCutRequest (request_by (meaning_of cfg) received head vars rest.ending read) code ((meaning_of cfg).request_filters.filter_so_far front).output }
    ensures cut_answer { (cfg : Config) (asker : Asker) (received : Received) (head : Head) (vars : (meaning_of cfg).Vars) (bytes front : List ℕ) (code : ℕ) → HasBodySoFar cfg.limits received.framing bytes front
        → RefusesSoFar (meaning_of cfg).response_filters front code → (rest : Stream) (read : BodyReading) → (meaning_of cfg).reads_body received.framing (bytes ++ rest.bytes) rest.ending read
        → IsCutAnswer (answer_by (meaning_of cfg) asker received head vars read) ((meaning_of cfg).response_filters.filter_so_far front).output }
{
    readings_stay();
    head_stays();
    one_reading();
    joins();
}
