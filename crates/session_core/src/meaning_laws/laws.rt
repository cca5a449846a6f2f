//! What follows from the meaning of a session alone.
ghost use Rattle.std.specs.Prelude.{◌≡◌, ◌+◌, ◌*◌, ◌≤◌, ◌++◌, ℕ, List, [], false, length, sum_by};
ghost use Rattle.http_model.specs.declared.Ending.{Ending};
ghost use Rattle.http_model.specs.Head.{Head};
ghost use Rattle.http_model.specs.Reading.{Received, BodyReading};
ghost use Rattle.session_model.specs.Stream.{Stream, Server};
ghost use Rattle.session_model.specs.Env.{request_env, response_env};
ghost use Rattle.session_model.specs.Meaning.{HoldsOn, is_interim};
ghost use Rattle.session_model.specs.Asking.{Asker, Refused, Asks, asked_by, request_by};
ghost use Rattle.session_model.specs.Answering.{Final, AnswersBy, AnswersFrom, answer_by};
ghost use Rattle.session_model.specs.Session.{Session, Out};
ghost use Rattle.session_core.specs.MeaningLaws.Decided.{behind, RefusesHead, IsRequestHead, IsResponseHead, body_bytes, RefusesSoFar, IsCutRequest, IsCutAnswer};
ghost use Rattle.session_core.specs.MeaningLaws.Bound.{IsBounded, sent_size, server_size};

use crate::meaning_laws::Means;

/// The texts of all sides together have at most so many bytes: 1536 for one that came, and three buffers an exchange.
pub fn text_bound<C: Means>()
    ensures { (cfg : C) (client : Stream) (servers : List Server) (out : Out) → IsBounded (C.meaning cfg) → (s : Session (C.meaning cfg) client servers out)
        → length out.client.bytes + sum_by sent_size out.servers ≤ 1536 * (length client.bytes + sum_by server_size servers) + 3 * ((C.meaning cfg).limits.bufsize * length s.exchanges) }
{}

/// What is decided on a stream that has no ending yet is so on each of its continuations: a refused head, what is asked of a head that
/// came and answered behind one, and the cut by filters that refuse the bytes so far.
pub fn stays_decided<C: Means>()
    ensures refused { (cfg : C) (vars : (C.meaning cfg).Vars) (bytes : List ℕ) (code : ℕ) → RefusesHead (C.meaning cfg) bytes code
        → (rest : Stream) → Asks (C.meaning cfg) vars (behind bytes rest) (Refused code false [] vars) }
    ensures asked { (cfg : C) (vars : (C.meaning cfg).Vars) (used : List ℕ) (received : Received) → IsRequestHead (C.meaning cfg) used received
        → (rest : Stream) → Asks (C.meaning cfg) vars (behind used rest) (asked_by (C.meaning cfg) received rest ((C.meaning cfg).request_rules (request_env vars received.head))) }
    ensures answered { (cfg : C) (asker : Asker) (vars : (C.meaning cfg).Vars) (used : List ℕ) (received : Received) → IsResponseHead (C.meaning cfg) asker.head_asked used received → is_interim received.head ≡ false
        → (rest : Stream) (final : Final (C.meaning cfg).Vars) → AnswersBy (C.meaning cfg) asker received rest ((C.meaning cfg).response_rules (response_env ((C.meaning cfg).answering vars) asker.method received.head)) final
        → AnswersFrom (C.meaning cfg) asker vars (behind used rest) (record { interim = []; final = final }) }
    ensures cut_request { (cfg : C) (received : Received) (head : Head) (vars : (C.meaning cfg).Vars) (front more : List ℕ) (code : ℕ) → HoldsOn (C.meaning cfg).request_filters → RefusesSoFar (C.meaning cfg).request_filters front code
        → (ending : Ending) (body : BodyReading) → body_bytes body ≡ front ++ more
        → IsCutRequest (request_by (C.meaning cfg) received head vars ending body) code ((C.meaning cfg).request_filters.filter_so_far front).output }
    ensures cut_answer { (cfg : C) (asker : Asker) (received : Received) (head : Head) (vars : (C.meaning cfg).Vars) (front more : List ℕ) (code : ℕ) → HoldsOn (C.meaning cfg).response_filters → RefusesSoFar (C.meaning cfg).response_filters front code
        → (body : BodyReading) → body_bytes body ≡ front ++ more
        → IsCutAnswer (answer_by (C.meaning cfg) asker received head vars body) ((C.meaning cfg).response_filters.filter_so_far front).output }
{}
