//! What is asked of an application, over any cut. No code runs here: each law is the contract of an empty function.
ghost use Rattle.std.specs.Prelude.{◌≡◌, ◌≢◌, ◌≤◌, ◌-◌, ◌++◌, ℕ, List, [], length, Some, codes};
ghost use Rattle.std.specs.List.{flat_map, AllByRecursion};
ghost use Rattle.http_model.specs.Head.{Field};
ghost use Rattle.http_model.specs.Spelling.{chunk_text, chunks_end};
ghost use Rattle.fcgi_model.specs.Application.{Application};
ghost use Rattle.fcgi_model.specs.Head.{RequestHead, head_of, framing_of};
ghost use Rattle.fcgi_model.specs.Pairs.{Pair, pairs_of};
ghost use Rattle.fcgi_model.specs.Body.{Place, Goes, Whole, body_at, length_left};
ghost use Rattle.fcgi_lane.specs.Request.Spelled.{IsPlainHead, IsPlainField, IsChunk, spelling};
ghost use Rattle.fcgi_model.specs.Records.{begin_record, params_of, HoldsWhole};
ghost use Rattle.fcgi_model.specs.Flow.{Behind, asked_of, asked_headed, IsSent};
ghost use Rattle.fcgi_lane.specs.Request.Stands.{Stands, reading_of, state_at, starting};

use crate::request::state::RequestState;
use http_model::Framing;
use px_bytes::laws::hex_read_back;

/// The records of pairs hold whole pairs, in order: as many as fit in 8192 bytes, or a single one.
pub fn pairs_stay_whole()
    ensures { (pairs : List Pair) (text : List ℕ) → params_of pairs ≡ Some text → HoldsWhole pairs text }
{}

/// No pair is named `HTTP_PROXY`, whatever the fields are, unless a field is asked for under this name: an application would take it for the proxy that it is to use.
pub fn no_proxy()
    ensures { (application : Application) (head : RequestHead) (framing : Framing) → AllByRecursion (λ name. name ≢ codes "HTTP_PROXY") application.params
        → AllByRecursion (λ pair. pair.0 ≢ codes "HTTP_PROXY") (pairs_of application head framing) }
{}

/// Records of the bytes so far are the front of records of all bytes that may come.
pub fn records_go_on()
    ensures { (application : Application) (bytes more sent : List ℕ) → IsSent (asked_of application bytes) sent → (rest : List ℕ) × IsSent (asked_of application (bytes ++ more)) (sent ++ rest) }
{}

/// Once a request is whole, broken or refused, what follows changes nothing.
pub fn what_follows()
    ensures { (application : Application) (bytes more : List ℕ) → state_at (reading_of (asked_of application bytes)) ≢ RequestState.Going → asked_of application (bytes ++ more) ≡ asked_of application bytes }
{}

/// A translator that was fed nothing stands for nothing.
pub fn at_the_start()
    ensures { (application : Application) → Stands (starting application) [] [] }
{}

/// The head that is spelled as the proxy does is the one that is read, and ends the head of a request behind its last byte.
pub fn heads_are_read()
    ensures read { (head : RequestHead) → IsPlainHead head → head_of (spelling head) ≡ Some head }
    ensures asked { (application : Application) (head : RequestHead) → IsPlainHead head → asked_of application (spelling head) ≡ asked_headed application (Some head) }
{}

/// A body of known length is its bytes. A body in chunks that are spelled as the proxy does is their bytes, and is whole behind the last chunk and the
/// trailers.
pub fn bodies_are_read()
    ensures length { (n : ℕ) (body : List ℕ) → length body ≤ n → Goes (body_at (Framing.Length n)) body (length_left (n - length body)) body }
    ensures chunks { (chunks : List (List ℕ)) → AllByRecursion IsChunk chunks → Goes (body_at Framing.Chunked) (flat_map chunk_text chunks) (body_at Framing.Chunked) (flat_map (λ chunk. chunk) chunks) }
    ensures whole { (chunks : List (List ℕ)) (trailers : List Field) → AllByRecursion IsChunk chunks → AllByRecursion IsPlainField trailers
        → Goes (body_at Framing.Chunked) (flat_map chunk_text chunks ++ chunks_end trailers) Whole (flat_map (λ chunk. chunk) chunks) }
{
    hex_read_back();
}

/// A request whose head is spelled so asks, by the records of its own pairs, what its body is.
pub fn requests_are_read()
    ensures { (application : Application) (head : RequestHead) (framing : Framing) (params text body : List ℕ) (to : Place) → IsPlainHead head → framing_of head.fields ≡ Some framing
        → params_of (pairs_of application head framing) ≡ Some params → Goes (body_at framing) text to body → asked_of application (spelling head ++ text) ≡ Behind (begin_record ++ params) body to }
{}
