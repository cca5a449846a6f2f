//! What the definitions say together.
ghost use Rattle.std.specs.Prelude.{◌≡◌, ◌≢◌, ◌⊎◌, ℕ, List, [], true, false};
ghost use Rattle.http_model.specs.Head.{Field};
ghost use Rattle.http_model.specs.Reading.{Whole};
ghost use Rattle.h1_body.specs.Body.{Hopeless};
ghost use Rattle.h1_body.specs.BodyOf as bodies;
ghost use Rattle.h1_body.specs.BodyOf.{Reads};
ghost use Rattle.session_core.specs.Consequences.{IsTotal};
ghost use Rattle.session_model.specs.Stream.{Stream};
ghost use Rattle.session_core.specs.History.{Coming, Continues};
ghost use Rattle.session_core.specs.Sided.{Asking, Reply, RequestAsks};
ghost use Rattle.http_model.specs.declared.Source.TheVariants as source;
ghost use Rattle.px_sample.specs.Variables.{Variables};
ghost use Rattle.http_rules.specs.declared.config.Config.{Config};
ghost use Rattle.forward_core.specs.Meaning.Product.{meaning_of};
ghost use Rattle.forward_core.specs.Request.Seen.{seen, place_of, source_of, window_of, limits_of};
ghost use Rattle.forward_core.specs.Request.Stands.{IsSound, RequestStands, IsReplied, left_of};
ghost use Rattle.htx_arena.specs.Layout.Contents.{Contents};
ghost use Rattle.forward_core.specs.Request.Reads.{HasHead};
ghost use Rattle.forward_core.specs.Request.Edits.{Edits, array_size_of, with_head};
ghost use Rattle.forward_core.specs.Request.Steps.{RequestsSo, WholeCame};
ghost use Rattle.forward_core.specs.Request.Shown.{ReadsSoFar, ShowsNoCut, PutsAll, NoHeadCame};
ghost use Rattle.forward_core.specs.declared.request.place.Place.TheVariants as place;
ghost use Rattle.forward_core.specs.declared.request.side.RequestSide.{RequestSide};

use h1_body::readings::reading;
use h1_head::laws as heads;
use lane::laws as lanes;

/// Each stream of a client has a head's reading, and a head is at least one byte.
pub fn total()
    ensures { (cfg : Config) → IsTotal (meaning_of cfg) }
{
    heads::some_reading();
    heads::has_bytes();
}

/// What was put out to the server is a front of the request that the client's stream brings, however it goes on, or all of it; and
/// the source is as that request is.
pub fn requests()
    ensures { (cfg : Config) (side : RequestSide) (vars : Variables) (came : Coming) (asking : Asking Variables) (to_server : List ℕ) (reply : Reply Variables)
        → place_of side ≡ place.Sending → RequestStands cfg side vars came asking to_server reply → RequestsSo cfg side vars came asking to_server }
{
    lanes::promise();
    reading();
}

/// The request in hand asks for a server, however the client's stream goes on.
pub fn asks_for_a_server()
    ensures { (cfg : Config) (side : RequestSide) (vars : Variables) (came : Coming) (asking : Asking Variables) (to_server : List ℕ) (reply : Reply Variables)
        → place_of side ≡ place.Sending → RequestStands cfg side vars came asking to_server reply → (stream : Stream) → Continues came stream → RequestAsks (meaning_of cfg) vars asking stream }
{}

/// Whatever edits a head leave in its array, the direction is else as it was: the head that came is still the one that came.
pub fn edited()
    ensures size { (side : RequestSide) → HasHead side → array_size_of side ≡ (limits_of side).bufsize }
    ensures edits { (side : RequestSide) (msg : Contents) → msg.size ≡ array_size_of side → place_of side ≡ place.Idle → HasHead side → Edits side (with_head side msg) }
{
    lanes::edited_lane();
}

/// Where the source is whole the request has come whole, and what stands in the input window follows it.
pub fn came_whole()
    ensures { (cfg : Config) (side : RequestSide) (vars : Variables) (came : Coming) (asking : Asking Variables) (to_server : List ℕ) (reply : Reply Variables)
        → source_of side ≡ source.Whole → RequestStands cfg side vars came asking to_server reply → WholeCame cfg side vars came asking to_server (left_of side) }
{
    lanes::promise();
    lanes::has_body();
}

/// What was replied to stands in front of what is left, where the rules reply.
pub fn came_replied()
    ensures { (cfg : Config) (side : RequestSide) (vars : Variables) (came : Coming) (asking : Asking Variables) (to_server : List ℕ) (reply : Reply Variables)
        → place_of side ≡ place.Replied → RequestStands cfg side vars came asking to_server reply → IsReplied cfg vars came reply (left_of side) }
{}

/// Nothing is held back of a request that goes on, where the direction is at rest and no text waits for the server or it takes no
/// more: what came so far shows no cut of it, and a server that takes has got all of it, but for what filters keep back.
pub fn nothing_held_back()
    ensures no_cut { (cfg : Config) (side : RequestSide) (vars : Variables) (came : Coming) (asking : Asking Variables) (to_server : List ℕ) (reply : Reply Variables)
        → IsSound side → RequestStands cfg side vars came asking to_server reply → place_of side ≡ place.Sending → (seen side).at_rest ≡ true → source_of side ≡ source.Going
        → (window_of side ≡ []) ⊎ ((seen side).dropped ≡ true) → ShowsNoCut cfg came asking }
    ensures puts { (cfg : Config) (side : RequestSide) (vars : Variables) (came : Coming) (asking : Asking Variables) (to_server : List ℕ) (reply : Reply Variables)
        → IsSound side → RequestStands cfg side vars came asking to_server reply → place_of side ≡ place.Sending → (seen side).at_rest ≡ true → source_of side ≡ source.Going
        → window_of side ≡ [] → (seen side).dropped ≡ false → PutsAll cfg came asking to_server }
{
    lanes::nothing_held_back();
    lanes::no_cut_shown();
}

/// What shows no cut is open: no byte in front of a trailer section is malformed, and the bytes don't reach the end of a body.
pub fn uncut_is_open()
    ensures malformed { (cfg : Config) (came : Coming) (asking : Asking Variables) (shows : ShowsNoCut cfg came asking) → bodies.place_of asking.received.framing shows.left.bytes ≢ Hopeless }
    ensures whole { (cfg : Config) (came : Coming) (asking : Asking Variables) (shows : ShowsNoCut cfg came asking) (body : List ℕ) (trailers : List Field) (rest : List ℕ)
        → ¬ (ReadsSoFar cfg asking shows.left (Reads (Whole body trailers rest))) }
{}

/// Where a head is to be read and the direction is at rest, none came, and the client may still give one.
pub fn waits_for_a_head()
    ensures { (cfg : Config) (side : RequestSide) (vars : Variables) (came : Coming) (asking : Asking Variables) (to_server : List ℕ) (reply : Reply Variables)
        → IsSound side → RequestStands cfg side vars came asking to_server reply → place_of side ≡ place.Reading → (seen side).at_rest ≡ true → NoHeadCame cfg came }
{}
