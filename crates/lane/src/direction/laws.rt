//! What the definitions say together.
ghost use Rattle.std.specs.Prelude.{◌≡◌, [], false};
ghost use Rattle.h1_body.specs.BodyOf.{BodyRead};
ghost use Rattle.lane.specs.Direction.Promise.{Promise, HasBody, BodyTaken, ShowsNoCut, sent_so_far};
ghost use Rattle.lane.specs.Direction.Sent.{Cut, SpellsAs};
ghost use Rattle.lane.specs.Direction.Sends.{Past, Stands, IsAtRest, RestsFor, put_out};
ghost use Rattle.lane.specs.Direction.State.{LaneState};
ghost use Rattle.http_model.specs.declared.Source.TheVariants as source;

/// What a lane that sends a message has put out, and what its source says, is the meaning of what it took.
pub fn promise()
    ensures { (lane : LaneState) (p : Past) → Stands lane p → Promise lane p }
{}

/// Where the source is whole, the bytes taken and those that follow come to some body.
pub fn has_body()
    ensures { (lane : LaneState) (p : Past) → Stands lane p → lane.source ≡ source.Whole → HasBody lane p }
{}

/// A lane that goes on and is at rest has put out all of the head and every body byte that came, but what filters keep back.
pub fn nothing_held_back()
    ensures { (lane : LaneState) (p : Past) → Stands lane p → lane.dropped ≡ false → lane.source ≡ source.Going → IsAtRest lane
        → (read : BodyRead) → BodyTaken lane p [] lane.ended read → SpellsAs p.sent (sent_so_far p read) Cut (put_out lane p) }
{}

/// Where nothing comes though the body is not over, the bytes and the ending taken show no cut of it.
pub fn no_cut_shown()
    ensures { (lane : LaneState) (p : Past) → Stands lane p → lane.source ≡ source.Going → RestsFor lane → ShowsNoCut lane p }
{}
