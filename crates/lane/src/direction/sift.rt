//! What the filters hold, on its way into the first array.
ghost use Rattle.std.specs.Prelude.{◌≡◌, ◌≢◌, [], true, false};
ghost use Rattle.lane.specs.Sieve.Sieved.{IsSieve, end_of};
ghost use Rattle.lane.specs.declared.sieve.sieve.BodyEnd.TheVariants as body_end;
ghost use Rattle.lane.specs.Direction.Coming.{Comes, ComesBy, came_at};
ghost use Rattle.lane.specs.Direction.Filtering.{SieveFits};

use crate::sieve::{BodyEnd, Sieve, Sifted};
use http_model::Source;
use htx_arena::Arena;

/// What a step of the filters came to.
#[derive(Clone, Copy)]
pub(crate) enum Came {
    /// They go on.
    More,
    /// They wait for more of the body, or there are none.
    Waits,
    /// The source is over.
    Ends(Source),
}

/// What an answer of the filters comes to.
fn came_by(answer: Sifted) -> Came
    ensures { result ≡ came_at answer }
{
    match answer {
        Sifted::Gave | Sifted::Accepted => Came::More,
        Sifted::Idle => Came::Waits,
        Sifted::Cut => Came::Ends(Source::Cut(400)),
        Sifted::Refused(code) => Came::Ends(Source::Cut(code)),
    }
}

/// Whether the filters accepted the body.
fn is_accepted(sieve: &Sieve) -> bool
    ensures accepted { result ≡ true → end_of sieve.now ≡ body_end.Accepted }
    ensures other { result ≡ false → end_of sieve.now ≢ body_end.Accepted }
{
    match sieve.end() {
        BodyEnd::Accepted => true,
        BodyEnd::Open | BodyEnd::Whole | BodyEnd::Cut => false,
    }
}

/// Lets the filters give what they can into an empty array, and behind all of an accepted body its trailers.
fn sift_into(sieve: &mut Sieve, to: &mut Arena) -> Came
    requires sieve { IsSieve to.old.size sieve.old }
    requires empty { to.old.blocks ≡ [] }
    ensures comes { Comes result to.old.size sieve.old sieve.new to.new.blocks }
    ensures sieve { IsSieve to.old.size sieve.new }
    ensures size { to.new.size ≡ to.old.size }
{
    if is_accepted(sieve) {
        sieve.add_section(to);
        return Came::Ends(Source::Whole);
    }
    came_by(sieve.sift(to))
}

/// The same where there may be no filters.
pub(crate) fn sift(sieve: &mut Option<Sieve>, to: &mut Arena) -> Came
    requires sieve { SieveFits to.old.size sieve.old }
    requires empty { to.old.blocks ≡ [] }
    ensures comes { ComesBy result to.old.size sieve.old sieve.new to.new.blocks }
    ensures sieve { SieveFits to.old.size sieve.new }
    ensures size { to.new.size ≡ to.old.size }
{
    match sieve {
        None => Came::Waits,
        Some(sieve) => sift_into(sieve, to),
    }
}
