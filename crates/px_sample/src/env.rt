//! What gives the samples of fetches.
ghost use Rattle.std.specs.Prelude.{◌≡◌, ◌^◌, ◌<◌, List, Option, option_map, length, drop, slice_get, IfNone};
ghost use Rattle.px_sample.specs.Sample.{Value, value_in, within};
ghost use Rattle.px_sample.specs.Fetched.{all_within, last_of};
ghost use Rattle.px_sample.specs.declared.fetch.Fetch.{Fetch};
ghost use Rattle.px_sample.specs.declared.place.Place.{Place};

use crate::{Buf, Fetch, Place, Sample};

/// What gives samples: a message, the method, the variables.
pub trait Env {
    /// The samples of a fetch, in the order in which a condition tries them. An expression takes the last.
    ghost samples: { Self → Fetch → List (Option Value) };

    /// Those of them that are left at a place.
    ghost left: { Self → Fetch → Place → List (Option Value) };

    /// The sample of this number, counted from 0. None past the last, and then the buffer is unchanged. A
    /// sample of more bytes than the buffer holds is absent.
    fn fetch(&self, fetch: &Fetch, nth: u32, into: &mut Buf) -> Option<Sample>
        ensures given { option_map (λ sample. value_in sample into.new.bytes) result ≡ slice_get (all_within into.old.cap (samples self.now fetch.now)) nth }
        ensures past { IfNone result (into.new ≡ into.old) }
        ensures cap { into.new.cap ≡ into.old.cap }
        ensures few { length (samples self.now fetch.now) < 2 ^ 32 };

    /// The place of the first sample.
    fn start(&self, fetch: &Fetch) -> Place
        ensures { left self.now fetch.now result ≡ samples self.now fetch.now };

    /// The sample at a place, which moves on to the next one: so a walk goes over a message once. None past the last. A
    /// sample of more bytes than the buffer holds is absent.
    fn next(&self, fetch: &Fetch, place: &mut Place, into: &mut Buf) -> Option<Sample>
        ensures given { option_map (λ sample. value_in sample into.new.bytes) result ≡ slice_get (all_within into.old.cap (left self.now fetch.now place.old)) 0 }
        ensures past { IfNone result (into.new ≡ into.old) }
        ensures left { left self.now fetch.now place.new ≡ drop 1 (left self.now fetch.now place.old) }
        ensures cap { into.new.cap ≡ into.old.cap };

    /// The last of the samples, which an expression takes; absent where there is none.
    fn last(&self, fetch: &Fetch, into: &mut Buf) -> Sample
        ensures value { value_in result into.new.bytes ≡ within into.old.cap (last_of (samples self.now fetch.now)) }
        ensures cap { into.new.cap ≡ into.old.cap }
    {
        let mut place = self.start(fetch);
        let mut last = Sample::Absent;
        'samples: loop {
            match self.next(fetch, &mut place, into) {
                Some(sample) => last = sample,
                None => return last,
            }
        }
    }
}
