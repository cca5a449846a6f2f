//! An environment in memory, for tests of what stands on `Env`.
ghost use Rattle.std.specs.Prelude.{◌≡◌, ◌<◌, ◌^◌, ◌∷◌, [], length, map, drop, slice_get, option_map};
ghost use Rattle.px_sample.specs.Sample.{value_in, within};
ghost use Rattle.px_expr.specs.MemEnv.{value_of, samples_in};

use px_sample::{Buf, Env, Fetch, Place, Sample};

/// A sample that is handed in.
#[derive(Clone, Copy)]
pub enum Given<'a> {
    Absent,
    Truth(bool),
    Number(i64),
    Bytes(&'a [u8]),
}

/// Gives the same samples for each fetch of a message, and what they say for `str`, `int`, `bool`, `always_true`
/// and `always_false`.
#[derive(Drop)]
pub struct MemEnv<'a> {
    /// The samples of a fetch of a message.
    pub given: &'a [Given<'a>],
    ghost few: { length given.now < 2 ^ 32 },
}

/// The one sample of a fetch that says its own.
fn one(given: Given<'_>, nth: u32) -> Option<Given<'_>>
    ensures { option_map value_of result ≡ slice_get (value_of given.entry ∷ []) nth }
{
    if nth == 0 { Some(given) } else { None }
}

/// Hands over a sample.
fn hand(given: Given<'_>, into: &mut Buf) -> Sample
    ensures value { value_in result into.new.bytes ≡ within into.old.cap (value_of given.entry) }
    ensures cap { into.new.cap ≡ into.old.cap }
{
    match given {
        Given::Absent => Sample::Absent,
        Given::Truth(truth) => Sample::Truth(truth),
        Given::Number(number) => Sample::Number(number),
        Given::Bytes(bytes) => {
            into.clear();
            if into.push(bytes) {
                Sample::InBuf
            } else {
                Sample::Absent
            }
        }
    }
}

/// The sample of this number of those that are handed in.
fn nth_given<'b>(given: &[Given<'b>], nth: u32) -> Option<Given<'b>>
    ensures { option_map value_of result ≡ slice_get (map value_of given.now) nth }
{
    match given.get(nth as usize) {
        Some(given) => Some(*given),
        None => None,
    }
}

impl MemEnv<'_> {
    /// What there is of this number.
    fn nth_of<'b>(&'b self, fetch: &'b Fetch, nth: u32) -> Option<Given<'b>>
        ensures { option_map value_of result ≡ slice_get (samples_in self.now.given.now fetch.now) nth }
    {
        match fetch {
            Fetch::Str(text) => one(Given::Bytes(text.as_slice()), nth),
            Fetch::Int(number) => one(Given::Number(*number), nth),
            Fetch::Bool(truth) => one(Given::Truth(*truth), nth),
            Fetch::AlwaysTrue => one(Given::Truth(true), nth),
            Fetch::AlwaysFalse => one(Given::Truth(false), nth),
            _ => nth_given(self.given, nth),
        }
    }
}

impl Env for MemEnv<'_> {
    ghost samples = { λ env fetch. samples_in env.given.now fetch };

    ghost left = { λ env fetch place. drop place.at (samples_in env.given.now fetch) };

    fn fetch(&self, fetch: &Fetch, nth: u32, into: &mut Buf) -> Option<Sample> {
        match self.nth_of(fetch, nth) {
            Some(given) => Some(hand(given, into)),
            None => None,
        }
    }

    fn start(&self, _: &Fetch) -> Place {
        Place { at: 0, within: 0 }
    }

    fn next(&self, fetch: &Fetch, place: &mut Place, into: &mut Buf) -> Option<Sample> {
        match self.nth_of(fetch, place.at) {
            Some(given) => {
                place.at += 1;
                Some(hand(given, into))
            }
            None => None,
        }
    }
}
