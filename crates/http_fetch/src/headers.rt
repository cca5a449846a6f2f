//! The values of header fields.
ghost use Rattle.std.specs.Prelude.{◌≡◌, ◌∷◌, [], length, slice_get, option_map, MatchOption};
ghost use Rattle.header_ops.specs.Walk.{from_back};
ghost use Rattle.http_fetch.specs.Fetches.{at_occurrence};
ghost use Rattle.http_fetch.specs.Found.{read_named};
ghost use Rattle.http_fetch.specs.Walk.{read_left};

use crate::place::passed_before;
use header_ops::{
    ValuePlace, full_from_back, next_full, next_value, nth_full, nth_value, value_from_back,
};
use htx_arena::Arena;
use px_sample::Place;

/// Whether a field is a list of values, or one whole value.
#[derive(Clone, Copy)]
pub(crate) enum Reading {
    Values,
    Wholes,
}

/// The value at an index.
pub(crate) fn nth_of<'a>(reading: Reading, msg: &'a Arena, name: &[u8], n: u32) -> Option<&'a [u8]>
    ensures { option_map (λ value. value.now) result ≡ slice_get (read_named reading name.now msg.now.blocks) n }
{
    match reading {
        Reading::Values => nth_value(msg, name, n),
        Reading::Wholes => nth_full(msg, name, n),
    }
}

/// The value at an index from the last on.
pub(crate) fn from_last<'a>(
    reading: Reading,
    msg: &'a Arena,
    name: &[u8],
    n: u32,
) -> Option<&'a [u8]>
    ensures { option_map (λ value. value.now) result ≡ from_back (read_named reading name.now msg.now.blocks) n }
{
    match reading {
        Reading::Values => value_from_back(msg, name, n),
        Reading::Wholes => full_from_back(msg, name, n),
    }
}

/// The value of a number.
#[tactic(auto, using(crate::proofs::Places::counted))]
pub(crate) fn at<'a>(
    reading: Reading,
    msg: &'a Arena,
    name: &[u8],
    occurrence: i64,
) -> Option<&'a [u8]>
    ensures { option_map (λ value. value.now) result ≡ at_occurrence occurrence (read_named reading name.now msg.now.blocks) }
{
    let _len = msg.len();
    let _load = msg.load();
    match passed_before(occurrence) {
        Some(passed) => {
            if occurrence > 0 {
                nth_of(reading, msg, name, passed)
            } else {
                from_last(reading, msg, name, passed)
            }
        }
        None => None,
    }
}

/// The value at a place, and the place of the next one.
pub(crate) fn next_of<'a>(
    reading: Reading,
    msg: &'a Arena,
    name: &[u8],
    place: Place,
) -> Option<(&'a [u8], Place)>
    ensures { MatchOption result
        (read_left reading name.now msg.now.blocks place ≡ [])
        (λ found. read_left reading name.now msg.now.blocks place ≡ found.0.now ∷ read_left reading name.now msg.now.blocks found.1) }
{
    match reading {
        Reading::Values => {
            let from = ValuePlace {
                at: place.at,
                within: place.within,
            };
            match next_value(msg, name, from) {
                Some((value, behind)) => {
                    Some((
                        value,
                        Place {
                            at: behind.at,
                            within: behind.within,
                        },
                    ))
                }
                None => None,
            }
        }
        Reading::Wholes => match next_full(msg, name, place.at) {
            Some((value, at)) => Some((value, Place { at, within: 0 })),
            None => None,
        },
    }
}
