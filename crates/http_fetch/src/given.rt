//! What the samples of a fetch are made of.
ghost use Rattle.std.specs.Prelude.{◌≡◌, [], None, drop, slice_get, option_map};
ghost use Rattle.px_sample.specs.Fetched.{last_of};
ghost use Rattle.http_fetch.specs.Fetches.{header_samples, one};
ghost use Rattle.http_fetch.specs.Found.{value_of, read_named};
ghost use Rattle.http_fetch.specs.Walk.{field_of, read_left, left_of, given_samples, given_field, given_left};

use crate::found::{Found, bytes_or_absent};
use crate::headers::{Reading, at, from_last, next_of, nth_of};
use htx_arena::Arena;
use px_sample::Place;

/// Each value of a field, or one sample.
#[derive(Clone, Copy)]
pub(crate) enum Given<'a> {
    Field(Reading, &'a [u8]),
    One(Found<'a>),
}

/// The samples of a field: each value, or with a number the value of that number alone.
pub(crate) fn of_header<'a>(
    reading: Reading,
    msg: &'a Arena,
    name: &'a [u8],
    occurrence: Option<i64>,
) -> Given<'a>
    ensures all { given_samples msg.now.blocks result ≡ header_samples (read_named reading name.now msg.now.blocks) occurrence }
    ensures field { given_field result ≡ field_of reading name.now occurrence }
{
    match occurrence {
        Some(occurrence) => Given::One(bytes_or_absent(at(reading, msg, name, occurrence))),
        None => Given::Field(reading, name),
    }
}

/// The one sample of a fetch.
fn only(found: Found<'_>, nth: u32) -> Option<Found<'_>>
    ensures { option_map value_of result ≡ slice_get (one (value_of found.entry)) nth }
{
    if nth == 0 { Some(found) } else { None }
}

/// The sample of this number.
pub(crate) fn nth_given<'a>(given: Given<'a>, msg: &'a Arena, nth: u32) -> Option<Found<'a>>
    ensures { option_map value_of result ≡ slice_get (given_samples msg.now.blocks given.entry) nth }
{
    match given {
        Given::Field(reading, name) => match nth_of(reading, msg, name, nth) {
            Some(value) => Some(Found::Bytes(value)),
            None => None,
        },
        Given::One(found) => only(found, nth),
    }
}

/// The last sample.
pub(crate) fn last_given<'a>(given: Given<'a>, msg: &'a Arena) -> Found<'a>
    ensures { value_of result ≡ last_of (given_samples msg.now.blocks given.entry) }
{
    match given {
        Given::Field(reading, name) => bytes_or_absent(from_last(reading, msg, name, 0)),
        Given::One(found) => found,
    }
}

/// The value of a field at a place, which moves on.
fn next_in_field<'a>(
    reading: Reading,
    name: &[u8],
    msg: &'a Arena,
    place: &mut Place,
) -> Option<Found<'a>>
    ensures given { option_map value_of result ≡ slice_get (header_samples (read_left reading name.now msg.now.blocks place.old) None) 0 }
    ensures left { header_samples (read_left reading name.now msg.now.blocks place.new) None ≡ drop 1 (header_samples (read_left reading name.now msg.now.blocks place.old) None) }
{
    match next_of(reading, msg, name, *place) {
        Some((value, behind)) => {
            *place = behind;
            Some(Found::Bytes(value))
        }
        None => None,
    }
}

/// The one sample, where the walk has not begun; the place is behind all afterwards.
fn next_only<'a>(found: Found<'a>, place: &mut Place) -> Option<Found<'a>>
    ensures given { option_map value_of result ≡ slice_get (left_of None [] (one (value_of found.entry)) place.old) 0 }
    ensures left { left_of None [] (one (value_of found.entry)) place.new ≡ drop 1 (left_of None [] (one (value_of found.entry)) place.old) }
{
    if place.at != 0 {
        return None;
    }
    *place = Place {
        at: u32::MAX,
        within: 0,
    };
    Some(found)
}

/// The sample at a place, which moves on.
pub(crate) fn next_given<'a>(
    given: Given<'a>,
    msg: &'a Arena,
    place: &mut Place,
) -> Option<Found<'a>>
    ensures given { option_map value_of result ≡ slice_get (given_left msg.now.blocks given.entry place.old) 0 }
    ensures left { given_left msg.now.blocks given.entry place.new ≡ drop 1 (given_left msg.now.blocks given.entry place.old) }
{
    match given {
        Given::Field(reading, name) => next_in_field(reading, name, msg, place),
        Given::One(found) => next_only(found, place),
    }
}
