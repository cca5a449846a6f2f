//! The values of a field that holds a list: what stands between its commas, without blanks.
ghost use Rattle.std.specs.Prelude.{◌≡◌, ◌≤◌, ◌<◌, ◌+◌, [], ◌∷◌, length, take, drop, map, All};
ghost use Rattle.std.specs.Iterator.{YieldsFirstBy, YieldsFirstRef, item_count};
ghost use Rattle.px_bytes.specs.Values.{next_place, pieces_of, values_of, placed_values, value_at, seen, LiesIn};

use crate::blanks::{blanks_in_front, trim, trim_behind};
use std::marker::Model;

/// Where a byte of a field stands: outside of double quotes, inside, or behind a backslash inside.
#[derive(Clone, Copy)]
pub enum Place {
    Outside,
    Quoted,
    Escaped,
}

/// The place behind a byte that separates nothing.
#[inline]
fn place_after(place: Place, byte: u8) -> Place
    ensures { result ≡ next_place place byte }
{
    match place {
        Place::Outside => {
            if byte == b'"' {
                Place::Quoted
            } else {
                Place::Outside
            }
        }
        Place::Quoted => {
            if byte == b'"' {
                Place::Outside
            } else if byte == b'\\' {
                Place::Escaped
            } else {
                Place::Quoted
            }
        }
        Place::Escaped => Place::Quoted,
    }
}

/// How long the first piece of a field is. A comma follows it, or nothing does.
fn piece_len(bytes: &[u8]) -> usize
    ensures within { result ≤ length bytes.now }
    ensures more { result < length bytes.now → pieces_of bytes.now ≡ take result bytes.now ∷ pieces_of (drop (result + 1) bytes.now) }
    ensures last { length bytes.now ≤ result → pieces_of bytes.now ≡ bytes.now ∷ [] }
{
    let mut place = Place::Outside;
    for (i, byte) in bytes.iter().enumerate() {
        if place == Place::Outside && *byte == b',' {
            return i;
        }
        place = place_after(place, *byte);
    }
    bytes.len()
}

/// The first value of a field, and how many bytes it takes with the blanks around it and the comma behind. Where they are more than
/// the field has, no comma follows and there is no other value; else the others are the values of the bytes behind.
pub fn first_value(bytes: &[u8]) -> (&[u8], usize)
    ensures more { result.1 ≤ length bytes.now → values_of bytes.now ≡ result.0.now ∷ values_of (drop result.1 bytes.now) }
    ensures last { length bytes.now < result.1 → values_of bytes.now ≡ result.0.now ∷ [] }
    ensures some { 0 < result.1 }
    ensures within { result.1 ≤ length bytes.now + 1 }
{
    let len = piece_len(bytes);
    (trim(&bytes[..len]), len + 1)
}

/// The values of a field in turn, each with its offset in the field.
pub struct ValueIndices<'a> {
    field: &'a [u8],
    /// Where the next piece begins; behind the end of the field once none is left.
    next: usize,
}

impl Drop for ValueIndices<'_> {
    fn drop(self) {
        let ValueIndices { field: _, next: _ } = self;
    }
}

impl<'a> Model for ValueIndices<'a> {
    ghost use Rattle.std.specs.Prelude.{List, ℕ};
    ghost use Rattle.px_bytes.specs.Values.{placed_after};

    ghost Value = { List (ℕ × List ℕ) };

    ghost view = { λ it. placed_after it.field.now it.next };
}

/// The values of a field in turn, each with its offset in the field: where its first byte is, or where
/// the blanks of its piece end if it is empty. The values are those of [`values`].
pub fn value_indices(bytes: &[u8]) -> ValueIndices<'_>
    ensures placed { result ≡ placed_values bytes.now }
    ensures values { map value_at (placed_values bytes.now) ≡ values_of bytes.now }
    ensures lie { All (LiesIn bytes.now) (placed_values bytes.now) }
    ensures few { length (placed_values bytes.now) ≤ length bytes.now + 1 }
{
    ValueIndices {
        field: bytes,
        next: 0,
    }
}

impl<'a> Iterator for ValueIndices<'a> {
    type Item = (usize, &'a [u8]);

    ghost next_gives = { YieldsFirstBy seen (λ it. it) };

    ghost remaining = { item_count (λ it. it) };

    fn next(&mut self) -> Option<(usize, &'a [u8])> {
        let field = self.field;
        let from = self.next;
        if from > field.len() {
            return None;
        }
        let rest = &field[from..];
        let len = piece_len(rest);
        self.next = from + len + 1;
        let piece = &rest[..len];
        let blanks = blanks_in_front(piece);
        Some((from + blanks, trim_behind(&piece[blanks..])))
    }
}

/// The values of a field in turn.
pub struct ValueIter<'a> {
    placed: ValueIndices<'a>,
}

impl Drop for ValueIter<'_> {
    fn drop(self) {
        let ValueIter { placed: _ } = self;
    }
}

impl<'a> Model for ValueIter<'a> {
    ghost use Rattle.std.specs.Prelude.{List, ℕ, map};
    ghost use Rattle.px_bytes.specs.Values.{value_at};

    ghost Value = { List (List ℕ) };

    ghost view = { λ it. map value_at it.placed };
}

/// The values of a field that holds a list, in turn (RFC 9110, sections 5.6.1 and 5.6.4). Commas
/// separate them, except inside double quotes, where a backslash escapes one byte; a quote without end
/// runs to the end. Spaces and tabs around a value are left out. An empty value is a value, so an empty
/// field has one.
pub fn values(bytes: &[u8]) -> ValueIter<'_>
    ensures values { result ≡ values_of bytes.now }
    ensures few { length (values_of bytes.now) ≤ length bytes.now + 1 }
{
    ValueIter {
        placed: value_indices(bytes),
    }
}

impl<'a> Iterator for ValueIter<'a> {
    type Item = &'a [u8];

    ghost next_gives = { YieldsFirstRef (λ it. it) };

    ghost remaining = { item_count (λ it. it) };

    fn next(&mut self) -> Option<&'a [u8]> {
        match self.placed.next() {
            Some((_, value)) => Some(value),
            None => None,
        }
    }
}
